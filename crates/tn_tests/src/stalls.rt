//! Two stalls that trade with each other, and outcomes between them.

ghost use Rattle.std.specs.Prelude.{◌≡◌, pos, if◌then◌else◌, length, IfOk, [], ◌∷◌};
ghost use Rattle.tn_market.specs.Limits.{IsOutcomeOf};
ghost use Rattle.tn_tests.specs.Stall.{trade_between};

use std::alloc::Global;
use tn_base::{Asked, Bundle, OutOfMemory, Side, Steps};
use tn_market::{Contract, Contracts, Ends, Market, Oracle, Outcome, Valuation};

/// An amount, if it counts.
fn counted(counts: bool, amount: i128) -> i128
    ensures { result ≡ (if counts then amount else pos 0) }
{
    if counts { amount } else { 0 }
}

/// A stall that may buy one thing for 3, at position 0, and sell another for 5, at position 1.
#[derive(Clone, Copy)]
pub(crate) struct Stall;

impl Valuation for Stall {
    type Mark = Asked;

    ghost use Rattle.tn_tests.specs.Stall.{stall};
    ghost use Rattle.tn_tests.specs.StallLemmas.{stall-lawful};

    ghost firm = { λ _. stall };

    ghost limit = { λ _. 8 };

    fn trades(&self) -> u32 {
        2
    }

    #[tactic(auto, unfolding(tn_base::specs::Sets::has))]
    fn side(&self, k: u32) -> Side {
        if k == 0 { Side::Buy } else { Side::Sell }
    }

    fn bound(&self) -> i128 {
        8
    }

    fn value(&self, x: Bundle, steps: &mut Steps<Asked>) -> Option<i128> {
        steps.tick();
        Some(counted(x.has(0), -3) + counted(x.has(1), 5))
    }

    ghost lawful = { λ _. stall-lawful };
}

impl Oracle for Stall {}

/// A trade between two stalls.
pub(crate) fn ends(seller: u32, buyer: u32) -> Ends
    ensures { result ≡ trade_between seller buyer }
{
    Ends {
        seller,
        buyer,
        at_seller: 1,
        at_buyer: 0,
    }
}

/// Two stalls, of which each sells what the other buys.
pub(crate) fn two_stalls(alloc: Global) -> Result<Market<Stall>, OutOfMemory>
    ensures firms { IfOk result (λ market. market.firms ≡ record {} ∷ record {} ∷ []) }
    ensures trades { IfOk result (λ market. market.trades ≡ trade_between 0 1 ∷ trade_between 1 0 ∷ []) }
    ensures two_firms { IfOk result (λ market. length market.firms ≡ 2) }
    ensures two_trades { IfOk result (λ market. length market.trades ≡ 2) }
{
    let firms = vec![in alloc; Stall, Stall]?;
    let trades = vec![in alloc; ends(0, 1), ends(1, 0)]?;
    Market::new(alloc, firms, trades)
}

/// Nothing is signed.
pub(crate) fn nothing_signed(alloc: Global) -> Outcome
    ensures { IsOutcomeOf (trade_between 0 1 ∷ trade_between 1 0 ∷ []) result.over result.contracts }
{
    Outcome {
        over: 1,
        contracts: Contracts::from_vec(Vec::new(alloc)),
    }
}

/// The first stall has sold to the second at 4.
pub(crate) fn sold_at_4(alloc: Global) -> Result<Outcome, OutOfMemory>
    ensures outcome { IfOk result (λ outcome. IsOutcomeOf (trade_between 0 1 ∷ trade_between 1 0 ∷ []) outcome.over
        outcome.contracts) }
    ensures over { IfOk result (λ outcome. outcome.over ≡ pos 1) }
{
    let contracts = vec![in alloc; Contract { trade: 0, price: 4 }]?;
    Ok(Outcome {
        over: 1,
        contracts: Contracts::from_vec(contracts),
    })
}

/// Each stall has sold to the other at -4.
pub(crate) fn both_sold(alloc: Global) -> Result<Outcome, OutOfMemory>
    ensures { IfOk result (λ outcome. IsOutcomeOf (trade_between 0 1 ∷ trade_between 1 0 ∷ []) outcome.over
        outcome.contracts) }
{
    let contracts = vec![in alloc;
        Contract {
            trade: 0,
            price: -4
        },
        Contract {
            trade: 1,
            price: -4
        },
    ]?;
    Ok(Outcome {
        over: 1,
        contracts: Contracts::from_vec(contracts),
    })
}
