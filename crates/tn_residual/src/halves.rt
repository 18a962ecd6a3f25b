//! The trades of a residual market.

ghost use Rattle.std.specs.Prelude.{◌≡◌, ◌++◌, ◌<◌, ◌≤◌, All, IfOk, length};
ghost use Rattle.tn_market.specs.Limits.{IsOutcomeOf, IsWithinLimits};
ghost use Rattle.tn_model.specs.Limits.{most_firms, most_trades};
ghost use Rattle.tn_model.specs.Network.{IsNetwork};
ghost use Rattle.tn_residual.specs.Residual.{bought_from, halves_from, residual_trades, sold_to, unsigned_from};
ghost use Rattle.tn_market.specs.NetworkOf.{network_of};

use crate::signed::contract_price;
use std::alloc::Global;
use tn_base::OutOfMemory;
use tn_market::{Ends, Market, Outcome, Valuation};

/// The trades without a contract, in order. It fails only where memory runs out.
fn free_trades<V: Valuation>(
    alloc: Global,
    market: &Market<V>,
    outcome: &Outcome,
) -> Result<Vec<Ends>, OutOfMemory>
    ensures { IfOk result (λ trades. trades.items ≡ unsigned_from outcome.now.contracts 0 market.now.trades) }
{
    let mut trades = Vec::new(alloc);
    for t in 0..market.trades() {
        if contract_price(&outcome.contracts, t).is_none() {
            trades.push(market.ends(t))?;
        }
    }
    Ok(trades)
}

/// The trade on which the seller of a trade sells to firm `outside`.
fn sold_to(outside: u32, trade: Ends) -> Ends
    ensures { result ≡ sold_to outside trade }
{
    Ends {
        buyer: outside,
        at_buyer: 0,
        ..trade
    }
}

/// The trade on which firm `outside` sells to the buyer of a trade.
fn bought_from(outside: u32, trade: Ends) -> Ends
    ensures { result ≡ bought_from outside trade }
{
    Ends {
        seller: outside,
        at_seller: 1,
        ..trade
    }
}

/// Adds the two trades of each contract with a firm outside the market, from firm number `firms` on. It fails only
/// where memory runs out.
fn add_halves<V: Valuation>(
    trades: &mut Vec<Ends>,
    market: &Market<V>,
    outcome: &Outcome,
    firms: u32,
) -> Result<(), OutOfMemory>
    requires few_firms { firms ≤ most_firms }
    requires known { All (λ contract. contract.trade < length market.now.trades) outcome.now.contracts }
    requires few { length outcome.now.contracts ≤ most_trades }
    ensures { IfOk result (λ done. trades.new.items ≡ trades.old.items
        ++ halves_from market.now.trades firms outcome.now.contracts) }
{
    for c in 0..outcome.contracts.len() {
        let outside = firms + c as u32;
        let trade = market.ends(outcome.contracts.at(c).trade);
        trades.push(sold_to(outside, trade))?;
        trades.push(bought_from(outside, trade))?;
    }
    Ok(())
}

/// The trades of the residual market: the unsigned ones, and then two for each contract. It fails only where memory
/// runs out.
pub fn all_trades<V: Valuation>(
    alloc: Global,
    market: &Market<V>,
    outcome: &Outcome,
) -> Result<Vec<Ends>, OutOfMemory>
    requires limits { IsWithinLimits V.firm V.limit market.now }
    requires outcome { IsOutcomeOf market.now.trades outcome.now.over outcome.now.contracts }
    ensures trades { IfOk result (λ trades. trades.items
        ≡ residual_trades (length market.now.firms) market.now.trades outcome.now.contracts) }
    ensures network { network_of V.firm market.now IsNetwork }
{
    let firms = market.firms();
    let mut trades = free_trades(alloc, market, outcome)?;
    add_halves(&mut trades, market, outcome, firms)?;
    Ok(trades)
}
