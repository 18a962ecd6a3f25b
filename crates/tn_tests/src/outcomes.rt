//! Outcomes between two stalls, and claims about them.

ghost use Rattle.std.specs.Prelude.{List, IfOk, [], ◌∷◌};
ghost use Rattle.tn_base.specs.Firm.{Firm};
ghost use Rattle.tn_said.specs.Claim.{on_market};
ghost use Rattle.tn_said.specs.ClaimLimits.{IsClaimWithin, IsNumberWithin};
ghost use Rattle.tn_tests.specs.Stall.{trade_between};

use crate::stalls::{both_sold, ends, nothing_signed, sold_at_4, two_stalls};
use std::alloc::Global;
use tn_base::{Asked, Bundle, Costs, OutOfMemory, Steps, TradeSet};
use tn_cert::{Replayed, replay};
use tn_chain::{chain_scale, reduced_graph};
use tn_judge::{Judged, judge};
use tn_market::{Arrangement, Nodes, Prices, Valuation};
use tn_residual::{contract_price, reduced_best, residual};
use tn_said::{MarketClaim, Reason};

/// The seller keeps its contract at 4, and the buyer, to whom the thing is worth -3, drops its own. In the residual
/// market the other trade stays, and a firm outside stands between the two stalls. Twice what a worth may be among two
/// trades bounds the worths of a stall, and what 64 taxes come to.
#[test]
fn reduced_worths_of_two_stalls(rt: HostRuntime) {
    let market = two_stalls(rt.alloc()).expect(&rt, "memory");
    let outcome = sold_at_4(rt.alloc()).expect(&rt, "memory");
    let signed = contract_price(&outcome.contracts, 0);
    assert!(rt; [signed, contract_price(&outcome.contracts, 1)] == [Some(4), None]);
    let none = Bundle::empty();
    let seller = reduced_best(&market, 0, &outcome, none);
    let buyer = reduced_best(&market, 1, &outcome, none);
    assert!(rt; [seller, buyer] == [Some((Bundle::from_bits(2), 9)), Some((none, 0))]);
    let residual = residual(rt.alloc(), &market, &outcome, 2, 1).expect(&rt, "memory");
    assert!(rt; [residual.firms(), residual.trades()] == [3, 3]);
    assert!(rt;
        [residual.ends(0), residual.ends(1), residual.ends(2)]
            == [ends(1, 0), ends(0, 2), ends(2, 1)]
    );
    assert!(rt; [residual.firm(0).bound(), residual.firm(2).bound()] == [248_000_000_064, 8]);
}

/// What each stall loses by selling, by buying and by both, where nothing is signed.
#[test]
fn reduced_graph_of_two_stalls(rt: HostRuntime) {
    let market = two_stalls(rt.alloc()).expect(&rt, "memory");
    let outcome = nothing_signed(rt.alloc());
    let scale = chain_scale(&outcome.contracts, 2);
    let graph = reduced_graph(rt.alloc(), &market, &outcome).expect(&rt, "memory");
    let costs = [
        graph.cost(2, 0),
        graph.cost(0, 2),
        graph.cost(0, 1),
        graph.cost(2, 2),
    ];
    assert!(rt; (scale, costs) == (5, [Some(-5), Some(3), Some(-2), None]));
}

/// The firm that drops contracts, the bundle that it keeps, and what it gains.
fn drops_of(judged: Judged) -> Option<(u32, u64, Option<i128>)> {
    match judged {
        Judged::Drops { firm, keeps, gain } => Some((firm, keeps.bits(), gain)),
        _ => None,
    }
}

/// The prices that complete an outcome of two trades.
fn prices_of(judged: Judged) -> Option<[i128; 2]> {
    match judged {
        Judged::Completes { prices } => {
            if prices.len() == 2 {
                Some([prices.at(0), prices.at(1)])
            } else {
                None
            }
        }
        _ => None,
    }
}

/// Over what the prices of contracts that block are, and the price of the first.
fn first_blocking(judged: Judged) -> Option<(i128, i128)> {
    match judged {
        Judged::Blocks { contracts, over } => {
            if contracts.len() == 0 {
                None
            } else {
                Some((over, contracts.at(0).price))
            }
        }
        _ => None,
    }
}

/// The buyer, to whom the thing is worth -3, would drop its contract at 4, and have 7 more. With both trades at -4 each
/// stall has 2, and would keep both. Where nothing is signed each trade gains 2, so a price between -5 and -3 blocks,
/// over 5 from -24 to -16.
#[test]
fn verdicts_on_three_outcomes(rt: HostRuntime) {
    let alloc = rt.alloc();
    let market = two_stalls(alloc).expect(&rt, "memory");
    let mut steps = Steps::new(Asked);
    let outcome = sold_at_4(alloc).expect(&rt, "memory");
    let drops = drops_of(judge(alloc, &market, &outcome, &mut steps).expect(&rt, "memory"));
    let outcome = both_sold(alloc).expect(&rt, "memory");
    let prices = prices_of(judge(alloc, &market, &outcome, &mut steps).expect(&rt, "memory"));
    assert!(rt; (drops, prices) == (Some((1, 0, Some(7))), Some([-4, -4])));
    let outcome = nothing_signed(alloc);
    match first_blocking(judge(alloc, &market, &outcome, &mut steps).expect(&rt, "memory")) {
        Some((over, price)) => assert!(rt; over == 5 && -24 <= price && price <= -16),
        None => assert!(rt; false),
    }
}

/// Both trades are on at -4, an equilibrium with this surplus.
#[tactic(auto, unfolding(tn_base::specs::Sets::toggle))]
fn both_on(alloc: Global, surplus: i128) -> Result<MarketClaim, OutOfMemory>
    requires { IsNumberWithin surplus }
    ensures { IfOk result (λ claim. (firms : List Firm)
        → IsClaimWithin firms (trade_between 0 1 ∷ trade_between 1 0 ∷ []) (on_market claim)) }
{
    let mut on = TradeSet::empty();
    on.toggle(0);
    on.toggle(1);
    let prices = Prices::from_vec(vec![in alloc; -4, -4]?);
    let at = Arrangement { on, prices };
    Ok(MarketClaim::Equilibrium { at, surplus })
}

/// Trade 0 put on, from null and back, at this cost.
fn round(alloc: Global, cost: i128) -> Result<MarketClaim, OutOfMemory>
    requires { IsNumberWithin cost }
    ensures { IfOk result (λ claim. (firms : List Firm)
        → IsClaimWithin firms (trade_between 0 1 ∷ trade_between 1 0 ∷ []) (on_market claim)) }
{
    let on = TradeSet::empty();
    let nodes = Nodes::from_vec(vec![in alloc; None, Some(0)]?);
    Ok(MarketClaim::Cycle { on, nodes, cost })
}

/// What replay says of a claim about two stalls.
fn replayed(alloc: Global, claim: MarketClaim) -> Result<Replayed, OutOfMemory>
    requires { (firms : List Firm)
        → IsClaimWithin firms (trade_between 0 1 ∷ trade_between 1 0 ∷ []) (on_market claim) }
{
    let market = two_stalls(alloc)?;
    replay(alloc, &market, &claim, &mut Steps::new(Asked))
}

/// What replay says of a claim: that it is valid, or the reason against it with its number.
fn verdict_of(said: Replayed) -> Option<(&'static str, i128)> {
    match said {
        Replayed::Valid => Some(("valid", 0)),
        Replayed::Invalid(Reason::Surplus { surplus }) => Some(("surplus", surplus)),
        Replayed::Invalid(Reason::Cost { cost }) => Some(("cost", cost)),
        _ => None,
    }
}

/// What is said of the equilibrium with both trades on and this surplus.
fn both_on_replayed(
    alloc: Global,
    surplus: i128,
) -> Result<Option<(&'static str, i128)>, OutOfMemory>
    requires { IsNumberWithin surplus }
{
    let claim = both_on(alloc, surplus)?;
    Ok(verdict_of(replayed(alloc, claim)?))
}

/// What is said of the cycle that puts trade 0 on at this cost.
fn round_replayed(alloc: Global, cost: i128) -> Result<Option<(&'static str, i128)>, OutOfMemory>
    requires { IsNumberWithin cost }
{
    let claim = round(alloc, cost)?;
    Ok(verdict_of(replayed(alloc, claim)?))
}

/// In the equilibrium each stall has 2, and would do no better; in the cycle the seller loses -5 and the buyer 3.
#[test]
fn claims_are_replayed(rt: HostRuntime) {
    let alloc = rt.alloc();
    let equilibria = [both_on_replayed(alloc, 4), both_on_replayed(alloc, 5)];
    assert!(rt; equilibria == [Ok(Some(("valid", 0))), Ok(Some(("surplus", 4)))]);
    let cycles = [round_replayed(alloc, -2), round_replayed(alloc, -1)];
    assert!(rt; cycles == [Ok(Some(("valid", 0))), Ok(Some(("cost", -2)))]);
}
