//! The answer of `solve`.

ghost use Rattle.std.specs.Prelude.{◌≡◌, ◌+◌, ◌*◌, ◌≤◌, pos, All, IfOk, IfSome, Some, length, map};
ghost use Rattle.tn_answer.specs.Kept.{IsWithinClaim, IsWithinClaims};
ghost use Rattle.tn_base.specs.Arcs.{IsAtMost};
ghost use Rattle.tn_firm.specs.Firms.{firm_of};
ghost use Rattle.tn_model.specs.Prices.{price_at};
ghost use Rattle.tn_market.specs.Equilibrium.{IsEquilibrium, surplus_of};
ghost use Rattle.tn_market.specs.Graph.{ArePossible, graph_worths};
ghost use Rattle.tn_model.specs.Network.{trades_on};
ghost use Rattle.tn_commands.specs.Solve.{Solves};
ghost use Rattle.tn_commands.specs.Limits.{AreWorthsAnswered, most_answered_trades};
ghost use Rattle.tn_model.specs.Limits.{most_price};
ghost use Rattle.tn_market.specs.NetworkOf.{network_of};

use crate::guessing::{decided, guess};
use std::alloc::Global;
use tn_base::{Asked, OutOfMemory, Steps, TradeSet};
use tn_firm::FirmValue;
use tn_flow::Solver;
use tn_market::{Arrangement, Market, Prices, TradeEnds, Trades};
use tn_price::surplus_of;
use tn_said::Said;

/// Up to so many trades an equilibrium is found by rounds alone, so that which of several efficient sets is answered
/// stays as it was.
pub(crate) const FEW_TRADES: u32 = 128;

/// The trades of a set, ascending.
pub(crate) fn trades_on(alloc: Global, on: &TradeSet<16>, count: u32) -> Result<Trades, OutOfMemory>
    requires { count ≤ most_answered_trades }
    ensures { IfOk result (λ trades. trades ≡ trades_on on.now count) }
{
    let mut trades = Vec::new(alloc);
    for t in 0..count {
        if on.has(t) {
            trades.push(t)?;
        }
    }
    Ok(Trades::from_vec(trades))
}

/// The ends of the trades of a market.
pub(crate) fn ends_of(alloc: Global, market: &Market<FirmValue>) -> Result<TradeEnds, OutOfMemory>
    ensures { IfOk result (λ ends. ends ≡ market.now.trades) }
{
    let count = market.trades();
    let mut list = Vec::with_capacity(alloc, count as usize)?;
    for t in 0..count {
        list.push(market.ends(t))?;
    }
    Ok(TradeEnds::from_vec(list))
}

/// The prices that a solver has found.
fn prices_of(alloc: Global, solver: &Solver<16>, count: u32) -> Result<Prices, OutOfMemory>
    requires { length solver.now.prices ≡ count }
    ensures { IfOk result (λ prices. prices ≡ solver.now.prices) }
{
    let mut prices = Vec::with_capacity(alloc, count as usize)?;
    for t in 0..count {
        prices.push(solver.price(t))?;
    }
    Ok(Prices::from_vec(prices))
}

/// An equilibrium of a market, found by rounds: at most a worth for each two places of each firm, once for each trade.
fn equilibrium_by_rounds(
    alloc: Global,
    market: &Market<FirmValue>,
    steps: &mut Steps<Asked>,
) -> Result<Arrangement<16>, OutOfMemory>
    requires wide { length market.now.trades ≤ most_answered_trades }
    requires worths { network_of firm_of market.now AreWorthsAnswered }
    ensures equilibrium { IfOk result
        (λ at. network_of firm_of market.now IsEquilibrium (pos 1) at.on (price_at at.prices)) }
    ensures one_each { IfOk result (λ at. length at.prices ≡ length market.now.trades) }
    ensures small { IfOk result (λ at. All (λ price. IsAtMost price most_price) at.prices) }
    ensures asked { steps.new ≤ steps.old + length market.now.trades * graph_worths (map firm_of market.now.firms) }
{
    let mut solver = Solver::<16>::with_room(alloc, market)?;
    solver.solve_in(market, steps);
    let on = *solver.on();
    let prices = prices_of(alloc, &solver, market.trades());
    drop(solver);
    Ok(Arrangement {
        on,
        prices: prices?,
    })
}

/// A guess that is an equilibrium, asked for where rounds would take long. One test is all that it asks worths for.
fn guessed(
    alloc: Global,
    market: &Market<FirmValue>,
    steps: &mut Steps<Asked>,
) -> Result<Option<Arrangement<16>>, OutOfMemory>
    requires wide { length market.now.trades ≤ most_answered_trades }
    ensures equilibrium { IfOk result (λ found. IfSome found
        (λ at. network_of firm_of market.now IsEquilibrium (pos 1) at.on (price_at at.prices))) }
    ensures one_each { IfOk result (λ found. IfSome found (λ at. length at.prices ≡ length market.now.trades)) }
    ensures small { IfOk result (λ found. IfSome found (λ at. All (λ price. IsAtMost price most_price) at.prices)) }
    ensures asked { steps.new ≤ steps.old + graph_worths (map firm_of market.now.firms) }
{
    if market.trades() <= FEW_TRADES {
        return Ok(None);
    }
    match guess(alloc, market)? {
        Some(at) => Ok(decided(market, at, steps)),
        None => Ok(None),
    }
}

/// An equilibrium of a market, guessed or found by rounds: by at most one round of worths more than there are trades.
fn equilibrium_within(
    alloc: Global,
    market: &Market<FirmValue>,
    steps: &mut Steps<Asked>,
) -> Result<Arrangement<16>, OutOfMemory>
    requires wide { length market.now.trades ≤ most_answered_trades }
    requires worths { network_of firm_of market.now AreWorthsAnswered }
    ensures equilibrium { IfOk result
        (λ at. network_of firm_of market.now IsEquilibrium (pos 1) at.on (price_at at.prices)) }
    ensures one_each { IfOk result (λ at. length at.prices ≡ length market.now.trades) }
    ensures small { IfOk result (λ at. All (λ price. IsAtMost price most_price) at.prices) }
    ensures asked { steps.new
        ≤ steps.old + (length market.now.trades + 1) * graph_worths (map firm_of market.now.firms) }
{
    match guessed(alloc, market, steps)? {
        Some(at) => Ok(at),
        None => equilibrium_by_rounds(alloc, market, steps),
    }
}

/// An equilibrium of a market.
pub(crate) fn equilibrium(
    alloc: Global,
    market: &Market<FirmValue>,
) -> Result<Arrangement<16>, OutOfMemory>
    requires wide { length market.now.trades ≤ most_answered_trades }
    requires worths { network_of firm_of market.now AreWorthsAnswered }
    ensures equilibrium { IfOk result
        (λ at. network_of firm_of market.now IsEquilibrium (pos 1) at.on (price_at at.prices)) }
    ensures one_each { IfOk result (λ at. length at.prices ≡ length market.now.trades) }
    ensures small { IfOk result (λ at. All (λ price. IsAtMost price most_price) at.prices) }
{
    equilibrium_within(alloc, market, &mut Steps::new(Asked))
}

/// The surplus of a set of trades whose bundles are possible.
pub(crate) fn surplus(market: &Market<FirmValue>, on: &TradeSet<16>) -> i128
    requires wide { length market.now.trades ≤ most_answered_trades }
    requires possible { network_of firm_of market.now ArePossible on.now }
    ensures surplus { network_of firm_of market.now surplus_of on.now ≡ Some result }
    ensures within { IsWithinClaim result }
{
    let _count = market.firms();
    match surplus_of(market, on, &mut Steps::new(Asked)) {
        Some(surplus) => surplus,
        None => unreachable!(),
    }
}

/// An equilibrium of a market, with its surplus. There are at most 1,024 trades, and worths are small enough for so many.
pub fn answer_solve(alloc: Global, market: &Market<FirmValue>) -> Result<Said, OutOfMemory>
    requires wide { length market.now.trades ≤ most_answered_trades }
    requires worths { network_of firm_of market.now AreWorthsAnswered }
    ensures answer { IfOk result (network_of firm_of market.now Solves) }
    ensures within { IfOk result IsWithinClaims }
{
    let at = equilibrium(alloc, market)?;
    let surplus = surplus(market, &at.on);
    let ends = ends_of(alloc, market)?;
    Ok(Said::Solved {
        on: trades_on(alloc, &at.on, market.trades())?,
        prices: at.prices,
        surplus,
        ends,
    })
}
