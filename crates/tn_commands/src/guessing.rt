//! Guesses at an equilibrium, and what decides them. Of a guess nothing is proved: it is an answer where the test of an
//! equilibrium says so, and otherwise it is let go.

ghost use Rattle.std.specs.Prelude.{◌≡◌, ◌+◌, ◌<◌, ◌≤◌, pos, All, IfSome, length, map, true};
ghost use Rattle.tn_base.specs.Arcs.{IsAtMost};
ghost use Rattle.tn_commands.specs.Limits.{most_answered_trades};
ghost use Rattle.tn_firm.specs.Firms.{firm_of};
ghost use Rattle.tn_market.specs.Equilibrium.{IsEquilibrium};
ghost use Rattle.tn_market.specs.Graph.{graph_worths};
ghost use Rattle.tn_market.specs.NetworkOf.{network_of};
ghost use Rattle.tn_model.specs.Limits.{most_price};
ghost use Rattle.tn_model.specs.Prices.{price_at};

use std::alloc::Global;
use tn_base::{Asked, OutOfMemory, Steps, TradeSet};
use tn_firm::FirmValue;
use tn_guess::{Flow, Labels, Simplex, Sketch};
use tn_market::{Arrangement, Market, Prices, Valuation};
use tn_price::is_equilibrium;

/// The most arcs of a flow that a guess is made by.
const MOST_ARCS: u32 = 262_144;

/// The greatest price of an answer.
const MOST_PRICE: i128 = 100_000_000_000_000;

/// A set of trades and prices that may be an equilibrium, none where a firm can't be laid out as a part of a flow, or
/// where the search is given up. It asks for no worth, and fails only where memory runs out.
pub fn guess(
    alloc: Global,
    market: &Market<FirmValue>,
) -> Result<Option<Arrangement<16>>, OutOfMemory>
    requires wide { length market.now.trades ≤ most_answered_trades }
{
    let Some(flow) = flow_of(alloc, market)? else {
        return Ok(None);
    };
    let mut simplex = Simplex::new(alloc, flow)?;
    if !simplex.run() {
        return Ok(None);
    }
    arrangement_of(alloc, simplex.flow(), market.trades())
}

/// The market as a flow, none where it has no such form, or too large a one.
fn flow_of(alloc: Global, market: &Market<FirmValue>) -> Result<Option<Flow>, OutOfMemory> {
    let mut sketch = Sketch::over(Flow::of_trades(alloc, market.trades())?);
    for f in 0..market.firms() {
        if !add_firm(&mut sketch, market, f)? || sketch.flow.arcs() > MOST_ARCS {
            return Ok(None);
        }
    }
    Ok(Some(sketch.into_flow()))
}

/// Lays firm `f` out with its own trades, and answers whether it has such a form.
fn add_firm(sketch: &mut Sketch, market: &Market<FirmValue>, f: u32) -> Result<bool, OutOfMemory>
    requires { f < length market.now.firms }
{
    let firm = market.firm(f);
    if !firm.outline(sketch)? {
        return Ok(false);
    }
    for k in 0..firm.trades() {
        sketch.join(k, market.own(f, k), firm.side(k));
    }
    Ok(true)
}

/// The trades that are on in a flow of least cost, with prices for all; none where these aren't found.
fn arrangement_of(
    alloc: Global,
    flow: &Flow,
    trades: u32,
) -> Result<Option<Arrangement<16>>, OutOfMemory>
    requires { trades ≤ most_answered_trades }
{
    let mut labels = Labels::begin(alloc, flow)?;
    if !labels.settle() {
        return Ok(None);
    }
    let mut on = TradeSet::empty();
    let mut prices = Vec::with_capacity(alloc, trades as usize)?;
    for t in 0..trades {
        prices.push(labels.price(t))?;
        if flow.is_on(t) {
            on.toggle(t);
        }
    }
    let prices = Prices::from_vec(prices);
    Ok(Some(Arrangement { on, prices }))
}

/// A guess, where it is an equilibrium whose prices are within the limit of prices, one for each trade. It asks for at
/// most a worth for each two places of each firm, and takes no memory.
pub fn decided(
    market: &Market<FirmValue>,
    at: Arrangement<16>,
    steps: &mut Steps<Asked>,
) -> Option<Arrangement<16>>
    requires wide { length market.now.trades ≤ most_answered_trades }
    ensures equilibrium { IfSome result
        (λ at. network_of firm_of market.now IsEquilibrium (pos 1) at.on (price_at at.prices)) }
    ensures one_each { IfSome result (λ at. length at.prices ≡ length market.now.trades) }
    ensures small { IfSome result (λ at. All (λ price. IsAtMost price most_price) at.prices) }
    ensures asked { steps.new ≤ steps.old + graph_worths (map firm_of market.now.firms) }
{
    if at.prices.len() == market.trades() as usize
        && are_small(&at.prices)
        && is_equilibrium(market, &at, steps)
    {
        Some(at)
    } else {
        None
    }
}

/// Whether no price is above the limit of prices in size.
fn are_small(prices: &Prices) -> bool
    ensures { result ≡ true → All (λ price. IsAtMost price most_price) prices.now }
{
    for t in 0..prices.len() {
        if !is_small(prices.at(t)) {
            return false;
        }
    }
    true
}

/// Whether a price is within the limit of prices.
fn is_small(price: i128) -> bool
    ensures { result ≡ true → IsAtMost price most_price }
{
    -MOST_PRICE <= price && price <= MOST_PRICE
}
