//! What is made of the nodes of a cycle.

ghost use Rattle.std.specs.Prelude.{◌≡◌, ℕ, ◌≤◌, ◌<◌, false, length, nat_lt, slice_get, IfOk, Some};
ghost use Rattle.tn_base.specs.Walks.{AreDifferent};
ghost use Rattle.tn_chain.specs.Limits.{most_judged_trades};
ghost use Rattle.tn_chain.specs.Listed.{AreAtNodes, HasNodes, IsBegin};
ghost use Rattle.tn_chain.specs.Numbers.{toggled_if};
ghost use Rattle.tn_model.specs.Prices.{price_at};
ghost use Rattle.tn_market.specs.Signed.{is_signed};
ghost use Rattle.tn_residual.specs.Residual.{number_from};

use crate::numbers::number_of;
use std::alloc::Global;
use tn_base::{OutOfMemory, TradeSet};
use tn_cycle::Finder;
use tn_flow::Solver;
use tn_market::{Contract, Contracts};

/// Moves a node in or out if it is a trade.
fn toggle_trade(set: &mut TradeSet<16>, node: u32, null: u32)
    requires few { null ≤ most_judged_trades }
    ensures { set.new ≡ toggled_if (nat_lt node null) set.old node }
{
    if node < null {
        set.toggle(node);
    }
}

/// The trades among the `count` nodes that a finder lists.
pub fn listed_trades(finder: &Finder, count: u32, null: u32) -> TradeSet<16>
    requires few { null ≤ most_judged_trades }
    requires counted { count ≡ length finder.now.listed }
    requires different { AreDifferent finder.now.listed }
    ensures { HasNodes null finder.now.listed count result }
{
    let mut trades = TradeSet::empty();
    for k in 0..count {
        toggle_trade(&mut trades, finder.at(k), null);
    }
    trades
}

/// The contract on an unsigned trade at the price that a solver has for its number.
fn contract_on(solver: &Solver<32>, contracts: &Contracts, t: u32) -> Contract
    requires few { t < most_judged_trades }
    requires free { is_signed contracts.now t ≡ false }
    requires priced { number_from contracts.now 0 t < length solver.now.prices }
    ensures trade { result.trade ≡ t }
    ensures price { result.price ≡ price_at solver.now.prices (number_from contracts.now 0 t) }
{
    let number = number_of(contracts, t).unwrap();
    Contract {
        trade: t,
        price: solver.price(number),
    }
}

/// The contracts on the listed nodes from `first` on, at the prices of a solver. It fails only where memory runs out.
pub fn contracts_at(
    alloc: Global,
    finder: &Finder,
    first: u32,
    count: u32,
    solver: &Solver<32>,
    contracts: &Contracts,
) -> Result<Contracts, OutOfMemory>
    requires counted { count ≡ length finder.now.listed }
    requires order { first ≤ count }
    requires few { (k v : ℕ) → first ≤ k → slice_get finder.now.listed k ≡ Some v → v < most_judged_trades }
    requires free { (k v : ℕ) → first ≤ k → slice_get finder.now.listed k ≡ Some v → is_signed contracts.now v ≡ false }
    requires priced { (k v : ℕ) → first ≤ k → slice_get finder.now.listed k ≡ Some v
        → number_from contracts.now 0 v < length solver.now.prices }
    ensures { IfOk result (AreAtNodes contracts.now solver.now.prices finder.now.listed first count) }
{
    let mut made = Vec::with_capacity(alloc, (count - first) as usize)?;
    for k in first..count {
        made.push(contract_on(solver, contracts, finder.at(k)))?;
    }
    Ok(Contracts::from_vec(made))
}

/// Where the trades of a listed cycle begin: after null, where it begins with that.
pub fn first_trade(finder: &Finder, null: u32) -> u32
    requires { 0 < length finder.now.listed }
    ensures { IsBegin null finder.now.listed result }
{
    if finder.at(0) == null { 1 } else { 0 }
}
