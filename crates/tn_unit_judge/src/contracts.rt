//! Whether contracts are ones that are judged.

ghost use Rattle.std.specs.Prelude.{◌≡◌, ◌<◌, ◌≤◌, length, true, false, IfOk};
ghost use Rattle.tn_base.specs.Arcs.{IsAtMost};
ghost use Rattle.tn_counts.specs.Widths.{most_unit_price};
ghost use Rattle.tn_tree.specs.Lists.{count_in};
ghost use Rattle.tn_unit_judge.specs.Served.{AreServedContracts};

use crate::completions::{all_units, take_off};
use std::alloc::Global;
use tn_base::OutOfMemory;
use tn_counts::{UnitContract, UnitTrade};

/// There are at most so many contracts.
const MOST_CONTRACTS: usize = 4_096;

/// A price is at most so much, in size.
const MOST_PRICE: i128 = 200_000_000_000;

/// Whether the price of a contract is small.
fn has_small_price(contract: &UnitContract) -> bool
    ensures yes { result ≡ true → IsAtMost contract.now.price most_unit_price }
    ensures no { result ≡ false → IsAtMost contract.now.price most_unit_price → ⊥ }
{
    -MOST_PRICE <= contract.price && contract.price <= MOST_PRICE
}

/// Whether as many units of its trade are left.
fn is_left(free: &[u32], contract: &UnitContract) -> bool
    ensures known { result ≡ true → contract.now.trade < length free.now }
    ensures within { result ≡ true → contract.now.units ≤ count_in free.now contract.now.trade }
    ensures no { result ≡ false → contract.now.trade < length free.now
        → contract.now.units ≤ count_in free.now contract.now.trade → ⊥ }
{
    let at = contract.trade as usize;
    at < free.len() && contract.units <= free[at]
}

/// Whether contracts are ones that are judged: at most 4,096 on trades of the market, in sum at most with their units, at
/// prices of at most 2 * 10^11 in size. It fails only where memory runs out.
pub fn are_served_contracts(
    alloc: Global,
    trades: &[UnitTrade],
    contracts: &[UnitContract],
) -> Result<bool, OutOfMemory>
    ensures yes { IfOk result (λ served. served ≡ true → AreServedContracts trades.now contracts.now) }
    ensures no { IfOk result (λ served. served ≡ false → AreServedContracts trades.now contracts.now → ⊥) }
{
    if contracts.len() > MOST_CONTRACTS {
        return Ok(false);
    }
    let mut free = all_units(alloc, trades)?;
    for contract in contracts {
        if !has_small_price(contract) || !is_left(&free, contract) {
            return Ok(false);
        }
        take_off(&mut free, contract);
    }
    Ok(true)
}
