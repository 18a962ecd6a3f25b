//! What is signed, by trades of the split network.

ghost use Rattle.std.specs.Prelude.{◌≡◌, ℕ, ◌<◌, ◌≤◌, ◌++◌, pos, length, map, slice_get, Some, IfOk};
ghost use Rattle.std.specs.List.{range_with_len};
ghost use Rattle.tn_base.specs.Arcs.{IsAtMost};
ghost use Rattle.tn_links.specs.Widths.{most_each};
ghost use Rattle.tn_counts.specs.Widths.{most_unit_price};
ghost use Rattle.tn_counts.specs.declared.contract.UnitContract.{UnitContract};
ghost use Rattle.tn_unit_judge.specs.Split.{signed_counts, signed_prices};

use std::alloc::Global;
use tn_base::OutOfMemory;
use tn_counts::UnitContract;

/// The units of the contracts.
fn contract_units(alloc: Global, contracts: &[UnitContract]) -> Result<Vec<u32>, OutOfMemory>
    ensures { IfOk result (λ counts. counts.items ≡ map (λ contract. contract.units) contracts.now) }
{
    Ok(
        contracts
            .iter()
            .map(|contract| contract.units)
            .collect(alloc)?,
    )
}

/// How many units of each trade of the split network are signed: those of the contracts, and none of what is unsigned.
pub(crate) fn counts_of(
    alloc: Global,
    trades: u32,
    contracts: &[UnitContract],
) -> Result<Vec<u32>, OutOfMemory>
    ensures { IfOk result (λ counts. counts.items ≡ signed_counts trades contracts.now) }
{
    let mut counts = contract_units(alloc, contracts)?;
    for _ in 0..trades {
        counts.push(0)?;
    }
    Ok(counts)
}

/// The price of a contract.
pub(crate) fn price_of(contract: &UnitContract) -> i64
    requires { IsAtMost contract.now.price most_each }
    ensures { result ≡ contract.now.price }
{
    contract.price as i64
}

/// The prices of the contracts.
fn contract_prices(alloc: Global, contracts: &[UnitContract]) -> Result<Vec<i64>, OutOfMemory>
    requires { (k : ℕ) (contract : UnitContract) → slice_get contracts.now k ≡ Some contract
        → IsAtMost contract.price most_unit_price }
    ensures { IfOk result (λ prices. prices.items ≡ map (λ contract. contract.price) contracts.now) }
{
    let mut prices = Vec::new(alloc);
    for contract in contracts {
        prices.push(price_of(contract))?;
    }
    Ok(prices)
}

/// The prices of all trades of the split network: those of the contracts, and 0 for what is unsigned.
pub(crate) fn prices_of(
    alloc: Global,
    trades: u32,
    contracts: &[UnitContract],
) -> Result<Vec<i64>, OutOfMemory>
    requires { (k : ℕ) (contract : UnitContract) → slice_get contracts.now k ≡ Some contract
        → IsAtMost contract.price most_unit_price }
    ensures { IfOk result (λ prices. prices.items ≡ signed_prices trades contracts.now) }
{
    let mut prices = contract_prices(alloc, contracts)?;
    for _ in 0..trades {
        prices.push(0)?;
    }
    Ok(prices)
}
