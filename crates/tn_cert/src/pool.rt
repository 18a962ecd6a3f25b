//! Contracts of a claim and of an outcome over one denominator.

ghost use Rattle.std.specs.Prelude.{◌≡◌, ◌++◌, ◌≤◌, pos, ◌*ℤ◌, ◌≤ℤ◌, All, IfOk};
ghost use Rattle.tn_base.specs.Arcs.{IsAtMost};
ghost use Rattle.tn_model.specs.Choices.{counted, together};
ghost use Rattle.tn_model.specs.Limits.{most_claimed_over, most_number};

use std::alloc::Global;
use tn_base::OutOfMemory;
use tn_market::{Contract, Contracts, Outcome};

/// A contract with its price counted so many times.
fn counted_contract(times: i128, contract: Contract) -> Contract
    requires least { pos 0 ≤ℤ times }
    requires most { times ≤ℤ pos most_claimed_over }
    requires small { IsAtMost contract.price most_number }
    ensures trade { result.trade ≡ contract.trade }
    ensures price { result.price ≡ times *ℤ contract.price }
{
    Contract {
        trade: contract.trade,
        price: times * contract.price,
    }
}

/// Adds contracts with their prices counted so many times. It fails only where memory runs out.
fn add_counted(
    pool: &mut Vec<Contract>,
    times: i128,
    contracts: &Contracts,
) -> Result<(), OutOfMemory>
    requires least { pos 0 ≤ℤ times }
    requires most { times ≤ℤ pos most_claimed_over }
    requires small { All (λ contract. IsAtMost contract.price most_number) contracts.now }
    ensures { IfOk result (λ _. pool.new.items ≡ pool.old.items ++ counted times contracts.now) }
{
    for k in 0..contracts.len() {
        pool.push(counted_contract(times, contracts.at(k)))?;
    }
    Ok(())
}

/// Offers over a denominator, and after them the contracts of an outcome, all over the product of the denominators. It
/// fails only where memory runs out.
pub(crate) fn together(
    alloc: Global,
    over: i128,
    offers: &Contracts,
    outcome: &Outcome,
) -> Result<Contracts, OutOfMemory>
    requires over_least { pos 0 ≤ℤ over }
    requires over_most { over ≤ℤ pos most_claimed_over }
    requires outcome_least { pos 0 ≤ℤ outcome.now.over }
    requires outcome_most { outcome.now.over ≤ℤ pos most_claimed_over }
    requires small_offers { All (λ contract. IsAtMost contract.price most_number) offers.now }
    requires small_outcome { All (λ contract. IsAtMost contract.price most_number) outcome.now.contracts }
    ensures { IfOk result (λ pool. pool ≡ together over offers.now outcome.now.over outcome.now.contracts) }
{
    let mut pool = Vec::new(alloc);
    add_counted(&mut pool, outcome.over, offers)?;
    add_counted(&mut pool, over, &outcome.contracts)?;
    Ok(Contracts::from_vec(pool))
}
