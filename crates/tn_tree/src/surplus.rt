//! The surplus of given counts.

ghost use Rattle.std.specs.Prelude.{◌≡◌, ℕ, ◌<◌, ℤ, length, get_or, true, false, Some, None, IfOk};
ghost use Rattle.tn_counts.specs.Counts.{AreCounts, count_surplus};
ghost use Rattle.tn_counts.specs.Laminar.{firms_of};
ghost use Rattle.tn_counts.specs.Markets.{IsUnitMarket};
ghost use Rattle.tn_tree.specs.Held.{IsSmall};
ghost use Rattle.tn_tree.specs.Lists.{count_in};

use crate::build::links_of;
use crate::flow::flow_of;
use crate::solve::constants;
use crate::worths::worths_by;
use std::alloc::Global;
use tn_base::OutOfMemory;
use tn_counts::UnitMarket;

/// Whether a worth isn't none.
fn is_there(worth: Option<i128>) -> bool
    ensures yes { result ≡ true → (value : ℤ) × (worth ≡ Some value) }
    ensures no { result ≡ false → worth ≡ None }
{
    match worth {
        Some(_) => true,
        None => false,
    }
}

/// Whether no worth is none.
fn are_there(worths: &[Option<i128>]) -> bool
    ensures yes { result ≡ true → (f : ℕ) → f < length worths.now → (worth : ℤ) × (get_or worths.now f None ≡ Some worth) }
    ensures no { result ≡ false → (f : ℕ) × (f < length worths.now) × (get_or worths.now f None ≡ None) }
{
    for f in 0..worths.len() {
        if !is_there(worths[f]) {
            return false;
        }
    }
    true
}

/// The sum of the firms' worths of counts, None where the counts are impossible for one of them. It fails only where
/// memory runs out.
#[tactic(auto, using(tn_counts::proofs::WideLemmas::wide_market))]
pub fn surplus_of(
    alloc: Global,
    market: &UnitMarket,
    counts: &[u32],
) -> Result<Option<i128>, OutOfMemory>
    requires market { IsUnitMarket market.now }
    requires counted { length counts.now ≡ length market.now.trades.items }
    requires within { AreCounts market.now.trades.items (count_in counts.now) }
    ensures surplus { IfOk result (λ surplus. surplus ≡ count_surplus (firms_of market.now) (count_in counts.now)) }
    ensures small { IfOk result IsSmall }
{
    let links = links_of(alloc, market, &[])?;
    let worths = worths_by(alloc, market, &links, counts, counts)?;
    if !are_there(&worths) {
        return Ok(None);
    }
    let levels = flow_of(alloc, market, &[], &links, counts)?;
    Ok(Some(links.gain(&levels) + constants(&market.sets)))
}
