//! Lots that cost no more than an arc of a graph may.

ghost use Rattle.std.specs.Prelude.{◌≡◌, ◌*◌, ◌≤◌, true};
ghost use Rattle.tn_base.specs.Arcs.{IsAtMost};
ghost use Rattle.tn_links.specs.Links.{AddAtMost};
ghost use Rattle.tn_links.specs.Lots.{LinksAddAtMost};
ghost use Rattle.tn_base.specs.Widths.{most_cost};

use crate::link::Step;
use crate::links::Links;

/// An arc costs at most so much, in size.
const MOST_COST: u128 = 1_000_000_000_000_000_000;

/// The larger one of a size and that of what a unit adds.
fn larger(most: u64, each: i64) -> u64
    ensures own { IsAtMost each result }
    ensures before { most ≤ result }
{
    most.max(each.unsigned_abs())
}

/// The largest size of what a unit of the steps adds, and of one before.
fn most_added(steps: &[Step], before: u64) -> u64
    ensures own { AddAtMost result steps.now }
    ensures before { before ≤ result }
{
    let mut most = before;
    for step in steps {
        most = larger(most, step.each);
    }
    most
}

/// The largest size of what a unit adds.
pub(crate) fn most_of(links: &Links) -> u64
    ensures { LinksAddAtMost result links.now.links.items }
{
    let mut most = 0;
    for j in 0..links.links.len() {
        let link = &links.links[j];
        most = most_added(&link.steps, most);
    }
    most
}

/// Whether a lot of units, none of which adds more than this, costs no more than an arc of a graph may.
pub(crate) fn is_light(most: u64, lot: u32) -> bool
    ensures { result ≡ true → lot * most ≤ most_cost }
{
    u128::from(lot) * u128::from(most) <= MOST_COST
}
