//! From least walks to the range of a trade.

ghost use Rattle.std.specs.Prelude.{◌≡◌, ◌<◌, neg_ℤ, length, option_map, IfOk, IfSome};
ghost use Rattle.tn_base.specs.Arcs.{IsAtMost};
ghost use Rattle.tn_cycle.specs.Answers.{distance_in, walk_in};
ghost use Rattle.tn_cycle.specs.Widths.{most_read};
ghost use Rattle.tn_range.specs.Shown.{KeepsWalks, range_by, said_walk};

use std::alloc::Global;
use tn_base::OutOfMemory;
use tn_cycle::Finder;
use tn_market::{Nodes, Range, said_nodes};

/// The nodes of the walk that a finder has found for a trade, none where there is no walk. It fails only where memory
/// runs out.
fn walk_from(alloc: Global, finder: &mut Finder, t: u32, null: u32) -> Result<Nodes, OutOfMemory>
    requires { t < length finder.old.distances }
    ensures nodes { IfOk result (λ nodes. nodes ≡ said_walk null (distance_in finder.old t) (walk_in finder.old t)) }
    ensures walks { KeepsWalks finder.old finder.new }
{
    if finder.distance(t).is_none() {
        return Ok(Nodes::from_vec(Vec::new(alloc)));
    }
    finder.walk(t);
    said_nodes(alloc, finder.listed(), null)
}

/// The negative of a cost, if there is one.
fn negated(cost: Option<i128>) -> Option<i128>
    requires { IfSome cost (λ c. IsAtMost c most_read) }
    ensures { result ≡ option_map neg_ℤ cost }
{
    match cost {
        Some(cost) => Some(-cost),
        None => None,
    }
}

/// The range of a trade, where one finder has found the least walks from the null node and the other those to it. It
/// fails only where memory runs out.
pub(crate) fn range_of(
    alloc: Global,
    from_null: &mut Finder,
    to_null: &mut Finder,
    t: u32,
    null: u32,
) -> Result<Range, OutOfMemory>
    requires from_found { t < length from_null.old.distances }
    requires to_found { t < length to_null.old.distances }
    requires small { IfSome (distance_in to_null.old t) (λ c. IsAtMost c most_read) }
    ensures range { IfOk result (λ range. range ≡ range_by null from_null.old to_null.old t) }
    ensures from_walks { KeepsWalks from_null.old from_null.new }
    ensures to_walks { KeepsWalks to_null.old to_null.new }
{
    Ok(Range {
        low: negated(to_null.distance(t)),
        low_path: walk_from(alloc, to_null, t, null)?,
        high: from_null.distance(t),
        high_path: walk_from(alloc, from_null, t, null)?,
    })
}
