//! Labels less one of them.

ghost use Rattle.std.specs.Prelude.{◌≡◌, ℕ, ◌+◌, ◌<◌, pos, ◌-ℤ◌, length, slice_index_or};
ghost use Rattle.tn_base.specs.Arcs.{IsAtMost};
ghost use Rattle.tn_cycle.specs.Answers.{label_in};
ghost use Rattle.tn_cycle.specs.Widths.{most_read};

use crate::finder::Finder;

/// The label of a node less that of another, where the last search found labels.
pub fn label_less(finder: &Finder, v: u32, null: u32) -> i128
    requires node { v < length finder.now.labels }
    requires last { null < length finder.now.labels }
    requires small { (t : ℕ) → t < length finder.now.labels → IsAtMost (label_in finder.now.labels t) most_read }
    ensures { result ≡ label_in finder.now.labels v -ℤ label_in finder.now.labels null }
{
    finder.label(v) - finder.label(null)
}

/// Writes, for each of the first `count` nodes, its label less that of the node after them: where that is the null node
/// of an exchange graph, these are the prices of the trades.
pub fn write_differences(finder: &Finder, into: &mut Vec<i128>, count: u32)
    requires counted { length into.old.items ≡ count }
    requires labelled { length finder.now.labels ≡ count + 1 }
    requires small { (t : ℕ) → t < length finder.now.labels → IsAtMost (label_in finder.now.labels t) most_read }
    ensures one_each { length into.new.items ≡ count }
    ensures each { (t : ℕ) → t < count → slice_index_or into.new.items t (pos 0) ≡ label_in finder.now.labels t
        -ℤ label_in finder.now.labels count }
{
    for t in 0..count {
        into[t as usize] = label_less(finder, t, count);
    }
}
