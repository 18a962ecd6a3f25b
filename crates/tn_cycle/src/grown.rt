//! Labels of a graph of which nothing is known, grown node by node.

ghost use Rattle.std.specs.Prelude.{◌≡◌, ℕ, ◌+◌, ◌^◌, ◌<◌, ◌≤◌, length, take};
ghost use Rattle.tn_cycle.specs.Answers.{AnswersGrown, arc_count};
ghost use Rattle.tn_cycle.specs.Graphs.{is_trade_from};
ghost use Rattle.tn_cycle.specs.Kept.{flag_at};
ghost use Rattle.tn_cycle.specs.Widths.{most_graph_nodes};

use crate::answer::Path;
use crate::cell::Cell;
use crate::graphs::Part;
use crate::kept_cycles::find_added;
use tn_base::Costs;

/// Marks the trades from the first on.
fn mark_between(marks: &mut [bool], first: u32, null: u32)
    ensures { (v : ℕ) → v < length marks.old → flag_at marks.new v ≡ is_trade_from first null v }
{
    for v in 0..marks.len() {
        marks[v] = first as usize <= v && v < null as usize;
    }
}

/// Labels that keep the arcs, or a negative cycle, where some cycle is negative. Its nodes then stand at the front of
/// `path`: it begins with the null node, or it lacks that and begins with its lowest node. Labels of 0 are for no node,
/// and grow to those of the trades from one on, one more each time, and of the null node at last, so that no cycle off
/// the node that is added is negative.
pub(crate) fn grow_labels<C: Costs>(
    costs: &C,
    labels: &mut [i128],
    waits: &mut [bool],
    row: &mut [Cell],
    path: &mut [u32],
    places: &mut [u32],
) -> Path
    requires some { 1 ≤ C.node_count costs.now }
    requires sized { C.node_count costs.now ≤ length row.old }
    requires waits_sized { C.node_count costs.now ≤ length waits.old }
    requires path_sized { C.node_count costs.now + 1 ≤ length path.old }
    requires spaced { length row.old ≤ length places.old }
    requires labels_sized { length labels.old ≡ C.node_count costs.now }
    requires short { length path.old ≤ 2 ^ 31 }
    requires few { C.node_count costs.now ≤ most_graph_nodes }
    ensures answer { AnswersGrown (C.node_count costs.now) (C.arc costs.now) (take (arc_count result) path.new)
        labels.new result }
    ensures few_arcs { arc_count result ≤ C.node_count costs.now }
{
    let null = costs.nodes() - 1;
    labels.fill(0);
    for first in (0..null).rev() {
        mark_between(waits, first + 1, null);
        let part = Part { costs, null, first };
        let found = find_added(&part, first, labels, waits, row, path, places);
        if found.arcs() > 0 {
            return found;
        }
    }
    mark_between(waits, 0, null);
    find_added(costs, null, labels, waits, row, path, places)
}
