//! Least walks over labels.

ghost use Rattle.std.specs.Prelude.{◌≡◌, ℕ, ◌^◌, ◌<◌, ◌≤◌, length};
ghost use Rattle.tn_base.specs.Walks.{KeepsArcs};
ghost use Rattle.tn_cycle.specs.Answers.{AreNear, label_in};
ghost use Rattle.tn_cycle.specs.Cells.{cell_at};
ghost use Rattle.tn_cycle.specs.Kept.{negated_if};
ghost use Rattle.tn_cycle.specs.Searched.{IsSettled};
ghost use Rattle.tn_cycle.specs.Widths.{most_graph_nodes, most_label};

use crate::cell::Cell;
use crate::kept::{Sought, search_kept};
use crate::kept_cycles::negated_if;
use tn_base::Costs;

/// Labels, or their negatives.
pub(crate) fn sign(labels: &mut [i128], negates: bool)
    requires short { length labels.old < 2 ^ 31 }
    requires near { AreNear most_label labels.old }
    ensures { (v : ℕ) → v < length labels.old → label_in labels.new v ≡ negated_if negates (label_in labels.old v) }
{
    for v in 0..labels.len() {
        labels[v] = negated_if(labels[v], negates);
    }
}

/// Finds the least walks to a node over labels that keep the arcs.
pub(crate) fn find_walks<C: Costs>(
    costs: &C,
    node: u32,
    labels: &[i128],
    waits: &mut [bool],
    row: &mut [Cell],
    path: &mut [u32],
    places: &mut [u32],
)
    requires sized { C.node_count costs.now ≤ length row.old }
    requires waits_sized { C.node_count costs.now ≤ length waits.old }
    requires path_sized { C.node_count costs.now ≤ length path.old }
    requires spaced { length row.old ≤ length places.old }
    requires labels_sized { length labels.now ≡ C.node_count costs.now }
    requires few { C.node_count costs.now ≤ most_graph_nodes }
    requires inside { node < C.node_count costs.now }
    requires near { AreNear most_label labels.now }
    requires keeps { KeepsArcs (C.arc costs.now) (label_in labels.now) }
    ensures { IsSettled (C.node_count costs.now) (C.arc costs.now) node (cell_at row.new) }
{
    waits.fill(true);
    waits[node as usize] = false;
    search_kept(costs, node, Sought::Walks, labels, waits, row, path, places);
}
