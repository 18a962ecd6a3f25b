//! Labels read off a search from nothing.

ghost use Rattle.std.specs.Prelude.{◌≡◌, ℕ, ◌<◌, ◌≤◌, ◌^◌, pos, ◌-ℤ◌, length, unwrap_or};
ghost use Rattle.tn_base.specs.Arcs.{IsAtMost};
ghost use Rattle.tn_cycle.specs.Cells.{HasRoom, cell_at};
ghost use Rattle.tn_cycle.specs.Answers.{IsLowestCost, label_in};
ghost use Rattle.tn_cycle.specs.Widths.{most_walk_cost};

use crate::cell::Cell;

/// The lowest cost of the first cells, or 0 where none is below.
pub(crate) fn lowest_cost(row: &[Cell], nodes: u32) -> i128
    requires { nodes ≤ length row.now }
    ensures { IsLowestCost nodes (cell_at row.now) result }
{
    let mut lowest = 0;
    for v in 0..nodes {
        lowest = lowest.min(row[v as usize].cost.unwrap_or(0));
    }
    lowest
}

/// A node's label: what its cost lacks to the lowest one.
fn label(lowest: i128, cost: i128) -> i128
    requires lowest { IsAtMost lowest most_walk_cost }
    requires cost { IsAtMost cost most_walk_cost }
    ensures { result ≡ lowest -ℤ cost }
{
    lowest - cost
}

/// Writes each node's label.
pub(crate) fn write_labels(row: &[Cell], lowest: i128, labels: &mut [i128])
    requires sized { length labels.old ≤ length row.now }
    requires short { length labels.old < 2 ^ 31 }
    requires lowest { IsAtMost lowest most_walk_cost }
    requires room { HasRoom (length labels.old) (cell_at row.now) }
    ensures { (v : ℕ) → v < length labels.old → label_in labels.new v ≡ lowest
        -ℤ unwrap_or (cell_at row.now v).cost (pos 0) }
{
    for v in 0..labels.len() {
        labels[v] = label(lowest, row[v].cost.unwrap_or(0));
    }
}
