//! Walks read off what a search knows of the nodes.

ghost use Rattle.std.specs.Prelude.{◌≡◌, ◌+◌, ◌<◌, ◌≤◌, ◌^◌, length, take, reverse};
ghost use Rattle.tn_cycle.specs.Cells.{cell_at};
ghost use Rattle.tn_cycle.specs.Reading.{IsListable, walk_nodes, way};

use crate::cell::Cell;

/// Lists the nodes of the walk from `v` to `end` that the cells lead along, both ends among them, and gives the number
/// of its arcs.
pub(crate) fn list_way(row: &[Cell], v: u32, end: u32, path: &mut [u32]) -> u32
    requires inside { v < length row.now }
    requires short { length path.old ≤ 2 ^ 31 }
    requires listable { IsListable (length path.old) row.now v }
    ensures nodes { take (result + 1) path.new ≡ way end (cell_at row.now) v }
    ensures arcs { result ≡ (cell_at row.now v).inner_nodes + 1 }
{
    let count = row[v as usize].inner_nodes;
    let mut at = v;
    for k in 0..count {
        path[k as usize] = at;
        at = row[at as usize].next;
    }
    path[count as usize] = at;
    path[count as usize + 1] = end;
    count + 1
}

/// Lists the nodes of the walk of `v`, its two ends among them, from `v` on or turned round, and gives their number.
pub(crate) fn list_walk(row: &[Cell], v: u32, end: u32, turns: bool, path: &mut [u32]) -> u32
    requires inside { v < length row.now }
    requires short { length path.old ≤ 2 ^ 31 }
    requires listable { IsListable (length path.old) row.now v }
    ensures nodes { take result path.new ≡ walk_nodes turns end (cell_at row.now) v }
    ensures count { result ≡ (cell_at row.now v).inner_nodes + 2 }
{
    let count = list_way(row, v, end, path) + 1;
    if turns {
        path[..count as usize].reverse();
    }
    count
}
