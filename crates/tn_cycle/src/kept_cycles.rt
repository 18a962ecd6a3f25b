//! Cycles and new labels, read off the search over kept labels.

ghost use Rattle.std.specs.Prelude.{◌≡◌, ◌≢◌, ℕ, ◌+◌, ◌-◌, ◌*◌, ◌^◌, ◌<◌, ◌≤◌, ◌⊎◌, ℤ, pos, ◌+ℤ◌, ◌-ℤ◌, ◌≤ℤ◌, true, false, Some, None, length, take};
ghost use Rattle.std.specs.Option.{ForSome};
ghost use Rattle.tn_base.specs.Arcs.{IsAtMost};
ghost use Rattle.tn_base.specs.Walks.{KeepsArcs, KeepsArcsEntering, arcs_among, is_admitted, is_looked_at};
ghost use Rattle.tn_base.specs.Widths.{most_cost};
ghost use Rattle.tn_cycle.specs.Answers.{AnswersCycle, AnswersLeast, AnswersThrough, AreLabels, AreNear, arc_count, cost_of, is_labelled, label_in};
ghost use Rattle.tn_cycle.specs.Cells.{HasRoom, cell_at};
ghost use Rattle.tn_cycle.specs.Kept.{AreRaised, IsCycleRead, IsLifted, IsLiftedBy, IsRaised, KeepsArcsAvoiding, KeepsArcsOff, flag_at, negated_if};
ghost use Rattle.tn_cycle.specs.Reading.{IsListable};
ghost use Rattle.tn_cycle.specs.Widths.{label_step, most_graph_nodes, most_label, most_walk_cost};

use crate::answer::Path;
use crate::cell::Cell;
use crate::graphs::{Admitted, Looked, Sunk, Turned};
use crate::kept::{Sought, is_capped, search_kept};
use crate::labels::{lowest_cost, write_labels};
use crate::read::list_way;
use tn_base::Costs;

/// Which cycles through a node are sought.
#[derive(Clone, Copy)]
pub enum Cycles {
    /// Those of negative cost. The node's label isn't known yet.
    Negative,
    /// All, whatever they cost. The node's label is kept too.
    All,
}

/// The walk of a node to itself, where it has one that costs less than the cap. Its nodes then stand at the front of
/// `path`.
fn read_cycle(row: &[Cell], node: u32, cap: Option<i128>, path: &mut [u32]) -> Path
    requires inside { node < length row.now }
    requires short { length path.old ≤ 2 ^ 31 }
    requires listable { IsListable (length path.old) row.now node }
    ensures { IsCycleRead (cell_at row.now) node cap (take (arc_count result) path.new) result }
{
    let own = row[node as usize];
    match own.cost {
        Some(cost) if !is_capped(cap, cost) => Path::Cycle {
            cost,
            length: list_way(row, node, node, path),
        },
        _ => Path::None,
    }
}

/// The greater of a number and another one that may not be there.
fn greater_of(first: Option<i128>, second: i128) -> i128
    ensures first { (b : ℤ) → first ≡ Some b → b ≤ℤ result }
    ensures second { second ≤ℤ result }
    ensures one { (first ≡ Some result) ⊎ (result ≡ second) }
{
    match first {
        Some(first) => first.max(second),
        None => second,
    }
}

/// What a cost lacks to a number.
fn lack(number: i128, cost: i128) -> i128
    requires number { IsAtMost number (3 * most_label) }
    requires cost { IsAtMost cost most_walk_cost }
    ensures { result ≡ number -ℤ cost }
{
    number - cost
}

/// A number and a cost.
fn gain(number: i128, cost: i128) -> i128
    requires number { IsAtMost number (2 * most_label) }
    requires cost { IsAtMost cost most_walk_cost }
    ensures { result ≡ number +ℤ cost }
{
    number + cost
}

/// A label, raised to what a cost lacks to the limit, but for that of one node.
fn raised(v: usize, node: usize, label: i128, cost: Option<i128>, limit: i128) -> i128
    requires cost { ForSome cost (λ w. IsAtMost w most_walk_cost) }
    requires limit { IsAtMost limit (3 * most_label) }
    ensures own { v ≡ node → result ≡ label }
    ensures others { v ≢ node → IsRaised label cost limit result }
{
    match cost {
        Some(cost) if v != node => label.max(lack(limit, cost)),
        _ => label,
    }
}

/// Raises the labels of all nodes but one to what the costs of their walks lack to the limit.
fn raise(labels: &mut [i128], row: &[Cell], node: u32, limit: i128)
    requires sized { length labels.old ≤ length row.now }
    requires short { length labels.old < 2 ^ 31 }
    requires room { HasRoom (length labels.old) (cell_at row.now) }
    requires near { AreNear (2 * most_label) labels.old }
    requires limit { IsAtMost limit (3 * most_label) }
    ensures { AreRaised (length labels.old) node (label_in labels.old) (cell_at row.now) limit (label_in labels.new) }
{
    for v in 0..labels.len() {
        let own = row[v];
        labels[v] = raised(v, node as usize, labels[v], own.cost, limit);
    }
}

/// A least cycle through a node that costs less than the cap, over labels that keep the arcs but those that end at the
/// node. The labels are raised to what the costs of walks to the node lack to its own and the cost of the cycle.
fn find_kept<C: Costs>(
    costs: &C,
    node: u32,
    cap: Option<i128>,
    labels: &mut [i128],
    waits: &mut [bool],
    row: &mut [Cell],
    path: &mut [u32],
    places: &mut [u32],
) -> Path
    requires sized { C.node_count costs.now ≤ length row.old }
    requires waits_sized { C.node_count costs.now ≤ length waits.old }
    requires path_sized { C.node_count costs.now + 1 ≤ length path.old }
    requires spaced { length row.old ≤ length places.old }
    requires labels_sized { length labels.old ≡ C.node_count costs.now }
    requires short { length path.old ≤ 2 ^ 31 }
    requires few { C.node_count costs.now ≤ most_graph_nodes }
    requires inside { node < C.node_count costs.now }
    requires near { AreNear (most_label + most_cost) labels.old }
    requires shut { flag_at waits.old node ≡ false }
    requires covers { (v u : ℕ) (cost : ℤ) → v ≢ node → C.arc costs.now v u ≡ Some cost → flag_at waits.old v ≡ true }
    requires keeps { KeepsArcsOff (C.arc costs.now) node (label_in labels.old) }
    ensures negative { cap ≡ Some (pos 0)
        → AnswersCycle (C.arc costs.now) node (take (arc_count result) path.new) result }
    ensures least { cap ≡ None → AnswersLeast (C.arc costs.now) node (take (arc_count result) path.new) result }
    ensures few_arcs { arc_count result ≤ C.node_count costs.now }
    ensures keeps { cap ≡ Some (pos 0) ⊎ cap ≡ None
        → KeepsArcsEntering (C.arc costs.now) node (label_in labels.new node +ℤ cost_of result) (label_in labels.new) }
    ensures near { (reach : ℕ) → AreNear reach labels.old
        → AreNear (reach + 2 * (C.node_count costs.now * most_cost)) labels.new }
{
    let base = labels[node as usize];
    search_kept(
        costs,
        node,
        Sought::Cycle(cap),
        labels,
        waits,
        row,
        path,
        places,
    );
    let found = read_cycle(row, node, cap, path);
    raise(labels, row, node, gain(base, found.cost()));
    found
}

/// The greater of a number that was found so far and what a cost lacks to the label of a node, but for one node.
fn lifted(least: Option<i128>, v: u32, node: u32, label: i128, cost: Option<i128>) -> Option<i128>
    requires label { IsAtMost label (3 * most_label) }
    requires cost { ForSome cost (λ c. IsAtMost c most_walk_cost) }
    ensures own { v ≡ node → result ≡ least }
    ensures others { v ≢ node → IsLiftedBy least label cost result }
{
    match cost {
        Some(cost) if v != node => Some(greater_of(least, lack(label, cost))),
        _ => least,
    }
}

/// A label, or its negative.
pub(crate) fn negated_if(label: i128, negates: bool) -> i128
    requires { IsAtMost label (3 * most_label) }
    ensures { result ≡ negated_if negates label }
{
    if negates { -label } else { label }
}

/// The least number that keeps the arcs that begin at a node, by the labels of the others or their negatives. None
/// where none does.
fn least_number<C: Costs>(costs: &C, node: u32, labels: &[i128], negates: bool) -> Option<i128>
    requires labels_sized { length labels.now ≡ C.node_count costs.now }
    requires inside { node < C.node_count costs.now }
    requires near { AreNear most_label labels.now }
    ensures keeps { IsLifted (C.arc costs.now) node (λ v. negated_if negates (label_in labels.now v)) result }
    ensures near { (reach : ℕ) → AreNear reach labels.now → ForSome result (λ p. IsAtMost p (reach + most_cost)) }
{
    let mut least = None;
    for k in 0..costs.successors(node) {
        let v = costs.successor(node, k);
        let label = negated_if(labels[v as usize], negates);
        least = lifted(least, v, node, label, costs.cost(node, v));
    }
    least
}

/// A label for a node that keeps the arcs that begin at it: the least one, or where none begins, the greatest that
/// keeps those that end at it, so that no other label need be raised.
fn node_label<C: Costs>(costs: &C, node: u32, labels: &[i128]) -> i128
    requires labels_sized { length labels.now ≡ C.node_count costs.now }
    requires inside { node < C.node_count costs.now }
    requires near { AreNear most_label labels.now }
    ensures keeps { (v : ℕ) (cost : ℤ) → v ≢ node → C.arc costs.now node v ≡ Some cost
        → label_in labels.now v ≤ℤ (result +ℤ cost) }
    ensures near { (reach : ℕ) → AreNear reach labels.now → IsAtMost result (reach + most_cost) }
{
    match least_number(costs, node, labels, false) {
        Some(label) => label,
        None => negated_if(
            least_number(&Turned { costs }, node, labels, true).unwrap_or(0),
            true,
        ),
    }
}

/// Whether the labels of its begin and its end break an arc, where there is one.
fn is_broken(begin: i128, cost: Option<i128>, end: i128) -> bool
    requires begin { IsAtMost begin (2 * most_label) }
    requires cost { ForSome cost (λ c. IsAtMost c most_walk_cost) }
    ensures { (c : ℤ) → result ≡ false → cost ≡ Some c → end ≤ℤ (begin +ℤ c) }
{
    match cost {
        Some(cost) => gain(begin, cost) < end,
        None => false,
    }
}

/// Whether the labels break an arc that ends at a node.
fn break_into<C: Costs>(costs: &C, node: u32, labels: &[i128]) -> bool
    requires labels_sized { length labels.now ≡ C.node_count costs.now }
    requires inside { node < C.node_count costs.now }
    requires near { AreNear (most_label + most_cost) labels.now }
    ensures { (u : ℕ) (cost : ℤ) → result ≡ false → C.arc costs.now u node ≡ Some cost
        → label_in labels.now node ≤ℤ (label_in labels.now u +ℤ cost) }
{
    let end = labels[node as usize];
    for k in 0..costs.predecessors(node) {
        let v = costs.predecessor(node, k);
        if is_broken(labels[v as usize], costs.cost(v, node), end) {
            return true;
        }
    }
    false
}

/// A least cycle through a node whose label isn't known yet, where one is negative, over labels that keep the arcs
/// among the other nodes. The node gets a label that keeps the arcs that begin at it. Where that keeps those that end
/// at it too, there is nothing to search for; otherwise all labels are raised.
pub(crate) fn find_added<C: Costs>(
    costs: &C,
    node: u32,
    labels: &mut [i128],
    waits: &mut [bool],
    row: &mut [Cell],
    path: &mut [u32],
    places: &mut [u32],
) -> Path
    requires sized { C.node_count costs.now ≤ length row.old }
    requires waits_sized { C.node_count costs.now ≤ length waits.old }
    requires path_sized { C.node_count costs.now + 1 ≤ length path.old }
    requires spaced { length row.old ≤ length places.old }
    requires labels_sized { length labels.old ≡ C.node_count costs.now }
    requires short { length path.old ≤ 2 ^ 31 }
    requires few { C.node_count costs.now ≤ most_graph_nodes }
    requires inside { node < C.node_count costs.now }
    requires near { AreNear most_label labels.old }
    requires shut { flag_at waits.old node ≡ false }
    requires covers { (v u : ℕ) (cost : ℤ) → v ≢ node → C.arc costs.now v u ≡ Some cost → flag_at waits.old v ≡ true }
    requires keeps { KeepsArcsAvoiding (C.arc costs.now) node (label_in labels.old) }
    ensures answer { AnswersCycle (C.arc costs.now) node (take (arc_count result) path.new) result }
    ensures few_arcs { arc_count result ≤ C.node_count costs.now }
    ensures keeps { KeepsArcsEntering (C.arc costs.now) node (label_in labels.new node +ℤ cost_of result)
        (label_in labels.new) }
    ensures near { (reach : ℕ) → AreNear reach labels.old
        → AreNear (reach + label_step (C.node_count costs.now)) labels.new }
{
    labels[node as usize] = node_label(costs, node, labels);
    if break_into(costs, node, labels) {
        find_kept(costs, node, Some(0), labels, waits, row, path, places)
    } else {
        Path::None
    }
}

/// Finds a least cycle through a node, of those that are sought. Its nodes then stand at the front of `path`.
pub(crate) fn cycle_kept<C: Costs, const W: usize>(
    looked: &Looked<'_, C, W>,
    cycles: Cycles,
    labels: &mut [i128],
    waits: &mut [bool],
    row: &mut [Cell],
    path: &mut [u32],
    places: &mut [u32],
) -> Path
    requires labels_sized { length labels.old ≡ looked.now.among.null + 1 }
    requires sized { length labels.old ≤ length row.old }
    requires waits_sized { length labels.old ≤ length waits.old }
    requires path_sized { length labels.old + 1 ≤ length path.old }
    requires spaced { length row.old ≤ length places.old }
    requires short { length path.old ≤ 2 ^ 31 }
    requires few { length labels.old ≤ most_graph_nodes }
    requires trade { looked.now.node < looked.now.among.null }
    requires near { AreNear most_label labels.old }
    requires keeps { KeepsArcs
        (arcs_among (is_labelled cycles looked.now.among.null looked.now.node looked.now.among.admitted.now)
        (C.arc looked.now.among.costs.now)) (label_in labels.old) }
    ensures answer { AnswersThrough cycles
        (arcs_among (is_looked_at looked.now.among.null looked.now.node looked.now.among.admitted.now)
        (C.arc looked.now.among.costs.now)) looked.now.node (take (arc_count result) path.new) result }
    ensures few_arcs { arc_count result ≤ length labels.old }
    ensures keeps { KeepsArcsEntering
        (arcs_among (is_looked_at looked.now.among.null looked.now.node looked.now.among.admitted.now)
        (C.arc looked.now.among.costs.now)) looked.now.node (label_in labels.new looked.now.node +ℤ cost_of result)
        (label_in labels.new) }
    ensures near { (reach : ℕ) → AreNear reach labels.old
        → AreNear (reach + label_step (length labels.old)) labels.new }
{
    looked.mark_others(waits);
    match cycles {
        Cycles::Negative => find_added(looked, looked.node, labels, waits, row, path, places),
        Cycles::All => find_kept(looked, looked.node, None, labels, waits, row, path, places),
    }
}

/// Labels at most 0 that keep the arcs, by labels that do. The nodes that arcs lead between are marked by `waits`: no
/// other one is gone over.
pub(crate) fn relabel_kept<C: Costs>(
    costs: &C,
    labels: &mut [i128],
    waits: &mut [bool],
    row: &mut [Cell],
    path: &mut [u32],
    places: &mut [u32],
)
    requires labels_sized { length labels.old ≡ C.node_count costs.now }
    requires sized { C.node_count costs.now + 1 ≤ length row.old }
    requires waits_sized { length waits.old ≡ C.node_count costs.now + 1 }
    requires path_sized { C.node_count costs.now + 1 ≤ length path.old }
    requires spaced { length row.old ≤ length places.old }
    requires marked { (u v : ℕ) (cost : ℤ) → C.arc costs.now u v ≡ Some cost → (flag_at waits.old u ≡ true)
        × (flag_at waits.old v ≡ true) }
    requires few { C.node_count costs.now ≤ most_graph_nodes }
    requires near { AreNear most_label labels.old }
    requires keeps { KeepsArcs (C.arc costs.now) (label_in labels.old) }
    ensures { AreLabels (C.node_count costs.now) (C.arc costs.now) labels.new }
{
    let sink = costs.nodes();
    waits[sink as usize] = false;
    search_kept(
        &Sunk { costs, sink },
        sink,
        Sought::Walks,
        labels,
        waits,
        row,
        path,
        places,
    );
    write_labels(row, lowest_cost(row, sink), labels);
}

/// The same on a graph of which no part is known to have no arcs.
pub(crate) fn relabel_all<C: Costs>(
    costs: &C,
    labels: &mut [i128],
    waits: &mut [bool],
    row: &mut [Cell],
    path: &mut [u32],
    places: &mut [u32],
)
    requires labels_sized { length labels.old ≡ C.node_count costs.now }
    requires sized { C.node_count costs.now + 1 ≤ length row.old }
    requires waits_sized { length waits.old ≡ C.node_count costs.now + 1 }
    requires path_sized { C.node_count costs.now + 1 ≤ length path.old }
    requires spaced { length row.old ≤ length places.old }
    requires few { C.node_count costs.now ≤ most_graph_nodes }
    requires near { AreNear most_label labels.old }
    requires keeps { KeepsArcs (C.arc costs.now) (label_in labels.old) }
    ensures { AreLabels (C.node_count costs.now) (C.arc costs.now) labels.new }
{
    waits.fill(true);
    relabel_kept(costs, labels, waits, row, path, places);
}

/// The same on the admitted trades and the null node alone.
pub(crate) fn relabel_among<C: Costs, const W: usize>(
    among: &Admitted<'_, C, W>,
    labels: &mut [i128],
    waits: &mut [bool],
    row: &mut [Cell],
    path: &mut [u32],
    places: &mut [u32],
)
    requires labels_sized { length labels.old ≡ among.now.null + 1 }
    requires sized { length labels.old + 1 ≤ length row.old }
    requires waits_sized { length waits.old ≡ length labels.old + 1 }
    requires path_sized { length labels.old + 1 ≤ length path.old }
    requires spaced { length row.old ≤ length places.old }
    requires few { length labels.old ≤ most_graph_nodes }
    requires near { AreNear most_label labels.old }
    requires keeps { KeepsArcs (arcs_among (is_admitted among.now.null among.now.admitted.now)
        (C.arc among.now.costs.now)) (label_in labels.old) }
    ensures { AreLabels (among.now.null + 1) (arcs_among (is_admitted among.now.null among.now.admitted.now)
        (C.arc among.now.costs.now)) labels.new }
{
    among.mark_nodes(waits);
    relabel_kept(among, labels, waits, row, path, places);
}
