//! The search over kept labels: it settles one node after another, each once, the nearest first.

ghost use Rattle.std.specs.Prelude.{◌≡◌, ◌≢◌, ℕ, ◌+◌, ◌*◌, ◌^◌, ◌<◌, ◌≤◌, ℤ, Bool, true, false, Some, None, is_some, unwrap_or, length, ◌⊎◌};
ghost use Rattle.std.specs.Option.{ForSome};
ghost use Rattle.tn_base.specs.Arcs.{IsAtMost};
ghost use Rattle.tn_base.specs.Options.{both};
ghost use Rattle.tn_base.specs.Widths.{most_cost};
ghost use Rattle.tn_cycle.specs.Answers.{AreNear, label_in};
ghost use Rattle.tn_cycle.specs.Cells.{HasRoom, cell_at};
ghost use Rattle.tn_cycle.specs.Kept.{AreOffered, AreReady, GoesOver, HasBy, IsCapped, IsCounted, IsNextToSettle, IsNotAfter, IsOffered, IsPast, IsStopped, KeepsArcsOff, cell_by, every, flag_at, is_ready, label_by, node_in_list};
ghost use Rattle.tn_cycle.specs.Queue.{AreQueued, HasKey, IsBefore, IsHeap, IsQueue};
ghost use Rattle.tn_cycle.specs.Widths.{most_graph_nodes, most_label, most_walk_cost};

use crate::cell::Cell;
use crate::queue::{Queue, is_not_after, key_at};
use tn_base::Costs;

/// What a search is for.
#[derive(Clone, Copy)]
pub enum Sought {
    /// The least walk of each node.
    Walks,
    /// The least walk from the end to itself, where it costs less than the cap, if there is one.
    Cycle(Option<i128>),
}

/// The walks of one arc, which begin at the predecessors of the end.
fn begin<C: Costs>(costs: &C, end: u32, row: &mut [Cell])
    requires sized { C.node_count costs.now ≤ length row.old }
    requires inside { end < C.node_count costs.now }
    ensures { (v : ℕ) → v < C.node_count costs.now →
        cell_at row.new v ≡ record { cost = C.arc costs.now v end; inner_nodes = 0; next = end } }
{
    row.fill(Cell {
        cost: None,
        inner_nodes: 0,
        next: end,
    });
    for k in 0..costs.predecessors(end) {
        let v = costs.predecessor(end, k);
        row[v as usize] = Cell {
            cost: costs.cost(v, end),
            inner_nodes: 0,
            next: end,
        };
    }
}

/// A walk that goes on over a settled node.
#[derive(Clone, Copy)]
struct Onward {
    /// The cost of the arc to that node, where there is one.
    first: Option<i128>,
    /// That node.
    u: u32,
    /// Its cell.
    beyond: Cell,
}

/// The cost of going on over an arc.
fn extended(first: Option<i128>, rest: Option<i128>) -> Option<i128>
    requires first { ForSome first (λ a. IsAtMost a most_cost) }
    requires rest { ForSome rest (λ a. IsAtMost a most_walk_cost) }
    ensures { result ≡ both first rest }
{
    match (first, rest) {
        (Some(first), Some(rest)) => Some(first + rest),
        _ => None,
    }
}

/// Whether a node that waits has a walk.
fn is_ready(waits: bool, own: Cell) -> bool
    ensures { result ≡ is_ready waits own }
{
    waits && own.cost.is_some()
}

/// Lists the nodes that wait and have a walk.
fn list_waiting(labels: &[i128], waits: &[bool], nodes: u32, row: &[Cell], queue: &mut Queue<'_>)
    requires near { AreNear (2 * most_label) labels.now }
    requires labelled { (v : ℕ) → v < nodes → flag_at waits.now v ≡ true → v < length labels.now }
    requires waits_sized { nodes ≤ length waits.now }
    requires sized { nodes ≤ length row.now }
    requires places { nodes ≤ length queue.old.list.now }
    requires spaced { length row.now ≤ length queue.old.places.now }
    requires few { nodes ≤ most_graph_nodes + 1 }
    requires room { HasRoom nodes (cell_at row.now) }
    ensures queued { AreQueued nodes (flag_at waits.now) labels.now row.now queue.new.list.now queue.new.places.now
        queue.new.count }
    ensures list_sized { length queue.new.list.now ≡ length queue.old.list.now }
    ensures places_sized { length queue.new.places.now ≡ length queue.old.places.now }
{
    queue.count = 0;
    for v in 0..nodes {
        if is_ready(waits[v as usize], row[v as usize]) {
            queue.push(labels, row, v);
        }
    }
}

/// Whether a cell's walk costs at most so much, and where it costs just that, has at most so many nodes inside.
fn has_by(own: Cell, cost: i128, inner_nodes: u32) -> bool
    ensures { result ≡ true → HasBy own cost inner_nodes }
{
    match own.cost {
        Some(least) => is_not_after(least, own.inner_nodes, cost, inner_nodes),
        None => false,
    }
}

/// Whether a cost reaches the cap, from which on none counts.
pub(crate) fn is_capped(cap: Option<i128>, cost: i128) -> bool
    ensures yes { result ≡ true → IsCapped cap cost }
    ensures no { result ≡ false → IsCounted cap cost }
{
    match cap {
        Some(most) => most <= cost,
        None => false,
    }
}

/// Whether no walk of this cost is sought: it is past that of the end, or past the cap, where a cycle is sought.
fn is_past(sought: Sought, own: Cell, cost: i128, inner_nodes: u32) -> bool
    ensures { result ≡ true → IsPast sought own cost inner_nodes }
{
    match sought {
        Sought::Walks => false,
        Sought::Cycle(cap) => has_by(own, cost, inner_nodes) || is_capped(cap, cost),
    }
}

/// Whether the front of the queue is to be settled. It isn't where no waiting node matters: there is none, or a cycle
/// is sought, and the front's key is past that of the end or past the cap.
fn front_counts(
    end: u32,
    base: i128,
    sought: Sought,
    labels: &[i128],
    row: &[Cell],
    queue: &Queue<'_>,
) -> bool
    requires room { queue.now.count ≤ length queue.now.list.now }
    requires keyed { (i : ℕ) → i < queue.now.count → HasKey labels.now row.now (node_in_list queue.now.list.now i) }
    requires reached { (i : ℕ) → i < queue.now.count
        → is_some (cell_at row.now (node_in_list queue.now.list.now i)).cost ≡ true }
    requires heap { IsHeap (IsBefore (label_in labels.now) (cell_at row.now)) queue.now.list.now queue.now.count }
    requires near { AreNear (2 * most_label) labels.now }
    requires last { end < length row.now }
    requires base { IsAtMost base (2 * most_label) }
    ensures yes { result ≡ true → IsNextToSettle queue.now.count base sought
        (label_by (label_in labels.now) queue.now.list.now) (cell_by (cell_at row.now) queue.now.list.now)
        (cell_at row.now end) every (Some 0) }
    ensures no { result ≡ false → IsNextToSettle queue.now.count base sought
        (label_by (label_in labels.now) queue.now.list.now) (cell_by (cell_at row.now) queue.now.list.now)
        (cell_at row.now end) every None }
{
    if queue.count == 0 {
        return false;
    }
    let front = queue.list[0];
    let key = key_at(labels, row, front);
    !is_past(
        sought,
        row[end as usize],
        key - base,
        row[front as usize].inner_nodes,
    )
}

/// Whether a walk of this cost, with so many nodes inside and this one first, is better than that of the cell.
fn improves(own: Cell, cost: i128, inner_nodes: u32, next: u32) -> bool
    ensures yes { result ≡ true → (x : ℤ) → own.cost ≡ Some x → IsNotAfter cost inner_nodes x own.inner_nodes }
    ensures no { result ≡ false → HasBy own cost inner_nodes }
{
    match own.cost {
        None => true,
        Some(least) if cost == least && inner_nodes == own.inner_nodes => next < own.next,
        Some(least) => is_not_after(cost, inner_nodes, least, own.inner_nodes),
    }
}

/// The cell of a node, once one that may come after it on the way to the end is settled, where the walk over that node
/// is better than its own: it costs less, at the same cost it has fewer arcs, or it goes over the lower node.
fn better(own: Cell, onward: Onward) -> Option<Cell>
    requires first { ForSome onward.first (λ a. IsAtMost a most_cost) }
    requires rest { ForSome onward.beyond.cost (λ w. IsAtMost w most_walk_cost) }
    requires counted { onward.beyond.inner_nodes < 2 ^ 31 }
    ensures offered { IsOffered own onward.first onward.beyond onward.u (unwrap_or result own) }
    ensures over { (new : Cell) → result ≡ Some new → GoesOver onward.first onward.beyond onward.u new }
{
    let inner_nodes = onward.beyond.inner_nodes + 1;
    match extended(onward.first, onward.beyond.cost) {
        Some(cost) if improves(own, cost, inner_nodes, onward.u) => Some(Cell {
            cost: Some(cost),
            inner_nodes,
            next: onward.u,
        }),
        _ => None,
    }
}

/// The cost of the arc from `v` to a node that is settled, where `v` waits or is the end: no other one goes on over it.
fn first_cost<C: Costs>(costs: &C, end: u32, u: u32, v: u32, waits: bool) -> Option<i128>
    requires inside { v < C.node_count costs.now }
    requires settled { u < C.node_count costs.now }
    ensures going { (waits ≡ true) ⊎ (v ≡ end) → result ≡ C.arc costs.now v u }
    ensures staying { waits ≡ false → v ≢ end → result ≡ None }
    ensures small { ForSome result (λ a. IsAtMost a most_cost) }
{
    if waits || v == end {
        costs.cost(v, u)
    } else {
        None
    }
}

/// Lets node `v` go on over a settled one, where that is better than its walk. A node that waits comes into the queue
/// with its first walk, and to its new place there with each better one.
fn go_on(
    v: u32,
    waits: bool,
    onward: Onward,
    labels: &[i128],
    row: &mut [Cell],
    queue: &mut Queue<'_>,
)
    requires sized { v < length row.old }
    requires labelled { waits ≡ true → v < length labels.now }
    requires near { AreNear (2 * most_label) labels.now }
    requires places { queue.old.count < length queue.old.list.now }
    requires spaced { length row.old ≤ length queue.old.places.now }
    requires few { queue.old.count ≤ most_graph_nodes }
    requires first { ForSome onward.first (λ a. IsAtMost a most_cost) }
    requires rest { ForSome onward.beyond.cost (λ w. IsAtMost w most_walk_cost) }
    requires counted { onward.beyond.inner_nodes < 2 ^ 31 }
    requires room { ForSome (cell_at row.old v).cost (λ w. IsAtMost w (2 * most_walk_cost)) }
    requires ready { is_ready waits (cell_at row.old v) ≡ true
        → (i : ℕ) × (i < queue.old.count) × (node_in_list queue.old.list.now i ≡ v) }
    requires unready { is_ready waits (cell_at row.old v) ≡ false
        → (i : ℕ) → i < queue.old.count → node_in_list queue.old.list.now i ≢ v }
    requires queue { IsQueue labels.now row.old queue.old.list.now queue.old.places.now queue.old.count }
    requires heap { IsHeap (IsBefore (label_in labels.now) (cell_at row.old)) queue.old.list.now queue.old.count }
    ensures own { IsOffered (cell_at row.old v) onward.first onward.beyond onward.u (cell_at row.new v) }
    ensures others { (w : ℕ) → w ≢ v → cell_at row.new w ≡ cell_at row.old w }
    ensures listed { (nodes : ℕ) (flag : ℕ → Bool) → v < nodes → flag v ≡ waits
        → AreReady nodes flag (cell_at row.old) queue.old.list.now queue.old.count
        → AreReady nodes flag (cell_at row.new) queue.new.list.now queue.new.count }
    ensures queue { IsQueue labels.now row.new queue.new.list.now queue.new.places.now queue.new.count }
    ensures heap { IsHeap (IsBefore (label_in labels.now) (cell_at row.new)) queue.new.list.now queue.new.count }
    ensures list_sized { length queue.new.list.now ≡ length queue.old.list.now }
    ensures places_sized { length queue.new.places.now ≡ length queue.old.places.now }
{
    let own = row[v as usize];
    let Some(new) = better(own, onward) else {
        return;
    };
    row[v as usize] = new;
    if !waits {
        return;
    }
    if own.cost.is_some() {
        let place = queue.places[v as usize];
        queue.rise(labels, row, place);
    } else {
        queue.push(labels, row, v);
    }
}

/// Goes on over a node that is settled, from each of its predecessors that waits and from the end.
fn offer<C: Costs>(
    costs: &C,
    end: u32,
    u: u32,
    labels: &[i128],
    waits: &[bool],
    row: &mut [Cell],
    queue: &mut Queue<'_>,
)
    requires sized { C.node_count costs.now ≤ length row.old }
    requires waits_sized { C.node_count costs.now ≤ length waits.now }
    requires places { C.node_count costs.now ≤ length queue.old.list.now }
    requires spaced { length row.old ≤ length queue.old.places.now }
    requires few { C.node_count costs.now ≤ most_graph_nodes + 1 }
    requires last { end < C.node_count costs.now }
    requires labelled { (v : ℕ) → v < C.node_count costs.now → flag_at waits.now v ≡ true → v < length labels.now }
    requires near { AreNear (2 * most_label) labels.now }
    requires shut { flag_at waits.now end ≡ false }
    requires settled { u < C.node_count costs.now }
    requires room { HasRoom (C.node_count costs.now) (cell_at row.old) }
    requires counted { (cell_at row.old u).inner_nodes < 2 ^ 31 }
    requires queued { AreQueued (C.node_count costs.now) (flag_at waits.now) labels.now row.old queue.old.list.now
        queue.old.places.now queue.old.count }
    ensures offered { AreOffered (C.node_count costs.now) (C.arc costs.now) end u (flag_at waits.now)
        (cell_at row.old) (cell_at row.new) }
    ensures queued { AreQueued (C.node_count costs.now) (flag_at waits.now) labels.now row.new queue.new.list.now
        queue.new.places.now queue.new.count }
    ensures list_sized { length queue.new.list.now ≡ length queue.old.list.now }
    ensures places_sized { length queue.new.places.now ≡ length queue.old.places.now }
{
    let beyond = row[u as usize];
    for k in 0..costs.predecessors(u) {
        let v = costs.predecessor(u, k);
        let waiting = waits[v as usize];
        let first = first_cost(costs, end, u, v, waiting);
        if first.is_some() {
            let onward = Onward { first, u, beyond };
            go_on(v, waiting, onward, labels, row, queue);
        }
    }
}

/// The label of a node, 0 for a node without one.
fn label_of(labels: &[i128], v: u32) -> i128
    ensures { result ≡ label_in labels.now v }
{
    match labels.get(v as usize) {
        Some(label) => *label,
        None => 0,
    }
}

/// Finds, from each node, the walk to `end` of least cost, of these one with the fewest arcs, and of these that over
/// the lowest nodes (Dijkstra 1959): a node's key is the cost of its walk and its label. Labels keep the arcs, so that
/// a key is never below that of the node it goes on over, and nodes are settled in the order of their keys. Where a
/// cycle is sought, the search stops once no waiting node can lead to a better walk from the end to itself, or to one
/// that costs less than the cap. The nodes that wait and have a walk stand at the front of `list`, as a heap.
pub(crate) fn search_kept<C: Costs>(
    costs: &C,
    end: u32,
    sought: Sought,
    labels: &[i128],
    waits: &mut [bool],
    row: &mut [Cell],
    list: &mut [u32],
    places: &mut [u32],
)
    requires sized { C.node_count costs.now ≤ length row.old }
    requires waits_sized { C.node_count costs.now ≤ length waits.old }
    requires places { C.node_count costs.now ≤ length list.old }
    requires spaced { length row.old ≤ length places.old }
    requires few { C.node_count costs.now ≤ most_graph_nodes + 1 }
    requires inside { end < C.node_count costs.now }
    requires labelled { (v : ℕ) → v < C.node_count costs.now → v ≢ end → v < length labels.now }
    requires near { AreNear (2 * most_label) labels.now }
    requires shut { flag_at waits.old end ≡ false }
    requires begins { (v u : ℕ) (cost : ℤ) → v ≢ end → u ≢ end → C.arc costs.now v u ≡ Some cost
        → flag_at waits.old v ≡ true }
    requires passes { (v u : ℕ) (cost last : ℤ) → u ≢ end → C.arc costs.now v u ≡ Some cost
        → C.arc costs.now u end ≡ Some last → flag_at waits.old u ≡ true }
    requires keeps { KeepsArcsOff (C.arc costs.now) end (label_in labels.now) }
    ensures { IsStopped (C.node_count costs.now) (C.arc costs.now) end sought (label_in labels.now) (cell_at row.new)
        (flag_at waits.new) }
{
    let nodes = costs.nodes();
    let base = label_of(labels, end);
    begin(costs, end, row);
    let mut queue = Queue {
        list,
        places,
        count: 0,
    };
    list_waiting(labels, waits, nodes, row, &mut queue);
    for settled in 0..nodes {
        if !front_counts(end, base, sought, labels, row, &queue) {
            return;
        }
        let u = queue.list[0];
        queue.take_front(labels, row);
        waits[u as usize] = false;
        offer(costs, end, u, labels, waits, row, &mut queue);
    }
}
