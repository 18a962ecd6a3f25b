//! The queue of a search: the nodes that wait and have a walk, in a heap by their keys (Williams 1964).
//!
//! A key is the cost of a node's walk and its label. The node at the front comes first; a node that waits at a place of
//! the list never comes after the two at twice that place and one or two more. Each listed node has its place written
//! down, so that it is found where its walk has become better.

ghost use Rattle.std.specs.Prelude.{◌≡◌, ◌≢◌, ℕ, ◌+◌, ◌-◌, ◌*◌, ◌<◌, ◌≤◌, true, false, Some, None, length, set};
ghost use Rattle.tn_cycle.specs.Answers.{AreNear, label_in};
ghost use Rattle.tn_cycle.specs.Cells.{cell_at};
ghost use Rattle.tn_cycle.specs.Kept.{IsNotAfter, node_in_list};
ghost use Rattle.tn_cycle.specs.Queue.{HasKey, HaveSameNodes, IsAbove, IsBefore, IsFirstBelow, IsHeap, IsHeapAbove, IsHeapBelow, IsQueue, key_of};
ghost use Rattle.tn_cycle.specs.Widths.{most_graph_nodes, most_label};

use crate::cell::Cell;

/// The nodes that wait and have a walk, in the first so many places of a list.
#[derive(Drop)]
pub(crate) struct Queue<'a> {
    pub(crate) list: &'a mut [u32],
    /// Where each of them stands.
    pub(crate) places: &'a mut [u32],
    pub(crate) count: u32,
}

/// The key of a node.
pub(crate) fn key_at(labels: &[i128], row: &[Cell], v: u32) -> i128
    requires near { AreNear (2 * most_label) labels.now }
    requires has { HasKey labels.now row.now v }
    ensures { result ≡ key_of (label_in labels.now) (cell_at row.now) v }
{
    row[v as usize].cost.unwrap_or(0) + labels[v as usize]
}

/// Whether the first key isn't after the second: of keys that are the same, that of fewer arcs comes first.
pub(crate) fn is_not_after(
    first: i128,
    first_inner_nodes: u32,
    second: i128,
    second_inner_nodes: u32,
) -> bool
    ensures yes { result ≡ true → IsNotAfter first first_inner_nodes second second_inner_nodes }
    ensures no { result ≡ false → IsNotAfter second second_inner_nodes first first_inner_nodes }
{
    first < second || first == second && first_inner_nodes <= second_inner_nodes
}

/// Whether a node doesn't come after another one.
fn is_before(labels: &[i128], row: &[Cell], u: u32, v: u32) -> bool
    requires near { AreNear (2 * most_label) labels.now }
    requires first { HasKey labels.now row.now u }
    requires second { HasKey labels.now row.now v }
    ensures yes { result ≡ true → IsBefore (label_in labels.now) (cell_at row.now) u v }
    ensures no { result ≡ false → IsBefore (label_in labels.now) (cell_at row.now) v u }
{
    is_not_after(
        key_at(labels, row, u),
        row[u as usize].inner_nodes,
        key_at(labels, row, v),
        row[v as usize].inner_nodes,
    )
}

/// The place above a place that isn't the front.
fn place_above(at: u32) -> u32
    requires { 1 ≤ at }
    ensures { IsAbove result at }
{
    (at - 1) / 2
}

impl Queue<'_> {
    /// Writes a node to a place of the list, and down that this is its place.
    fn put(&mut self, place: u32, v: u32)
        requires listed { place < length self.old.list.now }
        requires spaced { v < length self.old.places.now }
        ensures list { self.new.list.now ≡ set self.old.list.now place v }
        ensures places { self.new.places.now ≡ set self.old.places.now v place }
        ensures count { self.new.count ≡ self.old.count }
    {
        self.list[place as usize] = v;
        self.places[v as usize] = place;
    }

    /// Lets the nodes of two places change these.
    fn exchange(&mut self, i: u32, k: u32)
        requires first { i < length self.old.list.now }
        requires second { k < length self.old.list.now }
        requires first_spaced { node_in_list self.old.list.now i < length self.old.places.now }
        requires second_spaced { node_in_list self.old.list.now k < length self.old.places.now }
        ensures list { self.new.list.now ≡ set (set self.old.list.now i (node_in_list self.old.list.now k)) k
            (node_in_list self.old.list.now i) }
        ensures places { self.new.places.now ≡ set (set self.old.places.now (node_in_list self.old.list.now k) i)
            (node_in_list self.old.list.now i) k }
        ensures count { self.new.count ≡ self.old.count }
    {
        let first = self.list[i as usize];
        let second = self.list[k as usize];
        self.put(i, second);
        self.put(k, first);
    }

    /// Lets the node at a place change places with the one above it, until it doesn't come before that.
    pub(crate) fn rise(&mut self, labels: &[i128], row: &[Cell], from: u32)
        requires near { AreNear (2 * most_label) labels.now }
        requires spaced { length row.now ≤ length self.old.places.now }
        requires queue { IsQueue labels.now row.now self.old.list.now self.old.places.now self.old.count }
        requires inside { from < self.old.count }
        requires heap { IsHeapBelow (IsBefore (label_in labels.now) (cell_at row.now)) self.old.list.now
            self.old.count from }
        ensures queue { IsQueue labels.now row.now self.new.list.now self.new.places.now self.new.count }
        ensures heap { IsHeap (IsBefore (label_in labels.now) (cell_at row.now)) self.new.list.now self.new.count }
        ensures same { HaveSameNodes self.old.list.now self.new.list.now self.new.count }
        ensures count { self.new.count ≡ self.old.count }
        ensures list_sized { length self.new.list.now ≡ length self.old.list.now }
        ensures places_sized { length self.new.places.now ≡ length self.old.places.now }
    {
        let mut at = from;
        // Each turn goes on at a place nearer to the front: so this ends.
        while at > 0 {
            let above = place_above(at);
            if is_before(
                labels,
                row,
                self.list[above as usize],
                self.list[at as usize],
            ) {
                return;
            }
            self.exchange(above, at);
            at = above;
        }
    }

    /// Of the places below one, that of the node that comes first. None where there are none.
    fn first_below(&self, labels: &[i128], row: &[Cell], at: u32) -> Option<u32>
        requires near { AreNear (2 * most_label) labels.now }
        requires room { self.now.count ≤ length self.now.list.now }
        requires keyed { (i : ℕ) → i < self.now.count → HasKey labels.now row.now (node_in_list self.now.list.now i) }
        requires few { self.now.count ≤ most_graph_nodes }
        requires inside { at < self.now.count }
        ensures some { (below : ℕ) → result ≡ Some below
            → IsFirstBelow (IsBefore (label_in labels.now) (cell_at row.now)) self.now.list.now self.now.count at
            below }
        ensures none { result ≡ None → self.now.count ≤ 2 * at + 1 }
    {
        let left = 2 * at + 1;
        let right = left + 1;
        if right < self.count
            && !is_before(
                labels,
                row,
                self.list[left as usize],
                self.list[right as usize],
            )
        {
            Some(right)
        } else if left < self.count {
            Some(left)
        } else {
            None
        }
    }

    /// Lets the node at the front change places with the first of those below it, until it doesn't come after that.
    fn sink(&mut self, labels: &[i128], row: &[Cell])
        requires near { AreNear (2 * most_label) labels.now }
        requires spaced { length row.now ≤ length self.old.places.now }
        requires few { self.old.count ≤ most_graph_nodes }
        requires queue { IsQueue labels.now row.now self.old.list.now self.old.places.now self.old.count }
        requires heap { IsHeapAbove (IsBefore (label_in labels.now) (cell_at row.now)) self.old.list.now
            self.old.count 0 }
        ensures queue { IsQueue labels.now row.now self.new.list.now self.new.places.now self.new.count }
        ensures heap { IsHeap (IsBefore (label_in labels.now) (cell_at row.now)) self.new.list.now self.new.count }
        ensures same { HaveSameNodes self.old.list.now self.new.list.now self.new.count }
        ensures count { self.new.count ≡ self.old.count }
        ensures list_sized { length self.new.list.now ≡ length self.old.list.now }
        ensures places_sized { length self.new.places.now ≡ length self.old.places.now }
    {
        let mut at = 0;
        // Each turn goes on at a place farther from the front: so this ends.
        while at < self.count {
            let Some(below) = self.first_below(labels, row, at) else {
                return;
            };
            if is_before(
                labels,
                row,
                self.list[at as usize],
                self.list[below as usize],
            ) {
                return;
            }
            self.exchange(at, below);
            at = below;
        }
    }

    /// Lists one node more.
    pub(crate) fn push(&mut self, labels: &[i128], row: &[Cell], v: u32)
        requires near { AreNear (2 * most_label) labels.now }
        requires spaced { length row.now ≤ length self.old.places.now }
        requires few { self.old.count ≤ most_graph_nodes }
        requires room { self.old.count < length self.old.list.now }
        requires queue { IsQueue labels.now row.now self.old.list.now self.old.places.now self.old.count }
        requires heap { IsHeap (IsBefore (label_in labels.now) (cell_at row.now)) self.old.list.now self.old.count }
        requires keyed { HasKey labels.now row.now v }
        requires absent { (i : ℕ) → i < self.old.count → node_in_list self.old.list.now i ≢ v }
        ensures queue { IsQueue labels.now row.now self.new.list.now self.new.places.now self.new.count }
        ensures heap { IsHeap (IsBefore (label_in labels.now) (cell_at row.now)) self.new.list.now self.new.count }
        ensures same { HaveSameNodes (set self.old.list.now self.old.count v) self.new.list.now self.new.count }
        ensures count { self.new.count ≡ self.old.count + 1 }
        ensures list_sized { length self.new.list.now ≡ length self.old.list.now }
        ensures places_sized { length self.new.places.now ≡ length self.old.places.now }
    {
        let last = self.count;
        self.put(last, v);
        self.count = last + 1;
        self.rise(labels, row, last);
    }

    /// Takes the front from the list.
    pub(crate) fn take_front(&mut self, labels: &[i128], row: &[Cell])
        requires near { AreNear (2 * most_label) labels.now }
        requires spaced { length row.now ≤ length self.old.places.now }
        requires some { 1 ≤ self.old.count }
        requires few { self.old.count ≤ most_graph_nodes + 1 }
        requires queue { IsQueue labels.now row.now self.old.list.now self.old.places.now self.old.count }
        requires heap { IsHeap (IsBefore (label_in labels.now) (cell_at row.now)) self.old.list.now self.old.count }
        ensures queue { IsQueue labels.now row.now self.new.list.now self.new.places.now self.new.count }
        ensures heap { IsHeap (IsBefore (label_in labels.now) (cell_at row.now)) self.new.list.now self.new.count }
        ensures same { HaveSameNodes (set self.old.list.now 0 (node_in_list self.old.list.now self.new.count))
            self.new.list.now self.new.count }
        ensures count { self.new.count ≡ self.old.count - 1 }
        ensures list_sized { length self.new.list.now ≡ length self.old.list.now }
        ensures places_sized { length self.new.places.now ≡ length self.old.places.now }
    {
        self.count -= 1;
        let last = self.list[self.count as usize];
        self.put(0, last);
        self.sink(labels, row);
    }
}
