//! The primal network simplex (Ahuja, Magnanti and Orlin, Network Flows, 1993). Its trees stay strongly feasible, so
//! that no tree comes twice (Cunningham, A network simplex method, 1976).

use crate::flow::{Flow, MOST_WORK};
use crate::lists::{at, put};
use crate::tree::{NONE, Tree};
use std::alloc::Global;
use tn_base::OutOfMemory;

/// How an arc stands to the tree.
#[derive(Clone, Copy, PartialEq, Eq)]
enum State {
    /// It is of the tree.
    Tree,
    /// It isn't, and carries nothing.
    Empty,
    /// It isn't, and has no more room.
    Full,
}

/// A flow with a tree, and a label for each node, beside which no arc of the tree gains.
#[derive(Drop)]
pub struct Simplex {
    flow: Flow,
    tree: Tree,
    labels: Vec<i64>,
    states: Vec<State>,
    start: u32,
    block: u32,
    work: u32,
}

/// The arc that leaves the tree: the node below it, how many units may go round, and on which of the two ways it is.
#[derive(Clone, Copy)]
struct Leaving {
    node: u32,
    room: u32,
    first: bool,
}

impl Simplex {
    /// A flow over which no units go yet, and all nodes below one more, from which no arc leads. So the first tree is
    /// strongly feasible. It fails only where memory runs out.
    pub fn new(alloc: Global, flow: Flow) -> Result<Simplex, OutOfMemory> {
        let nodes = flow.nodes;
        let arcs = flow.arcs;
        Ok(Simplex {
            flow,
            tree: Tree::star(alloc, nodes)?,
            labels: vec![in alloc; 0; nodes as usize + 1]?,
            states: vec![in alloc; State::Empty; arcs as usize]?,
            start: 0,
            block: block_of(arcs),
            work: 0,
        })
    }

    /// The flow, with the units that go over its arcs.
    pub fn flow(&self) -> &Flow {
        &self.flow
    }

    /// Moves units until no arc gains, and answers whether none does: it gives up after four turns an arc and a thousand
    /// more, or after much work.
    pub fn run(&mut self) -> bool {
        for _ in 0..self.flow.arcs.wrapping_mul(4).wrapping_add(1000) {
            let arc = self.entering();
            if arc == NONE {
                return true;
            }
            if self.work > MOST_WORK {
                return false;
            }
            self.turn_over(arc);
        }
        false
    }

    /// How an arc stands to the tree.
    fn state(&self, arc: u32) -> State {
        at(&self.states, arc, State::Tree)
    }

    /// The label of a node.
    fn label(&self, node: u32) -> i64 {
        at(&self.labels, node, 0)
    }

    /// The cost of a unit more on an arc beside the labels of its ends.
    fn reduced_cost(&self, arc: u32) -> i64 {
        let from = self.label(self.flow.from(arc));
        let to = self.label(self.flow.to(arc));
        self.flow.cost(arc).wrapping_add(from).wrapping_sub(to)
    }

    /// What is gained by a unit more on an arc, or by one less, if it is outside the tree.
    fn gain(&self, arc: u32) -> i64 {
        match self.state(arc) {
            State::Tree => 0,
            State::Empty => self.reduced_cost(arc).wrapping_neg(),
            State::Full => self.reduced_cost(arc),
        }
    }

    /// The arc after one, and after the last the first.
    fn after(&self, arc: u32) -> u32 {
        let next = arc.wrapping_add(1);
        if next < self.flow.arcs { next } else { 0 }
    }

    /// The arc that gains most in the first block of arcs in which one gains.
    fn entering(&mut self) -> u32 {
        let mut most = 0;
        let mut found = NONE;
        let mut left = self.block;
        for _ in 0..self.flow.arcs {
            let arc = self.start;
            let gain = self.gain(arc);
            if gain > most {
                most = gain;
                found = arc;
            }
            self.start = self.after(arc);
            left = left.wrapping_sub(1);
            if left == 0 {
                self.work = self.work.wrapping_add(self.block);
                if found != NONE {
                    return found;
                }
                left = self.block;
            }
        }
        found
    }

    /// How many units more may go from a node to its parent, or from the parent to it. An arc that isn't there leads up
    /// and has room without end.
    fn room(&self, node: u32, up: bool) -> u32 {
        let along = self.tree.rises(node) == up;
        let arc = self.tree.arc(node);
        if arc == NONE {
            return if along { u32::MAX } else { 0 };
        }
        let units = self.flow.units(arc);
        if along {
            self.flow.room(arc).wrapping_sub(units)
        } else {
            units
        }
    }

    /// The first way round, which units go down: of the arcs with least room the one nearest to the arc that enters.
    fn least_first(&self, from: u32, meet: u32, least: Leaving) -> Leaving {
        let mut least = least;
        let mut node = from;
        for _ in 0..self.labels.len() {
            if node == meet {
                return least;
            }
            let room = self.room(node, false);
            if room < least.room {
                least = Leaving {
                    node,
                    room,
                    first: true,
                };
            }
            node = self.tree.parent(node);
        }
        least
    }

    /// The second way round, which units go up: of the arcs with least room the one farthest from the arc that enters.
    /// So it is the last one on the way round from where both ways meet, which keeps the tree strongly feasible.
    fn least_second(&self, from: u32, meet: u32, least: Leaving) -> Leaving {
        let mut least = least;
        let mut node = from;
        for _ in 0..self.labels.len() {
            if node == meet {
                return least;
            }
            let room = self.room(node, true);
            if room <= least.room {
                least = Leaving {
                    node,
                    room,
                    first: false,
                };
            }
            node = self.tree.parent(node);
        }
        least
    }

    /// Lets units go from a node up to where both ways meet, or down from there.
    fn push(&mut self, from: u32, meet: u32, up: bool, units: u32) {
        let mut node = from;
        for _ in 0..self.labels.len() {
            if node == meet {
                return;
            }
            let more = self.tree.rises(node) == up;
            self.flow.carry(self.tree.arc(node), more, units);
            self.work = self.work.wrapping_add(1);
            node = self.tree.parent(node);
        }
    }

    /// Lets as many units go round over an arc as may, and takes it into the tree, where another one leaves.
    fn turn_over(&mut self, arc: u32) {
        let more = self.state(arc) == State::Empty;
        let from = self.flow.from(arc);
        let to = self.flow.to(arc);
        let (first, second) = if more { (from, to) } else { (to, from) };
        let meet = self.tree.meet(first, second);
        let whole = Leaving {
            node: NONE,
            room: self.flow.room(arc),
            first: true,
        };
        let out = self.least_first(first, meet, whole);
        let out = self.least_second(second, meet, out);
        self.flow.carry(arc, more, out.room);
        self.push(first, meet, false, out.room);
        self.push(second, meet, true, out.room);
        if out.node == NONE {
            let state = if more { State::Full } else { State::Empty };
            put(&mut self.states, arc, state);
        } else if out.first {
            self.exchange(arc, first, second, out.node);
        } else {
            self.exchange(arc, second, first, out.node);
        }
    }

    /// Takes an arc into the tree for the one above `out`, which is above its end `inner`.
    fn exchange(&mut self, arc: u32, inner: u32, outer: u32, out: u32) {
        let left = self.tree.arc(out);
        let state = if self.flow.units(left) == 0 {
            State::Empty
        } else {
            State::Full
        };
        put(&mut self.states, left, state);
        put(&mut self.states, arc, State::Tree);
        let cost = self.reduced_cost(arc);
        let rises = self.flow.from(arc) == inner;
        self.turn_round(arc, rises, inner, outer, out);
        self.relabel(inner, if rises { cost.wrapping_neg() } else { cost });
    }

    /// Hangs the nodes from `inner` up to `out` below `outer` by an arc, with the way between them turned round.
    fn turn_round(&mut self, arc: u32, rises: bool, inner: u32, outer: u32, out: u32) {
        let mut node = inner;
        let mut parent = outer;
        let mut arc = arc;
        let mut rises = rises;
        for _ in 0..self.labels.len() {
            let above = self.tree.parent(node);
            let old_arc = self.tree.arc(node);
            let old_rises = self.tree.rises(node);
            self.tree.cut(node);
            self.tree.hang(node, parent);
            self.tree.put_arc(node, arc, rises);
            if node == out {
                return;
            }
            parent = node;
            arc = old_arc;
            rises = !old_rises;
            node = above;
        }
    }

    /// Moves the labels of a node and of all below it, and tells their depths anew.
    fn relabel(&mut self, top: u32, by: i64) {
        let mut node = top;
        for _ in 0..self.labels.len() {
            if node == NONE {
                return;
            }
            self.tree.settle_depth(node);
            let label = self.label(node).wrapping_add(by);
            put(&mut self.labels, node, label);
            self.work = self.work.wrapping_add(1);
            node = self.tree.after(node, top);
        }
    }
}

/// How many arcs are looked at for the one that enters: the square root of their number, and ten at least.
fn block_of(arcs: u32) -> u32 {
    for root in 10..65_536 {
        if arcs <= root * root {
            return root;
        }
    }
    65_536
}
