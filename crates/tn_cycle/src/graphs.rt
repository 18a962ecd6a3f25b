//! Graphs seen through a choice of nodes, or turned round.

ghost use Rattle.std.specs.Prelude.{◌≡◌, ℕ, ◌+◌, ◌*◌, ◌^◌, ◌<◌, ◌≤◌, ◌==◌, if◌then◌else◌, length};
ghost use Rattle.tn_base.specs.Walks.{arcs_among, is_admitted, is_looked_at};
ghost use Rattle.tn_base.specs.Widths.{most_cost};
ghost use Rattle.tn_cycle.specs.Graphs.{is_trade_from, turned, with_sink};
ghost use Rattle.tn_cycle.specs.Kept.{IsOther, flag_at};
ghost use Rattle.tn_cycle.specs.Widths.{most_graph_nodes};
ghost use Rattle.tn_cycle.specs.GraphLemmas.{between-arcs_among, between-turned, between-with_sink, small-arcs_among, small-turned, small-with_sink};
ghost use Rattle.tn_cycle.specs.ListingLemmas.{lists_predecessors-arcs_among, lists_predecessors-with_sink, lists_successors-arcs_among, lists_successors-with_sink};

use tn_base::{Costs, TradeSet};

/// A graph's admitted trades and its null node, with the arcs among them. Most two nodes have no arc, so that the graph
/// is asked first, and then whether both are among these.
#[derive(Drop)]
pub struct Admitted<'a, C: Costs, const W: usize> {
    /// The graph.
    pub costs: &'a C,
    /// The null node, which is the graph's last node.
    pub null: u32,
    /// The trades.
    pub admitted: &'a TradeSet<W>,
    // The set is in memory.
    ghost in_memory: { W * 8 < 2 ^ 63 },
    ghost fits: { null ≤ 64 * W },
    ghost last: { C.node_count costs.now ≡ null + 1 },
}

impl<C: Costs, const W: usize> Admitted<'_, C, W> {
    /// Whether it has the node.
    fn admits(&self, v: u32) -> bool
        requires { v ≤ self.now.null }
        ensures { result ≡ is_admitted self.now.null self.now.admitted.now v }
    {
        v == self.null || self.admitted.has(v)
    }

    /// Marks the nodes that it has.
    pub(crate) fn mark_nodes(&self, marks: &mut [bool])
        requires { self.now.null < length marks.old }
        ensures marked { (v : ℕ) → v ≤ self.now.null → flag_at marks.new v
            ≡ is_admitted self.now.null self.now.admitted.now v }
    {
        for v in 0..self.nodes() {
            marks[v as usize] = self.admits(v);
        }
    }
}

impl<C: Costs, const W: usize> Costs for Admitted<'_, C, W> {
    ghost node_count = { λ it. C.node_count it.costs.now };

    ghost arc = { λ it. arcs_among (is_admitted it.null it.admitted.now) (C.arc it.costs.now) };

    ghost predecessor_count = { λ it b. C.predecessor_count it.costs.now b };

    ghost predecessor_at = { λ it b k. C.predecessor_at it.costs.now b k };

    ghost successor_count = { λ it a. C.successor_count it.costs.now a };

    ghost successor_at = { λ it a k. C.successor_at it.costs.now a k };

    fn nodes(&self) -> u32 {
        self.costs.nodes()
    }

    fn cost(&self, a: u32, b: u32) -> Option<i128> {
        let cost = self.costs.cost(a, b)?;
        if self.admits(a) && self.admits(b) {
            Some(cost)
        } else {
            None
        }
    }

    fn predecessors(&self, b: u32) -> u32 {
        self.costs.predecessors(b)
    }

    fn predecessor(&self, b: u32, k: u32) -> u32 {
        self.costs.predecessor(b, k)
    }

    fn successors(&self, a: u32) -> u32 {
        self.costs.successors(a)
    }

    fn successor(&self, a: u32, k: u32) -> u32 {
        self.costs.successor(a, k)
    }

    ghost between_nodes = { λ it. between-arcs_among (is_admitted it.null it.admitted.now) (C.node_count it.costs.now)
        (C.arc it.costs.now) (C.between_nodes it.costs.now) };

    ghost small = { λ it. small-arcs_among (is_admitted it.null it.admitted.now) most_cost (C.arc it.costs.now)
        (C.small it.costs.now) };

    ghost lists_predecessors = { λ it. lists_predecessors-arcs_among (is_admitted it.null it.admitted.now)
        (C.node_count it.costs.now) (C.arc it.costs.now) (C.predecessor_count it.costs.now)
        (C.predecessor_at it.costs.now) (C.lists_predecessors it.costs.now) };

    ghost lists_successors = { λ it. lists_successors-arcs_among (is_admitted it.null it.admitted.now)
        (C.node_count it.costs.now) (C.arc it.costs.now) (C.successor_count it.costs.now)
        (C.successor_at it.costs.now) (C.lists_successors it.costs.now) };
}

/// A graph's node, its admitted trades and its null node, with the arcs among them.
#[derive(Drop)]
pub struct Looked<'a, C: Costs, const W: usize> {
    pub among: Admitted<'a, C, W>,
    pub node: u32,
}

impl<C: Costs, const W: usize> Looked<'_, C, W> {
    /// Whether it has the node.
    fn looks_at(&self, v: u32) -> bool
        requires { v ≤ self.now.among.null }
        ensures { result ≡ is_looked_at self.now.among.null self.now.node self.now.among.admitted.now v }
    {
        v == self.node || self.among.admits(v)
    }

    /// Marks the nodes that it has but for its own one.
    pub(crate) fn mark_others(&self, marks: &mut [bool])
        requires { self.now.among.null < length marks.old }
        ensures { (v : ℕ) → v ≤ self.now.among.null
            → IsOther self.now.among.null self.now.node self.now.among.admitted.now v (flag_at marks.new v) }
    {
        for v in 0..self.nodes() {
            marks[v as usize] = v != self.node && self.among.admits(v);
        }
    }
}

impl<C: Costs, const W: usize> Costs for Looked<'_, C, W> {
    ghost node_count = { λ it. C.node_count it.among.costs.now };

    ghost arc = { λ it. arcs_among (is_looked_at it.among.null it.node it.among.admitted.now)
        (C.arc it.among.costs.now) };

    ghost predecessor_count = { λ it b. C.predecessor_count it.among.costs.now b };

    ghost predecessor_at = { λ it b k. C.predecessor_at it.among.costs.now b k };

    ghost successor_count = { λ it a. C.successor_count it.among.costs.now a };

    ghost successor_at = { λ it a k. C.successor_at it.among.costs.now a k };

    fn nodes(&self) -> u32 {
        self.among.nodes()
    }

    fn cost(&self, a: u32, b: u32) -> Option<i128> {
        let cost = self.among.costs.cost(a, b)?;
        if self.looks_at(a) && self.looks_at(b) {
            Some(cost)
        } else {
            None
        }
    }

    fn predecessors(&self, b: u32) -> u32 {
        self.among.costs.predecessors(b)
    }

    fn predecessor(&self, b: u32, k: u32) -> u32 {
        self.among.costs.predecessor(b, k)
    }

    fn successors(&self, a: u32) -> u32 {
        self.among.costs.successors(a)
    }

    fn successor(&self, a: u32, k: u32) -> u32 {
        self.among.costs.successor(a, k)
    }

    ghost between_nodes = { λ it. between-arcs_among (is_looked_at it.among.null it.node it.among.admitted.now)
        (C.node_count it.among.costs.now) (C.arc it.among.costs.now) (C.between_nodes it.among.costs.now) };

    ghost small = { λ it. small-arcs_among (is_looked_at it.among.null it.node it.among.admitted.now) most_cost
        (C.arc it.among.costs.now) (C.small it.among.costs.now) };

    ghost lists_predecessors = { λ it. lists_predecessors-arcs_among
        (is_looked_at it.among.null it.node it.among.admitted.now)
        (C.node_count it.among.costs.now) (C.arc it.among.costs.now) (C.predecessor_count it.among.costs.now)
        (C.predecessor_at it.among.costs.now) (C.lists_predecessors it.among.costs.now) };

    ghost lists_successors = { λ it. lists_successors-arcs_among
        (is_looked_at it.among.null it.node it.among.admitted.now)
        (C.node_count it.among.costs.now) (C.arc it.among.costs.now) (C.successor_count it.among.costs.now)
        (C.successor_at it.among.costs.now) (C.lists_successors it.among.costs.now) };
}

/// A graph's trades from the first one on, with the arcs among them.
#[derive(Drop)]
pub struct Part<'a, C> {
    pub costs: &'a C,
    pub null: u32,
    pub first: u32,
}

impl<C: Costs> Costs for Part<'_, C> {
    ghost node_count = { λ it. C.node_count it.costs.now };

    ghost arc = { λ it. arcs_among (is_trade_from it.first it.null) (C.arc it.costs.now) };

    ghost predecessor_count = { λ it b. C.predecessor_count it.costs.now b };

    ghost predecessor_at = { λ it b k. C.predecessor_at it.costs.now b k };

    ghost successor_count = { λ it a. C.successor_count it.costs.now a };

    ghost successor_at = { λ it a k. C.successor_at it.costs.now a k };

    fn nodes(&self) -> u32 {
        self.costs.nodes()
    }

    fn cost(&self, a: u32, b: u32) -> Option<i128> {
        if self.first <= a && a < self.null && self.first <= b && b < self.null {
            self.costs.cost(a, b)
        } else {
            None
        }
    }

    fn predecessors(&self, b: u32) -> u32 {
        self.costs.predecessors(b)
    }

    fn predecessor(&self, b: u32, k: u32) -> u32 {
        self.costs.predecessor(b, k)
    }

    fn successors(&self, a: u32) -> u32 {
        self.costs.successors(a)
    }

    fn successor(&self, a: u32, k: u32) -> u32 {
        self.costs.successor(a, k)
    }

    ghost between_nodes = { λ it. between-arcs_among (is_trade_from it.first it.null) (C.node_count it.costs.now)
        (C.arc it.costs.now) (C.between_nodes it.costs.now) };

    ghost small = { λ it. small-arcs_among (is_trade_from it.first it.null) most_cost (C.arc it.costs.now)
        (C.small it.costs.now) };

    ghost lists_predecessors = { λ it. lists_predecessors-arcs_among (is_trade_from it.first it.null)
        (C.node_count it.costs.now) (C.arc it.costs.now) (C.predecessor_count it.costs.now)
        (C.predecessor_at it.costs.now) (C.lists_predecessors it.costs.now) };

    ghost lists_successors = { λ it. lists_successors-arcs_among (is_trade_from it.first it.null)
        (C.node_count it.costs.now) (C.arc it.costs.now) (C.successor_count it.costs.now)
        (C.successor_at it.costs.now) (C.lists_successors it.costs.now) };
}

/// A graph with one node more, to which an arc of cost 0 leads from each other node.
#[derive(Drop)]
pub struct Sunk<'a, C: Costs> {
    pub costs: &'a C,
    pub sink: u32,
    ghost last: { C.node_count costs.now ≡ sink },
    ghost few: { sink ≤ most_graph_nodes },
}

impl<C: Costs> Costs for Sunk<'_, C> {
    ghost node_count = { λ it. C.node_count it.costs.now + 1 };

    ghost arc = { λ it. with_sink (C.node_count it.costs.now) (C.arc it.costs.now) };

    ghost predecessor_count = { λ it b. if b == it.sink then it.sink else C.predecessor_count it.costs.now b };

    ghost predecessor_at = { λ it b k. if b == it.sink then k else C.predecessor_at it.costs.now b k };

    ghost successor_count = { λ it a. if a == it.sink then 0 else C.successor_count it.costs.now a + 1 };

    ghost successor_at = { λ it a k. if k == C.successor_count it.costs.now a then it.sink
        else C.successor_at it.costs.now a k };

    fn nodes(&self) -> u32 {
        self.sink + 1
    }

    fn cost(&self, a: u32, b: u32) -> Option<i128> {
        if a == self.sink {
            None
        } else if b == self.sink {
            Some(0)
        } else {
            self.costs.cost(a, b)
        }
    }

    fn predecessors(&self, b: u32) -> u32 {
        if b == self.sink {
            self.sink
        } else {
            self.costs.predecessors(b)
        }
    }

    fn predecessor(&self, b: u32, k: u32) -> u32 {
        if b == self.sink {
            k
        } else {
            self.costs.predecessor(b, k)
        }
    }

    fn successors(&self, a: u32) -> u32 {
        if a == self.sink {
            0
        } else {
            self.costs.successors(a) + 1
        }
    }

    fn successor(&self, a: u32, k: u32) -> u32 {
        if k == self.costs.successors(a) {
            self.sink
        } else {
            self.costs.successor(a, k)
        }
    }

    ghost between_nodes = { λ it. between-with_sink (C.node_count it.costs.now) (C.arc it.costs.now)
        (C.between_nodes it.costs.now) };

    ghost small = { λ it. small-with_sink (C.node_count it.costs.now) most_cost (C.arc it.costs.now)
        (C.small it.costs.now) };

    ghost lists_predecessors = { λ it. lists_predecessors-with_sink (C.node_count it.costs.now) it.sink
        (C.arc it.costs.now) it.last (C.predecessor_count it.costs.now) (C.predecessor_at it.costs.now)
        (C.lists_predecessors it.costs.now) };

    ghost lists_successors = { λ it. lists_successors-with_sink (C.node_count it.costs.now) it.sink
        (C.arc it.costs.now) it.last (C.successor_count it.costs.now) (C.successor_at it.costs.now)
        (C.lists_successors it.costs.now) };
}

/// A graph with its arcs turned round.
#[derive(Drop)]
pub struct Turned<'a, C> {
    pub costs: &'a C,
}

impl<C: Costs> Costs for Turned<'_, C> {
    ghost node_count = { λ it. C.node_count it.costs.now };

    ghost arc = { λ it. turned (C.arc it.costs.now) };

    ghost predecessor_count = { λ it b. C.successor_count it.costs.now b };

    ghost predecessor_at = { λ it b k. C.successor_at it.costs.now b k };

    ghost successor_count = { λ it a. C.predecessor_count it.costs.now a };

    ghost successor_at = { λ it a k. C.predecessor_at it.costs.now a k };

    fn nodes(&self) -> u32 {
        self.costs.nodes()
    }

    fn cost(&self, a: u32, b: u32) -> Option<i128> {
        self.costs.cost(b, a)
    }

    fn predecessors(&self, b: u32) -> u32 {
        self.costs.successors(b)
    }

    fn predecessor(&self, b: u32, k: u32) -> u32 {
        self.costs.successor(b, k)
    }

    fn successors(&self, a: u32) -> u32 {
        self.costs.predecessors(a)
    }

    fn successor(&self, a: u32, k: u32) -> u32 {
        self.costs.predecessor(a, k)
    }

    ghost between_nodes = { λ it. between-turned (C.node_count it.costs.now) (C.arc it.costs.now)
        (C.between_nodes it.costs.now) };

    ghost small = { λ it. small-turned most_cost (C.arc it.costs.now) (C.small it.costs.now) };

    ghost lists_predecessors = { λ it. C.lists_successors it.costs.now };

    ghost lists_successors = { λ it. C.lists_predecessors it.costs.now };
}
