//! Directed graphs by the costs of their arcs.

ghost use Rattle.std.specs.Prelude.{◌≡◌, ℕ, ◌<◌, ℤ, Option};
ghost use Rattle.tn_base.specs.Arcs.{AreBetweenNodes, AreSmall, ListsPredecessors, ListsSuccessors};
ghost use Rattle.tn_base.specs.Widths.{most_cost};

/// A directed graph by the costs of its arcs. Nodes are numbered from 0. Each node has lists of those from which an arc
/// may lead to it and to which one may lead from it, so that a search need not ask for the arcs of all nodes.
pub trait Costs {
    /// How many nodes there are.
    ghost node_count: { Self → ℕ };

    /// The cost of the arc from one node to another, none where there is no arc.
    ghost arc: { Self → ℕ → ℕ → Option ℤ };

    /// How many nodes are listed from which arcs may lead to a node.
    ghost predecessor_count: { Self → ℕ → ℕ };

    /// The node at each place of them.
    ghost predecessor_at: { Self → ℕ → ℕ → ℕ };

    /// How many nodes are listed to which arcs may lead from a node.
    ghost successor_count: { Self → ℕ → ℕ };

    /// The node at each place of them.
    ghost successor_at: { Self → ℕ → ℕ → ℕ };

    /// How many nodes there are.
    fn nodes(&self) -> u32
        ensures { result ≡ node_count self.now };

    /// The cost of the arc from `a` to `b`, None where there is no arc. Both are nodes.
    fn cost(&self, a: u32, b: u32) -> Option<i128>
        requires from { a < node_count self.now }
        requires to { b < node_count self.now }
        ensures { result ≡ arc self.now a b };

    /// How many nodes are listed from which an arc may lead to `b`.
    fn predecessors(&self, b: u32) -> u32
        requires to { b < node_count self.now }
        ensures { result ≡ predecessor_count self.now b };

    /// The node at place `k` of those from which an arc may lead to `b`.
    fn predecessor(&self, b: u32, k: u32) -> u32
        requires to { b < node_count self.now }
        requires place { k < predecessor_count self.now b }
        ensures { result ≡ predecessor_at self.now b k };

    /// How many nodes are listed to which an arc may lead from `a`.
    fn successors(&self, a: u32) -> u32
        requires from { a < node_count self.now }
        ensures { result ≡ successor_count self.now a };

    /// The node at place `k` of those to which an arc may lead from `a`.
    fn successor(&self, a: u32, k: u32) -> u32
        requires from { a < node_count self.now }
        requires place { k < successor_count self.now a }
        ensures { result ≡ successor_at self.now a k };

    /// Arcs lead from node to node.
    ghost between_nodes: { (costs : Self) → AreBetweenNodes (node_count costs) (arc costs) };

    /// No cost is above 10^18 in size.
    ghost small: { (costs : Self) → AreSmall (arc costs) most_cost };

    /// Each node from which an arc leads to another one is listed for that, once.
    ghost lists_predecessors: { (costs : Self) (b : ℕ) → b < node_count costs
        → ListsPredecessors (node_count costs) (arc costs) b (predecessor_count costs b) (predecessor_at costs b) };

    /// Each node to which an arc leads from another one is listed for that, once.
    ghost lists_successors: { (costs : Self) (a : ℕ) → a < node_count costs
        → ListsSuccessors (node_count costs) (arc costs) a (successor_count costs a) (successor_at costs a) };
}
