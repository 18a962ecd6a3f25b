//! The part of the graph of a flow that labels keep, and one node more.

ghost use Rattle.std.specs.Prelude.{◌≡◌, ◌<◌, ◌≤◌, length};
ghost use Rattle.tn_base.specs.Arcs.{IsAtMost};
ghost use Rattle.std.specs.Option.{ForSome};
ghost use Rattle.tn_base.specs.Widths.{most_cost};
ghost use Rattle.tn_cycle.specs.Answers.{AreNear, label_in};
ghost use Rattle.tn_cycle.specs.Widths.{most_label};
ghost use Rattle.tn_links.specs.LotLemmas.{between-link_arc, lists_predecessors-links, lists_successors-links, node_near};
ghost use Rattle.tn_links.specs.Lots.{link_arc};
ghost use Rattle.tn_links.specs.Near.{near_from};
ghost use Rattle.tn_links.specs.Shown.{kept_only, shown_arc};
ghost use Rattle.tn_links.specs.ShownLemmas.{between-shown, lists_predecessors-shown, lists_successors-shown, small-shown};

use crate::lots::LotGraph;
use tn_base::Costs;
use tn_cycle::Finder;

/// The arcs of a graph that labels keep, and all arcs at one node.
#[derive(Drop)]
pub(crate) struct Shown<'a> {
    pub graph: LotGraph<'a>,
    pub labels: &'a Finder,
    pub node: u32,
    ghost labelled: { length labels.now.labels ≡ graph.links.now.nodes },
    ghost near: { AreNear most_label labels.now.labels },
}

/// A cost that labels keep, where there is one.
fn kept_only(begin: i128, cost: Option<i128>, end: i128) -> Option<i128>
    requires begin { IsAtMost begin most_label }
    requires cost { ForSome cost (λ c. IsAtMost c most_cost) }
    ensures { result ≡ kept_only begin end cost }
{
    match cost {
        Some(cost) => { if begin + cost < end { None } else { Some(cost) } }
        None => None,
    }
}

impl Costs for Shown<'_> {
    ghost node_count = { λ it. it.graph.links.now.nodes };

    ghost arc = { λ it. shown_arc (label_in it.labels.now.labels) it.node
        (link_arc it.graph.links.now.links.items it.graph.levels.now it.graph.lot) };

    ghost predecessor_count = { λ it b. length (near_from it.graph.links.now.links.items 0 b) };

    ghost predecessor_at = { λ it b. node_near (near_from it.graph.links.now.links.items 0 b) };

    ghost successor_count = { λ it a. length (near_from it.graph.links.now.links.items 0 a) };

    ghost successor_at = { λ it a. node_near (near_from it.graph.links.now.links.items 0 a) };

    fn nodes(&self) -> u32 {
        self.graph.nodes()
    }

    fn cost(&self, a: u32, b: u32) -> Option<i128> {
        let cost = self.graph.cost(a, b);
        if a == self.node {
            return cost;
        }
        if b == self.node {
            return cost;
        }
        kept_only(self.labels.label(a), cost, self.labels.label(b))
    }

    fn predecessors(&self, b: u32) -> u32 {
        self.graph.predecessors(b)
    }

    fn predecessor(&self, b: u32, k: u32) -> u32 {
        self.graph.predecessor(b, k)
    }

    fn successors(&self, a: u32) -> u32 {
        self.graph.successors(a)
    }

    fn successor(&self, a: u32, k: u32) -> u32 {
        self.graph.successor(a, k)
    }

    ghost between_nodes = { λ it. between-shown (label_in it.labels.now.labels) it.node it.graph.links.now.nodes
        (link_arc it.graph.links.now.links.items it.graph.levels.now it.graph.lot)
        (between-link_arc it.graph.links.now.nodes it.graph.links.now.links.items it.graph.levels.now it.graph.lot
        it.graph.links.now.plain) };

    ghost small = { λ it. small-shown (label_in it.labels.now.labels) it.node most_cost
        (link_arc it.graph.links.now.links.items it.graph.levels.now it.graph.lot)
        it.graph.light };

    ghost lists_predecessors = { λ it b inside. lists_predecessors-shown (label_in it.labels.now.labels) it.node
        it.graph.links.now.nodes (link_arc it.graph.links.now.links.items it.graph.levels.now it.graph.lot) b
        (length (near_from it.graph.links.now.links.items 0 b))
        (node_near (near_from it.graph.links.now.links.items 0 b))
        (lists_predecessors-links it.graph.links.now.nodes it.graph.links.now.links.items it.graph.levels.now
        it.graph.lot b it.graph.links.now.plain) };

    ghost lists_successors = { λ it a inside. lists_successors-shown (label_in it.labels.now.labels) it.node
        it.graph.links.now.nodes (link_arc it.graph.links.now.links.items it.graph.levels.now it.graph.lot) a
        (length (near_from it.graph.links.now.links.items 0 a))
        (node_near (near_from it.graph.links.now.links.items 0 a))
        (lists_successors-links it.graph.links.now.nodes it.graph.links.now.links.items it.graph.levels.now
        it.graph.lot a it.graph.links.now.plain) };
}
