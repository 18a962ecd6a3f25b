//! The graph of a flow with lots of so many units.

ghost use Rattle.std.specs.Prelude.{◌≡◌, ◌≤◌, length};
ghost use Rattle.tn_base.specs.Arcs.{AreSmall};
ghost use Rattle.tn_base.specs.Widths.{most_cost};
ghost use Rattle.tn_links.specs.Flows.{AreWithin};
ghost use Rattle.tn_links.specs.LotLemmas.{between-link_arc, lists_predecessors-links, lists_successors-links, node_near};
ghost use Rattle.tn_links.specs.Lots.{link_arc};
ghost use Rattle.tn_links.specs.Widths.{most_lot};
ghost use Rattle.tn_links.specs.Near.{near_from};

use crate::links::Links;
use tn_base::Costs;

/// The graph of a flow with lots of so many units: an arc from one end of a link to the other is a lot over the link, and
/// costs what that takes from its gain.
#[derive(Drop)]
pub(crate) struct LotGraph<'a> {
    pub links: &'a Links,
    pub levels: &'a [u32],
    pub lot: u32,
    ghost one_each: { length levels.now ≡ length links.now.links.items },
    ghost within: { AreWithin links.now.links.items levels.now },
    ghost small_lot: { lot ≤ most_lot },
    ghost light: { AreSmall (link_arc links.now.links.items levels.now lot) most_cost },
}

impl Costs for LotGraph<'_> {
    ghost node_count = { λ it. it.links.now.nodes };

    ghost arc = { λ it. link_arc it.links.now.links.items it.levels.now it.lot };

    ghost predecessor_count = { λ it b. length (near_from it.links.now.links.items 0 b) };

    ghost predecessor_at = { λ it b. node_near (near_from it.links.now.links.items 0 b) };

    ghost successor_count = { λ it a. length (near_from it.links.now.links.items 0 a) };

    ghost successor_at = { λ it a. node_near (near_from it.links.now.links.items 0 a) };

    fn nodes(&self) -> u32 {
        self.links.nodes
    }

    fn cost(&self, a: u32, b: u32) -> Option<i128> {
        match self.links.between(a, b) {
            Some(j) => {
                let level = self.levels[j as usize];
                self.links.lot_cost(j, level, self.lot, a)
            }
            None => None,
        }
    }

    fn predecessors(&self, b: u32) -> u32 {
        self.links.degree(b)
    }

    fn predecessor(&self, b: u32, k: u32) -> u32 {
        self.links.neighbour(b, k)
    }

    fn successors(&self, a: u32) -> u32 {
        self.links.degree(a)
    }

    fn successor(&self, a: u32, k: u32) -> u32 {
        self.links.neighbour(a, k)
    }

    ghost between_nodes = { λ it. between-link_arc it.links.now.nodes it.links.now.links.items it.levels.now it.lot
        it.links.now.plain };

    ghost small = { λ it. it.light };

    ghost lists_predecessors = { λ it b inside. lists_predecessors-links it.links.now.nodes it.links.now.links.items
        it.levels.now it.lot b it.links.now.plain };

    ghost lists_successors = { λ it a inside. lists_successors-links it.links.now.nodes it.links.now.links.items
        it.levels.now it.lot a it.links.now.plain };
}
