//! Links, and those of each node.

ghost use Rattle.std.specs.Prelude.{◌≡◌, ◌≢◌, ◌<◌, ◌≤◌, length, map, slice_get, Some, IfOk};
ghost use Rattle.tn_links.specs.declared.link.Link.{Link};
ghost use Rattle.tn_links.specs.LotLemmas.{node_near};
ghost use Rattle.tn_links.specs.Flows.{IsKeptFlow};
ghost use Rattle.tn_links.specs.Links.{ArePlain, AreServed, room};
ghost use Rattle.tn_links.specs.Lots.{lot_cost};
ghost use Rattle.tn_links.specs.Near.{AreListed, link_between, near_from, rows};
ghost use Rattle.tn_cycle.specs.Widths.{most_graph_nodes};
ghost use Rattle.tn_links.specs.Widths.{most_links, most_lot};

use crate::link::Link;
use crate::lists::{link_by, lists};
use std::alloc::Global;
use tn_base::OutOfMemory;

/// A link of a node, and its other end.
#[derive(Clone, Copy)]
pub(crate) struct Neighbour {
    pub link: u32,
    pub node: u32,
}

/// Links between so many nodes, of which no two join the same two nodes.
#[derive(Drop)]
pub struct Links {
    pub(crate) nodes: u32,
    pub(crate) links: Vec<Link>,
    /// The links of each node.
    near: Vec<Vec<Neighbour>>,
    ghost plain: { ArePlain nodes links.items },
    ghost few: { length links.items ≤ most_links },
    ghost few_nodes: { nodes ≤ most_graph_nodes },
    ghost listed: { AreListed nodes links.items (rows near.items) },
}

impl Links {
    /// These links between so many nodes. It fails only where memory runs out; `are_plain` says whether it takes them.
    pub fn new(alloc: Global, nodes: u32, links: Vec<Link>) -> Result<Links, OutOfMemory>
        requires { AreServed nodes links.items }
        ensures { IfOk result (λ made. (made.nodes ≡ nodes) × (made.links.items ≡ links.items)) }
    {
        let near = lists(alloc, nodes, &links)?;
        Ok(Links { nodes, links, near })
    }

    /// The levels at which nothing flows. It fails only where memory runs out.
    pub fn idle(&self, alloc: Global) -> Result<Vec<u32>, OutOfMemory>
        ensures kept { IfOk result (λ levels. IsKeptFlow self.now.links.items levels.items) }
        ensures idle { IfOk result (λ levels. levels.items ≡ map (λ link. link.back) self.now.links.items) }
    {
        Ok(self.links.iter().map(|link| link.back).collect(alloc)?)
    }

    /// The link that joins two nodes, None where there is none.
    pub(crate) fn between(&self, u: u32, v: u32) -> Option<u32>
        requires first { u < self.now.nodes }
        requires second { v < self.now.nodes }
        ensures { result ≡ link_between self.now.links.items u v }
    {
        link_by(&self.near, u, v)
    }
}

impl Links {
    /// How many links there are.
    pub fn count(&self) -> u32
        ensures { result ≡ length self.now.links.items }
    {
        self.links.len() as u32
    }

    /// The tail and the head of a link.
    pub fn ends(&self, j: u32) -> (u32, u32)
        requires { j < length self.now.links.items }
        ensures ends { (link : Link) → slice_get self.now.links.items j ≡ Some link
            → (result.0 ≡ link.tail) × (result.1 ≡ link.head) }
        ensures inside { (result.0 < self.now.nodes) × (result.1 < self.now.nodes) }
        ensures apart { result.0 ≢ result.1 }
    {
        let link = &self.links[j as usize];
        (link.tail, link.head)
    }

    /// How many links a node has.
    pub(crate) fn degree(&self, v: u32) -> u32
        requires { v < self.now.nodes }
        ensures { result ≡ length (near_from self.now.links.items 0 v) }
    {
        self.near[v as usize].len() as u32
    }

    /// The other end of a node's link at a place of its list.
    pub(crate) fn neighbour(&self, v: u32, k: u32) -> u32
        requires inside { v < self.now.nodes }
        requires below { k < length (near_from self.now.links.items 0 v) }
        ensures { result ≡ node_near (near_from self.now.links.items 0 v) k }
    {
        let near = &self.near[v as usize];
        near[k as usize].node
    }

    /// What a lot over a link from one of its ends costs, None where there is no room for it.
    pub(crate) fn lot_cost(&self, j: u32, level: u32, lot: u32, from: u32) -> Option<i128>
        requires inside { j < length self.now.links.items }
        requires within { (link : Link) → slice_get self.now.links.items j ≡ Some link → level ≤ room link.steps.items }
        requires small { lot ≤ most_lot }
        ensures { (link : Link) → slice_get self.now.links.items j ≡ Some link → result ≡ lot_cost link level lot from }
    {
        self.links[j as usize].lot_cost(level, lot, from)
    }
}
