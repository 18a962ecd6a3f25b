//! Least walks, and labels, over lots of one unit.

ghost use Rattle.std.specs.Prelude.{◌≡◌, ℕ, ◌<◌};
ghost use Rattle.tn_cycle.specs.Answers.{AnswersLabels, AreLabels, LeadsLeast, distance_in, walk_in};
ghost use Rattle.tn_cycle.specs.Reading.{ListsNoWalks, ReadsWalks};
ghost use Rattle.tn_links.specs.Flows.{IsKeptFlow};
ghost use Rattle.tn_links.specs.Lots.{link_arc};

use crate::links::Links;
use crate::lots::LotGraph;
use tn_cycle::{Finder, Labels};

/// Looks for labels that keep the graph of a kept flow with lots of one unit. Where there are none, the finder lists a
/// negative cycle.
pub fn unit_labels(links: &Links, levels: &[u32], finder: &mut Finder) -> Labels
    requires fits { finder.old.nodes ≡ links.now.nodes }
    requires kept { IsKeptFlow links.now.links.items levels.now }
    ensures answer { AnswersLabels links.now.nodes (link_arc links.now.links.items levels.now 1) finder.new result }
    ensures rest { ListsNoWalks links.now.nodes finder.new }
{
    finder.labels(&LotGraph {
        links,
        levels,
        lot: 1,
    })
}

/// Finds least walks from a node to each node, over the graph of a kept flow with lots of one unit. The finder reads labels
/// that keep it.
pub fn walks_from(links: &Links, levels: &[u32], finder: &mut Finder, node: u32)
    requires fits { finder.old.nodes ≡ links.now.nodes }
    requires kept { IsKeptFlow links.now.links.items levels.now }
    requires inside { node < links.now.nodes }
    requires labelled { AreLabels links.now.nodes (link_arc links.now.links.items levels.now 1) finder.old.labels }
    ensures walks { (v : ℕ) → v < links.now.nodes → LeadsLeast (link_arc links.now.links.items levels.now 1) node v
        (walk_in finder.new v) (distance_in finder.new v) }
    ensures rest { ReadsWalks links.now.nodes finder.new }
{
    finder.least_from(
        &LotGraph {
            links,
            levels,
            lot: 1,
        },
        node,
    );
}

/// Finds least walks to a node from each node.
pub fn walks_to(links: &Links, levels: &[u32], finder: &mut Finder, node: u32)
    requires fits { finder.old.nodes ≡ links.now.nodes }
    requires kept { IsKeptFlow links.now.links.items levels.now }
    requires inside { node < links.now.nodes }
    requires labelled { AreLabels links.now.nodes (link_arc links.now.links.items levels.now 1) finder.old.labels }
    ensures walks { (v : ℕ) → v < links.now.nodes → LeadsLeast (link_arc links.now.links.items levels.now 1) v node
        (walk_in finder.new v) (distance_in finder.new v) }
    ensures rest { ReadsWalks links.now.nodes finder.new }
{
    finder.least_to(
        &LotGraph {
            links,
            levels,
            lot: 1,
        },
        node,
    );
}
