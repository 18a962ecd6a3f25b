//! Flows of greatest gain.

ghost use Rattle.std.specs.Prelude.{◌≡◌, ◌<ℤ◌, true, false, IfOk};
ghost use Rattle.tn_cycle.specs.Answers.{AreLabels};
ghost use Rattle.tn_links.specs.Flows.{IsKeptFlow, total_gain};
ghost use Rattle.tn_links.specs.Laws.{IsGreatest};
ghost use Rattle.tn_links.specs.Lots.{link_arc};

use crate::guess::guess;
use crate::links::Links;
use crate::push::push_round;
use crate::searching::send_lots;
use crate::walks::unit_labels;
use std::alloc::Global;
use tn_base::OutOfMemory;
use tn_cycle::{Finder, Labels};

/// Looks for labels that keep the graph with lots of one unit, and says whether there are some. Otherwise a unit is sent
/// round a negative cycle.
fn round(links: &Links, levels: &mut [u32], finder: &mut Finder) -> bool
    requires fits { finder.old.nodes ≡ links.now.nodes }
    requires kept { IsKeptFlow links.now.links.items levels.old }
    ensures kept { IsKeptFlow links.now.links.items levels.new }
    ensures fits { finder.new.nodes ≡ links.now.nodes }
    ensures settled { result ≡ true
        → AreLabels links.now.nodes (link_arc links.now.links.items levels.new 1) finder.new.labels }
    ensures gained { result ≡ false
        → total_gain links.now.links.items levels.old <ℤ total_gain links.now.links.items levels.new }
{
    match unit_labels(links, levels, finder) {
        Labels::Feasible => true,
        Labels::Negative { .. } => {
            push_round(links, levels, finder.listed(), 1);
            false
        }
    }
}

/// Sends units round negative cycles until none is left.
fn settle_units(links: &Links, levels: &mut [u32], finder: &mut Finder)
    requires fits { finder.old.nodes ≡ links.now.nodes }
    requires kept { IsKeptFlow links.now.links.items levels.old }
    ensures kept { IsKeptFlow links.now.links.items levels.new }
    ensures fits { finder.new.nodes ≡ links.now.nodes }
    ensures settled { AreLabels links.now.nodes (link_arc links.now.links.items levels.new 1) finder.new.labels }
{
    while !round(links, levels, finder) {}
}

/// Finds a kept flow of greatest gain, and labels that show it: they keep its graph with lots of one unit. It begins at
/// any kept flow. The finder serves graphs of as many nodes as the links have, and reads the labels afterwards; a second
/// one of as many nodes has those that a search goes by. Lots are large ones first, then half as large, down to one unit.
pub fn settle(links: &Links, levels: &mut [u32], finder: &mut Finder, before: &mut Finder)
    requires fits { finder.old.nodes ≡ links.now.nodes }
    requires as_many { before.old.nodes ≡ links.now.nodes }
    requires kept { IsKeptFlow links.now.links.items levels.old }
    ensures kept { IsKeptFlow links.now.links.items levels.new }
    ensures fits { finder.new.nodes ≡ links.now.nodes }
    ensures settled { AreLabels links.now.nodes (link_arc links.now.links.items levels.new 1) finder.new.labels }
    ensures greatest { IsGreatest links.now.links.items levels.new }
{
    send_lots(links, levels, finder, before);
    settle_units(links, levels, finder);
}

/// The same from a flow that may well be of greatest gain: labels are looked for first, and lots are sent only where
/// there are none.
pub fn settle_near(links: &Links, levels: &mut [u32], finder: &mut Finder, before: &mut Finder)
    requires fits { finder.old.nodes ≡ links.now.nodes }
    requires as_many { before.old.nodes ≡ links.now.nodes }
    requires kept { IsKeptFlow links.now.links.items levels.old }
    ensures kept { IsKeptFlow links.now.links.items levels.new }
    ensures fits { finder.new.nodes ≡ links.now.nodes }
    ensures settled { AreLabels links.now.nodes (link_arc links.now.links.items levels.new 1) finder.new.labels }
    ensures greatest { IsGreatest links.now.links.items levels.new }
{
    if !round(links, levels, finder) {
        settle(links, levels, finder, before);
    }
}

impl Links {
    /// The levels of a kept flow to begin at: a guess at one of greatest gain, where there is one that is kept, and else
    /// that of nothing. It fails only where memory runs out.
    pub fn begin(&self, alloc: Global) -> Result<Vec<u32>, OutOfMemory>
        ensures { IfOk result (λ levels. IsKeptFlow self.now.links.items levels.items) }
    {
        if let Some(levels) = guess(alloc, self.nodes, &self.links)? {
            if self.keeps(alloc, &levels)? {
                return Ok(levels);
            }
        }
        self.idle(alloc)
    }
}
