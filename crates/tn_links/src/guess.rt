//! Guesses at a flow of greatest gain, by a network simplex. Nothing is proved of a guess but that finding it is safe and
//! ends: whoever takes one tests whether it is a kept flow, and looks for labels that show that none gains more.

use crate::link::{Link, Step};
use std::alloc::Global;
use tn_base::OutOfMemory;
use tn_guess::{Flow, Simplex};

/// The most arcs of a flow that a guess is made by.
const MOST_ARCS: u32 = 524_288;

/// How many units of a step are below the level at which nothing flows, and how many above it, where so many units come
/// before the step.
fn parts(back: u32, before: u32, step: Step) -> (u32, u32) {
    let below = back.saturating_sub(before).min(step.units);
    (below, step.units.wrapping_sub(below))
}

/// Adds an arc from the head to the tail for the units of a step that are below the level at which nothing flows, and one
/// from the tail to the head for those above it. A unit of the first loses what it adds.
fn lay_step(flow: &mut Flow, link: &Link, before: u32, step: Step) -> Result<(), OutOfMemory> {
    let (below, above) = parts(link.back, before, step);
    let tail = link.tail.wrapping_add(1);
    let head = link.head.wrapping_add(1);
    let each = i128::from(step.each);
    if below > 0 {
        flow.add_arc(head, tail, below, each)?;
    }
    if above > 0 {
        flow.add_arc(tail, head, above, -each)?;
    }
    Ok(())
}

/// Adds the arcs of a link.
fn lay_link(flow: &mut Flow, link: &Link) -> Result<(), OutOfMemory> {
    let mut before: u32 = 0;
    for step in &link.steps {
        lay_step(flow, link, before, *step)?;
        before = before.wrapping_add(step.units);
    }
    Ok(())
}

/// The links as arcs, None where these are too many. The node of a flow that stands for none of theirs comes first.
fn flow_of(alloc: Global, nodes: u32, links: &[Link]) -> Result<Option<Flow>, OutOfMemory> {
    let mut flow = Flow::of_trades(alloc, 0)?;
    flow.add_nodes(nodes);
    for link in links {
        lay_link(&mut flow, link)?;
        if flow.arcs() > MOST_ARCS {
            return Ok(None);
        }
    }
    Ok(Some(flow))
}

/// A flow whose arcs are read one after another.
#[derive(Drop)]
struct Arcs<'a> {
    flow: &'a Flow,
    next: u32,
}

impl Arcs<'_> {
    /// The units of the next arc, which has so much room; where it has none it isn't there.
    fn units(&mut self, room: u32) -> u32 {
        if room == 0 {
            return 0;
        }
        let units = self.flow.units(self.next);
        self.next = self.next.wrapping_add(1);
        units
    }
}

/// The level of a link, whose arcs are the next ones.
fn level_of(arcs: &mut Arcs<'_>, link: &Link) -> u32 {
    let mut before: u32 = 0;
    let mut level = link.back;
    for step in &link.steps {
        let (below, above) = parts(link.back, before, *step);
        let fewer = arcs.units(below);
        let more = arcs.units(above);
        level = level.wrapping_sub(fewer).wrapping_add(more);
        before = before.wrapping_add(step.units);
    }
    level
}

/// The levels of all links.
fn levels_of(alloc: Global, links: &[Link], flow: &Flow) -> Result<Vec<u32>, OutOfMemory> {
    let mut arcs = Arcs { flow, next: 0 };
    let mut levels = Vec::with_capacity(alloc, links.len())?;
    for link in links {
        levels.push(level_of(&mut arcs, link))?;
    }
    Ok(levels)
}

/// The levels of a flow over links between so many nodes that may gain most, None where the search is given up. It fails
/// only where memory runs out.
pub(crate) fn guess(
    alloc: Global,
    nodes: u32,
    links: &[Link],
) -> Result<Option<Vec<u32>>, OutOfMemory> {
    let Some(flow) = flow_of(alloc, nodes, links)? else {
        return Ok(None);
    };
    let mut simplex = Simplex::new(alloc, flow)?;
    if !simplex.run() {
        return Ok(None);
    }
    let levels = levels_of(alloc, links, simplex.flow())?;
    Ok(Some(levels))
}
