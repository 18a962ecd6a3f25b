//! Whether links can be searched.

ghost use Rattle.std.specs.Prelude.{◌≡◌, ◌<◌, ◌≤◌, true, false, length, map, IfSome, IfNone, Ok};
ghost use Rattle.tn_links.specs.Links.{AreFalling, AreLinks, AreServed, AreSingle, AreSlight, HasSteps, IsLink, room};
ghost use Rattle.tn_links.specs.Near.{AreListed, rows};
ghost use Rattle.tn_links.specs.Widths.{most_links, most_units};

use crate::link::{Link, Step};
use crate::links::Neighbour;
use crate::lists::{link_by, lists};
use std::alloc::Global;
use tn_base::OutOfMemory;

/// A graph has at most so many nodes.
const MOST_NODES: u32 = 16_385;

/// There are at most so many links.
const MOST_LINKS: usize = 16_777_216;

/// The steps of a link have at most so many units.
const MOST_UNITS: u32 = 16_777_216;

/// A unit adds at most so much, in size.
const MOST_EACH: i64 = 2_000_000_000_000_000;

/// How many units the steps have, None where these are too many.
fn units_of(steps: &[Step]) -> Option<u32>
    ensures some { IfSome result (λ units. (units ≡ room steps.now) × (units ≤ most_units)) }
    ensures none { IfNone result (most_units < room steps.now) }
{
    let mut units = 0;
    for step in steps {
        if MOST_UNITS - units < step.units {
            return None;
        }
        units += step.units;
    }
    Some(units)
}

/// Whether no unit adds much.
fn are_slight(steps: &[Step]) -> bool
    ensures yes { result ≡ true → AreSlight steps.now }
    ensures no { result ≡ false → AreSlight steps.now → ⊥ }
{
    for step in steps {
        let each = step.each;
        if each < -MOST_EACH || MOST_EACH < each {
            return false;
        }
    }
    true
}

/// Whether later units add no more.
fn are_falling(steps: &[Step]) -> bool
    ensures yes { result ≡ true → AreFalling steps.now }
    ensures no { result ≡ false → AreFalling steps.now → ⊥ }
{
    for k in 1..steps.len() {
        let before = steps[k - 1];
        let step = steps[k];
        if before.each < step.each {
            return false;
        }
    }
    true
}

/// Whether the steps make a concave gain, with room for the level of no flow.
pub fn has_steps(back: u32, steps: &[Step]) -> bool
    ensures yes { result ≡ true → HasSteps back steps.now }
    ensures no { result ≡ false → HasSteps back steps.now → ⊥ }
{
    match units_of(steps) {
        Some(units) => back <= units && are_falling(steps) && are_slight(steps),
        None => false,
    }
}

/// Whether a link joins two of the nodes, and has a concave gain.
fn is_link(link: &Link, nodes: u32) -> bool
    ensures yes { result ≡ true → IsLink nodes link.now }
    ensures no { result ≡ false → IsLink nodes link.now → ⊥ }
{
    link.tail < nodes
        && link.head < nodes
        && link.tail != link.head
        && has_steps(link.back, &link.steps)
}

/// Whether all are links between so many nodes.
fn are_links(links: &[Link], nodes: u32) -> bool
    ensures yes { result ≡ true → AreLinks nodes links.now }
    ensures no { result ≡ false → AreLinks nodes links.now → ⊥ }
{
    for link in links {
        if !is_link(link, nodes) {
            return false;
        }
    }
    true
}

/// Whether no two links join the same two nodes, by the lists of the nodes' links.
fn are_single(links: &[Link], near: &[Vec<Neighbour>], nodes: u32) -> bool
    requires few { length links.now ≤ most_links }
    requires each { AreLinks nodes links.now }
    requires listed { AreListed nodes links.now (rows near.now) }
    ensures yes { result ≡ true → AreSingle links.now }
    ensures no { result ≡ false → AreSingle links.now → ⊥ }
{
    for (j, link) in links.iter().enumerate() {
        if link_by(near, link.tail, link.head) != Some(j as u32) {
            return false;
        }
    }
    true
}

/// Whether these are links between so many nodes that `Links::new` takes: no two of them join the same two nodes, each
/// has a concave gain, and there is room for them. It fails only where memory runs out.
pub fn are_plain(alloc: Global, nodes: u32, links: &[Link]) -> Result<bool, OutOfMemory>
    ensures yes { result ≡ Ok true → AreServed nodes links.now }
    ensures no { result ≡ Ok false → AreServed nodes links.now → ⊥ }
{
    if MOST_NODES < nodes || MOST_LINKS < links.len() || !are_links(links, nodes) {
        return Ok(false);
    }
    let near = lists(alloc, nodes, links)?;
    Ok(are_single(links, &near, nodes))
}
