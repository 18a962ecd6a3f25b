//! Searches for negative cycles by labels that are carried from one search to the next.
//!
//! Nothing rests on these labels but time: what a search leaves over is found by `settle`. A search looks at the arcs that
//! the labels keep and at those of one node, and leaves labels that keep all of these, or a lot goes round a cycle.

ghost use Rattle.std.specs.Prelude.{◌≡◌, ◌<◌, ◌≤◌, ◌+◌, ◌*◌, ◌<ℤ◌, IfSome, true, false, length, slice_get, Some};
ghost use Rattle.tn_base.specs.Sets.{has};
ghost use Rattle.tn_cycle.specs.Answers.{AreNear};
ghost use Rattle.tn_links.specs.Flows.{IsKeptFlow, total_gain};
ghost use Rattle.tn_links.specs.Lots.{AreLight};
ghost use Rattle.tn_links.specs.Widths.{most_lot, near_enough};

use crate::light::{is_light, most_of};
use crate::links::Links;
use crate::lots::LotGraph;
use crate::push::push_round;
use crate::shown::Shown;
use tn_base::TradeSet;
use tn_cycle::{Finder, Path};

/// Labels that are farther from 0 are given up.
const NEAR_ENOUGH: i128 = 100_000_000_000_000_000_000_000_000;

/// A lot has at most so many units.
const MOST_LOT: u32 = 4_194_304;

/// Whether some label is far from 0.
fn are_far(finder: &Finder, nodes: u32) -> bool
    requires { nodes ≡ length finder.now.labels }
    ensures { result ≡ false → AreNear near_enough finder.now.labels }
{
    for v in 0..nodes {
        let label = finder.label(v);
        if label < -NEAR_ENOUGH || NEAR_ENOUGH < label {
            return true;
        }
    }
    false
}

/// Gives up labels where some are far from 0.
fn bring_near(finder: &mut Finder, nodes: u32)
    requires fits { finder.old.nodes ≡ nodes }
    requires labelled { length finder.old.labels ≡ nodes }
    ensures fits { finder.new.nodes ≡ nodes }
    ensures labelled { length finder.new.labels ≡ nodes }
    ensures near { AreNear near_enough finder.new.labels }
{
    if are_far(finder, nodes) {
        finder.label_all();
    }
}

/// Takes a node out of a set.
fn leave_out(nodes: &mut TradeSet<256>, node: u32)
    requires { node < 64 * 256 }
    ensures { has nodes.new node ≡ false }
{
    if nodes.has(node) {
        nodes.toggle(node);
    }
}

/// Looks for a negative cycle over the arcs that the labels keep and those of a node. A lot goes round the one that is
/// found.
fn search(
    links: &Links,
    levels: &mut [u32],
    finder: &mut Finder,
    before: &mut Finder,
    others: &mut TradeSet<256>,
    node: u32,
    lot: u32,
) -> bool
    requires fits { finder.old.nodes ≡ links.now.nodes }
    requires as_many { before.old.nodes ≡ links.now.nodes }
    requires labelled { length finder.old.labels ≡ links.now.nodes }
    requires wide { links.now.nodes ≤ 64 * 256 + 1 }
    requires kept { IsKeptFlow links.now.links.items levels.old }
    requires inside { node + 1 < links.now.nodes }
    requires light { AreLight links.now.links.items lot }
    ensures fits { finder.new.nodes ≡ links.now.nodes }
    ensures as_many { before.new.nodes ≡ links.now.nodes }
    ensures labelled { length finder.new.labels ≡ links.now.nodes }
    ensures kept { IsKeptFlow links.now.links.items levels.new }
    ensures gained { result ≡ true
        → total_gain links.now.links.items levels.old <ℤ total_gain links.now.links.items levels.new }
{
    bring_near(finder, links.nodes);
    before.label_as(finder);
    leave_out(others, node);
    let graph = LotGraph { links, levels, lot };
    let shown = Shown {
        graph,
        labels: before,
        node,
    };
    let found = finder.through(&shown, node, others);
    others.toggle(node);
    match found {
        Path::None => false,
        Path::Cycle { .. } => {
            push_round(links, levels, finder.listed(), lot);
            true
        }
    }
}

/// Whether a lot costs less than labels say.
fn is_cheaper(cost: Option<i128>, rise: i128) -> bool {
    match cost {
        Some(cost) => cost < rise,
        None => false,
    }
}

/// An end of a link, but for the last node, where the labels don't keep one of the link's arcs.
fn broken_end(links: &Links, levels: &[u32], finder: &Finder, j: u32, lot: u32) -> Option<u32>
    requires kept { IsKeptFlow links.now.links.items levels.now }
    requires labelled { length finder.now.labels ≡ links.now.nodes }
    requires inside { j < length links.now.links.items }
    requires small { lot ≤ most_lot }
    ensures { IfSome result (λ node. node + 1 < links.now.nodes) }
{
    let level = levels[j as usize];
    let (tail, head) = links.ends(j);
    let rise = finder.label(head).wrapping_sub(finder.label(tail));
    let forth = is_cheaper(links.lot_cost(j, level, lot, tail), rise);
    let back = is_cheaper(links.lot_cost(j, level, lot, head), rise.wrapping_neg());
    if forth || back {
        Some(if tail + 1 < links.nodes { tail } else { head })
    } else {
        None
    }
}

/// Searches at an end of a link, where the labels don't keep one of its arcs, until they keep all arcs of that end: what a
/// search that finds a cycle leaves unkept is at its node, so what was kept before stays kept.
fn mend(
    links: &Links,
    levels: &mut [u32],
    finder: &mut Finder,
    before: &mut Finder,
    others: &mut TradeSet<256>,
    j: u32,
    lot: u32,
)
    requires fits { finder.old.nodes ≡ links.now.nodes }
    requires as_many { before.old.nodes ≡ links.now.nodes }
    requires labelled { length finder.old.labels ≡ links.now.nodes }
    requires wide { links.now.nodes ≤ 64 * 256 + 1 }
    requires kept { IsKeptFlow links.now.links.items levels.old }
    requires inside { j < length links.now.links.items }
    requires light { AreLight links.now.links.items lot }
    ensures fits { finder.new.nodes ≡ links.now.nodes }
    ensures as_many { before.new.nodes ≡ links.now.nodes }
    ensures labelled { length finder.new.labels ≡ links.now.nodes }
    ensures kept { IsKeptFlow links.now.links.items levels.new }
{
    if let Some(node) = broken_end(links, levels, finder, j, lot) {
        while search(links, levels, finder, before, others, node, lot) {}
    }
}

/// The same for all links.
fn mend_all(
    links: &Links,
    levels: &mut [u32],
    finder: &mut Finder,
    before: &mut Finder,
    others: &mut TradeSet<256>,
    lot: u32,
)
    requires fits { finder.old.nodes ≡ links.now.nodes }
    requires as_many { before.old.nodes ≡ links.now.nodes }
    requires labelled { length finder.old.labels ≡ links.now.nodes }
    requires wide { links.now.nodes ≤ 64 * 256 + 1 }
    requires kept { IsKeptFlow links.now.links.items levels.old }
    requires light { AreLight links.now.links.items lot }
    ensures fits { finder.new.nodes ≡ links.now.nodes }
    ensures as_many { before.new.nodes ≡ links.now.nodes }
    ensures labelled { length finder.new.labels ≡ links.now.nodes }
    ensures kept { IsKeptFlow links.now.links.items levels.new }
{
    for j in 0..links.count() {
        mend(links, levels, finder, before, others, j, lot);
    }
}

/// Halves each label, rounded down.
fn halve_labels(finder: &mut Finder, nodes: u32)
    requires fits { finder.old.nodes ≡ nodes }
    requires labelled { length finder.old.labels ≡ nodes }
    ensures fits { finder.new.nodes ≡ nodes }
    ensures labelled { length finder.new.labels ≡ nodes }
{
    for v in 0..nodes {
        let half = finder.label(v) >> 1;
        finder.set_label(v, half);
    }
}

/// The first so many nodes.
fn first_nodes(count: u32) -> TradeSet<256>
    requires { count ≤ 64 * 256 }
{
    let mut nodes = TradeSet::empty();
    for v in 0..count {
        nodes.toggle(v);
    }
    nodes
}

/// Sends lots of 2^22 units round negative cycles, then lots half as large, down to one unit, as far as searches by labels
/// find such cycles. Lots that could cost more than an arc of a graph may are passed over. The flow stays a kept one.
#[tactic(auto, using(crate::specs::LotLemmas::light_lots))]
pub(crate) fn send_lots(links: &Links, levels: &mut [u32], finder: &mut Finder, before: &mut Finder)
    requires fits { finder.old.nodes ≡ links.now.nodes }
    requires as_many { before.old.nodes ≡ links.now.nodes }
    requires wide { links.now.nodes ≤ 64 * 256 + 1 }
    requires kept { IsKeptFlow links.now.links.items levels.old }
    ensures fits { finder.new.nodes ≡ links.now.nodes }
    ensures kept { IsKeptFlow links.now.links.items levels.new }
{
    let mut others = first_nodes(links.nodes.saturating_sub(1));
    finder.label_all();
    let most = most_of(links);
    let mut lot = MOST_LOT;
    while lot > 0 {
        if is_light(most, lot) {
            mend_all(links, levels, finder, before, &mut others, lot);
        }
        halve_labels(finder, links.nodes);
        lot /= 2;
    }
}
