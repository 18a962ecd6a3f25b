//! Walks over the links of a market as steps.

ghost use Rattle.std.specs.Prelude.{◌≡◌, ℕ, ◌-◌, ◌<◌, ◌≤◌, ◌++◌, [], All, IfOk, get_or, length, suc, true};
ghost use Rattle.tn_counts.specs.Markets.{IsWideMarket};
ghost use Rattle.tn_counts.specs.Tree.{AreLinksOf, null_node, trade_node};
ghost use Rattle.tn_tree.specs.Steps.{entered, step_at, stepped_down};

use crate::around::trade_node;
use std::alloc::Global;
use tn_base::OutOfMemory;
use tn_counts::UnitMarket;
use tn_links::Links;

/// One unit more of a trade, or one fewer.
#[derive(Clone, Copy, PartialEq, Eq)]
pub struct UnitStep {
    /// The number of the trade.
    pub trade: u32,
    /// Whether it is one more.
    pub more: bool,
}

/// Adds what a node is on a walk that enters it from another node, or leaves it to that.
fn add_step(
    market: &UnitMarket,
    links: &Links,
    steps: &mut Vec<Option<UnitStep>>,
    node: u32,
    other: u32,
    enters: bool,
) -> Result<(), OutOfMemory>
    requires market { IsWideMarket market.now }
    requires links { AreLinksOf market.now [] links.now.links.items }
    requires inside { node < suc (null_node market.now) }
    ensures { IfOk result (λ done. steps.new.items ≡ steps.old.items ++ step_at market.now enters node other) }
{
    let place = trade_node(market, 0);
    if node == trade_node(market, market.trades.len() as u32) {
        steps.push(None)?;
    } else if place <= node {
        let sells = links.ends(node).0 == other;
        let more = if enters { sells } else { !sells };
        steps.push(Some(UnitStep {
            trade: node - place,
            more,
        }))?;
    }
    Ok(())
}

/// Adds what nodes are on a walk, the first of which is entered from another node.
fn add_entered(
    market: &UnitMarket,
    links: &Links,
    steps: &mut Vec<Option<UnitStep>>,
    from: u32,
    nodes: &[u32],
) -> Result<(), OutOfMemory>
    requires market { IsWideMarket market.now }
    requires links { AreLinksOf market.now [] links.now.links.items }
    requires inside { All (λ v. v < suc (null_node market.now)) nodes.now }
    ensures { IfOk result (λ done. steps.new.items ≡ steps.old.items ++ entered market.now from nodes.now) }
{
    let mut before = from;
    for node in nodes {
        add_step(market, links, steps, *node, before, true)?;
        before = *node;
    }
    Ok(())
}

/// The steps of the nodes of a walk that is closed, or begins with null.
pub(crate) fn steps_round(
    alloc: Global,
    market: &UnitMarket,
    links: &Links,
    nodes: &[u32],
) -> Result<Vec<Option<UnitStep>>, OutOfMemory>
    requires market { IsWideMarket market.now }
    requires links { AreLinksOf market.now [] links.now.links.items }
    requires some { 1 ≤ length nodes.now }
    requires inside { All (λ v. v < suc (null_node market.now)) nodes.now }
    ensures { IfOk result (λ steps. steps.items
        ≡ entered market.now (get_or nodes.now (length nodes.now - 1) 0) nodes.now) }
{
    let mut steps = Vec::new(alloc);
    add_entered(market, links, &mut steps, nodes[nodes.len() - 1], nodes)?;
    Ok(steps)
}

/// The steps of the nodes of a walk that begins with a trade and ends with null.
pub(crate) fn steps_down(
    alloc: Global,
    market: &UnitMarket,
    links: &Links,
    nodes: &[u32],
) -> Result<Vec<Option<UnitStep>>, OutOfMemory>
    requires market { IsWideMarket market.now }
    requires links { AreLinksOf market.now [] links.now.links.items }
    requires two { 2 ≤ length nodes.now }
    requires inside { All (λ v. v < suc (null_node market.now)) nodes.now }
    ensures { IfOk result (λ steps. steps.items ≡ stepped_down market.now nodes.now) }
{
    let mut steps = Vec::new(alloc);
    add_step(market, links, &mut steps, nodes[0], nodes[1], false)?;
    add_entered(market, links, &mut steps, nodes[0], &nodes[1..])?;
    Ok(steps)
}
