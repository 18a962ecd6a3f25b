//! Lots sent over links and round cycles.

ghost use Rattle.std.specs.Prelude.{◌≡◌, ◌<◌, ◌-◌, ◌+◌, length, min, if◌then◌else◌};
ghost use Rattle.std.specs.Prelude.{◌<ℤ◌};
ghost use Rattle.tn_links.specs.Flows.{IsKeptFlow, total_gain};
ghost use Rattle.tn_links.specs.Lots.{link_arc, stepped};
ghost use Rattle.tn_links.specs.Rounds.{GoesRound};
ghost use Rattle.tn_links.specs.Widths.{most_level};

use crate::links::Links;

/// The level after a lot more or less. No level of a kept flow comes near the limits of its type.
fn level_after(more: bool, level: u32, lot: u32) -> u32
    ensures { result ≡ (if more then min (level + lot) most_level else level - lot) }
{
    if more {
        level.saturating_add(lot)
    } else {
        level.saturating_sub(lot)
    }
}

/// Sends a lot over the link that joins two nodes, from the first one.
fn step(links: &Links, levels: &mut [u32], from: u32, to: u32, lot: u32)
    requires one_each { length levels.old ≡ length links.now.links.items }
    requires from { from < links.now.nodes }
    requires to { to < links.now.nodes }
    ensures { levels.new ≡ stepped links.now.links.items lot levels.old from to }
{
    match links.between(from, to) {
        Some(j) => {
            let more = links.links[j as usize].tail == from;
            levels[j as usize] = level_after(more, levels[j as usize], lot);
        }
        None => {}
    }
}

/// Sends a lot round a cycle of negative cost, by its nodes in order. The flow is kept, and gains more.
pub(crate) fn push_round(links: &Links, levels: &mut [u32], nodes: &[u32], lot: u32)
    requires kept { IsKeptFlow links.now.links.items levels.old }
    requires round { GoesRound links.now.nodes (link_arc links.now.links.items levels.old lot) nodes.now }
    ensures kept { IsKeptFlow links.now.links.items levels.new }
    ensures gained { total_gain links.now.links.items levels.old <ℤ total_gain links.now.links.items levels.new }
{
    let first = nodes[0];
    let mut at = first;
    for k in 1..nodes.len() {
        let next = nodes[k];
        step(links, levels, at, next, lot);
        at = next;
    }
    step(links, levels, at, first, lot);
}
