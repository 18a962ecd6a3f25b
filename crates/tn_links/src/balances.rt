//! Whether levels are a kept flow.

ghost use Rattle.std.specs.Prelude.{◌≡◌, ℕ, ◌<◌, ◌≤◌, ◌^◌, pos, ◌+ℤ◌, ◌-ℤ◌, true, length, get_or, set, slice_get, Some, IfOk, Ok};
ghost use Rattle.tn_base.specs.Arcs.{IsAtMost};
ghost use Rattle.tn_links.specs.declared.link.Link.{Link};
ghost use Rattle.tn_links.specs.Flows.{AreWithin, IsKeptFlow, balance, brought, flow_at};
ghost use Rattle.tn_links.specs.Links.{AreLinks, room};
ghost use Rattle.tn_links.specs.Widths.{most_links, most_units};

use crate::link::{Link, room};
use crate::links::Links;
use std::alloc::Global;
use tn_base::OutOfMemory;

/// Whether a level is at most the units that the steps of a link have.
fn is_within(link: &Link, level: u32) -> bool
    requires { room link.now.steps.items ≤ most_units }
    ensures { result ≡ true → level ≤ room link.now.steps.items }
{
    level <= room(&link.steps)
}

/// Whether no level is above the units that its link's steps have.
fn are_within(links: &[Link], levels: &[u32]) -> bool
    requires one_each { length levels.now ≡ length links.now }
    requires few { (j : ℕ) (link : Link) → slice_get links.now j ≡ Some link → room link.steps.items ≤ most_units }
    ensures { result ≡ true → AreWithin links.now levels.now }
{
    for j in 0..links.len() {
        if !is_within(&links[j], levels[j]) {
            return false;
        }
    }
    true
}

/// Adds to the number at a place.
fn add_at(numbers: &mut Vec<i128>, place: u32, more: i128)
    requires inside { place < length numbers.old.items }
    requires before { IsAtMost (get_or numbers.old.items place (pos 0)) (2 ^ 60) }
    requires more { IsAtMost more (2 ^ 34) }
    ensures { numbers.new.items ≡ set numbers.old.items place (get_or numbers.old.items place (pos 0) +ℤ more) }
{
    numbers[place as usize] += more;
}

/// Takes from the number at a place.
fn take_at(numbers: &mut Vec<i128>, place: u32, less: i128)
    requires inside { place < length numbers.old.items }
    requires before { IsAtMost (get_or numbers.old.items place (pos 0)) (2 ^ 60) }
    requires less { IsAtMost less (2 ^ 34) }
    ensures { numbers.new.items ≡ set numbers.old.items place (get_or numbers.old.items place (pos 0) -ℤ less) }
{
    numbers[place as usize] -= less;
}

/// The units that flow over a link from its tail to its head at a level.
fn flow_at(link: &Link, level: u32) -> i128
    ensures flow { result ≡ flow_at link.now level }
    ensures small { IsAtMost result (2 ^ 34) }
{
    i128::from(level) - i128::from(link.back)
}

/// Adds the flow over a link at the node to which it leads, and takes it at the node from which it leads.
fn bring(balances: &mut Vec<i128>, link: &Link, level: u32)
    requires tail { link.now.tail < length balances.old.items }
    requires head { link.now.head < length balances.old.items }
    requires small { (v : ℕ) → IsAtMost (get_or balances.old.items v (pos 0)) (2 ^ 59) }
    ensures sized { length balances.new.items ≡ length balances.old.items }
    ensures brought { (v : ℕ) → get_or balances.new.items v (pos 0)
        ≡ get_or balances.old.items v (pos 0) +ℤ brought link.now (flow_at link.now level) v }
{
    let flow = flow_at(link, level);
    add_at(balances, link.head, flow);
    take_at(balances, link.tail, flow);
}

/// What flows into each node, less what flows out.
fn balances(
    alloc: Global,
    nodes: u32,
    links: &[Link],
    levels: &[u32],
) -> Result<Vec<i128>, OutOfMemory>
    requires one_each { length levels.now ≡ length links.now }
    requires each { AreLinks nodes links.now }
    requires few { length links.now ≤ most_links }
    ensures { IfOk result (λ balances. (v : ℕ) → get_or balances.items v (pos 0) ≡ balance links.now levels.now v) }
{
    let mut balances = vec![in alloc; 0; nodes as usize]?;
    for j in 0..links.len() {
        bring(&mut balances, &links[j], levels[j]);
    }
    Ok(balances)
}

/// Whether all numbers are 0.
fn are_zero(numbers: &[i128]) -> bool
    ensures { result ≡ true → (v : ℕ) → get_or numbers.now v (pos 0) ≡ pos 0 }
{
    for number in numbers {
        if *number != 0 {
            return false;
        }
    }
    true
}

impl Links {
    /// Whether levels are a kept flow. It fails only where memory runs out.
    pub(crate) fn keeps(&self, alloc: Global, levels: &[u32]) -> Result<bool, OutOfMemory>
        ensures { result ≡ Ok true → IsKeptFlow self.now.links.items levels.now }
    {
        if levels.len() != self.links.len() || !are_within(&self.links, levels) {
            return Ok(false);
        }
        let balances = balances(alloc, self.nodes, &self.links, levels)?;
        Ok(are_zero(&balances))
    }
}
