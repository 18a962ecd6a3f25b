//! The least cost of a circulation.

ghost use Rattle.std.specs.Prelude.{◌≡◌, ◌≤◌, ◌*ℤ◌, ℤ, pos, true, false, length, IfOk, IfSome, Ok, None};
ghost use Rattle.tn_base.specs.Arcs.{IsAtMost};
ghost use Rattle.tn_links.specs.Widths.{most_each, most_links};
ghost use Rattle.tn_dimacs.specs.declared.least.Answer.TheVariants.{Least, NotServed};
ghost use Rattle.tn_dimacs.specs.Circulations.{IsLeastCost, cost_of};
ghost use Rattle.tn_dimacs.specs.Served.{AreCheap, AreLinksOf, AreSearched, IsBest, IsLinkOf, IsServed};

use crate::problem::{Arc, Problem};
use std::alloc::Global;
use tn_base::OutOfMemory;
use tn_cycle::Finder;
use tn_links::{Link, Links, Step, are_plain, settle_near};

/// A unit over an arc costs at most so much, in size.
const MOST_EACH: i64 = 2_000_000_000_000_000;

/// What a problem is answered.
#[derive(Clone, Copy)]
pub enum Answer {
    /// The least cost of a circulation.
    Least(i128),
    /// The problem is too large, an arc isn't one between two of its nodes, or two arcs join the same two nodes.
    NotServed,
}

/// Whether no unit costs much.
fn are_cheap(arcs: &[Arc]) -> bool
    ensures yes { result ≡ true → AreCheap arcs.now }
    ensures no { result ≡ false → AreCheap arcs.now → ⊥ }
{
    for arc in arcs {
        let cost = arc.cost;
        if cost < -MOST_EACH || MOST_EACH < cost {
            return false;
        }
    }
    true
}

/// An arc as a link, whose units gain what they don't cost.
fn link_of(alloc: Global, arc: Arc) -> Result<Link, OutOfMemory>
    requires { IsAtMost arc.cost most_each }
    ensures { IfOk result (λ link. IsLinkOf arc link) }
{
    let mut steps = Vec::new(alloc);
    steps.push(Step {
        units: arc.capacity,
        each: -arc.cost,
    })?;
    Ok(Link {
        tail: arc.tail,
        head: arc.head,
        back: 0,
        steps,
    })
}

/// The arcs as links.
fn links_of(alloc: Global, arcs: &[Arc]) -> Result<Vec<Link>, OutOfMemory>
    requires { AreCheap arcs.now }
    ensures { IfOk result (λ links. AreLinksOf arcs.now links.items) }
{
    let mut links = Vec::new(alloc);
    for arc in arcs {
        links.push(link_of(alloc, *arc)?)?;
    }
    Ok(links)
}

/// The levels of a circulation of least cost, None where the links can't be searched.
fn settled(alloc: Global, nodes: u32, links: Vec<Link>) -> Result<Option<Vec<u32>>, OutOfMemory>
    ensures least { IfOk result (λ found. IfSome found (λ levels. IsBest links.items levels.items)) }
    ensures none { result ≡ Ok None → AreSearched nodes links.items → ⊥ }
{
    if nodes == 0 || !are_plain(alloc, nodes, &links)? {
        return Ok(None);
    }
    let links = Links::new(alloc, nodes, links)?;
    let mut levels = links.begin(alloc)?;
    let mut finder = Finder::new(alloc, nodes)?;
    let mut before = Finder::new(alloc, nodes)?;
    settle_near(&links, &mut levels, &mut finder, &mut before);
    Ok(Some(levels))
}

/// What so many units over an arc cost.
fn cost(each: i64, units: u32) -> i128
    requires { IsAtMost each most_each }
    ensures { result ≡ each *ℤ pos units }
{
    i128::from(each) * i128::from(units)
}

/// What the flows cost.
fn cost_of(arcs: &[Arc], flows: &[u32]) -> i128
    requires cheap { AreCheap arcs.now }
    requires few { length arcs.now ≤ most_links }
    requires one_each { length flows.now ≡ length arcs.now }
    ensures { result ≡ cost_of arcs.now flows.now }
{
    let mut sum = 0;
    for k in 0..arcs.len() {
        sum += cost(arcs[k].cost, flows[k]);
    }
    sum
}

/// The least cost of all circulations over the arcs of a problem. It fails only where memory runs out.
pub fn least_cost(alloc: Global, problem: &Problem) -> Result<Answer, OutOfMemory>
    ensures least { (least : ℤ) → result ≡ Ok (Least least) → IsLeastCost problem.now.arcs.items least }
    ensures not_served { result ≡ Ok NotServed → IsServed problem.now.nodes problem.now.arcs.items → ⊥ }
{
    if !are_cheap(&problem.arcs) {
        return Ok(Answer::NotServed);
    }
    let links = links_of(alloc, &problem.arcs)?;
    match settled(alloc, problem.nodes, links)? {
        Some(flows) => Ok(Answer::Least(cost_of(&problem.arcs, &flows))),
        None => Ok(Answer::NotServed),
    }
}
