//! Tests of flows of greatest gain: transport problems by their tables, with their published least costs.

use std::alloc::Global;
use std::test::Fail;
use tn_base::OutOfMemory;
use tn_cycle::Finder;
use tn_links::{Link, Links, Step, are_plain, settle};

/// Tail, head, units, and what each costs; one that is wanted costs less than nothing.
type Row = (u32, u32, u32, i64);

/// A row as a link.
fn link_of(alloc: Global, row: Row) -> Result<Link, OutOfMemory> {
    let (tail, head, units, cost) = row;
    let mut steps = Vec::new(alloc);
    steps.push(Step {
        units,
        each: cost.wrapping_neg(),
    })?;
    Ok(Link {
        tail,
        head,
        back: 0,
        steps,
    })
}

/// What the flow of greatest gain costs over the rows that cost something. None where the rows aren't such links.
fn freight(alloc: Global, nodes: u32, rows: &[Row]) -> Result<Option<i64>, OutOfMemory> {
    let mut links = Vec::new(alloc);
    for row in rows {
        links.push(link_of(alloc, *row)?)?;
    }
    if nodes == 0 || !are_plain(alloc, nodes, &links)? {
        return Ok(None);
    }
    let links = Links::new(alloc, nodes, links)?;
    let mut levels = links.idle(alloc)?;
    let mut finder = Finder::new(alloc, nodes)?;
    let mut before = Finder::new(alloc, nodes)?;
    settle(&links, &mut levels, &mut finder, &mut before);
    let mut sum = 0i64;
    for (row, level) in rows.iter().zip(levels.iter()) {
        sum = sum.wrapping_add(row.3.max(0).wrapping_mul(i64::from(*level)));
    }
    Ok(Some(sum))
}

/// The cannery problem of Dantzig, Linear Programming and Extensions (1963), chapter 3-3, with the numbers of GLPK's
/// example: 350 and 600 cases are made, 325, 300 and 275 are wanted. The least cost is 153,675.
#[test]
fn ships_the_cases(rt: HostRuntime) -> Result<(), Fail> {
    let rows = [
        (0, 1, 350, 0),
        (0, 2, 600, 0),
        (1, 3, 900, 225),
        (1, 4, 900, 153),
        (1, 5, 900, 162),
        (2, 3, 900, 225),
        (2, 4, 900, 162),
        (2, 5, 900, 126),
        (3, 0, 325, -100_000),
        (4, 0, 300, -100_000),
        (5, 0, 275, -100_000),
    ];
    assert!(rt; freight(rt.alloc(), 6, &rows)? == Some(153_675));
    Ok(())
}

/// The power of three plants for four cities (Winston, Operations Research, the chapter on transportation): 35, 50 and 40
/// are made, 45, 20, 30 and 30 are wanted. The least cost is 1,020.
#[test]
fn sends_the_power(rt: HostRuntime) -> Result<(), Fail> {
    let rows = [
        (0, 1, 35, 0),
        (0, 2, 50, 0),
        (0, 3, 40, 0),
        (1, 4, 125, 8),
        (1, 5, 125, 6),
        (1, 6, 125, 10),
        (1, 7, 125, 9),
        (2, 4, 125, 9),
        (2, 5, 125, 12),
        (2, 6, 125, 13),
        (2, 7, 125, 7),
        (3, 4, 125, 14),
        (3, 5, 125, 9),
        (3, 6, 125, 16),
        (3, 7, 125, 5),
        (4, 0, 45, -1_000),
        (5, 0, 20, -1_000),
        (6, 0, 30, -1_000),
        (7, 0, 30, -1_000),
    ];
    assert!(rt; freight(rt.alloc(), 8, &rows)? == Some(1_020));
    Ok(())
}

/// Two links between the same two nodes are no such links.
#[test]
fn refuses_twins(rt: HostRuntime) -> Result<(), Fail> {
    assert!(rt; freight(rt.alloc(), 2, &[(0, 1, 1, 1), (1, 0, 1, 1)])?.is_none());
    Ok(())
}
