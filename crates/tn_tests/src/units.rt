//! Tests of markets whose trades have units: mills, warehouses and customers, and a thousand lanes.

use std::alloc::Global;
use std::test::Fail;
use tn_base::OutOfMemory;
use tn_counts::{CountSet, UnitAmounts, UnitMarket, UnitTrade, is_unit_market};
use tn_links::Step;
use tn_tree::{best_counts, solve_market};

/// A market without trades and sets.
pub(crate) fn market_of(alloc: Global, firms: u32) -> UnitMarket {
    UnitMarket {
        firms,
        trades: Vec::new(alloc),
        amounts: Vec::new(alloc),
        sets: Vec::new(alloc),
    }
}

/// Adds a trade: its seller, its buyer, its units, and what shipping one costs the seller.
pub(crate) fn add_trade(
    market: &mut UnitMarket,
    row: (u32, u32, u32, i64),
) -> Result<(), OutOfMemory> {
    let (seller, buyer, units, freight) = row;
    market.trades.push(UnitTrade {
        seller,
        buyer,
        units,
    })?;
    market.amounts.push(UnitAmounts {
        seller: freight.wrapping_neg(),
        buyer: 0,
    })?;
    Ok(())
}

/// Adds a set of a firm: its trades, and what units add from the fewest on, which are so many below none.
pub(crate) fn add_set(
    alloc: Global,
    market: &mut UnitMarket,
    firm: u32,
    members: &[u32],
    back: u32,
    rows: &[(u32, i64)],
) -> Result<(), OutOfMemory> {
    let members = Vec::from_slice(alloc, members)?;
    let mut steps = Vec::new(alloc);
    for row in rows {
        steps.push(Step {
            units: row.0,
            each: row.1,
        })?;
    }
    market.sets.push(CountSet {
        firm,
        members,
        constant: 0,
        back,
        steps,
    })?;
    Ok(())
}

/// Three mills (0 to 2), two warehouses (3 and 4), which hand on what they get, and three customers (5 to 7).
pub(crate) fn mills(alloc: Global) -> Result<UnitMarket, OutOfMemory> {
    let mut market = market_of(alloc, 8);
    for row in [
        (0, 3, 350, 0),
        (0, 4, 200, 0),
        (1, 3, 300, 0),
        (1, 4, 300, 0),
        (2, 4, 400, 4),
        (3, 5, 500, 3),
        (3, 6, 250, 5),
        (4, 6, 250, 4),
        (4, 7, 600, 2),
    ] {
        add_trade(&mut market, row)?;
    }
    add_set(alloc, &mut market, 0, &[0, 1], 500, &[(200, 55), (300, 40)])?;
    add_set(alloc, &mut market, 1, &[2, 3], 500, &[(250, 60), (250, 42)])?;
    add_set(alloc, &mut market, 2, &[4], 400, &[(400, 45)])?;
    add_set(alloc, &mut market, 3, &[0, 2], 0, &[(400, -6), (200, -11)])?;
    add_set(alloc, &mut market, 3, &[0, 2, 5, 6], 0, &[])?;
    add_set(alloc, &mut market, 4, &[1, 3, 4], 0, &[(700, -5)])?;
    add_set(alloc, &mut market, 4, &[1, 3, 4, 7, 8], 0, &[])?;
    add_set(
        alloc,
        &mut market,
        5,
        &[5],
        0,
        &[(200, 120), (150, 90), (100, 60)],
    )?;
    add_set(alloc, &mut market, 6, &[6, 7], 0, &[(150, 110), (250, 75)])?;
    add_set(alloc, &mut market, 7, &[8], 0, &[(300, 95), (300, 65)])?;
    Ok(market)
}

/// The surplus is 44,300. Of two lanes to each warehouse it may go by either; all other lanes have one count.
#[test]
fn runs_the_mills(rt: HostRuntime) -> Result<(), Fail> {
    let market = mills(rt.alloc())?;
    if !is_unit_market(&market) {
        return Err("the mills are a market")?;
    }
    let solved = solve_market(rt.alloc(), &market)?;
    let [a_n, a_s, b_n, b_s, rest @ ..] = solved.counts.as_slice() else {
        return Err("there are nine lanes")?;
    };
    let are_known = rest == [400, 350, 150, 250, 400].as_slice();
    let a_n = u64::from(*a_n);
    let moved = [
        a_n + u64::from(*a_s),
        a_n + u64::from(*b_n),
        250 + u64::from(*b_s),
    ];
    let is_within = 300 <= a_n && a_n <= 350 && moved == [500, 500, a_n];
    assert!(rt; solved.surplus == 44_300 && are_known && is_within);
    Ok(())
}

/// At these prices X buys 350 units, which are worth 120 and 90 to it, and Mill-C sells none below its cost.
#[test]
fn takes_what_is_best(rt: HostRuntime) -> Result<(), Fail> {
    let market = mills(rt.alloc())?;
    let prices = [58, 58, 58, 58, 48, 72, 74, 67, 65];
    if market.trades.len() != prices.len() {
        return Err("there are nine lanes")?;
    }
    if !is_unit_market(&market) {
        return Err("the mills are a market")?;
    }
    let best = best_counts(rt.alloc(), &market, &prices)?;
    assert!(rt; (best.bought.get(5), best.sold.get(4)) == (Some(&350), Some(&0)));
    Ok(())
}

/// Twenty plants (0 to 19) and fifty customers (20 to 69), with a lane of 755 units between each two. A plant makes 10,000
/// units at 10 and as many at 20; a customer pays 30 for 5,000 and 15 for as many. So 200,000 units that cost 10 and 50,000
/// that cost 20 go to those who pay 30.
fn thousand_lanes(alloc: Global) -> Result<UnitMarket, OutOfMemory> {
    let mut market = market_of(alloc, 70);
    for plant in 0..20 {
        for customer in 20..70 {
            add_trade(&mut market, (plant, customer, 755, 0))?;
        }
    }
    for plant in 0..20 {
        let mut lanes = Vec::new(alloc);
        for k in 0..50 {
            lanes.push(50 * plant + k)?;
        }
        add_set(
            alloc,
            &mut market,
            plant,
            &lanes,
            20_000,
            &[(10_000, 20), (10_000, 10)],
        )?;
    }
    for k in 0..50 {
        let mut lanes = Vec::new(alloc);
        for plant in 0..20 {
            lanes.push(50 * plant + k)?;
        }
        add_set(
            alloc,
            &mut market,
            20 + k,
            &lanes,
            0,
            &[(5_000, 30), (5_000, 15)],
        )?;
    }
    Ok(market)
}

#[test]
fn fills_a_thousand_lanes(rt: HostRuntime) -> Result<(), Fail> {
    let market = thousand_lanes(rt.alloc())?;
    if !is_unit_market(&market) {
        return Err("the lanes are a market")?;
    }
    let solved = solve_market(rt.alloc(), &market)?;
    assert!(rt; (solved.surplus, solved.counts.len()) == (4_500_000, 1_000));
    Ok(())
}
