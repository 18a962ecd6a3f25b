//! Tests of outcomes by counts: one lane from a mill to a customer, and the mills.

use crate::units::{add_set, add_trade, market_of, mills};
use std::alloc::Global;
use std::test::Fail;
use tn_base::OutOfMemory;
use tn_counts::{UnitContract, UnitMarket, is_unit_market};
use tn_unit_judge::{UnitVerdict, are_served_contracts, judge_outcome};

/// A mill (0) that makes 60 units at 50 and 40 more at 55, and a customer (1), to whom so many are worth 60 and 30 more 54,
/// with a lane of so many units.
fn lane(alloc: Global, units: u32, wanted: u32) -> Result<UnitMarket, OutOfMemory> {
    let mut market = market_of(alloc, 2);
    add_trade(&mut market, (0, 1, units, 0))?;
    add_set(alloc, &mut market, 0, &[0], 100, &[(40, 55), (60, 50)])?;
    add_set(alloc, &mut market, 1, &[0], 0, &[(wanted, 60), (30, 54)])?;
    Ok(market)
}

/// What is said of contracts: the trade of each, its units, and its price in halves.
fn judged(
    alloc: Global,
    market: &UnitMarket,
    rows: &[(u32, u32, i128)],
) -> Result<UnitVerdict, Fail> {
    let mut contracts = Vec::new(alloc);
    for row in rows {
        contracts.push(UnitContract {
            trade: row.0,
            units: row.1,
            price: row.2,
        })?;
    }
    if !is_unit_market(market) {
        return Err("it is a market")?;
    }
    if !are_served_contracts(alloc, &market.trades, &contracts)? {
        return Err("they can be signed together")?;
    }
    Ok(judge_outcome(alloc, market, 2, &contracts)?)
}

/// The mill makes the last 10 of 70 units at 55, and is paid 52 for 30: it keeps 20 of these, and gains 3 for each of ten.
#[test]
fn drops_the_cheapest_of_three_prices(rt: HostRuntime) -> Result<(), Fail> {
    let market = lane(rt.alloc(), 100, 70)?;
    let UnitVerdict::Drops(drop) = judged(
        rt.alloc(),
        &market,
        &[(0, 30, 104), (0, 30, 116), (0, 10, 110)],
    )?
    else {
        return Err("the mill would drop ten units")?;
    };
    let is_mill = drop.firm == 0 && drop.gain == Some(60);
    assert!(rt; is_mill && drop.keeps.as_slice() == [20, 30, 10].as_slice());
    Ok(())
}

/// The customer has no use for more than 60 units, so 70 are impossible for it. It keeps 30, which are worth 60: ten of them
/// at 56, and twenty at 57.
#[test]
fn drops_what_is_impossible(rt: HostRuntime) -> Result<(), Fail> {
    let market = lane(rt.alloc(), 100, 30)?;
    let UnitVerdict::Drops(drop) = judged(rt.alloc(), &market, &[(0, 60, 114), (0, 10, 112)])?
    else {
        return Err("the customer would drop forty units")?;
    };
    let is_customer = drop.firm == 1 && drop.gain.is_none();
    assert!(rt; is_customer && drop.keeps.as_slice() == [20, 10].as_slice());
    Ok(())
}

/// At 55 the mill would as soon sell 70 units as 100, and the customer wants 70: no more are wanted at 55, which is paid for
/// what is signed.
#[test]
fn completes_what_is_signed_in_part(rt: HostRuntime) -> Result<(), Fail> {
    let market = lane(rt.alloc(), 100, 70)?;
    let UnitVerdict::Completes { prices } = judged(
        rt.alloc(),
        &market,
        &[(0, 45, 110), (0, 25, 110)],
    )?
    else {
        return Err("55 completes it")?;
    };
    assert!(rt; prices.as_slice() == [110].as_slice());
    Ok(())
}

/// All 70 units of the lane are signed, at three prices at which both gain: no unit is left, and one of them is its price.
#[test]
fn completes_three_prices(rt: HostRuntime) -> Result<(), Fail> {
    let market = lane(rt.alloc(), 70, 70)?;
    let UnitVerdict::Completes { prices } = judged(
        rt.alloc(),
        &market,
        &[(0, 30, 110), (0, 20, 115), (0, 20, 120)],
    )?
    else {
        return Err("any price completes it")?;
    };
    assert!(rt; prices.as_slice() == [120].as_slice());
    Ok(())
}

/// X pays 120 for units that cost 40 to make and 9 to hand on, so more would be sold at 66 than are signed.
#[test]
fn blocks_where_more_is_wanted(rt: HostRuntime) -> Result<(), Fail> {
    let market = mills(rt.alloc())?;
    let verdict = judged(
        rt.alloc(),
        &market,
        &[(0, 60, 104), (0, 40, 106), (5, 100, 132)],
    )?;
    assert!(rt; matches!(verdict, UnitVerdict::Blocks { .. }));
    Ok(())
}

/// Nothing is signed, and a unit is worth 60 to the customer and costs the mill 50: with the tax of 1 at both ends in sixths
/// they trade it at more than 50 and less than 60.
#[test]
fn blocks_where_nothing_is_signed(rt: HostRuntime) -> Result<(), Fail> {
    let market = lane(rt.alloc(), 100, 70)?;
    let UnitVerdict::Blocks { offers, over } = judged(rt.alloc(), &market, &[])? else {
        return Err("they would trade a unit")?;
    };
    let is_one = offers.len() == 1 && offers[0].trade == 0 && offers[0].units == 1;
    assert!(rt; over == 6 && is_one);
    assert!(rt; offers.len() == 1 && 300 < offers[0].price && offers[0].price < 360);
    Ok(())
}
