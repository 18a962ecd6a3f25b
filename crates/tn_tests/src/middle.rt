//! Tests of middlemen.

use crate::asking::{best, best_from, shape, value};
use std::alloc::Global;
use std::test::Fail;
use tn_base::Side;
use tn_middle::Middle;

/// A middleman with room for one car, who may buy it from two owners, and sell it to two buyers.
fn dealer(alloc: Global) -> Result<Middle, Fail> {
    let sides = vec![in alloc; Side::Buy, Side::Buy, Side::Sell, Side::Sell]?;
    Ok(Middle::new(sides, vec![in alloc; 1, 2, 0, 3]?, None))
}

#[test]
fn a_dealer_in_one_car(rt: HostRuntime) -> Result<(), Fail> {
    let dealer = dealer(rt.alloc())?;
    assert!(rt; shape(&rt, &dealer, 1) == (4, Side::Buy, 124_000_000_000));
    let values = [value(&rt, &dealer, 0b0110), value(&rt, &dealer, 0b0001)];
    let best = best(&rt, &dealer, 0b1111, &[4, 2, 9, 7]);
    assert!(rt; (values, best) == ([Some(-2), None], Some((0b1010, 6))));
    Ok(())
}

/// A middleman who may keep what it buys.
fn keeper(alloc: Global) -> Result<Middle, Fail> {
    let sides = vec![in alloc; Side::Buy, Side::Sell]?;
    Ok(Middle::new(sides, vec![in alloc; 2, 3]?, Some(8)))
}

#[test]
fn a_purchase_is_kept(rt: HostRuntime) -> Result<(), Fail> {
    let middle = keeper(rt.alloc())?;
    let values = [
        value(&rt, &middle, 0b01),
        value(&rt, &middle, 0b11),
        value(&rt, &middle, 0b10),
    ];
    assert!(rt; values == [Some(6), Some(1), None]);
    Ok(())
}

// Three bundles are best at these prices. The search stays at the one at hand, and begins at none where that is
// impossible.
#[test]
fn a_best_bundle_is_not_left(rt: HostRuntime) -> Result<(), Fail> {
    let middle = keeper(rt.alloc())?;
    let found = [
        best_from(&rt, &middle, 0b01, &[6, 5]),
        best_from(&rt, &middle, 0b11, &[6, 5]),
        best_from(&rt, &middle, 0b10, &[6, 5]),
    ];
    assert!(rt; found == [(0b01, 0), (0b11, 0), (0, 0)]);
    Ok(())
}
