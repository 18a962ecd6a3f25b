//! Tests of dealers.

use crate::asking::{best, row, shape, value};
use std::alloc::Global;
use std::test::Fail;
use tn_base::Side;
use tn_dealer::{Dealer, DealerRefusal, Pair};

/// Each of two items that are bought may be sold as each of two.
fn all_pairs(alloc: Global) -> Result<Dealer, Fail> {
    let sides = vec![in alloc; Side::Buy, Side::Buy, Side::Sell, Side::Sell]?;
    let pairs = vec![in alloc;
        Pair {
            buy: 0,
            sell: 2,
            cost: 1
        },
        Pair {
            buy: 0,
            sell: 3,
            cost: 3
        },
        Pair {
            buy: 1,
            sell: 2,
            cost: 2
        },
        Pair {
            buy: 1,
            sell: 3,
            cost: 1
        },
    ]?;
    Ok(Dealer::new(alloc, sides, pairs)?)
}

// Two items are bought, and sold as two: the cheaper matching of all four costs 2.
#[test]
fn a_dealer_in_two_items(rt: HostRuntime) -> Result<(), Fail> {
    let dealer = all_pairs(rt.alloc())?;
    assert!(rt; shape(&rt, &dealer, 1) == (4, Side::Buy, 124_000_000_000));
    let values = [
        value(&rt, &dealer, 0b1111),
        value(&rt, &dealer, 0b0110),
        value(&rt, &dealer, 0b0111),
    ];
    let lower = row(&rt, &dealer, 0b0111, 0b1111);
    let higher = row(&rt, &dealer, 0b1101, 0b1111);
    let best = best(&rt, &dealer, 0b1111, &[5, 7, 12, 9]);
    assert!(rt; (values, best) == ([Some(-2), Some(-2), None], Some((0b1111, 7))));
    let wanted = [
        [Some(-2), Some(-1), None, Some(-2)],
        [None, Some(-2), Some(-3), Some(-1)],
    ];
    assert!(rt; [lower, higher] == wanted);
    Ok(())
}

/// Both purchases may be sold as one sale only.
fn one_sale(alloc: Global) -> Result<Dealer, Fail> {
    let sides = vec![in alloc; Side::Buy, Side::Buy, Side::Sell, Side::Sell]?;
    let pairs = vec![in alloc;
        Pair {
            buy: 0,
            sell: 2,
            cost: 1
        },
        Pair {
            buy: 1,
            sell: 2,
            cost: 2
        },
    ]?;
    Ok(Dealer::new(alloc, sides, pairs)?)
}

// All four trades have no matching.
#[test]
fn a_sale_without_a_purchase(rt: HostRuntime) -> Result<(), Fail> {
    let dealer = one_sale(rt.alloc())?;
    let values = [value(&rt, &dealer, 0b1111), value(&rt, &dealer, 0b0101)];
    assert!(rt; values == [None, Some(-1)]);
    Ok(())
}

#[test]
fn the_same_pair(rt: HostRuntime) -> Result<(), Fail> {
    let alloc = rt.alloc();
    let sides = vec![in alloc; Side::Buy, Side::Buy, Side::Sell, Side::Sell]?;
    let pairs = vec![in alloc;
        Pair {
            buy: 0,
            sell: 2,
            cost: 1
        },
        Pair {
            buy: 0,
            sell: 3,
            cost: 3
        },
        Pair {
            buy: 1,
            sell: 2,
            cost: 2
        },
        Pair {
            buy: 1,
            sell: 3,
            cost: 1
        },
        Pair {
            buy: 0,
            sell: 2,
            cost: 7
        },
    ]?;
    assert!(rt;
        Dealer::new(alloc, sides, pairs).err() == Some(DealerRefusal::SamePair { index: 4 })
    );
    Ok(())
}
