//! Tests of sets and of counters.

use std::process::Abort;
use tn_base::{Asked, Steps, TradeSet};

/// The set of these trades.
fn set_of(rt: &impl Abort, trades: &[u8]) -> TradeSet<2> {
    let mut set = TradeSet::empty();
    for &trade in trades {
        assert!(rt; trade < 128);
        set.toggle(u32::from(trade));
    }
    set
}

/// The last number of one word and the first of the next are told apart.
#[test]
fn trade_sets_cross_words(rt: HostRuntime) {
    let trades = [0, 63, 64, 127];
    let set = set_of(&rt, &trades);
    for trade in 0..128 {
        assert!(rt;
            set.has(u32::from(trade)) == trades.contains(&trade),
            "at {trade}"
        );
    }
    assert!(rt; set.count() == 4);
}

#[test]
fn trade_sets_combine(rt: HostRuntime) {
    let one = set_of(&rt, &[3, 5, 70, 90]);
    let other = set_of(&rt, &[5, 6, 90, 100]);
    assert!(rt; one.union(&other) == set_of(&rt, &[3, 5, 6, 70, 90, 100]));
    assert!(rt; one.meet(&other) == set_of(&rt, &[5, 90]));
    assert!(rt; one.minus(&other) == set_of(&rt, &[3, 70]));
    assert!(rt; one.minus(&one) == TradeSet::empty());
}

/// A counter keeps its mark and has no bytes beside it.
#[test]
fn steps_have_no_bytes(rt: HostRuntime) {
    let mut steps = Steps::new(7u32);
    steps.tick();
    assert!(rt; size_of_val(&steps) == size_of::<u32>());
    let _asked = Steps::new(Asked);
}
