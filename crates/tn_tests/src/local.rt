//! Tests of tables whose every bundle is possible.

use std::alloc::Global;
use std::process::Abort;
use std::test::Fail;
use tn_base::{Bundle, Side};
use tn_exchange::{RawTable, RowRefusal, Verdict};
use tn_local::{local_test, test_table};

/// Adds the rows of a firm that buys three goods, by what one, two and three of them are worth.
fn fill(
    rt: &impl Abort,
    table: &mut RawTable,
    one: i128,
    two: i128,
    three: i128,
) -> Result<(), RowRefusal> {
    for &(bits, amount) in &[
        (1, one),
        (2, one),
        (3, two),
        (4, one),
        (5, two),
        (6, two),
        (7, three),
    ] {
        assert!(rt; bits < 1 << table.trades());
        assert!(rt; amount >= -1_000_000_000 && amount <= 1_000_000_000);
        table.add(Bundle::from_bits(bits), amount)?;
    }
    Ok(())
}

/// The table of these rows.
fn by_count(
    rt: &impl Abort,
    alloc: Global,
    one: i128,
    two: i128,
    three: i128,
) -> Result<RawTable, Fail> {
    let mut table = RawTable::new(alloc, vec![in alloc; Side::Buy; 3]?)?;
    fill(rt, &mut table, one, two, three)?;
    Ok(table)
}

/// What the test by two and three trades, and the test of any table, say of a table whose every bundle is possible.
fn verdicts(rt: &impl Abort, table: &RawTable) -> [Verdict; 2] {
    assert!(rt; table.full());
    [local_test(table), test_table(table)]
}

// Each good is worth more than the one before it: of three and one goods, two and two are worth less.
#[test]
fn increasing_returns_fail(rt: HostRuntime) -> Result<(), Fail> {
    let table = by_count(&rt, rt.alloc(), 1, 4, 9)?;
    let x = Bundle::from_bits(0b111);
    let fails = [
        Verdict::Fails {
            x,
            y: Bundle::from_bits(0b001),
            at: Some(1),
        },
        Verdict::Fails {
            x,
            y: Bundle::empty(),
            at: Some(0),
        },
    ];
    assert!(rt; verdicts(&rt, &table) == fails);
    Ok(())
}

// Each good is worth less than the one before it.
#[test]
fn falling_returns_hold(rt: HostRuntime) -> Result<(), Fail> {
    let table = by_count(&rt, rt.alloc(), 19, 36, 51)?;
    assert!(rt; verdicts(&rt, &table) == [Verdict::Holds; 2]);
    Ok(())
}
