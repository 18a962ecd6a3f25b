//! Tests of the exchange property on small tables.

ghost use Rattle.std.specs.Prelude.{◌<◌};

use std::alloc::Global;
use std::process::Abort;
use std::test::Fail;
use tn_base::{Bundle, Side};
use tn_exchange::{RawTable, RowRefusal, Verdict, fails_at, test};

/// Adds rows, each a bundle's number with its amount.
fn fill(rt: &impl Abort, table: &mut RawTable, rows: &[(u64, i128)]) -> Result<(), RowRefusal> {
    for &(bits, amount) in rows {
        assert!(rt; bits < 1 << table.trades());
        assert!(rt; amount >= -1_000_000_000 && amount <= 1_000_000_000);
        table.add(Bundle::from_bits(bits), amount)?;
    }
    Ok(())
}

/// The table of these rows.
fn filled(
    rt: &impl Abort,
    alloc: Global,
    sides: &[Side],
    rows: &[(u64, i128)],
) -> Result<RawTable, Fail> {
    assert!(rt; sides.len() <= 14);
    let mut table = RawTable::new(alloc, sides.to_vec(alloc)?)?;
    fill(rt, &mut table, rows)?;
    Ok(table)
}

/// Whether the first triple by which a table fails is this one.
fn fails_first(table: &RawTable, x: u64, y: u64, at: Option<u32>) -> bool {
    let (x, y) = (Bundle::from_bits(x), Bundle::from_bits(y));
    test(table) == Verdict::Fails { x, y, at }
}

/// Whether a table of two goods has each bundle, fails where the two are split by a good, and not otherwise.
fn are_together_alone(table: &RawTable) -> bool {
    if table.trades() != 2 {
        return false;
    }
    let (both, none) = (Bundle::from_bits(0b11), Bundle::empty());
    let asked = (
        table.full(),
        table.side(1),
        table.worth(both),
        table.worth(none),
    );
    let fails = [
        fails_at(table, both, none, Some(0)),
        fails_at(table, both, none, None),
    ];
    asked == (true, Side::Buy, Some(10), Some(0)) && fails == [true, false]
}

// Two goods that are worth something only together.
#[test]
fn complements_fail(rt: HostRuntime) -> Result<(), Fail> {
    let rows = [(0b01, 0), (0b10, 0), (0b11, 10)];
    let table = filled(&rt, rt.alloc(), &[Side::Buy, Side::Buy], &rows)?;
    assert!(rt; fails_first(&table, 0b11, 0, Some(0)) && are_together_alone(&table));
    Ok(())
}

/// Whether a table of two trades holds, has a row for no trade, and none for the second alone.
fn holds_with_none(table: &mut RawTable) -> bool {
    if table.trades() != 2 {
        return false;
    }
    let same = table.add(Bundle::empty(), 7);
    let worths = [
        table.worth(Bundle::empty()),
        table.worth(Bundle::from_bits(0b10)),
    ];
    test(table) == Verdict::Holds
        && same == Err(RowRefusal::Same)
        && worths == [Some(0), None]
        && !table.full()
}

// A firm that buys a good and sells it on.
#[test]
fn a_purchase_with_its_sale_holds(rt: HostRuntime) -> Result<(), Fail> {
    let rows = [(0b00, 0), (0b11, 5)];
    let mut table = filled(&rt, rt.alloc(), &[Side::Buy, Side::Sell], &rows)?;
    assert!(rt; holds_with_none(&mut table));
    Ok(())
}

/// Whether a table of four trades fails at these two bundles and this trade.
fn fails_there(table: &RawTable, x: u64, y: u64, at: u32) -> bool
    requires x { x < 16 }
    requires y { y < 16 }
    requires at { at < 4 }
{
    table.trades() == 4 && fails_at(table, Bundle::from_bits(x), Bundle::from_bits(y), Some(at))
}

// Each sale goes with a purchase of its own alone.
#[test]
fn tied_pairs_fail(rt: HostRuntime) -> Result<(), Fail> {
    let sides = [Side::Buy, Side::Buy, Side::Sell, Side::Sell];
    let table = filled(&rt, rt.alloc(), &sides, &[(0b0101, 5), (0b1010, 5)])?;
    let first = fails_first(&table, 0b1010, 0b0101, Some(1));
    assert!(rt; first && fails_there(&table, 0b1010, 0b0101, 1));
    Ok(())
}

// Two sales that are possible only together.
#[test]
fn two_sales_together_fail(rt: HostRuntime) -> Result<(), Fail> {
    let table = filled(&rt, rt.alloc(), &[Side::Sell, Side::Sell], &[(0b11, 5)])?;
    assert!(rt; fails_first(&table, 0b11, 0, None));
    Ok(())
}
