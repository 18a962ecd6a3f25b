//! Tests of firms of each kind.

ghost use Rattle.std.specs.Option.{ForSome};
ghost use Rattle.std.specs.Prelude.{◌≡◌, ◌^◌, ◌<◌, length};
ghost use Rattle.tn_base.specs.Arcs.{IsAtMost};
ghost use Rattle.tn_base.specs.Widths.{most_amount};

use crate::asking::{best, row, value};
use std::alloc::Global;
use std::test::Fail;
use tn_base::{Bundle, Side};
use tn_dealer::{Dealer, Pair};
use tn_exchange::{RawTable, Verdict};
use tn_firm::{FirmValue, RawFirm};
use tn_laminar::Laminar;
use tn_middle::Middle;
use tn_table::Table;

/// Adds a row, if there is an amount for it.
fn add(table: &mut RawTable, bits: u64, amount: Option<i16>)
    requires { bits < 2 ^ length table.old.sides }
    ensures { table.new.sides ≡ table.old.sides }
{
    if let Some(amount) = amount {
        let _ = table.add(Bundle::from_bits(bits), i128::from(amount));
    }
}

/// A table of complements on one side is refused, with the triple that shows it.
#[test]
fn complements_fail_the_test(rt: HostRuntime) {
    let alloc = rt.alloc();
    let sides = vec![in alloc; Side::Buy, Side::Buy].expect(&rt, "memory");
    let mut table = RawTable::new(alloc, sides).expect(&rt, "memory");
    add(&mut table, 1, Some(0));
    add(&mut table, 2, Some(0));
    add(&mut table, 3, Some(10));
    let verdict = RawFirm::Table(table).test();
    let fails = Verdict::Fails {
        x: Bundle::from_bits(3),
        y: Bundle::empty(),
        at: Some(0),
    };
    assert!(rt; verdict == fails);
}

/// A buyer of one good or of two, the second of which is worth less beside the other.
fn buyer(alloc: Global) -> Result<FirmValue, Fail> {
    let sides = vec![in alloc; Side::Buy, Side::Buy]?;
    let mut table = RawTable::new(alloc, sides)?;
    add(&mut table, 1, Some(5));
    add(&mut table, 2, Some(4));
    add(&mut table, 3, Some(7));
    let table = Table::new(table).ok().ok_or("goods are substitutes")?;
    Ok(FirmValue::Table(table))
}

#[test]
fn a_table_is_asked(rt: HostRuntime) -> Result<(), Fail> {
    let firm = buyer(rt.alloc())?;
    let worths = row(&rt, &firm, 0b01, 0b11);
    assert!(rt; (value(&rt, &firm, 0b11), worths) == (Some(7), [Some(0), Some(7)]));
    Ok(())
}

/// A middleman who buys at a cost of 2 and sells on at a gain of 3, or keeps what is worth `kept`.
fn middleman(alloc: Global, kept: Option<i128>) -> Result<Middle, Fail>
    requires { ForSome kept (λ amount. IsAtMost amount most_amount) }
{
    let sides = vec![in alloc; Side::Buy, Side::Sell]?;
    Ok(Middle::new(sides, vec![in alloc; 2, 3]?, kept))
}

#[test]
fn a_middleman_is_asked(rt: HostRuntime) -> Result<(), Fail> {
    let firm = FirmValue::Middle(middleman(rt.alloc(), Some(8))?);
    let worths = row(&rt, &firm, 0b11, 0b11);
    let best = best(&rt, &firm, 0b11, &[1, 9]);
    let found = (value(&rt, &firm, 0b11), worths, best);
    assert!(rt; found == (Some(1), [None, Some(6)], Some((0b11, 9))));
    Ok(())
}

/// An amount for each of two trades, and no set of them.
fn apart(alloc: Global) -> Result<FirmValue, Fail> {
    let sides = vec![in alloc; Side::Buy, Side::Sell]?;
    let amounts = vec![in alloc; 6, -3]?;
    Ok(FirmValue::Laminar(Laminar::new(alloc, sides, amounts, Vec::new(alloc))?))
}

/// Whatever pays is in the best bundle.
#[test]
fn a_laminar_firm_is_asked(rt: HostRuntime) -> Result<(), Fail> {
    let firm = apart(rt.alloc())?;
    let worths = row(&rt, &firm, 0b11, 0b11);
    let best = best(&rt, &firm, 0b11, &[5, 2]);
    let found = (value(&rt, &firm, 0b11), worths, best);
    assert!(rt; found == (Some(3), [Some(-3), Some(6)], Some((0b01, 1))));
    Ok(())
}

/// No middleman needs a test.
#[test]
fn middlemen_meet_exchange(rt: HostRuntime) -> Result<(), Fail> {
    let firm = RawFirm::Middle(middleman(rt.alloc(), None)?);
    assert!(rt; (firm.trades(), firm.test()) == (2, Verdict::Holds));
    Ok(())
}

/// A dealer who sells one item on at a cost of 2.
pub(crate) fn dealer(alloc: Global) -> Result<FirmValue, Fail> {
    let sides = vec![in alloc; Side::Buy, Side::Sell]?;
    let pairs = vec![in alloc;
        Pair {
            buy: 0,
            sell: 1,
            cost: 2
        },
    ]?;
    Ok(FirmValue::Dealer(Dealer::new(alloc, sides, pairs)?))
}

#[test]
fn a_dealer_is_asked(rt: HostRuntime) -> Result<(), Fail> {
    let firm = dealer(rt.alloc())?;
    let best = best(&rt, &firm, 0b11, &[1, 9]);
    assert!(rt; (value(&rt, &firm, 0b11), best) == (Some(-2), Some((0b11, 6))));
    Ok(())
}
