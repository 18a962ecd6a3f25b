//! Tests of laminar firms.

ghost use Rattle.std.specs.Prelude.{◌≡◌};

use crate::asking::{best, row, shape, value};
use std::alloc::Global;
use std::test::Fail;
use tn_base::{Bundle, Side};
use tn_laminar::{Laminar, LaminarRefusal, LaminarSet};
use tn_market::Amounts;

/// The set of the trades in the digits of `bits`, with its numbers from the net count `low` on.
fn group(bits: u64, low: i32, numbers: Vec<i128>) -> LaminarSet
    ensures members { result.members ≡ bits }
    ensures low { result.low ≡ low }
    ensures numbers { result.numbers ≡ numbers.items }
{
    LaminarSet {
        members: Bundle::from_bits(bits),
        low,
        numbers: Amounts::from_vec(numbers),
    }
}

/// An owner who has one car to sell.
fn owner(alloc: Global) -> Result<Laminar, Fail> {
    let sides = vec![in alloc; Side::Sell; 3]?;
    let amounts = vec![in alloc; -4; 3]?;
    let sets = vec![in alloc; group(0b111, -1, vec![in alloc; 0, 0]?)]?;
    Ok(Laminar::new(alloc, sides, amounts, sets)?)
}

#[test]
fn one_car_is_sold_once(rt: HostRuntime) -> Result<(), Fail> {
    let owner = owner(rt.alloc())?;
    assert!(rt; shape(&rt, &owner, 1) == (3, Side::Sell, 124_000_000_000));
    let values = [value(&rt, &owner, 0b010), value(&rt, &owner, 0b110)];
    let best = best(&rt, &owner, 0b111, &[5, 7, 6]);
    assert!(rt; (values, best) == ([Some(-4), None], Some((0b010, 3))));
    Ok(())
}

/// A buyer of two goods of a group and of one that stands apart: the second good of the group is worth 3 less.
fn buyer(alloc: Global) -> Result<Laminar, Fail> {
    let sides = vec![in alloc; Side::Buy; 3]?;
    let amounts = vec![in alloc; 12, 9, 9]?;
    let sets = vec![in alloc;
        group(0b011, 0, vec![in alloc; 0, 0, -3]?),
        group(0b111, 0, vec![in alloc; 0; 3]?),
    ]?;
    Ok(Laminar::new(alloc, sides, amounts, sets)?)
}

#[test]
fn a_second_good_is_worth_less(rt: HostRuntime) -> Result<(), Fail> {
    let buyer = buyer(rt.alloc())?;
    let values = [
        value(&rt, &buyer, 0b011),
        value(&rt, &buyer, 0b101),
        value(&rt, &buyer, 0b111),
    ];
    assert!(rt; values == [Some(18), Some(21), None]);
    let worths = [
        row(&rt, &buyer, 0b011, 0b111),
        row(&rt, &buyer, 0b101, 0b111),
    ];
    assert!(rt; worths == [[Some(9), Some(12), None], [Some(9), None, Some(12)]]);
    Ok(())
}

// The second good is worth more than the first.
#[test]
fn rising_returns_are_not_concave(rt: HostRuntime) -> Result<(), Fail> {
    let alloc = rt.alloc();
    let sides = vec![in alloc; Side::Buy, Side::Buy]?;
    let amounts = vec![in alloc; 0, 0]?;
    let sets = vec![in alloc; group(0b11, 0, vec![in alloc; 0, 3, 7]?)]?;
    let refusal = Laminar::new(alloc, sides, amounts, sets).err();
    assert!(rt; refusal == Some(LaminarRefusal::NotConcave { set: 0, place: 1 }));
    Ok(())
}

// The first two goods are a group, and so are the last two.
#[test]
fn groups_that_overlap_are_not_laminar(rt: HostRuntime) -> Result<(), Fail> {
    let alloc = rt.alloc();
    let sides = vec![in alloc; Side::Buy, Side::Buy, Side::Buy]?;
    let amounts = vec![in alloc; 0, 0, 0]?;
    let sets = vec![in alloc;
        group(0b011, 0, vec![in alloc; 0, 5, 7]?),
        group(0b110, 0, vec![in alloc; 0, 5, 7]?),
    ]?;
    let refusal = Laminar::new(alloc, sides, amounts, sets).err();
    assert!(rt; refusal == Some(LaminarRefusal::NotLaminar { set: 1 }));
    Ok(())
}

// A buyer who has to buy something.
#[test]
fn a_least_number_leaves_no_empty_bundle(rt: HostRuntime) -> Result<(), Fail> {
    let alloc = rt.alloc();
    let sides = vec![in alloc; Side::Buy, Side::Buy]?;
    let amounts = vec![in alloc; 0, 0]?;
    let sets = vec![in alloc; group(0b11, 1, vec![in alloc; 0, 9]?)]?;
    let refusal = Laminar::new(alloc, sides, amounts, sets).err();
    assert!(rt; refusal == Some(LaminarRefusal::NoEmpty { set: 0 }));
    Ok(())
}
