//! Laminar firms.

ghost use Rattle.std.specs.Prelude.{◌≡◌, ◌+◌, ◌<◌, ◌≤◌, [], length, option_map, All, OnOk};
ghost use Rattle.serde_json.specs.View.{view, items_view};
ghost use Rattle.tn_base.specs.Arcs.{IsAtMost};
ghost use Rattle.tn_base.specs.Widths.{most_amount};
ghost use Rattle.tn_model.specs.Limits.{most_own_trades, most_sets, most_values};
ghost use Rattle.tn_laminar.specs.Firms.{firm_of};
ghost use Rattle.tn_laminar.specs.Sum.{HasNumbersWithin, IsOwnSet};
ghost use Rattle.tn_read_firms.specs.Laminars.{IsRefusal, checked_laminar, laminar_of, laminar_set_of, low_at, one_set, one_value, sets_at, values_at};
ghost use Rattle.tn_read_references.specs.Ordered.{sides_of};
ghost use Rattle.tn_read_shapes.specs.Reading.{Gives, each};

use crate::own_numbers::{OwnList, own_numbers};
use serde_json::Value;
use std::alloc::Global;
use tn_base::Side;
use tn_laminar::{Laminar, LaminarRefusal, LaminarSet};
use tn_market::Amounts;
use tn_read_references::{Head, OwnPart, PartAt, own_bundle, sides_of};
use tn_read_shapes::{
    ObjectKind, ReadError, fault, few, member, number, object_of, optional_list, require, whole,
};
use tn_said::PlaceStep::{Index, Key};
use tn_said::{FaultKind, PlaceStep, Word};

/// The laminar firm `f`. All its sets are read before the first one is tested.
#[tactic(auto, unfolding(crate::specs::Laminars::laminar_of))]
pub(crate) fn laminar_of(
    alloc: Global,
    head: &Head,
    f: u32,
    firm: &Value,
) -> Result<Laminar, ReadError>
    requires few { length (sides_of head.now.ends f) ≤ most_own_trades }
    ensures { Gives firm_of result
        (laminar_of head.now f (view firm.now)) }
{
    let sides = sides_of(alloc, head.ends(), f)?;
    let list = OwnList {
        firm: f,
        member: Key(Word::Amounts),
        side: None,
    };
    let zeros = vec![in alloc; 0; sides.len()]?;
    let amounts = own_numbers(alloc, head, list, member(firm, Word::Amounts), zeros)?;
    let sets = read_sets(alloc, head, f, member(firm, Word::Sets))?;
    checked(alloc, f, sides, amounts, sets)
}

/// The laminar firm `f` of sets that pass, or the fault of the first that doesn't.
#[tactic(auto, unfolding(crate::specs::Laminars::checked_laminar))]
fn checked(
    alloc: Global,
    f: u32,
    sides: Vec<Side>,
    amounts: Vec<i128>,
    sets: Vec<LaminarSet>,
) -> Result<Laminar, ReadError>
    requires few { length sides.items ≤ most_own_trades }
    requires as_many { length amounts.items ≡ length sides.items }
    requires small { All (λ a. IsAtMost a most_amount) amounts.items }
    requires few_sets { length sets.items ≤ most_sets }
    requires own { All (IsOwnSet (length sides.items)) sets.items }
    requires numbered { All HasNumbersWithin sets.items }
    ensures { Gives firm_of result (checked_laminar f sides.items amounts.items sets.items) }
{
    match Laminar::new(alloc, sides, amounts, sets) {
        Ok(laminar) => Ok(laminar),
        Err(refusal) => Err(refused(alloc, f, refusal)),
    }
}

/// The fault of firm `f` that its sets are refused.
fn refused(alloc: Global, f: u32, refusal: LaminarRefusal) -> ReadError
    ensures { IsRefusal f refusal result }
{
    match refusal {
        LaminarRefusal::NoEmpty { set } => {
            let place = [Key(Word::Firms), Index(f), Key(Word::Sets), Index(set)];
            fault(alloc, FaultKind::NoEmpty, &place)
        }
        LaminarRefusal::NotConcave { set, place } => {
            let place = [
                Key(Word::Firms),
                Index(f),
                Key(Word::Sets),
                Index(set),
                Key(Word::Values),
                Index(place),
            ];
            fault(alloc, FaultKind::NotConcave, &place)
        }
        LaminarRefusal::NotLaminar { set } => {
            let place = [Key(Word::Firms), Index(f), Key(Word::Sets), Index(set)];
            fault(alloc, FaultKind::NotLaminar, &place)
        }
        LaminarRefusal::OutOfMemory => ReadError::OutOfMemory,
    }
}

/// The sets of firm `f`.
#[tactic(auto, unfolding(crate::specs::Laminars::sets_at), using(tn_read_shapes::proofs::ShapeLemmas::items_len_is))]
fn read_sets(
    alloc: Global,
    head: &Head,
    f: u32,
    value: Option<&Value>,
) -> Result<Vec<LaminarSet>, ReadError>
    requires few { length (sides_of head.now.ends f) ≤ most_own_trades }
    ensures { Gives (λ sets. sets.items) result
        (sets_at head.now f (option_map (λ v. view v.now) value.entry)) }
{
    let place = [Key(Word::Firms), Index(f), Key(Word::Sets)];
    let items = optional_list(alloc, value, &place)?;
    require(
        alloc,
        items.len() <= head.limits().sets as usize,
        FaultKind::Limit,
        &place,
    )?;
    each_set(alloc, head, f, items)
}

/// The sets of firm `f` in their order.
fn each_set(
    alloc: Global,
    head: &Head,
    f: u32,
    items: &[Value],
) -> Result<Vec<LaminarSet>, ReadError>
    requires few { length (sides_of head.now.ends f) ≤ most_own_trades }
    requires few_sets { length items.now ≤ most_sets }
    ensures { Gives (λ sets. sets.items) result
        (each (one_set head.now f) [] (items_view items.now)) }
{
    let mut sets = Vec::new(alloc);
    for item in items {
        add_set(alloc, head, f, &mut sets, item)?;
    }
    Ok(sets)
}

/// Puts one more set to the sets.
#[tactic(auto, unfolding(crate::specs::Laminars::one_set))]
fn add_set(
    alloc: Global,
    head: &Head,
    f: u32,
    sets: &mut Vec<LaminarSet>,
    set: &Value,
) -> Result<(), ReadError>
    requires few { length (sides_of head.now.ends f) ≤ most_own_trades }
    requires few_sets { length sets.old.items < most_sets }
    ensures gives { Gives (λ _. sets.new.items) result
        (one_set head.now f sets.old.items (view set.now)) }
    ensures count { OnOk result (length sets.new.items ≡ length sets.old.items + 1) }
{
    let next = laminar_set_of(alloc, head, f, sets.len() as u32, set)?;
    sets.push(next)?;
    Ok(())
}

/// Set `s` of firm `f`.
#[tactic(auto, unfolding(crate::specs::Laminars::laminar_set_of))]
fn laminar_set_of(
    alloc: Global,
    head: &Head,
    f: u32,
    s: u32,
    set: &Value,
) -> Result<LaminarSet, ReadError>
    requires few { length (sides_of head.now.ends f) ≤ most_own_trades }
    ensures { Gives (λ set. set) result
        (laminar_set_of head.now f s (view set.now)) }
{
    let place = [Key(Word::Firms), Index(f), Key(Word::Sets), Index(s)];
    object_of(alloc, ObjectKind::LaminarSet, Some(set), &place)?;
    let at = PartAt::Item {
        list: Key(Word::Sets),
        item: s,
        part: Key(Word::Trades),
    };
    let part = OwnPart { firm: f, at };
    let members = own_bundle(alloc, head, part, member(set, Word::Trades))?;
    let place = [
        Key(Word::Firms),
        Index(f),
        Key(Word::Sets),
        Index(s),
        Key(Word::From),
    ];
    let low = low(alloc, head, member(set, Word::From), &place)?;
    let numbers = read_values(alloc, head, f, s, member(set, Word::Values))?;
    Ok(LaminarSet {
        members,
        low,
        numbers: Amounts::from_vec(numbers),
    })
}

/// The net count that the first number of a set is for.
#[tactic(auto, unfolding(crate::specs::Laminars::low_at))]
fn low(
    alloc: Global,
    head: &Head,
    value: Option<&Value>,
    place: &[PlaceStep],
) -> Result<i32, ReadError>
    ensures { Gives (λ low. low) result (low_at head.now.limits place.now (option_map (λ v. view v.now) value.entry)) }
{
    let low = whole(alloc, value, place)?;
    let near = low.unsigned_abs() <= head.limits().from;
    require(alloc, near, FaultKind::Limit, place)?;
    Ok(low as i32)
}

/// The numbers of set `s` of firm `f`.
#[tactic(auto, unfolding(crate::specs::Laminars::values_at))]
fn read_values(
    alloc: Global,
    head: &Head,
    f: u32,
    s: u32,
    value: Option<&Value>,
) -> Result<Vec<i128>, ReadError>
    ensures { Gives (λ numbers. numbers.items) result
        (values_at head.now.limits f s (option_map (λ v. view v.now) value.entry)) }
{
    let place = [
        Key(Word::Firms),
        Index(f),
        Key(Word::Sets),
        Index(s),
        Key(Word::Values),
    ];
    let values = few(alloc, head.limits().values, value, &place)?;
    each_value(alloc, head, f, s, values)
}

/// The numbers of set `s` of firm `f` in their order.
fn each_value(
    alloc: Global,
    head: &Head,
    f: u32,
    s: u32,
    values: &[Value],
) -> Result<Vec<i128>, ReadError>
    requires { length values.now ≤ most_values }
    ensures { Gives (λ numbers. numbers.items) result
        (each (one_value head.now.limits f s) [] (items_view values.now)) }
{
    let mut numbers = Vec::new(alloc);
    for value in values {
        add_value(alloc, head, f, s, &mut numbers, value)?;
    }
    Ok(numbers)
}

/// Puts one more number to the numbers of set `s` of firm `f`.
#[tactic(auto, unfolding(crate::specs::Laminars::one_value))]
fn add_value(
    alloc: Global,
    head: &Head,
    f: u32,
    s: u32,
    numbers: &mut Vec<i128>,
    value: &Value,
) -> Result<(), ReadError>
    requires { length numbers.old.items < most_values }
    ensures gives { Gives (λ _. numbers.new.items) result
        (one_value head.now.limits f s numbers.old.items (view value.now)) }
    ensures count { OnOk result (length numbers.new.items ≡ length numbers.old.items + 1) }
{
    let k = Index(numbers.len() as u32);
    let place = [
        Key(Word::Firms),
        Index(f),
        Key(Word::Sets),
        Index(s),
        Key(Word::Values),
        k,
    ];
    let number = number(alloc, head.limits().amount, Some(value), &place)?;
    numbers.push(number)?;
    Ok(())
}
