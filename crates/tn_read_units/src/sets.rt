//! Reads the sets of a firm.

ghost use Rattle.std.specs.Prelude.{◌≡◌, ◌+◌, ◌<◌, ◌≤◌, [], length, option_map, All, IfOk, OnOk};
ghost use Rattle.serde_json.specs.View.{view, items_view};
ghost use Rattle.tn_base.specs.Arcs.{IsAtMost};
ghost use Rattle.tn_counts.specs.Widths.{most_count_sets};
ghost use Rattle.tn_read_shapes.specs.Reading.{Gives, each};
ghost use Rattle.tn_read_units.specs.Limits.{most_number, most_values};
ghost use Rattle.tn_read_units.specs.Sets.{AreNumbers, has_one_form, low_at, numbers_at, numbers_from, one_set, one_value, set_of, sets_of, values_at};
ghost use Rattle.tn_read_units.specs.Steps.{AreSteps};

use crate::head::UnitHead;
use crate::own::{Members, members_of};
use crate::steps::{MOST_NUMBER, SetAt, steps};
use serde_json::Value;
use std::alloc::Global;
use std::marker::Model;
use tn_links::Step;
use tn_read_shapes::{ObjectKind, ReadError, few, member, number, object_of, require, whole};
use tn_said::{FaultKind, PlaceStep, Word};

/// The farthest net count from 0 that the first number of a set may be for, and the most numbers of a set.
const MOST_FROM: u64 = 256;

const MOST_VALUES: u32 = 513;

/// Numbers for net counts, from one on.
#[derive(Drop)]
pub struct SetNumbers {
    /// The net count that the first number is for.
    pub(crate) low: i32,
    pub(crate) numbers: Vec<i64>,
}

impl Model for SetNumbers {
    ghost use Rattle.tn_read_units.specs.Sets.{AreNumbers, SetNumbers as ReadNumbers};

    ghost Value = { ReadNumbers };

    ghost view = { λ set. record { low = set.low; numbers = set.numbers.items } };

    ghost invariant = { λ set. AreNumbers set.numbers.items };
}

impl SetNumbers {
    /// The numbers.
    pub fn numbers(&self) -> &[i64]
        ensures is { result.now ≡ self.now.numbers }
        ensures kept { AreNumbers self.now.numbers }
    {
        &self.numbers
    }
}

/// A set of a firm as a document writes it: by numbers for its net counts, or else by what further units add.
#[derive(Drop)]
pub struct WrittenSet {
    pub(crate) members: Members,
    pub(crate) numbers: Option<SetNumbers>,
    /// What further units bought add.
    pub(crate) bought: Vec<Step>,
    /// What further units sold add.
    pub(crate) sold: Vec<Step>,
}

impl Model for WrittenSet {
    ghost use Rattle.tn_read_units.specs.Sets.{WrittenSet as ReadSet};
    ghost use Rattle.tn_read_units.specs.Steps.{AreSteps};

    ghost Value = { ReadSet };

    ghost view = { λ set. record {
      members = set.members;
      numbers = set.numbers;
      bought = set.bought.items;
      sold = set.sold.items;
    } };

    ghost invariant = { λ set. AreSteps set.bought.items × AreSteps set.sold.items };
}

impl WrittenSet {
    /// What further units bought add.
    pub fn bought(&self) -> &[Step]
        ensures is { result.now ≡ self.now.bought }
        ensures kept { AreSteps self.now.bought }
    {
        &self.bought
    }

    /// What further units sold add.
    pub fn sold(&self) -> &[Step]
        ensures is { result.now ≡ self.now.sold }
        ensures kept { AreSteps self.now.sold }
    {
        &self.sold
    }
}

/// The sets of firm `f` in their order.
pub(crate) fn read_sets(
    alloc: Global,
    head: &UnitHead,
    f: u32,
    items: &[Value],
) -> Result<Vec<WrittenSet>, ReadError>
    requires few { length items.now ≤ most_count_sets }
    ensures gives { Gives (λ sets. sets.items) result (sets_of head.now f (items_view items.now)) }
    ensures count { IfOk result (λ sets. length sets.items ≡ length items.now) }
{
    let mut sets = Vec::new(alloc);
    for item in items {
        add_set(alloc, head, f, &mut sets, item)?;
    }
    Ok(sets)
}

/// Puts one more set to the sets.
#[tactic(auto, unfolding(crate::specs::Sets::one_set))]
fn add_set(
    alloc: Global,
    head: &UnitHead,
    f: u32,
    sets: &mut Vec<WrittenSet>,
    item: &Value,
) -> Result<(), ReadError>
    requires { length sets.old.items < most_count_sets }
    ensures gives { Gives (λ _. sets.new.items) result (one_set head.now f sets.old.items (view item.now)) }
    ensures count { OnOk result (length sets.new.items ≡ length sets.old.items + 1) }
{
    let at = SetAt {
        firm: f,
        set: sets.len() as u32,
    };
    let next = set_of(alloc, head, at, item)?;
    sets.push(next)?;
    Ok(())
}

/// A set as it is written.
#[tactic(auto, unfolding(crate::specs::Sets::set_of))]
fn set_of(alloc: Global, head: &UnitHead, at: SetAt, set: &Value) -> Result<WrittenSet, ReadError>
    ensures { Gives (λ set. set) result (set_of head.now at (view set.now)) }
{
    object_of(alloc, ObjectKind::CountSet, Some(set), &at.place())?;
    require(alloc, has_one_form(set), FaultKind::Shape, &at.place())?;
    let members = members_of(alloc, head, at, member(set, Word::Trades))?;
    let values = member(set, Word::Values);
    let numbers = numbers(alloc, at, member(set, Word::From), values)?;
    let bought = steps(alloc, at, Word::Bought, member(set, Word::Bought))?;
    let sold = steps(alloc, at, Word::Sold, member(set, Word::Sold))?;
    Ok(WrittenSet {
        members,
        numbers,
        bought,
        sold,
    })
}

/// Whether a set is written by numbers or by steps, and not by both; numbers say from where on they are.
fn has_one_form(set: &Value) -> bool
    ensures { result ≡ has_one_form (view set.now) }
{
    if member(set, Word::From).is_some() {
        member(set, Word::Bought).is_none() && member(set, Word::Sold).is_none()
    } else {
        member(set, Word::Values).is_none()
    }
}

/// The numbers of a set, None where it is written by steps.
fn numbers(
    alloc: Global,
    at: SetAt,
    from: Option<&Value>,
    values: Option<&Value>,
) -> Result<Option<SetNumbers>, ReadError>
    ensures { Gives (λ numbers. numbers) result (numbers_at at (option_map (λ v. view v.now) from.entry)
        (option_map (λ v. view v.now) values.entry)) }
{
    match from {
        Some(from) => Ok(Some(numbers_from(alloc, at, from, values)?)),
        None => Ok(None),
    }
}

/// The numbers of a set, from where on they are.
#[tactic(auto, unfolding(crate::specs::Sets::numbers_from))]
fn numbers_from(
    alloc: Global,
    at: SetAt,
    from: &Value,
    values: Option<&Value>,
) -> Result<SetNumbers, ReadError>
    ensures { Gives (λ numbers. numbers) result (numbers_from at (view from.now)
        (option_map (λ v. view v.now) values.entry)) }
{
    let low = low(alloc, from, &at.part(Word::From))?;
    let numbers = read_values(alloc, at, values)?;
    Ok(SetNumbers { low, numbers })
}

/// The net count that the first number of a set is for.
#[tactic(auto, unfolding(crate::specs::Sets::low_at))]
fn low(alloc: Global, value: &Value, place: &[PlaceStep]) -> Result<i32, ReadError>
    ensures { Gives (λ low. low) result (low_at place.now (view value.now)) }
{
    let low = whole(alloc, Some(value), place)?;
    let near = low.unsigned_abs() <= MOST_FROM;
    require(alloc, near, FaultKind::Limit, place)?;
    Ok(low as i32)
}

/// The numbers of a set.
#[tactic(auto, unfolding(crate::specs::Sets::values_at))]
fn read_values(alloc: Global, at: SetAt, value: Option<&Value>) -> Result<Vec<i64>, ReadError>
    ensures gives { Gives (λ numbers. numbers.items) result (values_at at (option_map (λ v. view v.now) value.entry)) }
    ensures kept { IfOk result (λ numbers. AreNumbers numbers.items) }
{
    let values = few(alloc, MOST_VALUES, value, &at.part(Word::Values))?;
    each_value(alloc, at, values)
}

/// The numbers of a set in their order.
fn each_value(alloc: Global, at: SetAt, values: &[Value]) -> Result<Vec<i64>, ReadError>
    requires { length values.now ≤ most_values }
    ensures gives { Gives (λ numbers. numbers.items) result (each (one_value at) [] (items_view values.now)) }
    ensures kept { IfOk result (λ numbers. AreNumbers numbers.items) }
{
    let mut numbers = Vec::new(alloc);
    for value in values {
        add_value(alloc, at, &mut numbers, value)?;
    }
    Ok(numbers)
}

/// Puts one more number to the numbers of a set.
#[tactic(auto, unfolding(crate::specs::Sets::one_value))]
fn add_value(
    alloc: Global,
    at: SetAt,
    numbers: &mut Vec<i64>,
    value: &Value,
) -> Result<(), ReadError>
    requires few { length numbers.old.items < most_values }
    requires small { All (λ number. IsAtMost number most_number) numbers.old.items }
    ensures gives { Gives (λ _. numbers.new.items) result
        (one_value at numbers.old.items (view value.now)) }
    ensures count { OnOk result (length numbers.new.items ≡ length numbers.old.items + 1) }
    ensures small { OnOk result (All (λ number. IsAtMost number most_number) numbers.new.items) }
{
    let place = at.item(Word::Values, numbers.len() as u32);
    let number = number(alloc, MOST_NUMBER, Some(value), &place)?;
    numbers.push(number as i64)?;
    Ok(())
}
