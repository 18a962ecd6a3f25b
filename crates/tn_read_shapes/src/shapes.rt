//! The shapes of values.

ghost use Rattle.std.specs.Prelude.{◌≡◌, ◌≤◌, length, option_map, Err, Some, IfOk, OnOk, IsTrue};
ghost use Rattle.serde_json.specs.View.{view, items_view};
ghost use Rattle.tn_base.specs.Arcs.{IsAtMost};
ghost use Rattle.tn_said.specs.declared.fault.FaultKind.TheVariants.{Shape};
ghost use Rattle.tn_read_shapes.specs.Reading.{Gives, fault, holds, wanted, IsFaultAt};
ghost use Rattle.tn_read_shapes.specs.Shapes.{few_at, list_at, number_in, object_at, object_of, optional_list_at, text_at, three_at, three_of, two_at, two_of, whole_at};

use crate::error::ReadError;
use crate::members::{ObjectKind, allows_all};
use serde_json::Value;
use std::alloc::Global;
use tn_said::{Fault, FaultKind, Place, PlaceStep};

/// A fault without a failing triple, or want of memory.
pub fn fault(alloc: Global, kind: FaultKind, place: &[PlaceStep]) -> ReadError
    ensures { IsFaultAt kind place.now result }
{
    match Vec::from_slice(alloc, place) {
        Ok(steps) => ReadError::Fault(Fault {
            kind,
            place: Place::from_vec(steps),
            shown: None,
        }),
        Err(_) => ReadError::OutOfMemory,
    }
}

/// A fault where a test fails.
pub fn require(
    alloc: Global,
    met: bool,
    kind: FaultKind,
    place: &[PlaceStep],
) -> Result<(), ReadError>
    ensures gives { Gives (λ _. tt) result (holds kind place.now met) }
    ensures met { OnOk result (IsTrue met) }
{
    if !met {
        return Err(fault(alloc, kind, place));
    }
    Ok(())
}

/// What a look-up found, and otherwise a fault.
pub fn found<T: Copy>(
    alloc: Global,
    value: Option<T>,
    kind: FaultKind,
    place: &[PlaceStep],
) -> Result<T, ReadError>
    ensures gives { Gives (λ x. x) result (wanted kind place.now value) }
    ensures found { IfOk result (λ x. value ≡ Some x) }
{
    match value {
        Some(value) => Ok(value),
        None => Err(fault(alloc, kind, place)),
    }
}

/// A text; a value of another shape, or none, is a fault of shape.
pub fn text<'a>(
    alloc: Global,
    value: Option<&'a Value>,
    place: &[PlaceStep],
) -> Result<&'a str, ReadError>
    ensures { Gives (λ s. s.now) result (text_at place.now (option_map (λ v. view v.now) value.entry)) }
{
    match value.and_then(Value::as_str) {
        Some(text) => Ok(text),
        None => Err(fault(alloc, FaultKind::Shape, place)),
    }
}

/// A list; a value of another shape, or none, is a fault of shape.
pub fn list<'a>(
    alloc: Global,
    value: Option<&'a Value>,
    place: &[PlaceStep],
) -> Result<&'a [Value], ReadError>
    ensures { Gives (λ s. items_view s.now) result (list_at place.now (option_map (λ v. view v.now) value.entry)) }
{
    match value.and_then(Value::as_array) {
        Some(list) => Ok(list.as_slice()),
        None => Err(fault(alloc, FaultKind::Shape, place)),
    }
}

/// A list, which is empty where it isn't there; a value of another shape is a fault of shape.
pub fn optional_list<'a>(
    alloc: Global,
    value: Option<&'a Value>,
    place: &[PlaceStep],
) -> Result<&'a [Value], ReadError>
    ensures { Gives (λ s. items_view s.now) result (optional_list_at place.now
        (option_map (λ v. view v.now) value.entry)) }
{
    match value {
        Some(value) => list(alloc, Some(value), place),
        None => Ok(&[]),
    }
}

/// A list of at most so many items; more are a fault of the limit.
#[tactic(auto, unfolding(crate::specs::Shapes::few_at), using(crate::proofs::ShapeLemmas::items_len_is))]
pub fn few<'a>(
    alloc: Global,
    limit: u32,
    value: Option<&'a Value>,
    place: &[PlaceStep],
) -> Result<&'a [Value], ReadError>
    ensures gives { Gives (λ s. items_view s.now) result
        (few_at limit place.now (option_map (λ v. view v.now) value.entry)) }
    ensures few { IfOk result (λ s. length s.now ≤ limit) }
{
    let items = list(alloc, value, place)?;
    require(
        alloc,
        items.len() <= limit as usize,
        FaultKind::Limit,
        place,
    )?;
    Ok(items)
}

/// Whether a value is some object; another is a fault of shape.
pub fn object(alloc: Global, value: &Value, place: &[PlaceStep]) -> Result<(), ReadError>
    ensures { Gives (λ _. tt) result (object_at place.now (Some (view value.now))) }
{
    require(alloc, value.is_object(), FaultKind::Shape, place)
}

/// Whether a value is an object with allowed members alone; another, or none, is a fault of shape.
#[tactic(auto, unfolding(crate::specs::Shapes::object_of))]
pub fn object_of(
    alloc: Global,
    kind: ObjectKind,
    value: Option<&Value>,
    place: &[PlaceStep],
) -> Result<(), ReadError>
    ensures { Gives (λ _. tt) result (object_of kind place.now (option_map (λ v. view v.now) value.entry)) }
{
    match value.and_then(Value::as_object) {
        Some(members) => require(alloc, allows_all(kind, members), FaultKind::Shape, place),
        None => Err(fault(alloc, FaultKind::Shape, place)),
    }
}

/// The two items of a list of two; another value is a fault of shape.
#[tactic(auto, unfolding(crate::specs::Shapes::two_at))]
pub fn two<'a>(
    alloc: Global,
    value: &'a Value,
    place: &[PlaceStep],
) -> Result<(&'a Value, &'a Value), ReadError>
    ensures { Gives (λ p. (view p.0.now, view p.1.now)) result (two_at place.now (view value.now)) }
{
    let items = list(alloc, Some(value), place)?;
    match two_of(items) {
        Some(two) => Ok(two),
        None => Err(fault(alloc, FaultKind::Shape, place)),
    }
}

fn two_of(items: &[Value]) -> Option<(&Value, &Value)>
    ensures { option_map (λ p. (view p.0.now, view p.1.now)) result ≡ two_of (items_view items.now) }
{
    match items {
        [] => None,
        [_] => None,
        [one, two] => Some((one, two)),
        [_, _, _, ..] => None,
    }
}

/// The three items of a list of three; another value is a fault of shape.
#[tactic(auto, unfolding(crate::specs::Shapes::three_at))]
pub fn three<'a>(
    alloc: Global,
    value: &'a Value,
    place: &[PlaceStep],
) -> Result<(&'a Value, &'a Value, &'a Value), ReadError>
    ensures { Gives (λ p. (view p.0.now, view p.1.now, view p.2.now)) result
        (three_at place.now (view value.now)) }
{
    let items = list(alloc, Some(value), place)?;
    match three_of(items) {
        Some(three) => Ok(three),
        None => Err(fault(alloc, FaultKind::Shape, place)),
    }
}

fn three_of(items: &[Value]) -> Option<(&Value, &Value, &Value)>
    ensures { option_map (λ p. (view p.0.now, view p.1.now, view p.2.now)) result ≡ three_of (items_view items.now) }
{
    match items {
        [] => None,
        [_] => None,
        [_, _] => None,
        [one, two, three] => Some((one, two, three)),
        [_, _, _, _, ..] => None,
    }
}

/// A whole number, one that fits 64 bits with a sign; another value, or none, is a fault of shape.
pub fn whole(alloc: Global, value: Option<&Value>, place: &[PlaceStep]) -> Result<i64, ReadError>
    ensures { Gives (λ z. z) result (whole_at place.now (option_map (λ v. view v.now) value.entry)) }
{
    match value.and_then(Value::as_i64) {
        Some(number) => Ok(number),
        None => Err(fault(alloc, FaultKind::Shape, place)),
    }
}

/// A whole number of at most this size; a larger one is out of range.
#[tactic(auto, unfolding(crate::specs::Shapes::number_in))]
pub fn number(
    alloc: Global,
    limit: u64,
    value: Option<&Value>,
    place: &[PlaceStep],
) -> Result<i128, ReadError>
    ensures gives { Gives (λ z. z) result
        (number_in limit place.now (option_map (λ v. view v.now) value.entry)) }
    ensures small { IfOk result (λ z. IsAtMost z limit) }
{
    let number = whole(alloc, value, place)?;
    require(
        alloc,
        number.unsigned_abs() <= limit,
        FaultKind::AmountRange,
        place,
    )?;
    Ok(number as i128)
}

/// A value that is there; none is a fault of shape.
pub fn present<'a>(
    alloc: Global,
    value: Option<&'a Value>,
    place: &[PlaceStep],
) -> Result<&'a Value, ReadError>
    ensures { Gives (λ v. view v.now) result (wanted Shape place.now (option_map (λ v. view v.now) value.entry)) }
{
    match value {
        Some(value) => Ok(value),
        None => Err(fault(alloc, FaultKind::Shape, place)),
    }
}
