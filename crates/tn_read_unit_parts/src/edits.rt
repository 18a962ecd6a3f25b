//! Reads the edits of a document whose trades have units.

ghost use Rattle.std.specs.Prelude.{◌≡◌, ◌+◌, ◌*◌, ◌<◌, ◌≤◌, nat_le, [], length, option_map, Some, None, IfOk, IfSome, OnOk};
ghost use Rattle.serde_json.specs.Events.{items_len};
ghost use Rattle.serde_json.specs.View.{view, items_view};
ghost use Rattle.tn_model.specs.Limits.{most_edits};
ghost use Rattle.tn_read_references.specs.References.{trade_at};
ghost use Rattle.tn_read_shapes.specs.Reading.{Gives, each};
ghost use Rattle.tn_read_parts.specs.Edited.{trade_or_all};
ghost use Rattle.tn_read_unit_parts.specs.Edited.{admit_none, admit_whole, edit_at, edit_of, edit_parts_at, most_edited_trades, one_edit, parts_in, unit_edits_of};

use crate::entries::units_within;
use serde_json::Value;
use std::alloc::Global;
use tn_counts::UnitTrade;
use tn_read_parts::{ALL_TRADES, Change, change_named};
use tn_read_references::firm;
use tn_read_shapes::{ReadError, fault, few, found, list, member, require, text};
use tn_read_units::UnitHead;
use tn_said::PlaceStep::{Index, Key};
use tn_said::{FaultKind, PlaceStep, UnitEdit, UnitEdits, Word};

/// The most edits.
const MOST_EDITS: u32 = 2048;

/// Edits times trades are at most so many.
const MOST_EDITED_TRADES: usize = 1 << 21;

/// The edits of a document, in their order.
#[tactic(auto, unfolding(crate::specs::Edited::unit_edits_of))]
pub fn read_unit_edits(alloc: Global, head: &UnitHead, top: &Value) -> Result<UnitEdits, ReadError>
    ensures { Gives (λ edits. edits) result (unit_edits_of head.now (view top.now)) }
{
    let place = [Key(Word::Edits)];
    let entries = few(alloc, MOST_EDITS, member(top, Word::Edits), &place)?;
    require(alloc, are_few(head, entries), FaultKind::Limit, &place)?;
    let edits = each_edit(alloc, head, entries)?;
    Ok(UnitEdits::from_vec(edits))
}

/// Whether edits times trades aren't too many.
#[tactic(auto, using(tn_read_shapes::proofs::ShapeLemmas::items_len_is))]
fn are_few(head: &UnitHead, entries: &[Value]) -> bool
    requires { length entries.now ≤ most_edits }
    ensures { result
        ≡ nat_le (items_len (items_view entries.now) * length head.now.trades) most_edited_trades }
{
    entries.len() * head.trades().len() <= MOST_EDITED_TRADES
}

/// The edits of entries, one after the other.
fn each_edit(alloc: Global, head: &UnitHead, entries: &[Value]) -> Result<Vec<UnitEdit>, ReadError>
    requires { length entries.now ≤ most_edits }
    ensures { Gives (λ edits. edits.items) result (each (one_edit head.now) [] (items_view entries.now)) }
{
    let mut edits = Vec::new(alloc);
    for entry in entries {
        add_edit(alloc, head, &mut edits, entry)?;
    }
    Ok(edits)
}

/// Puts one more edit to the edits.
#[tactic(auto, unfolding(crate::specs::Edited::one_edit))]
fn add_edit(
    alloc: Global,
    head: &UnitHead,
    edits: &mut Vec<UnitEdit>,
    entry: &Value,
) -> Result<(), ReadError>
    requires { length edits.old.items < most_edits }
    ensures gives { Gives (λ _. edits.new.items) result
        (one_edit head.now edits.old.items (view entry.now)) }
    ensures count { OnOk result (length edits.new.items ≡ length edits.old.items + 1) }
{
    let edit = edit_at(alloc, head, edits.len() as u32, entry)?;
    edits.push(edit)?;
    Ok(())
}

/// The edit with index `k`.
#[tactic(auto, unfolding(crate::specs::Edited::edit_at))]
fn edit_at(alloc: Global, head: &UnitHead, k: u32, entry: &Value) -> Result<UnitEdit, ReadError>
    ensures { Gives (λ edit. edit) result (edit_at head.now k (view entry.now)) }
{
    let (word, reference, units) = edit_parts(alloc, entry, &[Key(Word::Edits), Index(k)])?;
    let place = [Key(Word::Edits), Index(k), Index(0)];
    let word = text(alloc, Some(word), &place)?;
    let change = found(alloc, change_named(word), FaultKind::Shape, &place)?;
    edit_of(alloc, head, change, k, reference, units)
}

/// An edit's word, what that is done with, and how many units, where it says so; another value than a list of two or three
/// is a fault of shape.
#[tactic(auto, unfolding(crate::specs::Edited::edit_parts_at))]
fn edit_parts<'a>(
    alloc: Global,
    entry: &'a Value,
    place: &[PlaceStep],
) -> Result<(&'a Value, &'a Value, Option<&'a Value>), ReadError>
    ensures { Gives (λ p. (view p.0.now, view p.1.now, option_map (λ v. view v.now) p.2)) result
        (edit_parts_at place.now (view entry.now)) }
{
    let items = list(alloc, Some(entry), place)?;
    match parts_in(items) {
        Some(parts) => Ok(parts),
        None => Err(fault(alloc, FaultKind::Shape, place)),
    }
}

fn parts_in(items: &[Value]) -> Option<(&Value, &Value, Option<&Value>)>
    ensures { option_map (λ p. (view p.0.now, view p.1.now, option_map (λ v. view v.now) p.2)) result
        ≡ parts_in (items_view items.now) }
{
    match items {
        [] => None,
        [_] => None,
        [word, reference] => Some((word, reference, None)),
        [word, reference, units] => Some((word, reference, Some(units))),
        [_, _, _, _, ..] => None,
    }
}

/// The edit that does this with what a reference names, and with so many units where they are given.
#[tactic(auto, unfolding(crate::specs::Edited::edit_of))]
fn edit_of(
    alloc: Global,
    head: &UnitHead,
    change: Change,
    k: u32,
    reference: &Value,
    units: Option<&Value>,
) -> Result<UnitEdit, ReadError>
    ensures { Gives (λ edit. edit) result
        (edit_of head.now change k (view reference.now) (option_map (λ v. view v.now) units.entry)) }
{
    match units {
        Some(units) => edit_with_units(alloc, head, change, k, reference, units),
        None => edit_alone(alloc, head, change, k, reference),
    }
}

/// The edit of an entry that says how many units.
#[tactic(auto, unfolding(crate::specs::Edited::edit_of))]
fn edit_with_units(
    alloc: Global,
    head: &UnitHead,
    change: Change,
    k: u32,
    reference: &Value,
    units: &Value,
) -> Result<UnitEdit, ReadError>
    ensures { Gives (λ edit. edit) result
        (edit_of head.now change k (view reference.now) (Some (view units.now))) }
{
    match change {
        Change::Admit => {
            let place = [Key(Word::Edits), Index(k), Index(1)];
            let t = trade(alloc, head, reference, &place)?;
            let all = head.trades()[t as usize].units;
            let place = [Key(Word::Edits), Index(k), Index(2)];
            let units = units_within(alloc, all, units, &place)?;
            Ok(UnitEdit::Admit {
                trade: t,
                units: units.unsigned_abs() as u32,
            })
        }
        Change::Bar | Change::Leave | Change::Join => Err(fault(
            alloc,
            FaultKind::Shape,
            &[Key(Word::Edits), Index(k)],
        )),
    }
}

/// The edit of an entry that says no units.
#[tactic(auto, unfolding(crate::specs::Edited::edit_of))]
fn edit_alone(
    alloc: Global,
    head: &UnitHead,
    change: Change,
    k: u32,
    reference: &Value,
) -> Result<UnitEdit, ReadError>
    ensures { Gives (λ edit. edit) result (edit_of head.now change k (view reference.now) None) }
{
    let place = [Key(Word::Edits), Index(k), Index(1)];
    match change {
        Change::Admit => {
            let t = trade_or_all(alloc, head, reference, &place)?;
            Ok(admit_whole(head.trades(), t))
        }
        Change::Bar => Ok(admit_none(trade_or_all(alloc, head, reference, &place)?)),
        Change::Leave => {
            let f = firm(alloc, head.names(), Some(reference), &place)?;
            Ok(UnitEdit::Leave(f))
        }
        Change::Join => {
            let f = firm(alloc, head.names(), Some(reference), &place)?;
            Ok(UnitEdit::Join(f))
        }
    }
}

/// The trade that a reference names; the faults are, in this order, no text and no trade of the name.
#[tactic(auto, unfolding(tn_read_references::specs::References::trade_at), using(std::proofs::lemmas::Option::slice_get_within))]
fn trade(
    alloc: Global,
    head: &UnitHead,
    reference: &Value,
    place: &[PlaceStep],
) -> Result<u32, ReadError>
    ensures gives { Gives (λ t. t) result
        (trade_at head.now.names.trades place.now (view reference.now)) }
    ensures known { IfOk result (λ t. t < length head.now.trades) }
{
    let _trades = head.trades();
    let name = text(alloc, Some(reference), place)?;
    found(
        alloc,
        head.names().trade_of(name),
        FaultKind::UnknownTrade,
        place,
    )
}

/// The trade that a reference names, none where it is the text for all trades.
#[tactic(auto, unfolding(tn_read_parts::specs::Edited::trade_or_all))]
fn trade_or_all(
    alloc: Global,
    head: &UnitHead,
    reference: &Value,
    place: &[PlaceStep],
) -> Result<Option<u32>, ReadError>
    ensures gives { Gives (λ t. t) result
        (trade_or_all head.now.names.trades place.now (view reference.now)) }
    ensures known { IfOk result (λ t. IfSome t (λ t. t < length head.now.trades)) }
{
    let name = text(alloc, Some(reference), place)?;
    if name == ALL_TRADES {
        return Ok(None);
    }
    let t = trade(alloc, head, reference, place)?;
    Ok(Some(t))
}

/// The edit that admits all units of a trade, or of all.
fn admit_whole(trades: &[UnitTrade], trade: Option<u32>) -> UnitEdit
    requires { IfSome trade (λ t. t < length trades.now) }
    ensures { result ≡ admit_whole trades.now trade }
{
    match trade {
        Some(trade) => UnitEdit::Admit {
            trade,
            units: trades[trade as usize].units,
        },
        None => UnitEdit::AdmitAll,
    }
}

/// The edit that bars a trade, or all.
fn admit_none(trade: Option<u32>) -> UnitEdit
    ensures { result ≡ admit_none trade }
{
    match trade {
        Some(trade) => UnitEdit::Admit { trade, units: 0 },
        None => UnitEdit::BarAll,
    }
}
