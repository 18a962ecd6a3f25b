//! Reads the edits.

ghost use Rattle.std.specs.Prelude.{◌≡◌, ◌+◌, ◌<◌, ◌≤◌, [], length, OnOk};
ghost use Rattle.serde_json.specs.View.{view, items_view};
ghost use Rattle.tn_model.specs.Limits.{most_edits};
ghost use Rattle.tn_read_shapes.specs.Reading.{Gives, each};
ghost use Rattle.tn_read_parts.specs.Edited.{admit_of, bar_of, change_named, edit_at, edit_of, edits_of, one_edit, trade_or_all};

use serde_json::Value;
use std::alloc::Global;
use tn_read_references::{Head, firm, trade};
use tn_read_shapes::{ReadError, few, found, member, text, two, value_of_word};
use tn_said::PlaceStep::{Index, Key};
use tn_said::{Edit, Edits, FaultKind, PlaceStep, Word};

/// What an edit does with what it names.
#[derive(Clone, Copy)]
pub enum Change {
    /// It admits a trade, or all.
    Admit,
    /// It bars a trade, or all.
    Bar,
    /// A firm leaves.
    Leave,
    /// A firm joins.
    Join,
}

/// The text that stands for all trades. No name has this letter.
pub const ALL_TRADES: &str = "*";

/// The edits of a document, in their order.
#[tactic(auto, unfolding(crate::specs::Edited::edits_of))]
pub fn read_edits(alloc: Global, head: &Head, top: &Value) -> Result<Edits, ReadError>
    ensures { Gives (λ edits. edits) result (edits_of head.now (view top.now)) }
{
    let entries = few(
        alloc,
        head.limits().edits,
        member(top, Word::Edits),
        &[Key(Word::Edits)],
    )?;
    let edits = each_edit(alloc, head, entries)?;
    Ok(Edits::from_vec(edits))
}

/// The edits of entries, one after the other.
fn each_edit(alloc: Global, head: &Head, entries: &[Value]) -> Result<Vec<Edit>, ReadError>
    requires { length entries.now ≤ most_edits }
    ensures { Gives (λ edits. edits.items) result
        (each (one_edit head.now.names) [] (items_view entries.now)) }
{
    let mut edits = Vec::new(alloc);
    for entry in entries {
        add_edit(alloc, head, &mut edits, entry)?;
    }
    Ok(edits)
}

/// Puts one more edit to the edits.
#[tactic(auto, unfolding(crate::specs::Edited::one_edit))]
fn add_edit(
    alloc: Global,
    head: &Head,
    edits: &mut Vec<Edit>,
    entry: &Value,
) -> Result<(), ReadError>
    requires { length edits.old.items < most_edits }
    ensures gives { Gives (λ _. edits.new.items) result
        (one_edit head.now.names edits.old.items (view entry.now)) }
    ensures count { OnOk result (length edits.new.items ≡ length edits.old.items + 1) }
{
    let edit = edit_at(alloc, head, edits.len() as u32, entry)?;
    edits.push(edit)?;
    Ok(())
}

/// The edit with index `k`.
#[tactic(auto, unfolding(crate::specs::Edited::edit_at))]
fn edit_at(alloc: Global, head: &Head, k: u32, entry: &Value) -> Result<Edit, ReadError>
    ensures { Gives (λ edit. edit) result (edit_at head.now.names k (view entry.now)) }
{
    let (word, reference) = two(alloc, entry, &[Key(Word::Edits), Index(k)])?;
    let place = [Key(Word::Edits), Index(k), Index(0)];
    let word = text(alloc, Some(word), &place)?;
    let change = found(alloc, change_named(word), FaultKind::Shape, &place)?;
    edit_of(
        alloc,
        head,
        change,
        reference,
        &[Key(Word::Edits), Index(k), Index(1)],
    )
}

/// What a text says is done, none where it says nothing that is.
pub fn change_named(word: &str) -> Option<Change>
    ensures { result ≡ change_named word.now }
{
    value_of_word(
        word,
        &[
            ("admit", Change::Admit),
            ("bar", Change::Bar),
            ("leave", Change::Leave),
            ("join", Change::Join),
        ],
    )
}

/// The edit that does this with what a reference names.
#[tactic(auto, unfolding(crate::specs::Edited::edit_of))]
fn edit_of(
    alloc: Global,
    head: &Head,
    change: Change,
    reference: &Value,
    place: &[PlaceStep],
) -> Result<Edit, ReadError>
    ensures { Gives (λ edit. edit) result
        (edit_of head.now.names change place.now (view reference.now)) }
{
    match change {
        Change::Admit => Ok(admit_of(trade_or_all(alloc, head, reference, place)?)),
        Change::Bar => Ok(bar_of(trade_or_all(alloc, head, reference, place)?)),
        Change::Leave => {
            let f = firm(alloc, head.names(), Some(reference), place)?;
            Ok(Edit::Leave(f))
        }
        Change::Join => {
            let f = firm(alloc, head.names(), Some(reference), place)?;
            Ok(Edit::Join(f))
        }
    }
}

/// The trade that a reference names, none where it is the text for all trades.
#[tactic(auto, unfolding(crate::specs::Edited::trade_or_all))]
fn trade_or_all(
    alloc: Global,
    head: &Head,
    reference: &Value,
    place: &[PlaceStep],
) -> Result<Option<u32>, ReadError>
    ensures { Gives (λ t. t) result
        (trade_or_all head.now.names.trades place.now (view reference.now)) }
{
    let name = text(alloc, Some(reference), place)?;
    if name == ALL_TRADES {
        return Ok(None);
    }
    let t = trade(alloc, head, reference, place)?;
    Ok(Some(t))
}

/// The edit that admits a trade, or all.
fn admit_of(trade: Option<u32>) -> Edit
    ensures { result ≡ admit_of trade }
{
    match trade {
        Some(t) => Edit::Admit(t),
        None => Edit::AdmitAll,
    }
}

/// The edit that bars a trade, or all.
fn bar_of(trade: Option<u32>) -> Edit
    ensures { result ≡ bar_of trade }
{
    match trade {
        Some(t) => Edit::Bar(t),
        None => Edit::BarAll,
    }
}
