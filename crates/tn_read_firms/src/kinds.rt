//! Reads the kind of a firm.

ghost use Rattle.std.specs.Prelude.{◌≡◌, ◌≤◌, length, OnOk};
ghost use Rattle.serde_json.specs.View.{view};
ghost use Rattle.tn_read_firms.specs.Kinds.{firm_frame_of, firm_kind_of, kind_named, most_own_of_kind, room_for};
ghost use Rattle.tn_read_references.specs.Ordered.{sides_of};
ghost use Rattle.tn_read_shapes.specs.Reading.{Gives};

use serde_json::Value;
use std::alloc::Global;
use tn_model::Limits;
use tn_read_references::{Head, count_own};
use tn_read_shapes::{
    FirmKind, ObjectKind, ReadError, found, member, object_of, require, text, value_of_word,
};
use tn_said::PlaceStep::{Index, Key};
use tn_said::{FaultKind, Word};

/// The kind of firm `f`.
#[tactic(auto, unfolding(crate::specs::Kinds::firm_kind_of))]
pub(crate) fn firm_kind_of(alloc: Global, f: u32, firm: &Value) -> Result<FirmKind, ReadError>
    ensures { Gives (λ kind. kind) result (firm_kind_of f (view firm.now)) }
{
    let place = [Key(Word::Firms), Index(f), Key(Word::Kind)];
    let kind = text(alloc, member(firm, Word::Kind), &place)?;
    found(alloc, kind_named(kind), FaultKind::Shape, &place)
}

/// The kind that a text names.
fn kind_named(text: &str) -> Option<FirmKind>
    ensures { result ≡ kind_named text.now }
{
    value_of_word(
        text,
        &[
            ("table", FirmKind::Table),
            ("laminar", FirmKind::Laminar),
            ("middleman", FirmKind::Middleman),
            ("dealer", FirmKind::Dealer),
        ],
    )
}

/// Whether firm `f` has the members of its kind alone, and not too many own trades.
#[tactic(auto, unfolding(crate::specs::Kinds::firm_frame_of))]
pub(crate) fn check_frame(
    alloc: Global,
    head: &Head,
    f: u32,
    kind: FirmKind,
    firm: &Value,
) -> Result<(), ReadError>
    ensures gives { Gives (λ _. tt) result (firm_frame_of head.now f kind (view firm.now)) }
    ensures few { OnOk result (length (sides_of head.now.ends f) ≤ room_for kind) }
{
    let place = [Key(Word::Firms), Index(f)];
    object_of(alloc, ObjectKind::Firm(kind), Some(firm), &place)?;
    let few = count_own(head.ends(), f) <= most_own_of_kind(head.limits(), kind);
    require(alloc, few, FaultKind::Limit, &place)
}

/// The most own trades of a firm of a kind.
fn most_own_of_kind(limits: &Limits, kind: FirmKind) -> u32
    ensures { result ≡ most_own_of_kind limits.now kind }
{
    match kind {
        FirmKind::Table => limits.own_of_table,
        FirmKind::Laminar => limits.own,
        FirmKind::Middleman => limits.own,
        FirmKind::Dealer => limits.own,
    }
}
