//! Reads the outcome.

ghost use Rattle.std.specs.Prelude.{option_map};
ghost use Rattle.serde_json.specs.View.{view};
ghost use Rattle.tn_read_shapes.specs.Reading.{Gives};
ghost use Rattle.tn_read_parts.specs.Signed.{outcome_of, over_at};

use crate::lists::{ListAt, read_contracts};
use serde_json::Value;
use std::alloc::Global;
use tn_model::Outcome;
use tn_read_references::Head;
use tn_read_shapes::{ObjectKind, ReadError, list, member, object_of, present, require, whole};
use tn_said::PlaceStep::Key;
use tn_said::{FaultKind, PlaceStep, Word};

/// The outcome of a document. Its denominator is read before its contracts.
#[tactic(auto, unfolding(crate::specs::Signed::outcome_of))]
pub fn read_outcome(alloc: Global, head: &Head, top: &Value) -> Result<Outcome, ReadError>
    ensures { Gives (λ outcome. outcome) result (outcome_of head.now (view top.now)) }
{
    let part = present(alloc, member(top, Word::Outcome), &[Key(Word::Outcome)])?;
    object_of(
        alloc,
        ObjectKind::Outcome,
        Some(part),
        &[Key(Word::Outcome)],
    )?;
    let over = read_over(
        alloc,
        head.limits().over,
        member(part, Word::Over),
        &[Key(Word::Outcome), Key(Word::Over)],
    )?;
    let at = ListAt {
        part: Key(Word::Outcome),
        member: Key(Word::Contracts),
    };
    let entries = list(alloc, member(part, Word::Contracts), &[at.part, at.member])?;
    let contracts = read_contracts(alloc, head, at, head.limits().numerator, entries)?;
    Ok(Outcome { over, contracts })
}

/// A denominator, from 1 to the limit.
#[tactic(auto, unfolding(crate::specs::Signed::over_at))]
pub fn read_over(
    alloc: Global,
    limit: u32,
    value: Option<&Value>,
    place: &[PlaceStep],
) -> Result<i128, ReadError>
    ensures { Gives (λ over. over) result
        (over_at limit place.now (option_map (λ v. view v.now) value.entry)) }
{
    let over = whole(alloc, value, place)?;
    let within = 1 <= over && over <= limit as i64;
    require(alloc, within, FaultKind::BadOver, place)?;
    Ok(over as i128)
}
