//! Middlemen.

ghost use Rattle.std.specs.Prelude.{◌≤◌, length, option_map};
ghost use Rattle.serde_json.specs.View.{view};
ghost use Rattle.tn_middle.specs.Firms.{firm_of};
ghost use Rattle.tn_model.specs.Limits.{most_own_trades};
ghost use Rattle.tn_read_firms.specs.Middlemen.{keep_at, middle_of};
ghost use Rattle.tn_read_references.specs.Ordered.{sides_of};
ghost use Rattle.tn_read_shapes.specs.Reading.{Gives};

use crate::own_numbers::{OwnList, own_numbers};
use serde_json::Value;
use std::alloc::Global;
use tn_base::Side;
use tn_middle::Middle;
use tn_read_references::{Head, sides_of};
use tn_read_shapes::{ReadError, member, number};
use tn_said::PlaceStep::{Index, Key};
use tn_said::{PlaceStep, Word};

/// The middleman `f`.
#[tactic(auto, unfolding(crate::specs::Middlemen::middle_of))]
pub(crate) fn middle_of(
    alloc: Global,
    head: &Head,
    f: u32,
    firm: &Value,
) -> Result<Middle, ReadError>
    requires few { length (sides_of head.now.ends f) ≤ most_own_trades }
    ensures { Gives firm_of result
        (middle_of head.now f (view firm.now)) }
{
    let sides = sides_of(alloc, head.ends(), f)?;
    let zeros = vec![in alloc; 0; sides.len()]?;
    let costs = OwnList {
        firm: f,
        member: Key(Word::Costs),
        side: Some(Side::Buy),
    };
    let numbers = own_numbers(alloc, head, costs, member(firm, Word::Costs), zeros)?;
    let gains = OwnList {
        firm: f,
        member: Key(Word::Gains),
        side: Some(Side::Sell),
    };
    let numbers = own_numbers(alloc, head, gains, member(firm, Word::Gains), numbers)?;
    let keep = keep(
        alloc,
        head,
        member(firm, Word::Keep),
        &[Key(Word::Firms), Index(f), Key(Word::Keep)],
    )?;
    Ok(Middle::new(sides, numbers, keep))
}

/// What a purchase without a sale is worth, None where that isn't given.
fn keep(
    alloc: Global,
    head: &Head,
    value: Option<&Value>,
    place: &[PlaceStep],
) -> Result<Option<i128>, ReadError>
    ensures { Gives (λ keep. keep) result
        (keep_at head.now.limits place.now (option_map (λ v. view v.now) value.entry)) }
{
    match value {
        None => Ok(None),
        Some(Value::Null) => Ok(None),
        Some(value) => {
            let number = number(alloc, head.limits().amount, Some(value), place)?;
            Ok(Some(number))
        }
    }
}
