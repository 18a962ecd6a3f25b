//! Reads counts of units.

ghost use Rattle.std.specs.Prelude.{◌≡◌, ◌≤◌, option_map, IfOk};
ghost use Rattle.serde_json.specs.View.{view};
ghost use Rattle.tn_read_shapes.specs.Reading.{Gives};
ghost use Rattle.tn_read_units.specs.Counts.{count_at, units_at};
ghost use Rattle.tn_read_units.specs.Limits.{most_units_at_once};

use serde_json::Value;
use std::alloc::Global;
use tn_read_shapes::{ReadError, require, whole};
use tn_said::{FaultKind, PlaceStep};

/// The most units of a trade, or of a step of a set.
const MOST_UNITS_AT_ONCE: u64 = 1 << 20;

/// So many units; the faults are, in this order, no whole number, and one below 1 or above the limit.
#[tactic(auto, unfolding(crate::specs::Counts::count_at))]
pub(crate) fn count(
    alloc: Global,
    value: Option<&Value>,
    place: &[PlaceStep],
) -> Result<u32, ReadError>
    ensures gives { Gives (λ units. units) result
        (count_at place.now (option_map (λ v. view v.now) value.entry)) }
    ensures some { IfOk result (λ units. 1 ≤ units) }
    ensures few { IfOk result (λ units. units ≤ most_units_at_once) }
{
    let number = whole(alloc, value, place)?;
    require(
        alloc,
        0 < number && number.unsigned_abs() <= MOST_UNITS_AT_ONCE,
        FaultKind::AmountRange,
        place,
    )?;
    Ok(number.unsigned_abs() as u32)
}

/// The units of a trade, 1 where there is no such member.
pub(crate) fn units(
    alloc: Global,
    value: Option<&Value>,
    place: &[PlaceStep],
) -> Result<u32, ReadError>
    ensures gives { Gives (λ units. units) result
        (units_at place.now (option_map (λ v. view v.now) value.entry)) }
    ensures some { IfOk result (λ units. 1 ≤ units) }
    ensures few { IfOk result (λ units. units ≤ most_units_at_once) }
{
    match value {
        Some(value) => count(alloc, Some(value), place),
        None => Ok(1),
    }
}
