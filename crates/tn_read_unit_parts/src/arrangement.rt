//! Reads the arrangement of a document whose trades have units.

ghost use Rattle.std.specs.Prelude.{◌≡◌, ◌≤◌, ◌<◌, ◌^◌, length, map, unsigned_abs, All, IfOk};
ghost use Rattle.serde_json.specs.View.{view};
ghost use Rattle.tn_read_shapes.specs.Reading.{Gives};
ghost use Rattle.tn_read_unit_parts.specs.Arranged.{AreCountsOf, IsUnitArrangement, counts_on_of, on_of, unit_arrangement_of};

use crate::entries::{EntryNumbers, numbered, prices_of};
use serde_json::Value;
use std::alloc::Global;
use tn_base::OutOfMemory;
use tn_read_shapes::{ObjectKind, ReadError, list, member, object_of, present};
use tn_read_units::UnitHead;
use tn_said::PlaceStep::Key;
use tn_said::Word;

/// How many units of each trade go, and a price of a unit of each, by trade number.
#[derive(Drop)]
pub struct UnitArrangement {
    pub counts: Vec<u32>,
    pub prices: Vec<i128>,
}

/// The arrangement of a document.
#[tactic(auto, unfolding(crate::specs::Arranged::unit_arrangement_of))]
pub fn read_unit_arrangement(
    alloc: Global,
    head: &UnitHead,
    top: &Value,
) -> Result<UnitArrangement, ReadError>
    ensures { Gives (λ part. record { counts = part.counts.items; prices = part.prices.items }) result
        (unit_arrangement_of head.now (view top.now)) }
{
    let (part, counts) = read_on(alloc, head, top)?;
    let place = [Key(Word::Arrangement), Key(Word::Prices)];
    let entries = list(alloc, member(part, Word::Prices), &place)?;
    let prices = prices_of(alloc, head, entries)?;
    Ok(UnitArrangement { counts, prices })
}

/// How many units of each trade go in a document's arrangement, whatever its prices are.
#[tactic(auto, unfolding(crate::specs::Arranged::counts_on_of))]
pub fn read_counts_on(alloc: Global, head: &UnitHead, top: &Value) -> Result<Vec<u32>, ReadError>
    ensures { Gives (λ counts. counts.items) result (counts_on_of head.now (view top.now)) }
{
    let (_, counts) = read_on(alloc, head, top)?;
    Ok(counts)
}

/// The part that is the arrangement, and how many units of each trade go.
#[tactic(auto, unfolding(crate::specs::Arranged::on_of))]
fn read_on<'a>(
    alloc: Global,
    head: &UnitHead,
    top: &'a Value,
) -> Result<(&'a Value, Vec<u32>), ReadError>
    ensures { Gives (λ p. (view p.0.now, p.1.items)) result (on_of head.now (view top.now)) }
{
    let place = [Key(Word::Arrangement)];
    let part = present(alloc, member(top, Word::Arrangement), &place)?;
    object_of(alloc, ObjectKind::Arrangement, Some(part), &place)?;
    let place = [Key(Word::Arrangement), Key(Word::On)];
    let entries = list(alloc, member(part, Word::On), &place)?;
    let _trades = head.trades();
    let (_, units) = numbered(alloc, head, EntryNumbers::Units, entries)?;
    let counts = counts_of(alloc, &units)?;
    Ok((part, counts))
}

/// Numbers of units as counts.
fn counts_of(alloc: Global, units: &[i128]) -> Result<Vec<u32>, OutOfMemory>
    requires { All (λ z. unsigned_abs z < 2 ^ 32) units.now }
    ensures { IfOk result (λ counts. counts.items ≡ map unsigned_abs units.now) }
{
    let mut counts = Vec::new(alloc);
    for z in units {
        counts.push(z.unsigned_abs() as u32)?;
    }
    Ok(counts)
}
