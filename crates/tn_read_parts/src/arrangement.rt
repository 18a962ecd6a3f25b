//! Reads the arrangement.

ghost use Rattle.serde_json.specs.View.{view};
ghost use Rattle.tn_read_shapes.specs.Reading.{Gives};
ghost use Rattle.tn_read_parts.specs.Arranged.{Arranged, arrangement_of, on_of, trades_on_of};

use crate::lists::{ListAt, read_prices, read_trades};
use serde_json::Value;
use std::alloc::Global;
use tn_base::TradeSet;
use tn_model::{Arrangement, Prices};
use tn_read_references::Head;
use tn_read_shapes::{ObjectKind, ReadError, list, member, object_of, present};
use tn_said::PlaceStep::Key;
use tn_said::Word;

/// The arrangement of a document.
#[tactic(auto, unfolding(crate::specs::Arranged::arrangement_of))]
pub fn read_arrangement(
    alloc: Global,
    head: &Head,
    top: &Value,
) -> Result<Arrangement<16>, ReadError>
    ensures { Gives (λ part. record { on = part.on; prices = part.prices }) result
        (arrangement_of head.now (view top.now)) }
{
    let (part, on) = read_on(alloc, head, top)?;
    let at = ListAt {
        part: Key(Word::Arrangement),
        member: Key(Word::Prices),
    };
    let entries = list(alloc, member(part, Word::Prices), &[at.part, at.member])?;
    let prices = read_prices(alloc, head, at, head.limits().price, entries)?;
    Ok(Arrangement {
        on,
        prices: Prices::from_vec(prices),
    })
}

/// The trades that are on in a document's arrangement, whatever its prices are.
#[tactic(auto, unfolding(crate::specs::Arranged::trades_on_of))]
pub fn read_trades_on(alloc: Global, head: &Head, top: &Value) -> Result<TradeSet<16>, ReadError>
    ensures { Gives (λ on. on) result (trades_on_of head.now.names.trades (view top.now)) }
{
    let (_, on) = read_on(alloc, head, top)?;
    Ok(on)
}

/// The part that is the arrangement, and the trades that are on.
#[tactic(auto, unfolding(crate::specs::Arranged::on_of))]
fn read_on<'a>(
    alloc: Global,
    head: &Head,
    top: &'a Value,
) -> Result<(&'a Value, TradeSet<16>), ReadError>
    ensures { Gives (λ p. (view p.0.now, p.1)) result (on_of head.now.names.trades (view top.now)) }
{
    let part = present(
        alloc,
        member(top, Word::Arrangement),
        &[Key(Word::Arrangement)],
    )?;
    object_of(
        alloc,
        ObjectKind::Arrangement,
        Some(part),
        &[Key(Word::Arrangement)],
    )?;
    let at = ListAt {
        part: Key(Word::Arrangement),
        member: Key(Word::On),
    };
    let references = list(alloc, member(part, Word::On), &[at.part, at.member])?;
    let on = read_trades(alloc, head, at, references)?;
    Ok((part, on))
}
