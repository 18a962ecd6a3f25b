//! The members of a claim.

ghost use Rattle.std.specs.Prelude.{◌<◌, ◌≤◌, length, option_map, IfOk};
ghost use Rattle.serde_json.specs.View.{view};
ghost use Rattle.tn_model.specs.Limits.{most_own_trades};
ghost use Rattle.tn_read_shapes.specs.Reading.{Gives};
ghost use Rattle.tn_read_references.specs.Ordered.{sides_of};
ghost use Rattle.tn_read_claims.specs.Members.{claimed_bundle, claimed_firm, claimed_number, claimed_on, claimed_over, claimed_prices, gain_or_null, own_or_null};

use serde_json::Value;
use std::alloc::Global;
use tn_base::{Bundle, TradeSet};
use tn_model::Prices;
use tn_read_parts::{ListAt, read_over, read_prices, read_trades};
use tn_read_references::{Head, OwnPart, PartAt, firm, own_bundle, own_position};
use tn_read_shapes::{ReadError, fault, list, member, number};
use tn_said::PlaceStep::Key;
use tn_said::{FaultKind, PlaceStep, Word};

/// A number that a claim speaks of.
pub(crate) fn number_of(
    alloc: Global,
    head: &Head,
    word: Word,
    value: Option<&Value>,
) -> Result<i128, ReadError>
    ensures { Gives (λ z. z) result (claimed_number head.now word (option_map (λ v. view v.now) value.entry)) }
{
    let place = [Key(Word::Claim), Key(word)];
    number(alloc, head.limits().number, value, &place)
}

/// The gain of a claim, None where it is null.
pub(crate) fn gain_or_null(
    alloc: Global,
    head: &Head,
    value: Option<&Value>,
) -> Result<Option<i128>, ReadError>
    ensures { Gives (λ gain. gain) result (gain_or_null head.now (option_map (λ v. view v.now) value.entry)) }
{
    match value {
        None => Err(fault(
            alloc,
            FaultKind::Shape,
            &[Key(Word::Claim), Key(Word::Gain)],
        )),
        Some(Value::Null) => Ok(None),
        Some(value) => {
            let gain = number_of(alloc, head, Word::Gain, Some(value))?;
            Ok(Some(gain))
        }
    }
}

/// The claimed firm.
pub(crate) fn firm_of(alloc: Global, head: &Head, claim: &Value) -> Result<u32, ReadError>
    ensures gives { Gives (λ f. f) result (claimed_firm head.now.names.firms (view claim.now)) }
    ensures known { IfOk result (λ f. f < length head.now.names.firms) }
{
    firm(
        alloc,
        head.names(),
        member(claim, Word::Firm),
        &[Key(Word::Claim), Key(Word::Firm)],
    )
}

/// A bundle of firm `f`, as the list of its trades.
pub(crate) fn bundle_of(
    alloc: Global,
    head: &Head,
    f: u32,
    word: Word,
    value: Option<&Value>,
) -> Result<Bundle, ReadError>
    requires few { length (sides_of head.now.ends f) ≤ most_own_trades }
    ensures { Gives (λ bundle. bundle) result
        (claimed_bundle head.now f word
        (option_map (λ v. view v.now) value.entry)) }
{
    let at = PartAt::Member {
        part: Key(Word::Claim),
        member: Key(word),
    };
    own_bundle(alloc, head, OwnPart { firm: f, at }, value)
}

/// A position of firm `f`, as its trade, None where it is null.
pub(crate) fn own_or_null(
    alloc: Global,
    head: &Head,
    f: u32,
    value: Option<&Value>,
    place: &[PlaceStep],
) -> Result<Option<u32>, ReadError>
    ensures { Gives (λ at. at) result
        (own_or_null head.now f place.now
        (option_map (λ v. view v.now) value.entry)) }
{
    match value {
        None => Err(fault(alloc, FaultKind::Shape, place)),
        Some(Value::Null) => Ok(None),
        Some(value) => {
            let k = own_position(alloc, head, f, None, value, place)?;
            Ok(Some(k))
        }
    }
}

/// The claim's denominator.
pub(crate) fn over_of(alloc: Global, head: &Head, claim: &Value) -> Result<i128, ReadError>
    ensures { Gives (λ over. over) result (claimed_over head.now (view claim.now)) }
{
    read_over(
        alloc,
        head.limits().claimed_over,
        member(claim, Word::Over),
        &[Key(Word::Claim), Key(Word::Over)],
    )
}

/// The claim's trades that are on.
#[tactic(auto, unfolding(crate::specs::Members::claimed_on))]
pub(crate) fn on_of(alloc: Global, head: &Head, claim: &Value) -> Result<TradeSet<16>, ReadError>
    ensures { Gives (λ on. on) result (claimed_on head.now.names.trades (view claim.now)) }
{
    let at = ListAt {
        part: Key(Word::Claim),
        member: Key(Word::On),
    };
    let references = list(alloc, member(claim, Word::On), &[at.part, at.member])?;
    read_trades(alloc, head, at, references)
}

/// The claim's prices, one for each trade.
#[tactic(auto, unfolding(crate::specs::Members::claimed_prices))]
pub(crate) fn prices_of(alloc: Global, head: &Head, claim: &Value) -> Result<Prices, ReadError>
    ensures { Gives (λ prices. prices) result (claimed_prices head.now (view claim.now)) }
{
    let at = ListAt {
        part: Key(Word::Claim),
        member: Key(Word::Prices),
    };
    let entries = list(alloc, member(claim, Word::Prices), &[at.part, at.member])?;
    let prices = read_prices(alloc, head, at, head.limits().number, entries)?;
    Ok(Prices::from_vec(prices))
}
