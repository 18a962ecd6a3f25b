//! Members of an answer's object: each key with what stands beside it.

// Objects of an answer, from data. One loop makes the values: a function that makes them member by member, with one
// more way out at each, takes several times as long to prove.
ghost use Rattle.std.specs.Prelude.{◌≡◌, All, IfOk, IfSome, OnOk, FitsSigned, codes};
ghost use Rattle.std.specs.Int.{w64};
ghost use Rattle.serde_json.specs.Data.{array, object, put, string};
ghost use Rattle.serde_json.specs.View.{items_of, members_view, view};
ghost use Rattle.tn_answer.specs.Fields.{field_data, members_of, IsShortField};
ghost use Rattle.tn_answer.specs.Values.{bound_data};

use crate::arrays::{Items, array_of};
use crate::counts::counts_value;
use crate::reasons::numbers_value;
use crate::values::{firm_name, option_value, trade_value};
use serde_json::{Map, Value};
use std::alloc::{AllocError, Global};
use tn_model::{Contracts, Nodes, Prices, Trades};
use tn_names::Names;
use tn_said::{Counts, Numbers, Place, UnitBundle, UnitSteps};

/// What stands beside a key of an answer. Lists of ranges and of states are no fields, since each of their items is an
/// object of fields: the calls would go in a circle.
#[derive(Clone, Copy)]
pub(crate) enum Field<'a> {
    Word(&'a str),
    Number(i128),
    Natural(u32),
    /// Null where it is none.
    Bound(Option<i128>),
    /// The name of the firm with this number.
    Firm(u32),
    /// The name of the trade with this number.
    Trade(u32),
    /// The name of a trade, null where it is none.
    TradeOrNull(Option<u32>),
    Trades(&'a Trades),
    Nodes(&'a Nodes),
    /// Of each trade that has units, its name beside how many.
    Counts(&'a Counts),
    /// Of each of its trades its name beside how many.
    UnitBundle(&'a UnitBundle),
    /// Of each the name of its trade beside which way.
    Steps(&'a UnitSteps),
    /// Each beside the name of its trade.
    Prices(&'a Prices),
    /// Each price beside the name of its trade.
    Contracts(&'a Contracts),
    Numbers(&'a Numbers),
    Place(&'a Place),
}

/// A number that may be none, which is null.
pub(crate) fn bound_value(bound: Option<i128>) -> Value
    requires { IfSome bound (FitsSigned w64) }
    ensures { view result ≡ bound_data bound }
{
    match bound {
        None => Value::Null,
        Some(number) => Value::from(number as i64),
    }
}

fn field_value(alloc: Global, names: &Names, field: &Field) -> Result<Value, AllocError>
    requires { IsShortField field.now }
    ensures { IfOk result (λ value. view value ≡ field_data names.now field.now) }
{
    match field {
        Field::Word(text) => Value::try_from_str(alloc, text),
        Field::Number(number) => Ok(Value::from(*number as i64)),
        Field::Natural(number) => Ok(Value::from(*number)),
        Field::Bound(bound) => Ok(bound_value(*bound)),
        Field::Firm(firm) => Value::try_from_str(alloc, firm_name(names, *firm)),
        Field::Trade(trade) => trade_value(alloc, names, *trade),
        Field::TradeOrNull(trade) => option_value(alloc, names, *trade),
        Field::Trades(trades) => array_of(alloc, names, *trades),
        Field::Nodes(nodes) => array_of(alloc, names, *nodes),
        Field::Counts(counts) => counts_value(alloc, names, counts),
        Field::UnitBundle(bundle) => array_of(alloc, names, *bundle),
        Field::Steps(steps) => array_of(alloc, names, *steps),
        Field::Prices(prices) => array_of(alloc, names, *prices),
        Field::Contracts(contracts) => array_of(alloc, names, *contracts),
        Field::Numbers(numbers) => numbers_value(alloc, numbers),
        Field::Place(place) => array_of(alloc, names, *place),
    }
}

/// The members of some fields beside their keys.
fn map_of(
    alloc: Global,
    names: &Names,
    fields: &[(&str, Field)],
) -> Result<Map<String, Value>, AllocError>
    requires { All (λ field. IsShortField field.1) fields.now }
    ensures { IfOk result (λ map. members_view map.entries ≡ members_of names.now fields.now) }
{
    let mut map = Map::new(alloc);
    for (key, field) in fields {
        let value = field_value(alloc, names, field)?;
        serde_json::put(&mut map, alloc, key, value)?;
    }
    Ok(map)
}

/// The object of some fields beside their keys.
pub(crate) fn object_of(
    alloc: Global,
    names: &Names,
    fields: &[(&str, Field)],
) -> Result<Value, AllocError>
    requires { All (λ field. IsShortField field.1) fields.now }
    ensures { IfOk result (λ value. view value ≡ object (members_of names.now fields.now)) }
{
    Ok(Value::Object(map_of(alloc, names, fields)?))
}

fn put_word(
    map: &mut Map<String, Value>,
    alloc: Global,
    key: &str,
    word: &str,
) -> Result<(), AllocError>
    ensures { OnOk result (members_view map.new.entries
        ≡ put key.now (string word.now) (members_view map.old.entries)) }
{
    serde_json::put(map, alloc, key, Value::try_from_str(alloc, word)?)
}

/// The object of an answer of some kind, with some fields beside their keys.
pub(crate) fn answer_of(
    alloc: Global,
    names: &Names,
    kind: &str,
    fields: &[(&str, Field)],
) -> Result<Value, AllocError>
    requires { All (λ field. IsShortField field.1) fields.now }
    ensures { IfOk result (λ value. view value
        ≡ object (put (codes "answer") (string kind.now) (members_of names.now fields.now))) }
{
    let mut map = map_of(alloc, names, fields)?;
    put_word(&mut map, alloc, "answer", kind)?;
    Ok(Value::Object(map))
}

/// The object of the answer that a claim isn't valid, for a reason, with some fields beside their keys.
pub(crate) fn invalid_of(
    alloc: Global,
    names: &Names,
    reason: &str,
    fields: &[(&str, Field)],
) -> Result<Value, AllocError>
    requires { All (λ field. IsShortField field.1) fields.now }
    ensures { IfOk result (λ value. view value ≡ object (put (codes "answer") (string (codes "invalid"))
        (put (codes "reason") (string reason.now) (members_of names.now fields.now)))) }
{
    let mut map = map_of(alloc, names, fields)?;
    put_word(&mut map, alloc, "reason", reason)?;
    put_word(&mut map, alloc, "answer", "invalid")?;
    Ok(Value::Object(map))
}

/// The object of some fields beside their keys, and of a list of objects beside its own.
pub(crate) fn object_with<L: Items>(
    alloc: Global,
    names: &Names,
    fields: &[(&str, Field)],
    key: &str,
    list: &L,
) -> Result<Value, AllocError>
    requires fields { All (λ field. IsShortField field.1) fields.now }
    requires list { L.IsShort list.now }
    ensures { IfOk result (λ value. view value ≡ object (put key.now
        (array (items_of (L.values_data names.now list.now))) (members_of names.now fields.now))) }
{
    let mut map = map_of(alloc, names, fields)?;
    let value = array_of(alloc, names, list)?;
    serde_json::put(&mut map, alloc, key, value)?;
    Ok(Value::Object(map))
}
