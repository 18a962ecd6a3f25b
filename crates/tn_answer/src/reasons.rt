//! Why a claim isn't valid, as a JSON value.

// Reasons against a claim, and the numbers of cases, as JSON values.
ghost use Rattle.std.specs.Prelude.{◌≡◌, codes, IfOk, IfSome, FitsSigned};
ghost use Rattle.std.specs.Int.{w64};
ghost use Rattle.serde_json.specs.Data.{member, no_members, number, unsigned};
ghost use Rattle.serde_json.specs.View.{view};
ghost use Rattle.tn_answer.specs.AnswerText.{answer};
ghost use Rattle.tn_answer.specs.ReasonText.{because, firm_because, reason_members, IsShortReason};
ghost use Rattle.tn_answer.specs.Values.{integer_data, name_data, numbers_data};

use crate::fields::{Field, invalid_of};
use serde_json::Value;
use std::alloc::{AllocError, Global};
use tn_model::Trades;
use tn_names::Names;
use tn_said::{Numbers, Reason};

pub(crate) fn invalid_value(
    alloc: Global,
    names: &Names,
    reason: &Reason,
) -> Result<Value, AllocError>
    requires { IsShortReason reason.now }
    ensures { IfOk result
        (λ value. view value ≡ answer (codes "invalid") (reason_members names.now reason.now)) }
{
    match reason {
        Reason::Impossible { firm } => firm_value(alloc, names, *firm, "impossible"),
        Reason::Better { firm, bundle } => better_value(alloc, names, *firm, bundle),
        Reason::Possible { firm } => firm_value(alloc, names, *firm, "possible"),
        Reason::Surplus { surplus } => surplus_value(alloc, names, *surplus),
        Reason::Gain { firm, gain } => gain_value(alloc, names, *firm, *gain),
        Reason::Exchange { firm, x, y, at } => exchange_value(alloc, names, *firm, x, y, *at),
        Reason::Holds => plain_value(alloc, names, "holds"),
        Reason::Arc { index } => arc_value(alloc, names, *index),
        Reason::Cost { cost } => cost_value(alloc, names, *cost),
        Reason::Contract { trade } => trade_value(alloc, names, *trade, "contract"),
        Reason::Over { over } => over_value(alloc, names, *over),
        Reason::Price { trade } => trade_value(alloc, names, *trade, "price"),
        Reason::Empty => plain_value(alloc, names, "empty"),
        Reason::Signed { trade } => trade_value(alloc, names, *trade, "signed"),
        Reason::Choice { firm, trade } => choice_value(alloc, names, *firm, *trade),
        Reason::Shares { firm } => firm_value(alloc, names, *firm, "shares"),
        Reason::Balance { trade } => trade_value(alloc, names, *trade, "balance"),
        Reason::Whole { on, surplus } => whole_value(alloc, names, on, *surplus),
    }
}

/// A reason that names nothing.
fn plain_value(alloc: Global, names: &Names, reason: &str) -> Result<Value, AllocError>
    ensures { IfOk result
        (λ value. view value ≡ answer (codes "invalid") (because reason.now no_members)) }
{
    invalid_of(alloc, names, reason, &[])
}

/// A reason that names a firm alone.
fn firm_value(alloc: Global, names: &Names, firm: u32, reason: &str) -> Result<Value, AllocError>
    ensures { IfOk result
        (λ value. view value ≡ answer (codes "invalid") (firm_because names.now firm reason.now no_members)) }
{
    let fields = [("firm", Field::Firm(firm))];
    invalid_of(alloc, names, reason, &fields)
}

/// A reason that names a trade alone.
fn trade_value(alloc: Global, names: &Names, trade: u32, reason: &str) -> Result<Value, AllocError>
    ensures { IfOk result
        (λ value. view value ≡ answer (codes "invalid")
        (because reason.now (member (codes "trade") (name_data names.now.trades trade) no_members))) }
{
    let fields = [("trade", Field::Trade(trade))];
    invalid_of(alloc, names, reason, &fields)
}

fn better_value(
    alloc: Global,
    names: &Names,
    firm: u32,
    bundle: &Trades,
) -> Result<Value, AllocError>
    ensures { IfOk result
        (λ value. view value ≡ answer (codes "invalid") (reason_members names.now (Reason.Better firm bundle.now))) }
{
    let fields = [
        ("bundle", Field::Trades(bundle)),
        ("firm", Field::Firm(firm)),
    ];
    invalid_of(alloc, names, "better", &fields)
}

fn surplus_value(alloc: Global, names: &Names, surplus: i128) -> Result<Value, AllocError>
    requires { FitsSigned w64 surplus }
    ensures { IfOk result
        (λ value. view value ≡ answer (codes "invalid")
        (because (codes "surplus") (member (codes "surplus") (integer_data surplus) no_members))) }
{
    let fields = [("surplus", Field::Number(surplus))];
    invalid_of(alloc, names, "surplus", &fields)
}

fn arc_value(alloc: Global, names: &Names, index: u32) -> Result<Value, AllocError>
    ensures { IfOk result
        (λ value. view value ≡ answer (codes "invalid") (reason_members names.now (Reason.Arc index))) }
{
    let fields = [("index", Field::Natural(index))];
    invalid_of(alloc, names, "arc", &fields)
}

fn cost_value(alloc: Global, names: &Names, cost: i128) -> Result<Value, AllocError>
    requires { FitsSigned w64 cost }
    ensures { IfOk result
        (λ value. view value ≡ answer (codes "invalid")
        (member (codes "cost") (integer_data cost) (because (codes "cost") no_members))) }
{
    let fields = [("cost", Field::Number(cost))];
    invalid_of(alloc, names, "cost", &fields)
}

fn over_value(alloc: Global, names: &Names, over: i128) -> Result<Value, AllocError>
    requires { FitsSigned w64 over }
    ensures { IfOk result
        (λ value. view value ≡ answer (codes "invalid")
        (member (codes "over") (integer_data over) (because (codes "over") no_members))) }
{
    let fields = [("over", Field::Number(over))];
    invalid_of(alloc, names, "over", &fields)
}

fn gain_value(
    alloc: Global,
    names: &Names,
    firm: u32,
    gain: Option<i128>,
) -> Result<Value, AllocError>
    requires { IfSome gain (FitsSigned w64) }
    ensures { IfOk result
        (λ value. view value ≡ answer (codes "invalid") (reason_members names.now (Reason.Gain firm gain))) }
{
    let fields = [("firm", Field::Firm(firm)), ("gain", Field::Bound(gain))];
    invalid_of(alloc, names, "gain", &fields)
}

fn exchange_value<'a>(
    alloc: Global,
    names: &Names,
    firm: u32,
    x: &'a Trades,
    y: &'a Trades,
    at: Option<u32>,
) -> Result<Value, AllocError>
    ensures { IfOk result
        (λ value. view value
        ≡ answer (codes "invalid") (reason_members names.now (Reason.Exchange firm x.now y.now at))) }
{
    let fields = [
        ("at", Field::TradeOrNull(at)),
        ("firm", Field::Firm(firm)),
        ("x", Field::Trades(x)),
        ("y", Field::Trades(y)),
    ];
    invalid_of(alloc, names, "exchange", &fields)
}

fn choice_value(alloc: Global, names: &Names, firm: u32, trade: u32) -> Result<Value, AllocError>
    ensures { IfOk result
        (λ value. view value ≡ answer (codes "invalid") (reason_members names.now (Reason.Choice firm trade))) }
{
    let fields = [("firm", Field::Firm(firm)), ("trade", Field::Trade(trade))];
    invalid_of(alloc, names, "choice", &fields)
}

fn whole_value(
    alloc: Global,
    names: &Names,
    on: &Trades,
    surplus: i128,
) -> Result<Value, AllocError>
    requires { FitsSigned w64 surplus }
    ensures { IfOk result
        (λ value. view value ≡ answer (codes "invalid") (reason_members names.now (Reason.Whole on.now surplus))) }
{
    let fields = [
        ("on", Field::Trades(on)),
        ("surplus", Field::Number(surplus)),
    ];
    invalid_of(alloc, names, "whole", &fields)
}

fn number_value(n: u32) -> Value
    ensures { view result ≡ number (unsigned n) }
{
    Value::from(n)
}

pub(crate) fn numbers_value(alloc: Global, numbers: &Numbers) -> Result<Value, AllocError>
    ensures { IfOk result (λ value. view value ≡ numbers_data numbers.now) }
{
    let mut values = Vec::new(alloc);
    for k in 0..numbers.len() {
        values.push(number_value(numbers.at(k)))?;
    }
    Ok(Value::Array(values))
}
