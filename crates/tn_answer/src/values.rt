//! Each answer as a JSON value.

// Answers as JSON values, null for a page. An object has its members in byte order, whatever order
// they are put in.
ghost use Rattle.std.specs.Prelude.{◌≡◌, [], All, unwrap_or, slice_get, IfOk, IfSome, FitsSigned};
ghost use Rattle.std.specs.Int.{w64};
ghost use Rattle.serde_json.specs.Data.{no_members};
ghost use Rattle.serde_json.specs.View.{view};
ghost use Rattle.tn_answer.specs.AnswerText.{answer, answer_data, fault_data, price_data, step_data};
ghost use Rattle.tn_answer.specs.Values.{name_data, option_data};
ghost use Rattle.tn_answer.specs.Sayable.{HasShortBounds, HasShortUnitBounds, IsSayable, IsShortState, IsShortUnitState};

use crate::arrays::Items;
use crate::fields::{Field, answer_of, object_with};
use crate::holdings::{firms_by_counts_value, firms_value};
use crate::reasons::invalid_value;
use crate::words::kind_name;
use serde_json::{Value, json};
use std::alloc::{AllocError, Global};
use tn_model::{Contracts, Nodes, Prices, Ranges, Trades};
use tn_names::Names;
use tn_said::{
    Counts, Fault, Numbers, Place, PlaceStep, Said, Shown, States, UnitBundle, UnitRanges,
    UnitStates, UnitSteps,
};

pub(crate) fn answer_value(alloc: Global, names: &Names, said: &Said) -> Result<Value, AllocError>
    requires { IsSayable said.now }
    ensures { IfOk result (λ value. view value ≡ answer_data names.now said.now) }
{
    match said {
        Said::Usage => plain_value(alloc, names, "usage"),
        Said::ReadFault => plain_value(alloc, names, "read_fault"),
        Said::NoMemory => plain_value(alloc, names, "no_memory"),
        Said::Fault(fault) => fault_value(alloc, names, fault),
        Said::Equilibrium { surplus } => equilibrium_value(alloc, names, *surplus),
        Said::Better { firm, bundle, gain } => better_value(alloc, names, *firm, bundle, *gain),
        Said::BetterByCounts { firm, bundle, gain } => {
            better_by_counts_value(alloc, names, *firm, bundle, *gain)
        }
        Said::Impossible { firm } => impossible_value(alloc, names, *firm),
        Said::Accepted => plain_value(alloc, names, "accepted"),
        Said::ExchangeFails { firm, x, y, at } => {
            exchange_fails_value(alloc, names, *firm, x, y, *at)
        }
        Said::Supported { prices, .. } => supported_value(alloc, names, prices),
        Said::SupportedByCounts { prices, .. } => supported_value(alloc, names, prices),
        Said::Cycle { nodes, cost } => cycle_value(alloc, names, nodes, *cost),
        Said::CycleByCounts { nodes, cost } => cycle_by_counts_value(alloc, names, nodes, *cost),
        Said::Solved {
            on,
            prices,
            surplus,
            ..
        } => solved_value(alloc, names, on, prices, *surplus),
        Said::SolvedByCounts {
            counts,
            prices,
            surplus,
            ..
        } => counted_value(alloc, names, counts, prices, *surplus),
        // (written as lines)
        Said::Page(_) => Ok(Value::Null),
        Said::Drill {
            size,
            start,
            firms,
            surplus,
        } => drill_value(alloc, names, *size, *start, *firms, *surplus),
        Said::Ranges { on, ranges, .. } => ranged_value(alloc, names, on, ranges),
        Said::RangesByCounts { counts, ranges, .. } => {
            ranged_by_counts_value(alloc, names, counts, ranges)
        }
        Said::Session { edits } => session_value(alloc, names, edits),
        Said::SessionByCounts { edits } => session_by_counts_value(alloc, names, edits),
        Said::Drops {
            firm,
            keeps,
            gain,
            over,
        } => drops_value(alloc, names, *firm, keeps, *gain, *over),
        Said::DropsByCounts {
            firm,
            keeps,
            gain,
            over,
        } => drops_by_counts_value(alloc, names, *firm, keeps, *gain, *over),
        Said::Completes { prices, over } => completes_value(alloc, names, prices, *over),
        Said::CompletesByCounts { prices, over } => {
            completes_by_counts_value(alloc, names, prices, *over)
        }
        Said::Blocks { contracts, over } => blocks_value(alloc, names, contracts, *over),
        Said::Valid => plain_value(alloc, names, "valid"),
        Said::Invalid(reason) => invalid_value(alloc, names, reason),
        Said::Cases { count, failed } => cases_value(alloc, names, *count, failed),
        Said::Firms {
            content,
            firms,
            surplus,
        } => firms_value(alloc, names, *content, firms, *surplus),
        Said::FirmsByCounts {
            content,
            firms,
            surplus,
        } => firms_by_counts_value(alloc, names, *content, firms, *surplus),
    }
}

/// An answer that says nothing more.
fn plain_value(alloc: Global, names: &Names, kind: &str) -> Result<Value, AllocError>
    ensures { IfOk result (λ value. view value ≡ answer kind.now no_members) }
{
    answer_of(alloc, names, kind, &[])
}

fn fault_value(alloc: Global, names: &Names, fault: &Fault) -> Result<Value, AllocError>
    ensures { IfOk result (λ value. view value ≡ fault_data names.now.trades fault.now fault.now.shown) }
{
    match &fault.shown {
        None => plain_fault_value(alloc, names, fault),
        Some(shown) => shown_fault_value(alloc, names, fault, shown),
    }
}

fn plain_fault_value(alloc: Global, names: &Names, fault: &Fault) -> Result<Value, AllocError>
    ensures { IfOk result (λ value. view value ≡ fault_data names.now.trades fault.now None) }
{
    let fields = [
        ("fault", Field::Natural(fault.kind.number() as u32)),
        ("name", Field::Word(kind_name(fault.kind))),
        ("place", Field::Place(&fault.place)),
    ];
    answer_of(alloc, names, "fault", &fields)
}

fn shown_fault_value<'a>(
    alloc: Global,
    names: &Names,
    fault: &'a Fault,
    shown: &'a Shown,
) -> Result<Value, AllocError>
    ensures { IfOk result
        (λ value. view value ≡ fault_data names.now.trades fault.now (Some shown.now)) }
{
    let fields = [
        ("at", Field::TradeOrNull(shown.at)),
        ("fault", Field::Natural(fault.kind.number() as u32)),
        ("name", Field::Word(kind_name(fault.kind))),
        ("place", Field::Place(&fault.place)),
        ("x", Field::Trades(&shown.x)),
        ("y", Field::Trades(&shown.y)),
    ];
    answer_of(alloc, names, "fault", &fields)
}

fn equilibrium_value(alloc: Global, names: &Names, surplus: i128) -> Result<Value, AllocError>
    requires { FitsSigned w64 surplus }
    ensures { IfOk result
        (λ value. view value ≡ answer_data names.now (Said.Equilibrium surplus)) }
{
    let fields = [("surplus", Field::Number(surplus))];
    answer_of(alloc, names, "equilibrium", &fields)
}

fn better_value(
    alloc: Global,
    names: &Names,
    firm: u32,
    bundle: &Trades,
    gain: i128,
) -> Result<Value, AllocError>
    requires { FitsSigned w64 gain }
    ensures { IfOk result
        (λ value. view value ≡ answer_data names.now (Said.Better firm bundle.now gain)) }
{
    let fields = [
        ("bundle", Field::Trades(bundle)),
        ("firm", Field::Firm(firm)),
        ("gain", Field::Number(gain)),
    ];
    answer_of(alloc, names, "better", &fields)
}

fn better_by_counts_value(
    alloc: Global,
    names: &Names,
    firm: u32,
    bundle: &UnitBundle,
    gain: i128,
) -> Result<Value, AllocError>
    requires { FitsSigned w64 gain }
    ensures { IfOk result
        (λ value. view value ≡ answer_data names.now (Said.BetterByCounts firm bundle.now gain)) }
{
    let fields = [
        ("bundle", Field::UnitBundle(bundle)),
        ("firm", Field::Firm(firm)),
        ("gain", Field::Number(gain)),
    ];
    answer_of(alloc, names, "better", &fields)
}

fn impossible_value(alloc: Global, names: &Names, firm: u32) -> Result<Value, AllocError>
    ensures { IfOk result (λ value. view value ≡ answer_data names.now (Said.Impossible firm)) }
{
    let fields = [("firm", Field::Firm(firm))];
    answer_of(alloc, names, "impossible", &fields)
}

fn exchange_fails_value<'a>(
    alloc: Global,
    names: &Names,
    firm: u32,
    x: &'a Trades,
    y: &'a Trades,
    at: Option<u32>,
) -> Result<Value, AllocError>
    ensures { IfOk result
        (λ value. view value ≡ answer_data names.now (Said.ExchangeFails firm x.now y.now at)) }
{
    let fields = [
        ("at", Field::TradeOrNull(at)),
        ("firm", Field::Firm(firm)),
        ("x", Field::Trades(x)),
        ("y", Field::Trades(y)),
    ];
    answer_of(alloc, names, "exchange_fails", &fields)
}

fn supported_value(alloc: Global, names: &Names, prices: &Prices) -> Result<Value, AllocError>
    requires { All (FitsSigned w64) prices.now }
    ensures { IfOk result
        (λ value. view value ≡ answer_data names.now (Said.Supported [] prices.now [])) }
{
    let fields = [("prices", Field::Prices(prices))];
    answer_of(alloc, names, "prices", &fields)
}

fn cycle_value(alloc: Global, names: &Names, nodes: &Nodes, cost: i128) -> Result<Value, AllocError>
    requires { FitsSigned w64 cost }
    ensures { IfOk result
        (λ value. view value ≡ answer_data names.now (Said.Cycle nodes.now cost)) }
{
    let fields = [
        ("cost", Field::Number(cost)),
        ("nodes", Field::Nodes(nodes)),
    ];
    answer_of(alloc, names, "cycle", &fields)
}

fn cycle_by_counts_value(
    alloc: Global,
    names: &Names,
    nodes: &UnitSteps,
    cost: i128,
) -> Result<Value, AllocError>
    requires { FitsSigned w64 cost }
    ensures { IfOk result
        (λ value. view value ≡ answer_data names.now (Said.CycleByCounts nodes.now cost)) }
{
    let fields = [
        ("cost", Field::Number(cost)),
        ("nodes", Field::Steps(nodes)),
    ];
    answer_of(alloc, names, "cycle", &fields)
}

fn solved_value<'a>(
    alloc: Global,
    names: &Names,
    on: &'a Trades,
    prices: &'a Prices,
    surplus: i128,
) -> Result<Value, AllocError>
    requires prices { All (FitsSigned w64) prices.now }
    requires surplus { FitsSigned w64 surplus }
    ensures { IfOk result
        (λ value. view value ≡ answer_data names.now (Said.Solved on.now prices.now surplus [])) }
{
    let fields = [
        ("on", Field::Trades(on)),
        ("prices", Field::Prices(prices)),
        ("surplus", Field::Number(surplus)),
    ];
    answer_of(alloc, names, "solved", &fields)
}

fn counted_value<'a>(
    alloc: Global,
    names: &Names,
    counts: &'a Counts,
    prices: &'a Prices,
    surplus: i128,
) -> Result<Value, AllocError>
    requires prices { All (FitsSigned w64) prices.now }
    requires surplus { FitsSigned w64 surplus }
    ensures { IfOk result
        (λ value. view value ≡ answer_data names.now (Said.SolvedByCounts counts.now prices.now surplus [])) }
{
    let fields = [
        ("on", Field::Counts(counts)),
        ("prices", Field::Prices(prices)),
        ("surplus", Field::Number(surplus)),
    ];
    answer_of(alloc, names, "solved", &fields)
}

fn drill_value(
    alloc: Global,
    names: &Names,
    size: u32,
    start: u32,
    firms: u32,
    surplus: i128,
) -> Result<Value, AllocError>
    requires { FitsSigned w64 surplus }
    ensures { IfOk result
        (λ value. view value ≡ answer_data names.now (Said.Drill size start firms surplus)) }
{
    let fields = [
        ("firms", Field::Natural(firms)),
        ("size", Field::Natural(size)),
        ("start", Field::Natural(start)),
        ("surplus", Field::Number(surplus)),
    ];
    answer_of(alloc, names, "drill", &fields)
}

fn ranged_value(
    alloc: Global,
    names: &Names,
    on: &Trades,
    ranges: &Ranges,
) -> Result<Value, AllocError>
    requires { All HasShortBounds ranges.now }
    ensures { IfOk result
        (λ value. view value ≡ answer_data names.now (Said.Ranges on.now ranges.now [])) }
{
    let fields = [("answer", Field::Word("ranges")), ("on", Field::Trades(on))];
    object_with(alloc, names, &fields, "ranges", ranges)
}

fn ranged_by_counts_value(
    alloc: Global,
    names: &Names,
    counts: &Counts,
    ranges: &UnitRanges,
) -> Result<Value, AllocError>
    requires { All HasShortUnitBounds ranges.now }
    ensures { IfOk result
        (λ value. view value ≡ answer_data names.now (Said.RangesByCounts counts.now ranges.now [])) }
{
    let fields = [
        ("answer", Field::Word("ranges")),
        ("on", Field::Counts(counts)),
    ];
    object_with(alloc, names, &fields, "ranges", ranges)
}

fn session_value(alloc: Global, names: &Names, edits: &States) -> Result<Value, AllocError>
    requires { All IsShortState edits.now }
    ensures { IfOk result (λ value. view value ≡ answer_data names.now (Said.Session edits.now)) }
{
    let fields = [("answer", Field::Word("session"))];
    object_with(alloc, names, &fields, "edits", edits)
}

fn session_by_counts_value(
    alloc: Global,
    names: &Names,
    edits: &UnitStates,
) -> Result<Value, AllocError>
    requires { All IsShortUnitState edits.now }
    ensures { IfOk result (λ value. view value ≡ answer_data names.now (Said.SessionByCounts edits.now)) }
{
    let fields = [("answer", Field::Word("session"))];
    object_with(alloc, names, &fields, "edits", edits)
}

fn drops_value(
    alloc: Global,
    names: &Names,
    firm: u32,
    keeps: &Trades,
    gain: Option<i128>,
    over: i128,
) -> Result<Value, AllocError>
    requires gain { IfSome gain (FitsSigned w64) }
    requires over { FitsSigned w64 over }
    ensures { IfOk result
        (λ value. view value ≡ answer_data names.now (Said.Drops firm keeps.now gain over)) }
{
    let fields = [
        ("firm", Field::Firm(firm)),
        ("gain", Field::Bound(gain)),
        ("keeps", Field::Trades(keeps)),
        ("over", Field::Number(over)),
    ];
    answer_of(alloc, names, "drops", &fields)
}

fn drops_by_counts_value(
    alloc: Global,
    names: &Names,
    firm: u32,
    keeps: &UnitBundle,
    gain: Option<i128>,
    over: i128,
) -> Result<Value, AllocError>
    requires gain { IfSome gain (FitsSigned w64) }
    requires over { FitsSigned w64 over }
    ensures { IfOk result
        (λ value. view value ≡ answer_data names.now (Said.DropsByCounts firm keeps.now gain over)) }
{
    let fields = [
        ("firm", Field::Firm(firm)),
        ("gain", Field::Bound(gain)),
        ("keeps", Field::UnitBundle(keeps)),
        ("over", Field::Number(over)),
    ];
    answer_of(alloc, names, "drops", &fields)
}

fn completes_value(
    alloc: Global,
    names: &Names,
    prices: &Prices,
    over: i128,
) -> Result<Value, AllocError>
    requires prices { All (FitsSigned w64) prices.now }
    requires over { FitsSigned w64 over }
    ensures { IfOk result
        (λ value. view value ≡ answer_data names.now (Said.Completes prices.now over)) }
{
    let fields = [
        ("over", Field::Number(over)),
        ("prices", Field::Prices(prices)),
    ];
    answer_of(alloc, names, "completes", &fields)
}

fn completes_by_counts_value(
    alloc: Global,
    names: &Names,
    prices: &Contracts,
    over: i128,
) -> Result<Value, AllocError>
    requires prices { All (λ contract. FitsSigned w64 contract.price) prices.now }
    requires over { FitsSigned w64 over }
    ensures { IfOk result
        (λ value. view value ≡ answer_data names.now (Said.CompletesByCounts prices.now over)) }
{
    let fields = [
        ("over", Field::Number(over)),
        ("prices", Field::Contracts(prices)),
    ];
    answer_of(alloc, names, "completes", &fields)
}

fn blocks_value(
    alloc: Global,
    names: &Names,
    contracts: &Contracts,
    over: i128,
) -> Result<Value, AllocError>
    requires contracts { All (λ contract. FitsSigned w64 contract.price) contracts.now }
    requires over { FitsSigned w64 over }
    ensures { IfOk result
        (λ value. view value ≡ answer_data names.now (Said.Blocks contracts.now over)) }
{
    let fields = [
        ("contracts", Field::Contracts(contracts)),
        ("over", Field::Number(over)),
    ];
    answer_of(alloc, names, "blocks", &fields)
}

fn cases_value(
    alloc: Global,
    names: &Names,
    count: u32,
    failed: &Numbers,
) -> Result<Value, AllocError>
    ensures { IfOk result
        (λ value. view value ≡ answer_data names.now (Said.Cases count failed.now)) }
{
    let fields = [
        ("count", Field::Natural(count)),
        ("failed", Field::Numbers(failed)),
    ];
    answer_of(alloc, names, "cases", &fields)
}

/// The name of a firm, empty where it has none.
pub(crate) fn firm_name(names: &Names, firm: u32) -> &str
    ensures { result.now ≡ unwrap_or (slice_get names.now.firms firm) [] }
{
    if firm < names.firms() {
        names.firm(firm)
    } else {
        ""
    }
}

/// The name of a trade, empty where it has none.
fn trade_name(names: &Names, trade: u32) -> &str
    ensures { result.now ≡ unwrap_or (slice_get names.now.trades trade) [] }
{
    if trade < names.trades() {
        names.trade(trade)
    } else {
        ""
    }
}

pub(crate) fn trade_value(alloc: Global, names: &Names, trade: u32) -> Result<Value, AllocError>
    ensures { IfOk result (λ value. view value ≡ name_data names.now.trades trade) }
{
    Value::try_from_str(alloc, trade_name(names, trade))
}

pub(crate) fn option_value(
    alloc: Global,
    names: &Names,
    trade: Option<u32>,
) -> Result<Value, AllocError>
    ensures { IfOk result (λ value. view value ≡ option_data names.now.trades trade) }
{
    match trade {
        None => Ok(Value::Null),
        Some(trade) => trade_value(alloc, names, trade),
    }
}

impl Items for Trades {
    ghost use Rattle.std.specs.Prelude.{map};
    ghost use Rattle.tn_answer.specs.Values.{name_data};

    ghost values_data = { λ names trades. map (name_data names.trades) trades };

    ghost IsShort = { λ trades. Unit {0} };

    fn count(&self) -> usize {
        self.len()
    }

    fn value_at(&self, alloc: Global, names: &Names, k: usize) -> Result<Value, AllocError> {
        trade_value(alloc, names, self.at(k))
    }
}

impl Items for Nodes {
    ghost use Rattle.std.specs.Prelude.{map};
    ghost use Rattle.tn_answer.specs.Values.{option_data};

    ghost values_data = { λ names nodes. map (option_data names.trades) nodes };

    ghost IsShort = { λ nodes. Unit {0} };

    fn count(&self) -> usize {
        self.len()
    }

    fn value_at(&self, alloc: Global, names: &Names, k: usize) -> Result<Value, AllocError> {
        option_value(alloc, names, self.at(k))
    }
}

/// The name of the trade at a place, empty where there is none.
pub(crate) fn name_at(names: &Names, k: usize) -> &str
    ensures { result.now ≡ unwrap_or (slice_get names.now.trades k) [] }
{
    if k < names.trades() as usize {
        names.trade(k as u32)
    } else {
        ""
    }
}

pub(crate) fn price_value(
    alloc: Global,
    names: &Names,
    k: usize,
    price: i128,
) -> Result<Value, AllocError>
    requires { FitsSigned w64 price }
    ensures { IfOk result (λ value. view value ≡ price_data names.now.trades k price) }
{
    json!(in alloc; [name_at(names, k), price as i64])
}

impl Items for Prices {
    ghost use Rattle.std.specs.Prelude.{All, FitsSigned};
    ghost use Rattle.std.specs.Int.{w64};
    ghost use Rattle.tn_answer.specs.AnswerText.{prices_from};

    ghost values_data = { λ names prices. prices_from names.trades 0 prices };

    ghost IsShort = { λ prices. All (FitsSigned w64) prices };

    fn count(&self) -> usize {
        self.len()
    }

    fn value_at(&self, alloc: Global, names: &Names, k: usize) -> Result<Value, AllocError> {
        price_value(alloc, names, k, self.at(k))
    }
}

fn step_value(alloc: Global, names: &Names, step: PlaceStep) -> Result<Value, AllocError>
    ensures { IfOk result (λ value. view value ≡ step_data names.now.trades step) }
{
    match step {
        PlaceStep::Key(word) => Value::try_from_str(alloc, word.text()),
        PlaceStep::Index(k) => Ok(Value::from(k)),
        PlaceStep::Trade(trade) => trade_value(alloc, names, trade),
    }
}

impl Items for Place {
    ghost use Rattle.std.specs.Prelude.{map};
    ghost use Rattle.tn_answer.specs.AnswerText.{step_data};

    ghost values_data = { λ names place. map (step_data names.trades) place };

    ghost IsShort = { λ place. Unit {0} };

    fn count(&self) -> usize {
        self.len()
    }

    fn value_at(&self, alloc: Global, names: &Names, k: usize) -> Result<Value, AllocError> {
        step_value(alloc, names, self.at(k))
    }
}
