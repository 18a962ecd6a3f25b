//! What firms have, as JSON values.

// What firms have in an arrangement, as JSON values.
ghost use Rattle.std.specs.Prelude.{◌≡◌, [], All, IfOk, IfSome, FitsSigned, slice_get, unwrap_or};
ghost use Rattle.std.specs.Int.{w64};
ghost use Rattle.serde_json.specs.View.{view};
ghost use Rattle.tn_said.specs.declared.said.Said.TheVariants.{Firms, FirmsByCounts};
ghost use Rattle.tn_answer.specs.AnswerText.{answer_data, holding_data, unit_holding_data};
ghost use Rattle.tn_answer.specs.Sayable.{IsShortHolding, IsShortUnitHolding};

use crate::arrays::Items;
use crate::fields::{Field, object_of, object_with};
use serde_json::Value;
use std::alloc::{AllocError, Global};
use tn_names::Names;
use tn_said::{Holding, Holdings, UnitHolding, UnitHoldings};

/// The name of the firm at a place, empty where there is none.
pub(crate) fn firm_name_at(names: &Names, k: usize) -> &str
    ensures { result.now ≡ unwrap_or (slice_get names.now.firms k) [] }
{
    if k < names.firms() as usize {
        names.firm(k as u32)
    } else {
        ""
    }
}

fn holding_value<'a>(
    alloc: Global,
    names: &'a Names,
    k: usize,
    holding: &'a Holding,
) -> Result<Value, AllocError>
    requires { IsShortHolding holding.now }
    ensures { IfOk result (λ value. view value ≡ holding_data names.now k holding.now) }
{
    let fields = [
        ("best", Field::Trades(&holding.best)),
        ("best_utility", Field::Number(holding.best_utility)),
        ("firm", Field::Word(firm_name_at(names, k))),
        ("gain", Field::Bound(holding.gain)),
        ("has", Field::Trades(&holding.has)),
        ("utility", Field::Bound(holding.utility)),
        ("worth", Field::Bound(holding.worth)),
    ];
    object_of(alloc, names, &fields)
}

impl Items for Holdings {
    ghost use Rattle.std.specs.Prelude.{All};
    ghost use Rattle.tn_answer.specs.AnswerText.{holding_data};
    ghost use Rattle.tn_answer.specs.Rows.{each_from};
    ghost use Rattle.tn_answer.specs.Sayable.{IsShortHolding};

    ghost values_data = { λ names holdings. each_from (holding_data names) 0 holdings };

    ghost IsShort = { All IsShortHolding };

    fn count(&self) -> usize {
        self.len()
    }

    fn value_at(&self, alloc: Global, names: &Names, k: usize) -> Result<Value, AllocError> {
        holding_value(alloc, names, k, self.at(k))
    }
}

pub(crate) fn firms_value(
    alloc: Global,
    names: &Names,
    content: u32,
    firms: &Holdings,
    surplus: Option<i128>,
) -> Result<Value, AllocError>
    requires firms { All IsShortHolding firms.now }
    requires surplus { IfSome surplus (FitsSigned w64) }
    ensures { IfOk result
        (λ value. view value ≡ answer_data names.now (Firms content firms.now surplus)) }
{
    let fields = [
        ("answer", Field::Word("firms")),
        ("content", Field::Natural(content)),
        ("surplus", Field::Bound(surplus)),
    ];
    object_with(alloc, names, &fields, "firms", firms)
}

fn unit_holding_value<'a>(
    alloc: Global,
    names: &'a Names,
    k: usize,
    holding: &'a UnitHolding,
) -> Result<Value, AllocError>
    requires { IsShortUnitHolding holding.now }
    ensures { IfOk result (λ value. view value ≡ unit_holding_data names.now k holding.now) }
{
    let fields = [
        ("best", Field::UnitBundle(&holding.best)),
        ("best_utility", Field::Number(holding.best_utility)),
        ("firm", Field::Word(firm_name_at(names, k))),
        ("gain", Field::Bound(holding.gain)),
        ("has", Field::UnitBundle(&holding.has)),
        ("utility", Field::Bound(holding.utility)),
        ("worth", Field::Bound(holding.worth)),
    ];
    object_of(alloc, names, &fields)
}

impl Items for UnitHoldings {
    ghost use Rattle.std.specs.Prelude.{All};
    ghost use Rattle.tn_answer.specs.AnswerText.{unit_holding_data};
    ghost use Rattle.tn_answer.specs.Rows.{each_from};
    ghost use Rattle.tn_answer.specs.Sayable.{IsShortUnitHolding};

    ghost values_data = { λ names holdings. each_from (unit_holding_data names) 0 holdings };

    ghost IsShort = { All IsShortUnitHolding };

    fn count(&self) -> usize {
        self.len()
    }

    fn value_at(&self, alloc: Global, names: &Names, k: usize) -> Result<Value, AllocError> {
        unit_holding_value(alloc, names, k, self.at(k))
    }
}

pub(crate) fn firms_by_counts_value(
    alloc: Global,
    names: &Names,
    content: u32,
    firms: &UnitHoldings,
    surplus: Option<i128>,
) -> Result<Value, AllocError>
    requires firms { All IsShortUnitHolding firms.now }
    requires surplus { IfSome surplus (FitsSigned w64) }
    ensures { IfOk result
        (λ value. view value ≡ answer_data names.now (FirmsByCounts content firms.now surplus)) }
{
    let fields = [
        ("answer", Field::Word("firms")),
        ("content", Field::Natural(content)),
        ("surplus", Field::Bound(surplus)),
    ];
    object_with(alloc, names, &fields, "firms", firms)
}
