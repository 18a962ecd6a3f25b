//! Counts of units, bundles with units, and steps by a unit, as JSON values.

ghost use Rattle.std.specs.Prelude.{◌≡◌, IfOk, FitsSigned};
ghost use Rattle.std.specs.Int.{w64};
ghost use Rattle.serde_json.specs.View.{view};
ghost use Rattle.tn_answer.specs.AnswerText.{count_data, counts_data, direction, unit_step_data};

use crate::arrays::Items;
use crate::values::{name_at, price_value};
use serde_json::{Value, json};
use std::alloc::{AllocError, Global};
use tn_names::Names;
use tn_said::{Counts, UnitBundle, UnitStep, UnitSteps};

fn count_value(alloc: Global, names: &Names, k: usize, units: u32) -> Result<Value, AllocError>
    ensures { IfOk result (λ value. view value ≡ count_data names.now.trades k units) }
{
    json!(in alloc; [name_at(names, k), units])
}

/// Of each trade that has units, its name beside how many. It is no `Items`, since trades without units have no item.
pub(crate) fn counts_value(
    alloc: Global,
    names: &Names,
    counts: &Counts,
) -> Result<Value, AllocError>
    ensures { IfOk result (λ value. view value ≡ counts_data names.now.trades counts.now) }
{
    let mut values = Vec::new(alloc);
    for k in 0..counts.len() {
        let units = counts.at(k);
        if units != 0 {
            values.push(count_value(alloc, names, k, units)?)?;
        }
    }
    Ok(Value::Array(values))
}

impl Items for UnitBundle {
    ghost use Rattle.std.specs.Prelude.{map};
    ghost use Rattle.tn_answer.specs.AnswerText.{entry_data};

    ghost values_data = { λ names bundle. map (entry_data names.trades) bundle };

    ghost IsShort = { λ bundle. Unit {0} };

    fn count(&self) -> usize {
        self.len()
    }

    fn value_at(&self, alloc: Global, names: &Names, k: usize) -> Result<Value, AllocError> {
        let entry = self.at(k);
        count_value(alloc, names, entry.trade as usize, entry.units)
    }
}

/// 1 for one more unit, -1 for one fewer.
fn direction(more: bool) -> i128
    ensures is { result ≡ direction more }
    ensures fits { FitsSigned w64 result }
{
    if more { 1 } else { -1 }
}

fn step_value(alloc: Global, names: &Names, node: Option<UnitStep>) -> Result<Value, AllocError>
    ensures { IfOk result (λ value. view value ≡ unit_step_data names.now.trades node) }
{
    match node {
        None => Ok(Value::Null),
        Some(step) => price_value(alloc, names, step.trade as usize, direction(step.more)),
    }
}

impl Items for UnitSteps {
    ghost use Rattle.std.specs.Prelude.{map};
    ghost use Rattle.tn_answer.specs.AnswerText.{unit_step_data};

    ghost values_data = { λ names steps. map (unit_step_data names.trades) steps };

    ghost IsShort = { λ steps. Unit {0} };

    fn count(&self) -> usize {
        self.len()
    }

    fn value_at(&self, alloc: Global, names: &Names, k: usize) -> Result<Value, AllocError> {
        step_value(alloc, names, self.at(k))
    }
}
