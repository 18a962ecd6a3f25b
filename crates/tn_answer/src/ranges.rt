//! Ranges of prices, as JSON values.

// The prices that trades may have, as JSON values.
ghost use Rattle.std.specs.Prelude.{◌≡◌, IfOk};
ghost use Rattle.serde_json.specs.View.{view};
ghost use Rattle.tn_answer.specs.AnswerText.{range_data, unit_range_data};
ghost use Rattle.tn_answer.specs.Sayable.{HasShortBounds, HasShortUnitBounds};

use crate::arrays::Items;
use crate::fields::{Field, object_of};
use crate::values::name_at;
use serde_json::Value;
use std::alloc::{AllocError, Global};
use tn_model::{Range, Ranges};
use tn_names::Names;
use tn_said::{UnitRange, UnitRanges};

fn range_value<'a>(
    alloc: Global,
    names: &'a Names,
    k: usize,
    range: &'a Range,
) -> Result<Value, AllocError>
    requires { HasShortBounds range.now }
    ensures { IfOk result (λ value. view value ≡ range_data names.now.trades k range.now) }
{
    let fields = [
        ("high", Field::Bound(range.high)),
        ("high_path", Field::Nodes(&range.high_path)),
        ("low", Field::Bound(range.low)),
        ("low_path", Field::Nodes(&range.low_path)),
        ("trade", Field::Word(name_at(names, k))),
    ];
    object_of(alloc, names, &fields)
}

impl Items for Ranges {
    ghost use Rattle.std.specs.Prelude.{All};
    ghost use Rattle.tn_answer.specs.AnswerText.{range_data};
    ghost use Rattle.tn_answer.specs.Rows.{each_from};
    ghost use Rattle.tn_answer.specs.Sayable.{HasShortBounds};

    ghost values_data = { λ names ranges. each_from (range_data names.trades) 0 ranges };

    ghost IsShort = { All HasShortBounds };

    fn count(&self) -> usize {
        self.len()
    }

    fn value_at(&self, alloc: Global, names: &Names, k: usize) -> Result<Value, AllocError> {
        range_value(alloc, names, k, self.at(k))
    }
}

fn unit_range_value<'a>(
    alloc: Global,
    names: &'a Names,
    k: usize,
    range: &'a UnitRange,
) -> Result<Value, AllocError>
    requires { HasShortUnitBounds range.now }
    ensures { IfOk result (λ value. view value ≡ unit_range_data names.now.trades k range.now) }
{
    let fields = [
        ("high", Field::Bound(range.high)),
        ("high_path", Field::Steps(&range.high_path)),
        ("low", Field::Bound(range.low)),
        ("low_path", Field::Steps(&range.low_path)),
        ("trade", Field::Word(name_at(names, k))),
    ];
    object_of(alloc, names, &fields)
}

impl Items for UnitRanges {
    ghost use Rattle.std.specs.Prelude.{All};
    ghost use Rattle.tn_answer.specs.AnswerText.{unit_range_data};
    ghost use Rattle.tn_answer.specs.Rows.{each_from};
    ghost use Rattle.tn_answer.specs.Sayable.{HasShortUnitBounds};

    ghost values_data = { λ names ranges. each_from (unit_range_data names.trades) 0 ranges };

    ghost IsShort = { All HasShortUnitBounds };

    fn count(&self) -> usize {
        self.len()
    }

    fn value_at(&self, alloc: Global, names: &Names, k: usize) -> Result<Value, AllocError> {
        unit_range_value(alloc, names, k, self.at(k))
    }
}
