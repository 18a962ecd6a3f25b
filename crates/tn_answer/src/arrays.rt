//! Lists of an answer, as arrays.

// Lists of an answer, as arrays. One loop makes the values of all of them.
ghost use Rattle.std.specs.Prelude.{◌≡◌, ◌<◌, Some, length, slice_get, IfOk};
ghost use Rattle.serde_json.specs.Data.{array};
ghost use Rattle.serde_json.specs.View.{items_of, view};

use serde_json::Value;
use std::alloc::{AllocError, Global};
use tn_names::Names;

/// A list whose items have values in an answer.
pub(crate) trait Items {
    ghost use Rattle.std.specs.Prelude.{◌≡◌, ◌<◌, List, Some, length, slice_get, IfOk};
    ghost use Rattle.serde_json.specs.Data.{Data};
    ghost use Rattle.serde_json.specs.View.{view};
    ghost use Rattle.tn_names.specs.Names.{NameLists};

    ghost values_data: { NameLists → Self → List Data };

    ghost IsShort: { Self → Type 0 };

    /// How many items there are.
    fn count(&self) -> usize
        ensures { (names : NameLists) → length (values_data names self.now) ≡ result };

    /// The value of the item at a place, counted from 0. It is below the count.
    fn value_at(&self, alloc: Global, names: &Names, k: usize) -> Result<Value, AllocError>
        requires short { IsShort self.now }
        requires there { k < length (values_data names.now self.now) }
        ensures { IfOk result (λ value. slice_get (values_data names.now self.now) k ≡ Some (view value)) };
}

/// The array of the values of a list.
pub(crate) fn array_of<L: Items>(
    alloc: Global,
    names: &Names,
    list: &L,
) -> Result<Value, AllocError>
    requires { L.IsShort list.now }
    ensures { IfOk result (λ value. view value ≡ array (items_of (L.values_data names.now list.now))) }
{
    let mut values = Vec::new(alloc);
    for k in 0..list.count() {
        values.push(list.value_at(alloc, names, k)?)?;
    }
    Ok(Value::Array(values))
}
