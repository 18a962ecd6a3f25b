//! The states of sessions, as JSON values.

// Contracts, and the states after changes of the admitted trades, as JSON values.
ghost use Rattle.std.specs.Prelude.{◌≡◌, IfOk, FitsSigned};
ghost use Rattle.std.specs.Int.{w64};
ghost use Rattle.serde_json.specs.View.{view};
ghost use Rattle.tn_answer.specs.AnswerText.{contract_data, state_data, unit_state_data};
ghost use Rattle.tn_answer.specs.Sayable.{IsShortState, IsShortUnitState};

use crate::arrays::Items;
use crate::fields::{Field, object_of};
use crate::values::price_value;
use serde_json::Value;
use std::alloc::{AllocError, Global};
use tn_model::{Contract, Contracts};
use tn_names::Names;
use tn_said::{State, States, UnitState, UnitStates};

fn contract_value(alloc: Global, names: &Names, contract: Contract) -> Result<Value, AllocError>
    requires { FitsSigned w64 contract.price }
    ensures { IfOk result (λ value. view value ≡ contract_data names.now.trades contract) }
{
    price_value(alloc, names, contract.trade as usize, contract.price)
}

impl Items for Contracts {
    ghost use Rattle.std.specs.Prelude.{All, FitsSigned, map};
    ghost use Rattle.std.specs.Int.{w64};
    ghost use Rattle.tn_answer.specs.AnswerText.{contract_data};

    ghost values_data = { λ names contracts. map (contract_data names.trades) contracts };

    ghost IsShort = { λ contracts. All (λ contract. FitsSigned w64 contract.price) contracts };

    fn count(&self) -> usize {
        self.len()
    }

    fn value_at(&self, alloc: Global, names: &Names, k: usize) -> Result<Value, AllocError> {
        contract_value(alloc, names, self.at(k))
    }
}

fn state_value(alloc: Global, names: &Names, state: &State) -> Result<Value, AllocError>
    requires { IsShortState state.now }
    ensures { IfOk result (λ value. view value ≡ state_data names.now.trades state.now) }
{
    let fields = [
        ("on", Field::Trades(&state.on)),
        ("prices", Field::Contracts(&state.prices)),
        ("surplus", Field::Number(state.surplus)),
    ];
    object_of(alloc, names, &fields)
}

impl Items for States {
    ghost use Rattle.std.specs.Prelude.{All, map};
    ghost use Rattle.tn_answer.specs.AnswerText.{state_data};
    ghost use Rattle.tn_answer.specs.Sayable.{IsShortState};

    ghost values_data = { λ names states. map (state_data names.trades) states };

    ghost IsShort = { All IsShortState };

    fn count(&self) -> usize {
        self.len()
    }

    fn value_at(&self, alloc: Global, names: &Names, k: usize) -> Result<Value, AllocError> {
        state_value(alloc, names, self.at(k))
    }
}

fn unit_state_value(alloc: Global, names: &Names, state: &UnitState) -> Result<Value, AllocError>
    requires { IsShortUnitState state.now }
    ensures { IfOk result (λ value. view value ≡ unit_state_data names.now.trades state.now) }
{
    let fields = [
        ("on", Field::UnitBundle(&state.on)),
        ("prices", Field::Contracts(&state.prices)),
        ("surplus", Field::Number(state.surplus)),
    ];
    object_of(alloc, names, &fields)
}

impl Items for UnitStates {
    ghost use Rattle.std.specs.Prelude.{All, map};
    ghost use Rattle.tn_answer.specs.AnswerText.{unit_state_data};
    ghost use Rattle.tn_answer.specs.Sayable.{IsShortUnitState};

    ghost values_data = { λ names states. map (unit_state_data names.trades) states };

    ghost IsShort = { All IsShortUnitState };

    fn count(&self) -> usize {
        self.len()
    }

    fn value_at(&self, alloc: Global, names: &Names, k: usize) -> Result<Value, AllocError> {
        unit_state_value(alloc, names, self.at(k))
    }
}
