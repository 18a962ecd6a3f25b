//! Steps of walks as they are said.

ghost use Rattle.std.specs.Prelude.{◌≡◌, option_map, IfOk};
ghost use Rattle.tn_unit_answers.specs.Steps.{said_step, said_steps};

use std::alloc::Global;
use tn_base::OutOfMemory;
use tn_said::{UnitStep, UnitSteps};
use tn_tree::UnitStep as MarketStep;

/// A step as it is said.
fn said_step(step: Option<MarketStep>) -> Option<UnitStep>
    ensures { result ≡ option_map said_step step }
{
    match step {
        Some(step) => Some(UnitStep {
            trade: step.trade,
            more: step.more,
        }),
        None => None,
    }
}

/// Steps as they are said.
pub(crate) fn said_steps(
    alloc: Global,
    steps: &[Option<MarketStep>],
) -> Result<UnitSteps, OutOfMemory>
    ensures { IfOk result (λ said. said ≡ said_steps steps.now) }
{
    let mut said = Vec::new(alloc);
    for step in steps {
        said.push(said_step(*step))?;
    }
    Ok(UnitSteps::from_vec(said))
}
