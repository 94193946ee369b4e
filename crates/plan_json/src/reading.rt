//! Plans, read from text.
ghost use Rattle.std.specs.Prelude.{◌≡◌, ◌≤◌, map, length, IfOk, Err, Some, None, option_map};
ghost use Rattle.rel_base.specs.Limits.{most_pieces};
ghost use Rattle.serde_json.specs.View.{view};
ghost use Rattle.fragmenter.specs.Plans.{choice_tree_of, plan_tree_of};
ghost use Rattle.plan_json.specs.PlanTexts.{choice_in, each_of, plan_in, plan_of_text, steps_in};
ghost use Rattle.plan_json.specs.PlanTexts.{value_in, workers_in};
ghost use Rattle.plan_json.specs.declared.reading.PlanFault.TheVariants as fault;

use crate::steps::choice_in;
use crate::values::{has_members, items_within, number_in};
use fragmenter::{Choices, Plan};
use rel_base::{MOST_PIECES, MOST_WORKERS, Memory};
use serde_json::Value;
use std::alloc::Global;

/// No file of a plan may have more bytes.
pub const MOST_PLAN_BYTES: usize = 65_536;

/// Why no plan was read.
#[derive(Clone, Copy, Debug, PartialEq, Eq)]
pub enum PlanFault {
    /// The bytes are the text of no plan.
    NotPlan,
    /// There is no memory for it.
    Memory,
}

impl From<Memory> for PlanFault {
    ghost use Rattle.std.specs.Prelude.{◌≡◌};
    ghost use Rattle.plan_json.specs.declared.reading.PlanFault.TheVariants as fault;

    ghost from_gives = { λ _ given. given ≡ fault.Memory };

    fn from(_refused: Memory) -> PlanFault {
        PlanFault::Memory
    }
}

/// The plan that a text is.
pub fn read_plan(alloc: Global, bytes: &[u8]) -> Result<Plan, PlanFault>
    ensures ok { IfOk result (λ plan. plan_of_text bytes.now ≡ Some (plan_tree_of plan)) }
    ensures not_plan { result ≡ Err fault.NotPlan → plan_of_text bytes.now ≡ None }
{
    let value = value_in(alloc, bytes)?;
    plan_in(alloc, &value)
}

/// The value that a text is.
fn value_in(alloc: Global, bytes: &[u8]) -> Result<Value, PlanFault>
    ensures ok { IfOk result (λ value. value_in bytes.now ≡ Some (view value)) }
    ensures not_plan { result ≡ Err fault.NotPlan → value_in bytes.now ≡ None }
{
    match Value::from_slice(alloc, bytes) {
        Ok(value) => Ok(value),
        Err(error) => {
            if error.is_memory() {
                Err(PlanFault::Memory)
            } else {
                Err(PlanFault::NotPlan)
            }
        }
    }
}

/// The plan that a value is.
fn plan_in(alloc: Global, value: &Value) -> Result<Plan, PlanFault>
    ensures ok { IfOk result (λ plan. plan_in (view value.now) ≡ Some (plan_tree_of plan)) }
    ensures not_plan { result ≡ Err fault.NotPlan → plan_in (view value.now) ≡ None }
{
    if !has_members(2, value) {
        return Err(PlanFault::NotPlan);
    }
    let workers = workers_in(value).ok_or(PlanFault::NotPlan)?;
    let steps = steps_in(value).ok_or(PlanFault::NotPlan)?;
    let choices = choices_of(alloc, steps)?;
    Ok(Plan { workers, choices })
}

/// The number of workers of a plan, where it has one within the limits.
fn workers_in(value: &Value) -> Option<u32>
    ensures { result ≡ workers_in (view value.now) }
{
    number_in(1, MOST_WORKERS, value.get("workers")?)
}

/// The steps of a plan, where there are no more than a script has statements.
fn steps_in(value: &Value) -> Option<&[Value]>
    ensures { option_map (λ steps. map view steps.now) result ≡ steps_in (view value.now) }
{
    items_within(MOST_PIECES as usize, value.get("steps")?)
}

/// The choices that these steps are.
fn choices_of(alloc: Global, steps: &[Value]) -> Result<Choices, PlanFault>
    requires { length steps.now ≤ most_pieces }
    ensures ok { IfOk result (λ choices. each_of choice_in (map view steps.now)
        ≡ Some (map choice_tree_of choices)) }
    ensures not_plan { result ≡ Err fault.NotPlan → each_of choice_in (map view steps.now) ≡ None }
{
    let mut choices = Choices::new(alloc);
    for step in steps {
        let choice = choice_in(step).ok_or(PlanFault::NotPlan)?;
        choices.push(choice)?;
    }
    Ok(choices)
}
