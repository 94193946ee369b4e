//! Plans, written as text.
ghost use Rattle.std.specs.Prelude.{◌≡◌, ◌++◌, map, IfOk, OnOk, OnErr};
ghost use Rattle.serde_json.specs.Data.{array};
ghost use Rattle.serde_json.specs.View.{items_of, view};
ghost use Rattle.fragmenter.specs.Plans.{choice_tree_of, plan_tree_of};
ghost use Rattle.plan_json.specs.PlanTexts.{choice_data, plan_data, step_with, whole, written};
ghost use Rattle.plan_json.specs.PlanTexts.{step_data};
ghost use Rattle.placement.specs.Layouts.{ByCells};
ghost use Rattle.share_chooser.specs.Shares.{shares_of};

use fragmenter::{Choice, How, Plan};
use rel_base::Memory;
use serde_json::{Value, json};
use share_chooser::Shares;
use std::alloc::Global;

/// Appends the text of a plan. After `Memory` the bytes are as they were.
pub fn write_plan(alloc: Global, plan: &Plan, into: &mut Vec<u8>) -> Result<(), Memory>
    ensures ok { OnOk result (into.new.items ≡ into.old.items ++ written (plan_tree_of plan.now)) }
    ensures err { OnErr result (into.new.items ≡ into.old.items) }
{
    let text = text_of(alloc, plan)?;
    into.extend_from_slice(&text)?;
    Ok(())
}

/// The text of a plan, in bytes of its own.
fn text_of(alloc: Global, plan: &Plan) -> Result<Vec<u8>, Memory>
    ensures { IfOk result (λ text. text.items ≡ written (plan_tree_of plan.now)) }
{
    let value = value_of_plan(alloc, plan)?;
    let mut text = value.to_vec(alloc)?;
    text.push(b'\n')?;
    Ok(text)
}

/// The value of a plan.
fn value_of_plan(alloc: Global, plan: &Plan) -> Result<Value, Memory>
    ensures { IfOk result (λ value. view value ≡ plan_data (plan_tree_of plan.now)) }
{
    let steps = value_of_choices(alloc, plan.choices.as_slice())?;
    let value = json!(in alloc; {"steps": steps, "workers": plan.workers})?;
    Ok(value)
}

/// The steps of choices.
fn value_of_choices(alloc: Global, choices: &[Choice]) -> Result<Value, Memory>
    ensures { IfOk result (λ value. view value
        ≡ array (items_of (map choice_data (map choice_tree_of choices.now)))) }
{
    let mut steps = Vec::new(alloc);
    for choice in choices {
        let step = value_of_choice(alloc, choice)?;
        steps.push(step)?;
    }
    Ok(Value::Array(steps))
}

/// The step of a choice.
fn value_of_choice(alloc: Global, choice: &Choice) -> Result<Value, Memory>
    ensures { IfOk result (λ value. view value ≡ choice_data (choice_tree_of choice.now)) }
{
    let statement = choice.statement;
    match choice.how {
        How::Hc(shares) => value_of_cells(alloc, statement, &shares),
        How::Rs => value_with(alloc, "rs", statement),
        How::Br => value_with(alloc, "br", statement),
    }
}

/// A step with this word and nothing more.
fn value_with(alloc: Global, word: &str, statement: u32) -> Result<Value, Memory>
    ensures { IfOk result (λ value. view value ≡ step_with word.now statement) }
{
    let value = json!(in alloc; {"shuffle": word, "statement": statement})?;
    Ok(value)
}

/// The step of a join by cells with these shares.
fn value_of_cells(alloc: Global, statement: u32, shares: &Shares) -> Result<Value, Memory>
    ensures { IfOk result (λ value. view value
        ≡ step_data statement (ByCells (shares_of shares.now))) }
{
    let shares = value_of_shares(alloc, shares.as_slice())?;
    let value = json!(in alloc; {"shares": shares, "shuffle": "hc", "statement": statement})?;
    Ok(value)
}

/// Shares as an array of numbers.
fn value_of_shares(alloc: Global, shares: &[u32]) -> Result<Value, Memory>
    ensures { IfOk result (λ value. view value ≡ array (items_of (map whole shares.now))) }
{
    let mut numbers = Vec::new(alloc);
    for share in shares {
        numbers.push(Value::from(*share))?;
    }
    Ok(Value::Array(numbers))
}
