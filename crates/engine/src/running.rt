//! The run of a checked script.
ghost use Rattle.std.specs.Prelude.{◌≡◌, ◌==◌, [], All, IsTrue, IfOk, IfErr, map, find, vec_len};
ghost use Rattle.std.specs.Option.{option_copied};
ghost use Rattle.rel_base.specs.Limits.{taps as tap_count};
ghost use Rattle.algebra.specs.CheckedTrees.{checked_tree_of};
ghost use Rattle.algebra.specs.Conditions.{is_of};
ghost use Rattle.algebra.specs.Rewriting.{AreTyped};
ghost use Rattle.algebra.specs.declared.terms.Step.{Step};
ghost use Rattle.algebra.specs.declared.terms.StoreStep.{StoreStep};
ghost use Rattle.placement.specs.Runs.{fault_of};
ghost use Rattle.fragmenter.specs.Plans.{lent_plan, rules_by};
ghost use Rattle.join_plans.specs.JoinPlans.{ruled_by};
ghost use Rattle.run_laws.specs.Values.{IsKnown};
ghost use Rattle.run_laws.specs.Rewritten.{needed};
ghost use Rattle.routed_joins.specs.TermRuns.{AreFair};
ghost use Rattle.engine.specs.Runs.{IsRunFault, IsRun};
ghost use Rattle.engine.specs.inner.Held.{IsHeld};
ghost use Rattle.engine.specs.inner.Steps.{AreRun, schema_at, held_store};

use crate::dealing::dealt_files;
use crate::held::Held;
use crate::noted::Noted;
use crate::results::Ran;
use crate::steps::run_step;
use crate::terms::RunStep;
use algebra::{Checked, Settings, Source, Step, StoreStep};
use fragmenter::Plan;
use join_plans::ShuffleBy;
use placement::{SpreadStore, SpreadStores};
use plan_rewrite::rewrite;
use rel_base::{Duplicate, Files, Memory, RunFault, Schema};
use rel_io::Tap;
use std::alloc::Global;
use std::sync::Wait;
use std::thread::Threads;

/// Runs a checked script over its files, at so many workers as the settings say. It may wait as
/// long as its threads do.
///
/// The rows of its joins come together as a plan says for each statement, or, where there is none,
/// as the settings say for all; with a plan the shuffle of the settings isn't read. Any plan may be
/// given: a statement without a choice, or with shares that aren't for its join, is run by
/// broadcast; `fragmenter::fits` tells whether a plan has none such. Steps that no store needs
/// aren't run. Tap `2w` is told the rows that worker `w` sends, and tap `2w + 1` those that it
/// receives and lists; after another answer than Ok their sums may have risen.
pub fn run_script<R: Threads + Wait + Sync, T: Tap + Send>(
    rt: &R,
    alloc: Global,
    checked: &Checked,
    files: &Files,
    settings: &Settings,
    plan: Option<&Plan>,
    taps: &mut Vec<T>,
) -> Result<Ran, RunFault>
    requires of { IsTrue (is_of files.now (checked_tree_of checked.now)) }
    requires typed { AreTyped files.now }
    requires taps { vec_len taps.old ≡ tap_count }
    ensures { IsRun settings.now (rules_by settings.now (lent_plan plan.entry)) files.now
        (checked_tree_of checked.now) T.totals T.tag taps.old.items taps.new.items result }
{
    let (held, noted) = run_steps(rt, alloc, checked, files, settings, plan, taps)?;
    let stored = stored_of(alloc, checked, files, &held)?;
    let Noted {
        plan,
        traffic,
        receipts,
    } = noted;
    Ok(Ran {
        stored,
        plan,
        traffic,
        receipts,
    })
}

/// Runs the steps that a store needs, one after another. A result is let go with its last use, but
/// for those that are stored.
fn run_steps<R: Threads + Wait + Sync, T: Tap + Send>(
    rt: &R,
    alloc: Global,
    checked: &Checked,
    files: &Files,
    settings: &Settings,
    plan: Option<&Plan>,
    taps: &mut Vec<T>,
) -> Result<(Held, Noted), RunFault>
    requires of { IsTrue (is_of files.now (checked_tree_of checked.now)) }
    requires typed { AreTyped files.now }
    requires taps { vec_len taps.old ≡ tap_count }
    ensures fair { AreFair T.totals T.tag taps.old.items taps.new.items }
    ensures ok { IfOk result (λ ran. AreRun settings.now (rules_by settings.now (lent_plan plan.entry))
        files.now (checked_tree_of checked.now) (needed (checked_tree_of checked.now)) [] ran.0
        ran.1 T.totals T.tag taps.old.items taps.new.items) }
    ensures err { IfErr result (IsRunFault (fault_of settings.now
        (rules_by settings.now (lent_plan plan.entry)) files.now (checked_tree_of checked.now))) }
{
    let planned = rewrite(alloc, checked)?;
    let mut held = Held {
        files: dealt_files(alloc, files, settings.workers)?,
        results: Vec::new(alloc),
    };
    let mut noted = Noted::new(alloc);
    let steps = planned.steps.as_slice();
    for (place, pushed) in steps.iter().enumerate() {
        let Some(step) = step_of(checked, pushed.statement) else {
            unreachable!()
        };
        let run = RunStep {
            step,
            pushed,
            by: shuffle_by(settings, plan, step.statement),
            stores: &planned.stores,
            steps: &steps[place..],
        };
        run_step(rt, alloc, &run, settings, &mut held, &mut noted, taps)?;
        held.let_go(run.stores, run.steps);
    }
    Ok((held, noted))
}

/// By which rule the rows of a statement's join come together.
fn shuffle_by(settings: &Settings, plan: Option<&Plan>, statement: u32) -> ShuffleBy
    ensures { ruled_by result ≡ rules_by settings.now (lent_plan plan.entry) statement }
{
    match plan {
        Some(plan) => ShuffleBy::plan(plan, statement),
        None => ShuffleBy::settings(settings.shuffle),
    }
}

/// The step of this number, where there is one.
fn step_of(checked: &Checked, statement: u32) -> Option<&Step>
    ensures { option_copied result
        ≡ find (λ (s : Step). s.statement == statement) checked.now.steps }
{
    checked
        .steps
        .as_slice()
        .iter()
        .find(|step| step.statement == statement)
}

/// What the stores store, each where it lies. No shared row is copied.
fn stored_of(
    alloc: Global,
    checked: &Checked,
    files: &Files,
    held: &Held,
) -> Result<SpreadStores, Memory>
    requires of { IsTrue (is_of files.now (checked_tree_of checked.now)) }
    requires held { All (λ (t : StoreStep). IsHeld held.now t.source) checked.now.stores }
    ensures { IfOk result (λ made. made
        ≡ map (held_store files.now (checked_tree_of checked.now) held.now) checked.now.stores) }
{
    let mut stored = SpreadStores::with_capacity(alloc, checked.stores.len())?;
    for store in checked.stores.as_slice() {
        stored.push(stored_by(alloc, checked, files, held, store)?)?;
    }
    Ok(stored)
}

/// What one store stores.
fn stored_by(
    alloc: Global,
    checked: &Checked,
    files: &Files,
    held: &Held,
    store: &StoreStep,
) -> Result<SpreadStore, Memory>
    requires of { IsTrue (is_of files.now (checked_tree_of checked.now)) }
    requires known { IsKnown files.now (needed (checked_tree_of checked.now)) store.now.source }
    requires held { IsHeld held.now store.now.source }
    ensures { IfOk result (λ made. made
        ≡ held_store files.now (checked_tree_of checked.now) held.now store.now) }
{
    let key = store.key.copy(alloc)?;
    let schema = schema_of(checked, files, store.source).copy(alloc)?;
    let parts = held.parts_of(store.source).copy(alloc)?;
    Ok(SpreadStore { key, schema, parts })
}

/// The columns of what a source stands for.
fn schema_of<'a>(checked: &'a Checked, files: &'a Files, source: Source) -> &'a Schema
    requires of { IsTrue (is_of files.now (checked_tree_of checked.now)) }
    requires known { IsKnown files.now (needed (checked_tree_of checked.now)) source }
    ensures { result.now ≡ schema_at files.now (checked_tree_of checked.now) source }
{
    match source {
        Source::File(place) => files.get(place).1.schema(),
        Source::Result(number) => {
            let Some(step) = step_of(checked, number) else {
                unreachable!()
            };
            &step.schema
        }
    }
}
