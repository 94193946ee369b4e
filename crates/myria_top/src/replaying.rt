//! The run of a script by a plan that is given.
ghost use Rattle.std.specs.Prelude.{◌≡◌, Option, Ok, true, IfOk, IfErr, IsTrue, vec_len};
ghost use Rattle.rel_base.specs.Limits.{taps as tap_count};
ghost use Rattle.rel_io.specs.Shelves.{counts_of};
ghost use Rattle.myrial_ast.specs.Trees.{trees_of};
ghost use Rattle.myrial_types.specs.Checking.{checked_of};
ghost use Rattle.myrial_types.specs.Fetching.{have_forms};
ghost use Rattle.algebra.specs.CheckedTrees.{checked_tree_of};
ghost use Rattle.algebra.specs.Conditions.{is_of};
ghost use Rattle.algebra.specs.Rewriting.{AreTyped};
ghost use Rattle.algebra.specs.Trees.{CheckedTree};
ghost use Rattle.fragmenter.specs.Plans.{PlanTree};
ghost use Rattle.routed_joins.specs.TermRuns.{AreFair};
ghost use Rattle.command_words.specs.Modes.{is_replay};
ghost use Rattle.myria_top.specs.Moves.{HasMoved};
ghost use Rattle.myria_top.specs.Plans.{asked_plan, named_plan, plan_named, plan_read, needed_joins};
ghost use Rattle.myria_top.specs.Reading as read;
ghost use Rattle.myria_top.specs.Runs.{run_verdict};
ghost use Rattle.myria_top.specs.Verdicts.{passes};
ghost use Rattle.myria_top.specs.inner.Working.{text_of, plan_of_read};
ghost use Rattle.myria_top.specs.inner.Working.{IsOfPlan, IsOfPlanText, IsOfReplay};

use crate::Outcome;
use crate::reading::{fetched, read_fault};
use crate::run::plan_name;
use crate::unprinted::{Unprinted, text_at_workers};
use algebra::Checked;
use command_words::Request;
use fragmenter::{Misfit, Plan, fits};
use myrial_ast::Script;
use myrial_types::{check, steps_are_of_the_files, steps_have_the_fault, steps_mean_the_script};
use plan_json::{MOST_PLAN_BYTES, PlanFault, read_plan};
use plan_rewrite::rewrite;
use rel_base::{Files, Text};
use rel_io::{Shelf, ShelfFault, Tap};
use std::alloc::Global;
use std::sync::Wait;
use std::thread::Threads;

/// What the run of a script over its files comes to by the plan that is named.
pub(crate) fn text_of_replay<R: Threads + Wait + Sync, F: Shelf, T: Tap + Send>(
    rt: &R,
    alloc: Global,
    request: &Request,
    script: &Script,
    files: Files,
    shelf: &mut F,
    taps: &mut Vec<T>,
) -> Result<Unprinted, Outcome>
    requires replay { is_replay request.now.mode ≡ true }
    requires formed { IsTrue (have_forms files (trees_of script.now)) }
    requires typed { AreTyped files }
    requires taps { vec_len taps.old ≡ tap_count }
    ensures read { read.ReadsStep
        (run_verdict request.now (F.content shelf.old) (trees_of script.now) files)
        (counts_of F.Shelf shelf.old shelf.new) (λ name. name ≡ plan_named request.now)
        (text_of result) }
    ensures kind { IfErr result IsOfReplay }
    ensures fair { AreFair T.totals T.tag taps.old.items taps.new.items }
    ensures moved { IfOk result (λ made. (c : CheckedTree) (plan : Option PlanTree)
        → checked_of files (trees_of script.now) ≡ Ok c
        → asked_plan request.now (F.content shelf.old) c ≡ passes plan
        → HasMoved request.now plan files c T.totals T.tag taps.old.items taps.new.items
        made.receipts) }
{
    let checked = match check(alloc, script, &files) {
        Ok(checked) => checked,
        Err(fault) => return Err(Outcome::from(fault)),
    };
    let plan = match read_plan_for(alloc, request, &checked, shelf) {
        Ok(plan) => plan,
        Err(refusal) => return Err(refusal),
    };
    // Laws: the steps are well formed, they store what the script stores, and their fault is the script's.
    steps_are_of_the_files();
    steps_mean_the_script();
    steps_have_the_fault();
    text_at_workers(rt, alloc, request, &checked, files, Some(&plan), taps)
}

/// The plan that is named, where it fits a typed script.
fn read_plan_for<F: Shelf>(
    alloc: Global,
    request: &Request,
    checked: &Checked,
    shelf: &mut F,
) -> Result<Plan, Outcome>
    ensures read { read.ReadsStep
        (named_plan request.now (F.content shelf.old) (checked_tree_of checked.now))
        (counts_of F.Shelf shelf.old shelf.new) (λ name. name ≡ plan_named request.now)
        (plan_of_read result) }
    ensures kind { IfErr result IsOfPlan }
    ensures content { F.content shelf.new ≡ F.content shelf.old }
{
    let most = MOST_PLAN_BYTES as u64 + 1;
    let bytes = match fetched(alloc, shelf, plan_name(request), most) {
        Ok(bytes) => bytes,
        Err(ShelfFault::Absent) => return Err(Outcome::NoPlan),
        Err(ShelfFault::Failed) => return Err(read_fault(alloc, plan_name(request))),
        Err(ShelfFault::Memory) => return Err(Outcome::Memory),
    };
    if bytes.len() > MOST_PLAN_BYTES {
        return Err(Outcome::PlanTooLong);
    }
    plan_of_bytes(alloc, &bytes, checked, request.settings.workers)
}

/// The plan of a text that is short enough, where it fits a typed script at so many workers.
fn plan_of_bytes(
    alloc: Global,
    bytes: &[u8],
    checked: &Checked,
    workers: u32,
) -> Result<Plan, Outcome>
    ensures agrees { read.Agrees
        (plan_read workers (needed_joins (checked_tree_of checked.now)) bytes.now)
        (plan_of_read result) }
    ensures kind { IfErr result IsOfPlanText }
{
    let plan = match read_plan(alloc, bytes) {
        Ok(plan) => plan,
        Err(PlanFault::NotPlan) => return Err(Outcome::BadPlan),
        Err(PlanFault::Memory) => return Err(Outcome::Memory),
    };
    let planned = match rewrite(alloc, checked) {
        Ok(planned) => planned,
        Err(_) => return Err(Outcome::Memory),
    };
    match fits(&plan, &planned, workers) {
        Ok(()) => Ok(plan),
        Err(Misfit::Workers) => Err(Outcome::PlanWorkers {
            workers: plan.workers,
        }),
        Err(Misfit::Statement { statement }) => Err(Outcome::PlanMisfit { statement }),
    }
}
