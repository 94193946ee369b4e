//! What a run comes to before anything is printed.
ghost use Rattle.std.specs.Prelude.{◌≡◌, ◌++◌, [], map, All, IsTrue, None, Ok, true, false, IfOk, IfErr, OnOk, vec_len};
ghost use Rattle.rel_base.specs.Limits.{taps as tap_count};
ghost use Rattle.myrial_ast.specs.Trees.{trees_of};
ghost use Rattle.myrial_meaning.specs.Runnable.{has_meaning};
ghost use Rattle.myrial_types.specs.Checking.{checked_of};
ghost use Rattle.myrial_types.specs.Fetching.{have_forms};
ghost use Rattle.algebra.specs.CheckedTrees.{checked_tree_of};
ghost use Rattle.algebra.specs.Conditions.{is_of};
ghost use Rattle.algebra.specs.Rewriting.{AreTyped};
ghost use Rattle.algebra.specs.Trees.{CheckedTree};
ghost use Rattle.routed_joins.specs.TermRuns.{AreFair};
ghost use Rattle.fragmenter.specs.NotedPlans.{noted_plan};
ghost use Rattle.fragmenter.specs.Plans.{lent_plan};
ghost use Rattle.plan_json.specs.PlanTexts.{written};
ghost use Rattle.plan_printer.specs.TrafficTexts.{IsWhole};
ghost use Rattle.output_texts.specs.Stores.{whole_store};
ghost use Rattle.myria_top.specs.Moves.{HasMoved};
ghost use Rattle.myria_top.specs.Printed.{asked_traffic, notes_text, text_in};
ghost use Rattle.myria_top.specs.Reading as read;
ghost use Rattle.myria_top.specs.Requests.{is_check};
ghost use Rattle.myria_top.specs.Runs.{plain_verdict};
ghost use Rattle.myria_top.specs.inner.Working.{text_of, checked_verdict, evaluated_verdict};
ghost use Rattle.myria_top.specs.inner.Working.{IsOfRun, MovesNothing};

use crate::Outcome;
use algebra::{Checked, Settings};
use command_words::{Mode, Request};
use engine::{Ran, run_script};
use exchange_channels::Receipts;
use fragmenter::{Plan, plan_of};
use myrial_ast::Script;
use myrial_meaning::evaluate;
use myrial_types::{
    check, steps_are_of_the_files, steps_have_the_fault, steps_mean_the_script,
    typed_scripts_have_meaning,
};
use output_texts::{Pieces, sorted_lines_are_the_text};
use plan_json::write_plan;
use rel_base::{Files, Memory, RunFault};
use rel_io::Tap;
use std::alloc::Global;
use std::sync::Wait;
use std::thread::Threads;

/// A text that is not printed yet, and the receipts of the run that it is of.
#[derive(Drop)]
pub struct Unprinted {
    /// The text.
    pub text: Pieces,
    /// What was sent in the exchanges of the run.
    pub receipts: Receipts,
}

/// What the run of a script over its files comes to, by the settings.
///
/// The files are let go before the text is made, which may then stand where they stood: what is
/// stored shares the rows that it needs.
pub fn text_of_run<R: Threads + Wait + Sync, T: Tap + Send>(
    rt: &R,
    alloc: Global,
    request: &Request,
    script: &Script,
    files: Files,
    taps: &mut Vec<T>,
) -> Result<Unprinted, Outcome>
    requires formed { IsTrue (have_forms files (trees_of script.now)) }
    requires typed { AreTyped files }
    requires taps { vec_len taps.old ≡ tap_count }
    ensures agrees { read.Agrees (plain_verdict request.now (trees_of script.now) files)
        (text_of result) }
    ensures kind { IfErr result IsOfRun }
    ensures still { is_check request.now.mode ≡ true
        → MovesNothing taps.old.items taps.new.items result }
    ensures fair { AreFair T.totals T.tag taps.old.items taps.new.items }
    ensures moved { IfOk result (λ made. (c : CheckedTree)
        → checked_of files (trees_of script.now) ≡ Ok c
        → HasMoved request.now None files c T.totals T.tag taps.old.items taps.new.items
        made.receipts) }
{
    let checked = match check(alloc, script, &files) {
        Ok(checked) => checked,
        Err(fault) => return Err(Outcome::from(fault)),
    };
    match request.mode {
        Mode::Check => {
            // Law: what is typed has a meaning.
            typed_scripts_have_meaning();
            text_of_evaluation(alloc, script, files)
        }
        Mode::Run | Mode::Explain | Mode::Trial | Mode::Export | Mode::Replay => {
            // Laws: the steps are well formed, they store what the script stores, and their fault is the script's.
            steps_are_of_the_files();
            steps_mean_the_script();
            steps_have_the_fault();
            text_at_workers(rt, alloc, request, &checked, files, None, taps)
        }
    }
}

/// What a script with a meaning comes to without workers.
fn text_of_evaluation(alloc: Global, script: &Script, files: Files) -> Result<Unprinted, Outcome>
    requires { IsTrue (has_meaning files (trees_of script.now)) }
    ensures agrees { read.Agrees (evaluated_verdict (trees_of script.now) files)
        (text_of result) }
    ensures kind { IfErr result IsOfRun }
    ensures moved { IfOk result (λ made. made.receipts ≡ []) }
{
    let stored = match evaluate(alloc, script, &files) {
        Ok(stored) => stored,
        Err(fault) => return Err(Outcome::from(fault)),
    };
    drop(files);
    // Law: their rows are in ascending order, so that they are printed as they stand.
    sorted_lines_are_the_text();
    let mut text = Pieces::new(alloc);
    text.add_relations(alloc, &stored)?;
    let receipts = Receipts::new(alloc);
    Ok(Unprinted { text, receipts })
}

/// What the run of a typed script over its files comes to at workers, by a plan or by the settings.
pub(crate) fn text_at_workers<R: Threads + Wait + Sync, T: Tap + Send>(
    rt: &R,
    alloc: Global,
    request: &Request,
    checked: &Checked,
    files: Files,
    plan: Option<&Plan>,
    taps: &mut Vec<T>,
) -> Result<Unprinted, Outcome>
    requires workers { is_check request.now.mode ≡ false }
    requires of { IsTrue (is_of files (checked_tree_of checked.now)) }
    requires typed { AreTyped files }
    requires taps { vec_len taps.old ≡ tap_count }
    ensures agrees { read.Agrees
        (checked_verdict request.now (lent_plan plan.entry) files (checked_tree_of checked.now))
        (text_of result) }
    ensures kind { IfErr result IsOfRun }
    ensures fair { AreFair T.totals T.tag taps.old.items taps.new.items }
    ensures moved { IfOk result (λ made. HasMoved request.now (lent_plan plan.entry) files
        (checked_tree_of checked.now) T.totals T.tag taps.old.items taps.new.items made.receipts) }
{
    let ran = match run_script(rt, alloc, checked, &files, &request.settings, plan, taps) {
        Ok(ran) => ran,
        Err(fault) => return Err(Outcome::from(fault)),
    };
    drop(files);
    let text = match text_of_ran(rt, alloc, request, &ran) {
        Ok(text) => text,
        Err(_) => return Err(Outcome::Memory),
    };
    let Ran { receipts, .. } = ran;
    Ok(Unprinted { text, receipts })
}

/// The text of a run at workers.
fn text_of_ran<R: Threads + Wait + Sync>(
    rt: &R,
    alloc: Global,
    request: &Request,
    ran: &Ran,
) -> Result<Pieces, Memory>
    requires workers { is_check request.now.mode ≡ false }
    requires whole { All IsWhole ran.now.traffic }
    ensures { IfOk result (λ text. text
        ≡ text_in request.now (map whole_store ran.now.stored) ran.now.plan ran.now.traffic) }
{
    let mut text = Pieces::new(alloc);
    match request.mode {
        Mode::Explain => text.add_plan(&ran.plan)?,
        Mode::Trial => {
            text.add_trial(alloc, request.size, &ran.stored)?;
            add_notes(&mut text, request, ran)?;
        }
        Mode::Run | Mode::Check => {
            text.add_stored(rt, alloc, &ran.stored)?;
            add_notes(&mut text, request, ran)?;
        }
        Mode::Export => add_export(alloc, &mut text, ran, request.settings.workers)?,
        Mode::Replay => {
            text.add_stored(rt, alloc, &ran.stored)?;
            add_traffic(&mut text, request, ran)?;
        }
    }
    Ok(text)
}

/// Adds the plan and then the traffic, each where it is asked for.
fn add_notes(text: &mut Pieces, request: &Request, ran: &Ran) -> Result<(), Memory>
    requires { All IsWhole ran.now.traffic }
    ensures { OnOk result
        (text.new ≡ text.old ++ notes_text request.now ran.now.plan ran.now.traffic) }
{
    if request.plan {
        text.add_plan(&ran.plan)?;
    }
    add_traffic(text, request, ran)
}

/// Adds the traffic, where it is asked for.
fn add_traffic(text: &mut Pieces, request: &Request, ran: &Ran) -> Result<(), Memory>
    requires { All IsWhole ran.now.traffic }
    ensures { OnOk result (text.new ≡ text.old ++ asked_traffic request.now ran.now.traffic) }
{
    if request.traffic {
        text.add_traffic(&ran.traffic)?;
    }
    Ok(())
}

/// Adds the plan of a run at so many workers, as JSON.
fn add_export(alloc: Global, text: &mut Pieces, ran: &Ran, workers: u32) -> Result<(), Memory>
    ensures { OnOk result (text.new ≡ text.old ++ written (noted_plan ran.now.plan workers)) }
{
    let plan = plan_of(alloc, &ran.plan, workers)?;
    let mut line = Vec::new(alloc);
    write_plan(alloc, &plan, &mut line)?;
    text.add_line(&line)
}
