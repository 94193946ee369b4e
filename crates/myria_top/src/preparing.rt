//! A request as the text that its run prints.
ghost use Rattle.std.specs.Prelude.{◌≡◌, ◌≢◌, ℕ, List, Option, Some, Ok, Err, true, false, IfOk, IfErr, IsTrue, vec_len};
ghost use Rattle.rel_base.specs.Keys.{File};
ghost use Rattle.rel_base.specs.Limits.{taps as tap_count};
ghost use Rattle.rel_io.specs.Outside.{Content};
ghost use Rattle.rel_io.specs.Shelves.{counts_of};
ghost use Rattle.myrial_ast.specs.Trees.{trees_of};
ghost use Rattle.myrial_meaning.specs.Fetches.{fetches};
ghost use Rattle.myrial_types.specs.Checking.{checked_of};
ghost use Rattle.algebra.specs.Trees.{CheckedTree};
ghost use Rattle.routed_joins.specs.TermRuns.{AreFair};
ghost use Rattle.command_words.specs.Requests.{asked_of};
ghost use Rattle.myria_top.specs.Headline.{IsAskedOf};
ghost use Rattle.myria_top.specs.Moves.{HasMoved};
ghost use Rattle.myria_top.specs.Reading as read;
ghost use Rattle.myria_top.specs.Requests.{is_check, is_trial};
ghost use Rattle.fragmenter.specs.Plans.{PlanTree};
ghost use Rattle.myria_top.specs.Plans.{asked_plan};
ghost use Rattle.myria_top.specs.Runs.{ComesTo, IsReadFor, files_verdict, printed_verdict};
ghost use Rattle.myria_top.specs.Scripts.{ScriptComesTo};
ghost use Rattle.myria_top.specs.Verdicts.{passes};
ghost use Rattle.myria_top.specs.inner.Working.{text_of, IsAllowed, MovesAs, MovesNothing, NeedsNoCount};

use crate::Outcome;
use crate::reading::{read_files, read_script, script_of_text};
use crate::replaying::text_of_replay;
use crate::unprinted::{Unprinted, text_of_run};
use command_words::{Mode, Request};
use myrial_ast::Script;
use myrial_types::fetches;
use rel_io::{Shelf, Tap};
use std::alloc::Global;
use std::sync::Wait;
use std::thread::Threads;
use trial_gen::{TRIAL_SCRIPT, trial_files, trial_is_as_defined};

/// What a request comes to, with nothing printed yet.
pub fn prepared<R: Threads + Wait + Sync, F: Shelf, T: Tap + Send>(
    rt: &R,
    alloc: Global,
    request: &Request,
    shelf: &mut F,
    taps: &mut Vec<T>,
) -> Result<Unprinted, Outcome>
    requires { vec_len taps.old ≡ tap_count }
    ensures read { read.ReadsBy (ComesTo (Some (asked_of request.now)) (F.content shelf.old))
        (counts_of F.Shelf shelf.old shelf.new)
        (IsAskedOf (Some (asked_of request.now)) (F.content shelf.old)) (text_of result) }
    ensures each { is_trial request.now.mode ≡ false
        → IsAllowed (F.content shelf.old) request.now.script result }
    ensures part { result ≢ Err Outcome.Usage }
    ensures trial { IsTrue (is_trial request.now.mode) → shelf.new ≡ shelf.old }
    ensures still { is_check request.now.mode ≡ true
        → MovesNothing taps.old.items taps.new.items result }
    ensures fair { AreFair T.totals T.tag taps.old.items taps.new.items }
    ensures moved { IfOk result (λ made. MovesAs request.now (F.content shelf.old)
        T.totals T.tag taps.old.items taps.new.items made.receipts) }
{
    match request.mode {
        Mode::Trial => prepared_trial(rt, alloc, request, taps),
        Mode::Run | Mode::Check | Mode::Explain | Mode::Export | Mode::Replay => {
            prepared_script(rt, alloc, request, shelf, taps)
        }
    }
}

/// What a trial comes to. It reads no file.
fn prepared_trial<R: Threads + Wait + Sync, T: Tap + Send>(
    rt: &R,
    alloc: Global,
    request: &Request,
    taps: &mut Vec<T>,
) -> Result<Unprinted, Outcome>
    requires trial { IsTrue (is_trial request.now.mode) }
    requires taps { vec_len taps.old ≡ tap_count }
    ensures agrees { (content : List ℕ → Content)
        → read.AgreesBy (ComesTo (Some (asked_of request.now)) content) (text_of result) }
    ensures kind { IfErr result NeedsNoCount }
    ensures fair { AreFair T.totals T.tag taps.old.items taps.new.items }
    ensures moved { IfOk result (λ made. (content : List ℕ → Content)
        → MovesAs request.now content T.totals T.tag taps.old.items taps.new.items made.receipts) }
{
    // Law: the script is that of the definitions.
    trial_is_as_defined();
    let script = match script_of_text(alloc, TRIAL_SCRIPT.as_bytes()) {
        Ok(script) => script,
        Err(refusal) => return Err(refusal),
    };
    let files = match trial_files(alloc, request.size) {
        Ok(files) => files,
        Err(_) => return Err(Outcome::Memory),
    };
    text_of_run(rt, alloc, request, &script, files, taps)
}

/// What a request of a script comes to.
fn prepared_script<R: Threads + Wait + Sync, F: Shelf, T: Tap + Send>(
    rt: &R,
    alloc: Global,
    request: &Request,
    shelf: &mut F,
    taps: &mut Vec<T>,
) -> Result<Unprinted, Outcome>
    requires script { is_trial request.now.mode ≡ false }
    requires taps { vec_len taps.old ≡ tap_count }
    ensures read { read.ReadsBy (ComesTo (Some (asked_of request.now)) (F.content shelf.old))
        (counts_of F.Shelf shelf.old shelf.new)
        (IsAskedOf (Some (asked_of request.now)) (F.content shelf.old)) (text_of result) }
    ensures each { IsAllowed (F.content shelf.old) request.now.script result }
    ensures part { result ≢ Err Outcome.Usage }
    ensures still { is_check request.now.mode ≡ true
        → MovesNothing taps.old.items taps.new.items result }
    ensures fair { AreFair T.totals T.tag taps.old.items taps.new.items }
    ensures moved { IfOk result (λ made. MovesAs request.now (F.content shelf.old)
        T.totals T.tag taps.old.items taps.new.items made.receipts) }
{
    let script = match read_script(alloc, shelf, &request.script) {
        Ok(script) => script,
        Err(refusal) => return Err(refusal),
    };
    prepared_files(rt, alloc, request, &script, shelf, taps)
}

/// What a script comes to over the files that it needs.
fn prepared_files<R: Threads + Wait + Sync, F: Shelf, T: Tap + Send>(
    rt: &R,
    alloc: Global,
    request: &Request,
    script: &Script,
    shelf: &mut F,
    taps: &mut Vec<T>,
) -> Result<Unprinted, Outcome>
    requires { vec_len taps.old ≡ tap_count }
    ensures read { read.ReadsStep
        (printed_verdict request.now (F.content shelf.old) (trees_of script.now))
        (counts_of F.Shelf shelf.old shelf.new)
        (IsReadFor request.now (fetches (trees_of script.now))) (text_of result) }
    ensures each { (name : List ℕ)
        → read.Meets (ScriptComesTo (F.content shelf.old name)) (passes (trees_of script.now))
        → IsAllowed (F.content shelf.old) name result }
    ensures part { result ≢ Err Outcome.Usage }
    ensures still { is_check request.now.mode ≡ true
        → MovesNothing taps.old.items taps.new.items result }
    ensures fair { AreFair T.totals T.tag taps.old.items taps.new.items }
    ensures moved { IfOk result (λ made. (files : List File) (c : CheckedTree)
        (plan : Option PlanTree)
        → files_verdict (F.content shelf.old) (fetches (trees_of script.now)) ≡ passes files
        → checked_of files (trees_of script.now) ≡ Ok c
        → asked_plan request.now (F.content shelf.old) c ≡ passes plan
        → HasMoved request.now plan files c T.totals T.tag taps.old.items taps.new.items
        made.receipts) }
{
    let needed = match fetches(alloc, script) {
        Ok(needed) => needed,
        Err(_) => return Err(Outcome::Memory),
    };
    let files = match read_files(rt, alloc, shelf, &needed, reading_jobs(request)) {
        Ok(files) => files,
        Err(refusal) => return Err(refusal),
    };
    match request.mode {
        Mode::Replay => text_of_replay(rt, alloc, request, script, files, shelf, taps),
        Mode::Run | Mode::Check | Mode::Explain | Mode::Trial | Mode::Export => {
            text_of_run(rt, alloc, request, script, files, taps)
        }
    }
}

/// In how many jobs a long file is read: as many as there are workers, and one in a check, which
/// has none.
fn reading_jobs(request: &Request) -> u32 {
    match request.mode {
        Mode::Check => 1,
        Mode::Run | Mode::Explain | Mode::Trial | Mode::Export | Mode::Replay => {
            request.settings.workers
        }
    }
}
