//! One run of the program, from its words to its exit.
ghost use Rattle.std.specs.Prelude.{◌≡◌, ◌≢◌, All, Some, None, IsTrue, true, false, vec_len};
ghost use Rattle.rel_base.specs.Limits.{taps as tap_count};
ghost use Rattle.rel_io.specs.Shelves.{counts_of};
ghost use Rattle.rel_io.specs.Sinks.{written_of};
ghost use Rattle.rel_io.specs.Taps.{no_rows};
ghost use Rattle.routed_joins.specs.TermRuns.{AreFair};
ghost use Rattle.command_words.specs.Requests.{asked, asked_of};
ghost use Rattle.myria_top.specs.EachFile.{Allows};
ghost use Rattle.myria_top.specs.Headline.{Headline, Explains};
ghost use Rattle.myria_top.specs.Moves.{HasMovedAfter, IsStill};
ghost use Rattle.myria_top.specs.Plans.{plan_named};
ghost use Rattle.myria_top.specs.Requests.{is_check, is_trial, name_given, script_asked, takes_workers};

use crate::Outcome;
use crate::messages::tell;
use crate::preparing::prepared;
use crate::unprinted::Unprinted;
use command_words::{Request, read_words};
use rel_base::{TAPS, Text};
use rel_io::{Shelf, Sink, SinkFault, Tap};
use std::alloc::Global;
use std::sync::Wait;
use std::thread::Threads;

/// Runs what the words ask for: a script over the files of the shelf, or a trial, and prints the
/// text of the mode. It may wait as long as its threads do.
///
/// The first word is the program's name. Everything is computed before the first byte passes out.
/// Every answer but `Done` is told by a line on `err`; a fault of `err` changes nothing else and
/// stops that line. Words that aren't read, and a trial, leave the shelf as it was. There are 128
/// taps, two for each of the most workers: tap `2w` is told the rows that worker `w` sends, and
/// tap `2w + 1` those that it receives and lists; a check tells them nothing. After another answer
/// than `Done` their sums may have risen.
pub fn run_words<R: Threads + Wait + Sync, F: Shelf, O: Sink, E: Sink, T: Tap + Send>(
    rt: &R,
    alloc: Global,
    words: &[Text],
    shelf: &mut F,
    out: &mut O,
    err: &mut E,
    taps: &mut Vec<T>,
) -> Outcome
    requires count { vec_len taps.old ≡ TAPS }
    requires fresh { All (λ tap. T.totals tap ≡ no_rows) taps.old.items }
    ensures headline { Headline (record {
      asked = asked words.now;
      content = F.content shelf.old;
      shelf = counts_of F.Shelf shelf.old shelf.new;
      out = written_of O.Sink out.old out.new;
    })
        (written_of E.Sink err.old err.new) result }
    ensures unasked { script_asked (asked words.now) ≡ None → shelf.new ≡ shelf.old }
    ensures still { takes_workers (asked words.now) ≡ false
        → IsStill taps.old.items taps.new.items result }
    ensures taps { AreFair T.totals T.tag taps.old.items taps.new.items }
    ensures moved { HasMovedAfter (asked words.now) (F.content shelf.old) T.totals T.tag
        taps.old.items taps.new.items result }
{
    let request = match read_words(alloc, words) {
        Ok(request) => request,
        Err(fault) => {
            let refusal = Outcome::from(fault);
            let _ = tell(err, "", &refusal);
            return refusal;
        }
    };
    let answer = answer(rt, alloc, &request, shelf, out, taps);
    let _ = tell(err, name_told(&request, &answer), &answer);
    answer
}

/// The name that an answer tells, as the words give it: that of the plan, or else that of the script.
fn name_told<'a>(request: &'a Request, answer: &Outcome) -> &'a str
    ensures { result.now ≡ name_given (Some (asked_of request.now)) answer.now }
{
    match answer {
        Outcome::NoPlan => plan_name(request),
        _ => request.script.as_str(),
    }
}

/// The name of the plan, where one is named.
pub(crate) fn plan_name(request: &Request) -> &str
    ensures { result.now ≡ plan_named request.now }
{
    match &request.from {
        Some(name) => name.as_str(),
        None => "",
    }
}

/// The answer to a request, once its text is printed.
fn answer<R: Threads + Wait + Sync, F: Shelf, O: Sink, T: Tap + Send>(
    rt: &R,
    alloc: Global,
    request: &Request,
    shelf: &mut F,
    out: &mut O,
    taps: &mut Vec<T>,
) -> Outcome
    requires { vec_len taps.old ≡ tap_count }
    ensures explained { Explains (record {
      asked = Some (asked_of request.now);
      content = F.content shelf.old;
      shelf = counts_of F.Shelf shelf.old shelf.new;
      out = written_of O.Sink out.old out.new;
    }) result }
    ensures read { result ≢ Outcome.Usage }
    ensures each { is_trial request.now.mode ≡ false
        → Allows (F.content shelf.old) request.now.script result }
    ensures trial { IsTrue (is_trial request.now.mode) → shelf.new ≡ shelf.old }
    ensures still { is_check request.now.mode ≡ true
        → IsStill taps.old.items taps.new.items result }
    ensures fair { AreFair T.totals T.tag taps.old.items taps.new.items }
    ensures moved { HasMovedAfter (Some (asked_of request.now)) (F.content shelf.old) T.totals T.tag
        taps.old.items taps.new.items result }
{
    let unprinted = match prepared(rt, alloc, request, shelf, taps) {
        Ok(unprinted) => unprinted,
        Err(refusal) => return refusal,
    };
    let Unprinted { text, receipts } = unprinted;
    match text.print(out) {
        Ok(()) => Outcome::Done { receipts },
        Err(SinkFault::Failed) => Outcome::WriteFault,
        Err(SinkFault::Memory) => Outcome::Memory,
    }
}
