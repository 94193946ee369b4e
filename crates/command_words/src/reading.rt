//! Reads the words.
ghost use Rattle.std.specs.Prelude.{◌≡◌, IfOk, Err, Some, None, true, false, codes, map};
ghost use Rattle.clap.specs.Words.{first_of, found_of, rows_of};
ghost use Rattle.command_words.specs.Modes.{has_its_plan};
ghost use Rattle.command_words.specs.Requests as spec;

use crate::commands::matches_in;
use crate::matches::{count_in, is_flag_in, mode_in, plan_name_in, script_in, settings_in};
use crate::{MOST_SIZE, Mode, Request, WordsFault};
use clap::ArgMatches;
use rel_base::{Memory, Text};
use std::alloc::Global;

/// What the words ask for, of which the first is the program's name.
///
/// Each option is read, whether it has an effect in its mode or not.
pub fn read_words(alloc: Global, words: &[Text]) -> Result<Request, WordsFault>
    ensures ok { IfOk result (λ request. spec.asked words.now ≡ Some (spec.asked_of request)) }
    ensures usage { result ≡ Err WordsFault.Usage → spec.asked words.now ≡ None }
{
    let texts = texts_of(alloc, words)?;
    let matches = matches_in(alloc, texts.as_slice())?;
    request_in(alloc, &matches)
}

/// The words as clap takes them.
fn texts_of<'w>(alloc: Global, words: &'w [Text]) -> Result<Vec<&'w str>, Memory>
    ensures { IfOk result (λ made. map (λ text. text.now) made.items ≡ words.entry.now) }
{
    let mut texts = Vec::with_capacity(alloc, words.len())?;
    for word in words {
        texts.push(word.as_str())?;
    }
    Ok(texts)
}

/// What the matches of the command ask for.
fn request_in(alloc: Global, matches: &ArgMatches<'_>) -> Result<Request, WordsFault>
    ensures ok { IfOk result
        (λ request. spec.asked_in (rows_of (found_of matches.now)) ≡ Some (spec.asked_of request)) }
    ensures usage { result ≡ Err WordsFault.Usage
        → spec.asked_in (rows_of (found_of matches.now)) ≡ None }
{
    let Some(mode) = mode_in(matches) else {
        return Err(WordsFault::Usage);
    };
    let Some(settings) = settings_in(matches) else {
        return Err(WordsFault::Usage);
    };
    let Some(size) = count_in(matches, "size", 1000, MOST_SIZE) else {
        return Err(WordsFault::Usage);
    };
    let Some(script) = script_in(matches) else {
        return Err(WordsFault::Usage);
    };
    let from = plan_of(alloc, matches, mode)?;
    Ok(Request {
        mode,
        settings,
        plan: is_flag_in(matches, "plan"),
        traffic: is_flag_in(matches, "traffic"),
        size,
        from,
        script: Text::of(alloc, script)?,
    })
}

/// The name of the plan, where one is named; a replay has to name one.
fn plan_of(alloc: Global, matches: &ArgMatches<'_>, mode: Mode) -> Result<Option<Text>, WordsFault>
    ensures named { IfOk result
        (λ name. first_of (codes "from") (rows_of (found_of matches.now)) ≡ name) }
    ensures allowed { IfOk result (λ name. has_its_plan mode name ≡ true) }
    ensures usage { result ≡ Err WordsFault.Usage
        → has_its_plan mode (first_of (codes "from") (rows_of (found_of matches.now))) ≡ false }
{
    match plan_name_in(matches) {
        Some(name) => Ok(Some(Text::of(alloc, name)?)),
        None if mode == Mode::Replay => Err(WordsFault::Usage),
        None => Ok(None),
    }
}
