//! The command of the program, and the words that it reads.
ghost use Rattle.std.specs.Prelude.{◌≡◌, ◌≢◌, true, false, IfOk, Err, map};
ghost use Rattle.std.specs.List.{fold};
ghost use Rattle.clap.specs.Words.{app_of, found_of, kind_of, matches_of, rows_of, rule_of};
ghost use Rattle.command_words.specs.Commands as spec;

use crate::WordsFault;
use clap::error::ErrorKind;
use clap::{Arg, ArgAction, ArgMatches, Command, Error};
use std::alloc::{AllocError, Global};

/// An option that takes one text.
fn option<'a>(alloc: Global, name: &'a str) -> Arg<'a>
    ensures rule { rule_of result ≡ spec.option_rule name.entry.now }
    ensures local { result.global ≡ false }
{
    Arg::new(alloc, name).long(name).action(ArgAction::Set)
}

/// An option that takes none.
fn flag<'a>(alloc: Global, name: &'a str) -> Arg<'a>
    ensures rule { rule_of result ≡ spec.flag_rule name.entry.now }
    ensures local { result.global ≡ false }
{
    Arg::new(alloc, name).long(name).action(ArgAction::SetTrue)
}

/// A word that must be there.
fn word<'a>(alloc: Global, name: &'a str) -> Arg<'a>
    ensures rule { rule_of result ≡ spec.word_rule name.entry.now }
    ensures local { result.global ≡ false }
{
    Arg::new(alloc, name).required(true).action(ArgAction::Set)
}

/// A command with options of these names besides, each of which takes one text.
fn with_options<'a>(
    alloc: Global,
    mut command: Command<'a>,
    names: &[&'a str],
) -> Result<Command<'a>, AllocError>
    ensures { IfOk result (λ made. app_of made
        ≡ fold (λ app name. spec.with_option name.now app) (app_of command.entry) names.entry.now) }
{
    for name in names {
        command = command.arg(option(alloc, *name))?;
    }
    Ok(command)
}

/// A command with flags of these names besides.
fn with_flags<'a>(
    alloc: Global,
    mut command: Command<'a>,
    names: &[&'a str],
) -> Result<Command<'a>, AllocError>
    ensures { IfOk result (λ made. app_of made
        ≡ fold (λ app name. spec.with_flag name.now app) (app_of command.entry) names.entry.now) }
{
    for name in names {
        command = command.arg(flag(alloc, *name))?;
    }
    Ok(command)
}

/// The command of the program.
fn command<'a>(alloc: Global) -> Result<Command<'a>, AllocError>
    ensures { IfOk result (λ made. app_of made ≡ spec.command) }
{
    let settings = [
        "mode", "workers", "capacity", "batch", "seed", "shuffle", "join",
    ];
    let run = with_options(alloc, Command::new(alloc, "myria"), &settings)?;
    let printed = with_flags(alloc, run, &["plan", "traffic", "reduce"])?;
    let named = with_options(alloc, printed, &["size", "from"])?;
    named.arg(word(alloc, "script"))
}

/// The matches of the words, of which the first is the program's name.
pub fn matches_in<'a>(alloc: Global, words: &'a [&'a str]) -> Result<ArgMatches<'a>, WordsFault>
    ensures read { IfOk result (λ made. spec.is_read (map (λ word. word.now) words.entry.now) ≡ true) }
    ensures rows { IfOk result (λ made. rows_of (found_of made)
        ≡ matches_of spec.command (map (λ word. word.now) words.entry.now)) }
    ensures usage { result ≡ Err WordsFault.Usage
        → spec.is_read (map (λ word. word.now) words.entry.now) ≡ false }
{
    let command = command(alloc)?;
    match command.try_get_matches_from(words) {
        Ok(matches) => Ok(matches),
        Err(error) => Err(fault_of(&error)),
    }
}

/// What an error of clap comes to here.
fn fault_of(error: &Error) -> WordsFault
    ensures { result ≡ WordsFault.Usage → kind_of error.now ≢ ErrorKind.OutOfMemory }
{
    match error.kind() {
        ErrorKind::OutOfMemory => WordsFault::Memory,
        _ => WordsFault::Usage,
    }
}
