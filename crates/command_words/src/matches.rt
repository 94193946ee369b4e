//! What the matches of the command say, option by option.
ghost use Rattle.std.specs.Prelude.{◌≡◌, ◌≤◌, IfSome, codes, option_map};
ghost use Rattle.clap.specs.Words.{first_of, found_of, rows_of};
ghost use Rattle.command_words.specs.Requests as spec;

use crate::Mode;
use crate::texts::{join_of, mode_of, number_within, shuffle_of};
use algebra::{JoinKind, Settings, ShuffleKind};
use clap::ArgMatches;
use rel_base::{MOST_BATCH, MOST_CAPACITY, MOST_WORKERS};

/// The number of an option, from 1 to `most`, and else its usual value.
pub fn count_in(matches: &ArgMatches<'_>, name: &str, usual: u32, most: u32) -> Option<u32>
    requires { (1 ≤ usual) × (usual ≤ most) }
    ensures value { result ≡ spec.count_given name.now usual most (rows_of (found_of matches.now)) }
    ensures within { IfSome result (λ number. (1 ≤ number) × (number ≤ most)) }
{
    match matches.get_str(name) {
        Some(text) => {
            let number = number_within(1, u64::from(most), text)?;
            Some(number as u32)
        }
        None => Some(usual),
    }
}

/// Whether a flag is given.
pub fn is_flag_in(matches: &ArgMatches<'_>, name: &str) -> bool
    ensures { result ≡ spec.is_flag_given name.now (rows_of (found_of matches.now)) }
{
    match matches.get_str(name) {
        Some(text) => text == "true",
        None => false,
    }
}

/// The name of the script.
pub fn script_in<'a>(matches: &ArgMatches<'a>) -> Option<&'a str>
    ensures { option_map (λ text. text.now) result
        ≡ first_of (codes "script") (rows_of (found_of matches.now)) }
{
    matches.get_str("script")
}

/// The name of the plan, where one is named.
pub fn plan_name_in<'a>(matches: &ArgMatches<'a>) -> Option<&'a str>
    ensures { option_map (λ text. text.now) result
        ≡ first_of (codes "from") (rows_of (found_of matches.now)) }
{
    matches.get_str("from")
}

/// The mode.
pub fn mode_in(matches: &ArgMatches<'_>) -> Option<Mode>
    ensures { result ≡ spec.mode_given (rows_of (found_of matches.now)) }
{
    match matches.get_str("mode") {
        Some(text) => mode_of(text),
        None => Some(Mode::Run),
    }
}

/// The hash seed.
fn seed_in(matches: &ArgMatches<'_>) -> Option<u64>
    ensures { result ≡ spec.seed_given (rows_of (found_of matches.now)) }
{
    match matches.get_str("seed") {
        Some(text) => number_within(0, u64::MAX, text),
        None => Some(0),
    }
}

/// How rows meet.
fn shuffle_in(matches: &ArgMatches<'_>) -> Option<ShuffleKind>
    ensures { result ≡ spec.shuffle_given (rows_of (found_of matches.now)) }
{
    match matches.get_str("shuffle") {
        Some(text) => shuffle_of(text),
        None => Some(ShuffleKind::Hc),
    }
}

/// How a worker joins.
fn join_in(matches: &ArgMatches<'_>) -> Option<JoinKind>
    ensures { result ≡ spec.join_given (rows_of (found_of matches.now)) }
{
    match matches.get_str("join") {
        Some(text) => join_of(text),
        None => Some(JoinKind::Tj),
    }
}

/// The settings of a run.
pub fn settings_in(matches: &ArgMatches<'_>) -> Option<Settings>
    ensures { option_map spec.asked_settings_of result
        ≡ spec.settings_given (rows_of (found_of matches.now)) }
{
    let workers = count_in(matches, "workers", 4, MOST_WORKERS)?;
    let capacity = count_in(matches, "capacity", 16, MOST_CAPACITY)?;
    let batch = count_in(matches, "batch", 256, MOST_BATCH)?;
    let seed = seed_in(matches)?;
    let shuffle = shuffle_in(matches)?;
    let join = join_in(matches)?;
    let reduce = is_flag_in(matches, "reduce");
    Settings::new(workers, capacity, batch, seed, shuffle, join, reduce)
}
