//! What the words ask for, and why they are refused.
ghost use Rattle.std.specs.Prelude.{◌≡◌, ◌≤◌, true};
ghost use Rattle.command_words.specs.Limits.{most_size};
ghost use Rattle.command_words.specs.Modes.{has_its_plan};

use algebra::Settings;
use rel_base::{Memory, Text};
use std::alloc::AllocError;
use std::error::Error;
use std::fmt;

/// The most rows of each relation of a trial.
pub const MOST_SIZE: u32 = 100_000;

/// What a run does with its script.
#[derive(Clone, Copy, Debug, PartialEq, Eq)]
pub enum Mode {
    /// Runs it at workers and prints what it stores.
    Run,
    /// Prints what it stores, computed without workers.
    Check,
    /// Runs it at workers and prints the plan alone.
    Explain,
    /// Runs a script of its own over relations that it makes.
    Trial,
    /// Runs it at workers and prints how the rows of each of its joins met, as a plan.
    Export,
    /// Runs it at workers with its joins as a plan says, and prints what it stores.
    Replay,
}

/// What the words of the command line ask for.
pub struct Request {
    /// What the run does.
    pub mode: Mode,
    /// The settings of the run.
    pub settings: Settings,
    /// Whether the plan is printed behind the relations.
    pub plan: bool,
    /// Whether the traffic is printed behind the relations.
    pub traffic: bool,
    /// The rows of each relation of a trial, 1 to 100,000.
    pub size: u32,
    /// The name of the plan, where one is named; a replay names one.
    pub from: Option<Text>,
    /// The name of the script; any word where the mode is `Trial`.
    pub script: Text,
    pub ghost size_in_range: { (1 ≤ size) × (size ≤ most_size) },
    pub ghost plan_named: { has_its_plan mode from ≡ true },
}

// Written out, since a derived drop is proved anew at each place where a value is let go.
impl Drop for Request {
    fn drop(self) {
        let Request {
            mode: _,
            settings: _,
            plan: _,
            traffic: _,
            size: _,
            from: _,
            script: _,
        } = self;
    }
}

/// Why no request was read from the words.
#[derive(Clone, Copy, Debug, PartialEq, Eq)]
pub enum WordsFault {
    /// The words are none that the program takes.
    Usage,
    /// Memory was refused.
    Memory,
}

/// The fault in words, as `usage: myria [options] SCRIPT`.
impl fmt::Display for WordsFault {
    ghost use Rattle.std.specs.Prelude.{Some};
    ghost use Rattle.command_words.specs.Faults.{fault_text};

    ghost output = { λ fault. Some (fault_text fault) };

    fn fmt<W: fmt::Write>(&self, f: &mut fmt::Formatter<W>) -> fmt::Result {
        match self {
            WordsFault::Usage => write!(f, "usage: myria [options] SCRIPT"),
            WordsFault::Memory => write!(f, "out of memory"),
        }
    }
}

impl Error for WordsFault {}

impl From<Memory> for WordsFault {
    ghost use Rattle.std.specs.Prelude.{◌≡◌};
    ghost use Rattle.command_words.specs.declared.requests.WordsFault.TheVariants as fault;

    ghost from_gives = { λ _ given. given ≡ fault.Memory };

    fn from(_refused: Memory) -> WordsFault {
        WordsFault::Memory
    }
}

impl From<AllocError> for WordsFault {
    ghost use Rattle.std.specs.Prelude.{◌≡◌};
    ghost use Rattle.command_words.specs.declared.requests.WordsFault.TheVariants as fault;

    ghost from_gives = { λ _ given. given ≡ fault.Memory };

    fn from(_refused: AllocError) -> WordsFault {
        WordsFault::Memory
    }
}
