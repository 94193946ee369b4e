//! The words of the command line as what they ask for: a mode, the settings of a run, what is
//! printed beside the stored relations, the size of a trial, the plan of a replay, and the script.
//!
//! Stands on `clap`, which reads the words, `algebra` for the settings and `rel_base` for texts
//! and limits. Reads nothing else and waits for nobody.
//!
//! Promises: a request is what the words say, and words are refused exactly where clap's own
//! definition refuses them, or where a choice or a number is outside its list or its limits,
//! whatever the mode. Not promised: that memory is there.
//!
//! Read `specs/Commands.antt` and `specs/Requests.antt`, then `requests.rt`.
#![tactic(auto)]

mod commands;
mod matches;
mod reading;
mod requests;
mod texts;

pub use reading::read_words;
pub use requests::{MOST_SIZE, Mode, Request, WordsFault};
