//! Three relations that are made of a number, and a script that joins them: a trial of the engine
//! without any file.
//!
//! Stands on `rel_base` alone.
//!
//! Promises: `trial_files` gives the relations of the definitions, which look random and are the
//! same at every run, and the script is that of the definitions. Not promised: that memory is
//! there, or anything about how the numbers are spread.
//!
//! Read `specs/Trials.antt`, `specs/TrialScript.antt`, then `relations.rt`.
#![tactic(auto)]

mod numbers;
mod relations;
mod script;

pub use relations::trial_files;
pub use script::{MOST_TRIAL_ROWS, TRIAL_SCRIPT, trial_is_as_defined};
