//! The top call: does what the words of a command line ask for over files that are handed in, and
//! prints the answer.
//!
//! Stands on `command_words` for the words, on `myrial_lexer` and `myrial_parser` for scripts, on
//! `myrial_types` for their typing, whose laws tie the steps to what the script means, on `engine`
//! for the run of the steps at workers, on `myrial_meaning` for what a script means without
//! workers, on `trial_gen` and `trial_laws` for the relations and the script of a trial, on
//! `fragmenter` and `plan_json` for plans that are exported and replayed, on
//! `output_texts` for what is printed, on `relation_csv` for the files of relations and on
//! `rel_io` for what is read and written.
//!
//! Promises: `run_words` has the headline as a clause. Each answer has its cause. After `Done` the
//! output took exactly the text of the mode: what the script stores, which is its meaning, and the
//! plan and the traffic that are asked for; the plan alone, as lines or as JSON; or what a trial
//! counts. Standard error
//! took the line of any other answer. After `Done`, receipts and taps are those of the exchanges
//! that the definitions say; after every answer no row is lost on its way. Not promised: that
//! memory is there, that the shelf tells the truth, what an untold shelf holds, or that the run
//! ends: it waits for its threads.
//!
//! Read `specs/Headline.antt`, then `specs/Verdicts.antt`, `specs/Requests.antt`,
//! `specs/Runs.antt`, `specs/Printed.antt` and `specs/Moves.antt`, then `run.rt`, `preparing.rt`
//! and `unprinted.rt`.
#![tactic(auto)]

mod counted;
mod file_names;
mod laws;
mod messages;
mod outcomes;
mod preparing;
mod reading;
mod replaying;
mod run;
mod unprinted;

pub use counted::fresh_taps;
pub use laws::{
    exports_are_read, reducing_keeps_answers, runs_have_one_answer, trials_are_of_their_run,
};
pub use messages::tell;
pub use outcomes::Outcome;
pub use run::run_words;
