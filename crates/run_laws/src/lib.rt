//! Laws by which a checked script is run step by step, over rows that are known as bags, and by
//! which such rows, and kept rows with pushed tests, are enough to run a term.
//!
//! Stands on `placement` for what terms come to at workers and what their exchanges move, on
//! `routed_joins` for what a run gives, on `bag_laws`, and on `algebra` for steps and pushed joins.
//! Nothing here runs: each law is the contract of a function with an empty body.
//!
//! Promises: each source of a script stands for one placed relation, whatever steps come later, and
//! where the steps before one are held as bags, its result is one more. Over the same bags a term
//! comes to the same bags at each worker, by exchanges that tell the same, with the same fault and
//! the same lines of a plan; so does a pushed join of the rows that its tests keep, which a local
//! join may be given; and what is moved or counted by some exchanges is so by others that tell the
//! same.
//! Not promised: any order of rows.
//!
//! Read `specs/Values.antt`, `specs/Scripts.antt` and `specs/Held.antt`, then
//! `specs/SameExchanges.antt`, `specs/BagRuns.antt` and `specs/KeptRuns.antt`.
#![tactic(auto)]

mod bags;
mod held;
mod kept;
mod rewritten;
mod scripts;
mod values;

pub use bags::{counts_are_of_same_exchanges, moved_are_of_same_exchanges, terms_are_of_bags};
pub use held::{
    held_are_ready, one_more_is_held, results_are_held, steps_are_ready, stores_are_held,
};
pub use kept::{
    kept_rows_are_enough, kept_rows_are_listed, kept_rows_are_parts, kept_spreads_are_listed,
};
pub use rewritten::{numbers_rise, rewritten_are_kept, steps_by_place};
pub use scripts::{
    faults_are_first, files_are_meant, held_are_meant, needed_are_meant, notes_are_of_bags,
    ready_are_of_bags, results_are_found, scripts_are_of_steps,
};
pub use values::{
    faults_are_of_steps, meant_are_placed, needed_are_over_needed, steps_are_meant,
    stores_are_over_needed,
};
