//! The engine: checked scripts, run step by step by workers that exchange rows.
//!
//! Stands on `plan_rewrite` for the steps that a store needs, on `placement` and `run_laws` for
//! what each of them means at workers and by whose laws rows are held in whatever order they came,
//! on `semijoin_reducer` for rows that are in no answer, on `fragmenter` for plans that are given, and
//! on `join_plans`, `join_runs` and
//! `keyed_terms` for the plans and the terms.
//! Files are dealt to the workers, each result stays where it was made until its last use, and a
//! step runs over what is held of its sources.
//!
//! Promises: on Ok nothing is wrong with the script, and each store has its key, its columns and at
//! each worker the bag of rows that is placed there. The plan, the traffic and the receipts are
//! those of the exchanges of the needed steps, and the taps rose by these. Any answer but `Memory`
//! is the fault of the first needed step that has one. After every answer the taps stand in their
//! order, and where as many rows were sent as received, as many are.
//! Not promised: any order of the rows at a worker; that memory is there; that a run returns, since
//! its threads wait for one another.
//!
//! Read `specs/Runs.antt`, then `running.rt`, `steps.rt` and `terms.rt`; `joins.rt` and `groups.rt`
//! run what joins atoms.
#![tactic(auto)]

mod dealing;
mod groups;
mod held;
mod joins;
mod noted;
mod results;
mod running;
mod steps;
mod terms;

pub use results::Ran;
pub use running::run_script;
