//! Plans and traffic as text, for whoever reads how a script was run.
//!
//! Stands on `algebra`, whose notes it prints.
//!
//! Promises: what is appended is the text of the notes, one line for each note of a plan, and for
//! each exchange a title and a line for each worker. Every line begins with two hyphens and ends
//! with a line feed, so that the text may stand behind the relations that a run prints. Not
//! promised: that memory is there; after want of it the bytes are as they were.
//!
//! Read `specs/PlanTexts.antt` and `specs/TrafficTexts.antt`, then `plans.rt` and `traffic.rt`.
#![tactic(auto)]

mod plans;
mod traffic;

pub use plans::print_plan;
pub use traffic::print_traffic;
