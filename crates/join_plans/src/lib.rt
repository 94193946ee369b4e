//! The plans of joins: how the rows of a join come together, and the lines that say so.
//!
//! Source of the shares: Chu, Balazinska and Suciu, "From Theory to Practice: Efficient Join Query
//! Evaluation in a Parallel Database System", SIGMOD 2015.
//!
//! Stands on `algebra` for shapes, settings and notes, on `share_chooser` for the shares of least
//! load, on `fragmenter` for plans that are given, and on `placement`, whose definitions say what a
//! plan is.
//!
//! Promises: the shuffle is the one that the rule asks for, that of the settings, by cells with the
//! shares of least load for the rows that are joined, or that of a plan; and the lines of a join are
//! those that the definitions state.
//! Both are found by the numbers of rows alone, and are the same in whatever order rows lie. Not
//! promised: that memory is there.
//!
//! Read `specs/JoinPlans.antt`, `sizes.rt` and `plans.rt`, then `rules.rt`,
//! `choices.rt` and `notes.rt`.
#![tactic(auto)]

mod choices;
mod laws;
mod notes;
mod plans;
mod rules;
mod sizes;
mod spans;
mod uses;

pub use laws::chosen_are_ruled;
pub use notes::{add_note, group_note};
pub use plans::plan_join;
pub use rules::ShuffleBy;
pub use sizes::{JoinSizes, Reduction};
