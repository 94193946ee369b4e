//! The text of a run, in the pieces in which it is offered to a sink.
//!
//! Stands on `relation_csv` for headers and rows, on `collector` for all workers' rows in one
//! order, on `placement` for what a run stores, on `plan_printer` for plans and traffic, on
//! `rel_io` for the sink, and on std for the jobs in which the text of many rows is made.
//!
//! Promises: what each call adds is the text of what it is given, and `print` offers the text that
//! was added, whole and in order. Relations whose rows were put in order read, as they stand, as
//! the text of the relations before that. Not promised: that memory is there; after `Memory` a
//! text holds what was there and a part of what was to be added. Where the text is cut is no part
//! of the contracts: there is a piece for each line over a relation, each header, each row, and
//! each line of a plan, of traffic and of a trial.
//!
//! Read `specs/OutputText.antt`, `specs/Stores.antt` and `specs/TrialText.antt`, then `blocks.rt`,
//! `jobs.rt` and `pieces.rt`.
#![tactic(auto)]

mod blocks;
mod counting;
mod jobs;
mod laws;
mod pieces;

pub use laws::sorted_lines_are_the_text;
pub use pieces::Pieces;
