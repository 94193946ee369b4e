//! Laws of the script of a trial.
//!
//! Stands on `trial_gen` for the script and its relations, on `myrial_lexer`, `myrial_parser` and
//! `myrial_types` for how a script is read and typed, and on `algebra` for what it comes to.
//! Nothing here runs: each law is the contract of a function with an empty body.
//!
//! Promises: the bytes of the script read as five statements. These ask for the three relations of
//! a trial, in their order, and over them, whatever their size, are typed to a join of three atoms
//! with three variables.
//!
//! Read `specs/TrialTrees.antt`, `specs/TrialSteps.antt`, then `laws.rt`.
#![tactic(auto)]

mod laws;

pub use laws::{trial_is_read, trial_is_typed};
