//! The meaning of scripts, and an evaluator that computes it as it is defined.
//!
//! Stands on `rel_base` for relations and files, on `myrial_ast` for the trees of scripts and the
//! meaning of expressions, comprehensions and groups, on `myrial_scopes` for what names mean, on
//! `expr_eval` for the values of scalars and on `aggregate_ops` for groups and the operators on
//! bags. Nothing here reads text, reads a file or waits.
//!
//! Promises: `evaluate` gives what a script stores, each relation's rows in ascending order, or
//! the fault of its run, as the definitions say; statements that no store needs are not run.
//! `has_meaning` tells whether each name, key and reference of a script stands for something and
//! what is put together has columns of the same types, which is all that `evaluate` requires. That
//! the test of needed statements tells what their rule says is a law. Contracts see a script by
//! `trees_of`. Not promised: that memory is there; speed, since a comprehension tries each row of an
//! item behind each row of the items before it on which no test fails.
//!
//! Read `specs/Environments.antt`, `specs/Meaning.antt`, `specs/Needed.antt`, `specs/Faults.antt`
//! and `specs/Runnable.antt`, then `evaluating.rt`, `statements.rt` and `loops.rt`.
#![tactic(auto)]

mod bound_tests;
mod checking;
mod combined_rows;
mod comprehensions;
mod environment;
mod evaluating;
mod holding;
mod items;
mod laws;
mod list_faults;
mod loops;
mod needed;
mod needed_files;
mod rules;
mod statements;

pub use checking::{has_meaning, have_same_kinds};
pub use evaluating::evaluate;
pub use laws::needed_statements_are_the_least_set;
pub use needed_files::{Fetch, Fetches};
