//! Typing of scripts: which files a script needs, which statements are typed, and what each comes
//! to once its names are resolved.
//!
//! Stands on `rel_base` for files, `myrial_ast` for trees, `myrial_scopes` for what names mean
//! inside a comprehension, `myrial_meaning` for what names and stored keys stand for, and
//! `algebra` for the steps that a script comes to. Nothing here looks at rows, reads or waits.
//!
//! Promises: `fetches` gives the files that a script needs, each once, with the form of its first
//! load, as `fetches` of `myrial_meaning` (`specs/Fetches.antt`) defines them; `check` gives what
//! a script comes to, as `checked_of` (`specs/Checking.antt`) defines it: its steps and stores, or
//! the first statement that isn't typed and its first kind of fault. It takes any tree and any
//! files. Of a typed script over its files the laws (`specs/Laws.antt`) say that it has a meaning,
//! and that its steps store what it stores, have the fault of its run, and meet the conditions of
//! what takes them. Contracts see a script by `trees_of` and steps by `checked_tree_of`. Not
//! promised: that memory is there.
//!
//! Read `specs/Resolving.antt`, `specs/Kinds.antt` and `specs/Checking.antt`, then `checking.rt`.
#![tactic(auto)]

mod checking;
mod classes;
mod faults;
mod fetching;
mod kinds;
mod laws;
mod loads;
mod names;
mod terms;

pub use checking::check;
pub use faults::{TypeFault, TypeKind};
pub use fetching::fetches;
pub use laws::{
    limit_is_of_numbers, steps_are_of_the_files, steps_have_the_fault, steps_mean_the_script,
    typed_scripts_have_meaning, typed_statements_resolve,
};
pub use myrial_ast::LoadForm;
pub use myrial_meaning::{Fetch, Fetches};
