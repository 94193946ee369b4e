//! Tests of the crates of the language and of its operators: each call that takes memory is run
//! once with ample of it.
//!
//! They stand in a crate of their own so that the crates that they run are proved once, and not
//! once more with their tests.
#![tactic(auto)]

#[cfg(test)]
mod fixtures;
#[cfg(test)]
mod groups;
#[cfg(test)]
mod meanings;
#[cfg(test)]
mod references;
#[cfg(test)]
mod scripts;
#[cfg(test)]
mod steps;
#[cfg(test)]
mod terms;
#[cfg(test)]
mod tokens;
#[cfg(test)]
mod trees;
