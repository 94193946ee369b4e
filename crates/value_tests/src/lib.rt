//! Tests of the crates of values, of the outside and of shares: each call that takes memory is run
//! once with ample of it.
//!
//! A crate with tests is proved twice, once without them and once with them. These tests stand in
//! a crate of their own, so that the crates that they run are proved once.
#![tactic(auto)]

#[cfg(test)]
mod files;
#[cfg(test)]
mod homes;
#[cfg(test)]
mod outside;
#[cfg(test)]
mod refusals;
#[cfg(test)]
mod shares;
#[cfg(test)]
mod values;
