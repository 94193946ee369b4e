//! Tests of the joins of what one worker has, and of what they stand on: each call that takes
//! memory is run once with ample of it.
//!
//! They stand in a crate of their own so that the crates that they run are proved once, and not
//! once more with their tests.
#![tactic(auto)]

#[cfg(test)]
mod arrays;
#[cfg(test)]
mod listings;
#[cfg(test)]
mod orders;
#[cfg(test)]
mod rectangles;
#[cfg(test)]
mod words;
