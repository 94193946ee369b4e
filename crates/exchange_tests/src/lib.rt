//! Tests of inboxes, channels, crews and exchanges: each call that takes memory is run once with
//! ample of it, and those that may wait are seen to return.
//!
//! They stand in a crate of their own so that the crates that they run are proved once, and not
//! once more with their tests.
#![tactic(auto)]

#[cfg(test)]
mod channels;
#[cfg(test)]
mod crews;
#[cfg(test)]
mod inboxes;
