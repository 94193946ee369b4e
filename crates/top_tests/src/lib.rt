//! Tests of whole runs over files and sinks in memory, which fail where they are told to.
//!
//! They stand in a crate of their own so that the crate that they run is proved once, and not once
//! more with its tests.
#![tactic(auto)]

#[cfg(test)]
mod runs;
