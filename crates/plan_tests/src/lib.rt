//! Tests of plans: read from text, written, made of notes, and fitted to a script. Each call is run
//! once, with ample memory.
//!
//! Stands on the crates that it runs, and on what their notes and steps are made of. Nothing here
//! is called.
#![tactic(auto)]

#[cfg(test)]
mod plans;
