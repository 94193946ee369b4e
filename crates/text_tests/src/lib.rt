//! Tests of what stands around a run: its stages, the texts that it prints of its plan and its
//! traffic, the collecting of its rows, the pieces of its text, trials, and the words that ask for
//! it. Each call is run once, with ample memory, and those that may wait are seen to return.
//!
//! Stands on the crates that it runs, and on what their notes and steps are made of. Nothing here
//! is called.
#![tactic(auto)]

#[cfg(test)]
mod collecting;
#[cfg(test)]
mod pieces;
#[cfg(test)]
mod printing;
#[cfg(test)]
mod stages;
#[cfg(test)]
mod trials;
#[cfg(test)]
mod words;
