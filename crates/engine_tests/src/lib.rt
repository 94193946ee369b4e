//! Tests of scripts that are run at workers, over one relation: what they store is the same text by
//! every setting, senders and receivers run at once, and the local join is the one that is named.
//!
//! They stand in a crate of their own, above the engine, the readers of scripts and relations, and
//! the text of what is stored.
#![tactic(auto)]

#[cfg(test)]
mod gates;
#[cfg(test)]
mod scripts;
#[cfg(test)]
mod shuffled;
#[cfg(test)]
mod turns;
