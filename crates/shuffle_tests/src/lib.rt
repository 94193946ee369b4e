//! Tests of the joins between workers, over numbers that are dealt to the workers in turn, of the
//! search for ears, and of rows that are reduced.
//!
//! They stand in a crate of their own, above the shuffles and the join through hash tables, which
//! is what a worker does alone.
#![tactic(auto)]

#[cfg(test)]
mod ears;
#[cfg(test)]
mod homes;
#[cfg(test)]
mod joins;
#[cfg(test)]
mod locals;
#[cfg(test)]
mod numbers;
#[cfg(test)]
mod paths;
#[cfg(test)]
mod positives;
#[cfg(test)]
mod refusals;
#[cfg(test)]
mod runs;
