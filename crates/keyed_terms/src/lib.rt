//! The terms whose rows go to the homes of keys: `distinct`, `diff` and groups; and those that move
//! no row, `unionall` and `empty`.
//!
//! Stands on `regular_shuffle` for spreads by key, on `aggregate_ops` for the operators at each
//! worker, on `placement` for what goes where, and on `routed_joins` for what running a term does.
//!
//! Promises: each term leaves at each worker the rows that the definitions place there, as a bag;
//! its receipts show the moves of its exchange, its note has their numbers, and the taps rise by
//! them. A grouping refuses for a sum exactly where a sum of the groups of all rows lies outside 64
//! bits. Before each exchange the taps are asked whether there is room in their sums. Not promised:
//! that memory is there; that a call returns, since the threads of an exchange wait for one
//! another.
//!
//! Read `specs/KeyedTerms.antt`, then `distincts.rt`, `diffs.rt` and `grouping.rt`.
#![tactic(auto)]

mod columns;
mod concluding;
mod diffs;
mod distincts;
mod gathering;
mod grouping;
mod making;
mod unions;

pub use diffs::{Operands, run_diff};
pub use distincts::run_distinct;
pub use grouping::{run_group, run_picked_group};
pub use unions::{empty_parts, union_parts};
