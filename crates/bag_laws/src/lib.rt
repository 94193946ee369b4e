//! Laws of bags of rows: what the order of rows leaves as it is, and how partial rows make groups.
//!
//! Stands on `rel_base` for bags and `myrial_ast` for joins, bag operators, groups and partial
//! rows. Nothing here runs: each law is the contract of a function with an empty body.
//!
//! Promises: candidates, listed rows, the operators on bags and groups are the same bags whatever
//! the order of the rows; and the groups of several lists put together are what the partial rows
//! of each list, in any order, are merged to, key by key, without a number that leaves 64 bits on
//! the way.
//!
//! Read `specs/OrderLaws.antt` and `specs/PartialLaws.antt`, then `laws.rt`.
#![tactic(auto)]

mod laws;

pub use laws::{
    groups_ignore_order, groups_meet_by_key, joins_ignore_order, merged_are_groups,
    operators_ignore_order, partials_fit, partials_keep_the_key, sums_are_split,
};
