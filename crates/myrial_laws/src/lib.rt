//! Laws of what scripts mean.
//!
//! Stands on `myrial_meaning` for the definitions and `bag_laws` for the laws of bags. Nothing
//! here runs: each law is the contract of a function with an empty body.
//!
//! Promises: the order of a file's rows changes no stored relation but in the order of its rows.
//!
//! Read `specs/Permuted.antt`, then `laws.rt`.
#![tactic(auto)]

mod laws;

pub use laws::order_of_rows_changes_no_bag;
