//! Groups, partial rows and the operators on bags, over rows in order.
//!
//! Stands on `rel_base` for rows, `myrial_ast` for what groups and bags are, `bag_laws` for their
//! laws, `algebra` for the kinds of columns and `packed_rows` for rows in words. Nothing here
//! reads, writes or waits.
//!
//! Promises: each call gives the bag that its definition says. A sum is added up in 128 bits, so
//! that it may leave 64 bits on the way; `group` and `merge` refuse exactly where a whole sum lies
//! outside 64 bits. Partial rows never refuse for that: a sum stands in two columns; merging them
//! refuses exactly where grouping all rows would, which is a law. Rows are brought into order by
//! their key and read run by run, so a call takes n log n; rows are packed in words where they can
//! be, shared rows are not copied, and the rows that come out are new ones, in the order of their
//! keys. Not promised: that memory is there.
//!
//! Read `specs/Columns.antt` and `specs/Forms.antt`, then `rows_of_groups.rt`, `grouping.rt` and
//! `bags.rt`.
#![tactic(auto)]

mod bags;
mod columns;
mod faults;
mod group_rows;
mod grouping;
mod key_runs;
mod keys;
mod laws;
mod ordering;
mod partials;
mod picking;
mod rows_of_groups;

pub use bags::{append, difference, distinct};
pub use faults::AggFault;
pub use grouping::group;
pub use laws::merged_fit_as_groups;
pub use partials::{merge, partial, partial_keys, partial_of_picks};
pub use picking::are_picks;
