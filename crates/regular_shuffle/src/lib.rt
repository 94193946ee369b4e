//! Rows that meet by a key, joins two atoms at a time, and joins where the rows of one atom stay.
//!
//! Source of the joins: Chu, Balazinska and Suciu, "From Theory to Practice: Efficient Join
//! Query Evaluation in a Parallel Database System", SIGMOD 2015.
//!
//! Stands on `row_exchange` for exchanges and routes, on `routed_joins` for the local joins and for
//! what joins by one exchange promise, on `placement` for what goes where, on `hash_partition` for
//! homes, on `kept_rows` for which rows are kept, and on `algebra` for shapes, settings and
//! traffic.
//!
//! Promises: a spread by key gives each worker, as a bag, the rows whose key has its home there. A
//! broadcast join gives each worker's part of the definitions, as a bag; the atom with the most
//! kept rows stays, the first one at a tie, and costs neither a message nor a copy of shared rows.
//! A join two at a time gives each worker's part of the definitions, as a bag, with a note of
//! traffic and a receipt for each of its steps; the candidates of each prefix count to the limit of
//! rows. Too many rows and overflow are answered exactly where a run over the whole tables has
//! these faults. The taps, and on Ok the receipt, tell just the moves of the definitions. No memory
//! is taken for a row.
//!
//! Not promised: that memory is there; that a call returns, since jobs wait for one another; that
//! keys spread evenly.
//!
//! Read `specs/KeySpreads.antt`, `spreading.rt`, `specs/BroadcastJoins.antt`, `broadcasting.rt`,
//! then `specs/TwoWayJoins.antt`, `two_way.rt` and `stepping.rt`.
#![tactic(auto)]

mod broadcast_route;
mod broadcasting;
mod kept_counts;
mod key_route;
mod moving;
mod reading;
mod spreading;
mod step_pairs;
mod step_route;
mod step_scalars;
mod step_shapes;
mod stepping;
mod two_way;

pub use broadcasting::broadcast_join;
pub use spreading::spread_by_key;
pub use two_way::two_way_join;
