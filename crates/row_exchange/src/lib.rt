//! One exchange: the rows of some atoms go from the workers at which they lie to those that a
//! route names.
//!
//! Stands on `exchange_channels` for inboxes and receipts, on `crew` for jobs side by side, on
//! `rel_io` for taps, on `rel_base` for rows and lists, and on `arrayvec` for the cells of a row.
//! Knows no expression and no join.
//!
//! Promises: on Ok each worker has, as a bag, the rows that go to it, and the receipt shows for
//! each pair of workers the rows that went from the one to the other, in batches of 1 to `batch`
//! rows; the taps were told just these rows. After every answer the taps stand in their order,
//! only those of the exchange's workers have moved, and as many rows were sent as were received.
//! No row is copied where the parts hold shared rows alone. Not promised: that memory is there;
//! that the call returns, since jobs wait for one another; the order in which a worker receives
//! rows.
//!
//! Where the machine refuses threads: each worker's receiving half asks for its thread before the
//! first half sends, and one that gets none takes what was sent once all have sent. So a call waits
//! for ever only where a worker whose receiving half has no thread is sent more messages than the
//! capacity, an end mark of each worker among them. No sending half needs a thread of its own.
//!
//! Read `routes.rt`, `specs/Routes.antt`, `specs/Exchanges.antt`, then `exchanging.rt`.
#![tactic(auto)]

mod exchanging;
mod filling;
mod gathering;
mod moving;
mod receiving;
mod routes;
mod sending;
mod stations;

pub use exchanging::{Exchanged, Given, exchange};
pub use routes::{Cells, Route, Size, Spreads};
