//! The outside: files that are read by their names, output that is written, and counts of rows.
//!
//! Stands on `rel_base` for texts and lists. Implements its three traits in memory, and over the
//! operating system.
//!
//! Promises: each refusal has its cause, a count that rose in the call; what was fetched is the
//! beginning of the content, where that is told; a write takes what it says that it takes; a tap
//! adds to its own sum. The shelf and the sink in memory tell all and say of each call how it is
//! answered. Not promised: what the operating system holds or takes, which no contract can name.
//! `FolderShelf` and `StdSink` are the trusted edge, and tests run them. No clause says when
//! memory is there.
//!
//! Read `specs/Outside.antt`, then `shelves.rt`, `sinks.rt` and `taps.rt`.
#![tactic(auto)]

mod count_tap;
mod folder_shelf;
mod mem_shelf;
mod mem_sink;
mod numbers;
mod offers;
mod shelves;
mod sinks;
mod std_sink;
mod taps;

pub use count_tap::CountTap;
pub use folder_shelf::FolderShelf;
pub use mem_shelf::{Bytes, Contents, MemShelf};
pub use mem_sink::MemSink;
pub use offers::offer;
pub use shelves::{Shelf, ShelfFault};
pub use sinks::{Sink, SinkFault};
pub use std_sink::StdSink;
pub use taps::{Tap, Totals};
