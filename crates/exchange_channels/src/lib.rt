//! The exchange: inboxes through which threads hand batches of rows to each other.
//!
//! Stands on `crossbeam_channel` for bounded channels under a rule, on `atomic_table` for the
//! steps of a pass, on `shuffle_core` for what an inbox is, on `rel_io` for taps and on `rel_base`
//! for rows and lists. Needs `Wait` where a call may wait for another thread; it starts none.
//!
//! A wiring has a cell for each receiver and a number of senders. Each cell's inbox is one channel
//! with a rule of its own: what waits in the channel, what each sender's pass has sent and what
//! the receiver's pass has got are those of one inbox, as `shuffle_core` defines it, whatever the
//! threads did.
//!
//! Promises: a send appends its batch to what its outlet sent to that cell, and `end` one end mark
//! to each cell's list; a drained cell has the end mark of each sender, and its batches are all
//! that it took, also told to its tap; once all ends are back, what each cell took is, of each
//! sender, what the sender sent there, in its order, and nothing else. Ends may go to other
//! threads. Not promised: that a call which may wait returns, the order of two senders' batches,
//! that memory is there for `wire` and for what a cell keeps. Sends, end marks and the closing
//! take none.
//!
//! Read `specs/Wirings.antt` for what contracts see, `specs/inner/CellRule.antt` for the rule,
//! then `wiring.rt`, `outlets.rt`, `intakes.rt` and `closing.rt`.
#![tactic(auto)]

mod closing;
mod ends;
mod intakes;
mod laws;
mod messages;
mod outlets;
mod ports;
mod rule;
mod wiring;

pub use closing::{Receipt, Receipts, close};
pub use ends::{Ends, IntakeEnds, OutletEnds};
pub use intakes::{Intake, IntakeEnd};
pub use laws::{
    a_send_is_a_send, a_take_is_a_take, drained_rows_are_those_of_the_batches,
    numbered_inbox_is_an_inbox, what_a_cell_took_is_what_was_sent,
};
pub use messages::{Batch, Drained, Message};
pub use outlets::{Outlet, OutletEnd};
pub use wiring::{Intakes, Keep, Outlets, Wiring, wire};
