//! The bounded inbox with end marks: what the exchange's channels are, as a machine of one thread.
//!
//! Stands on `rel_base` for `Memory` and `Items`. Nothing here reads, writes or waits.
//!
//! Promises: after every list of events the inbox keeps `IsInbox`, and once the end mark of each
//! sender was got, all that was sent was got, of each sender in its order. The answers are exactly
//! those of `answer_of`. Not promised: that memory is there.
//!
//! Read `specs/Inbox.antt`, which speaks of any type of posts, then `specs/Machine.antt` and
//! `machine.rt`.
#![tactic(auto)]

mod machine;
mod posts;

pub use machine::{Inbox, run};
pub use posts::{Event, Events, Post, Stepped};
