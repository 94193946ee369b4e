//! Sets of small numbers as bits.
//!
//! Stands on `rel_base` for the error of want of memory. Nothing here reads, writes or waits.
//!
//! Promises: a set of so many words has a bit for each number below 64 times as many, and for no
//! other; `insert` adds a number that has a bit, says whether it is new, and changes nothing else;
//! `find` tells whether a number is there. Neither takes memory. Not promised: that memory is there
//! for a set.
//!
//! Read `specs/Bits.antt`, then `bit_set.rt`.
#![tactic(auto)]

mod bit_set;

pub use bit_set::BitSet;
