//! Numbers that rows are packed into, side by side, so that they are sorted as the rows are.
//!
//! Stands on nothing but std. Nothing here takes memory, reads, writes or waits.
//!
//! Promises: a `Number`, of one or of two machine words, takes binary digits behind those that it
//! has, and gives digits back from where they stand; numbers compare as what they are. A law says
//! that they compare first by the digits in front and then by those behind.
//!
//! Read `numbers.rt`.
#![tactic(auto)]

mod numbers;

pub use numbers::Number;
