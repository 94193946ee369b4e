//! The rows of all workers, put in one order.
//!
//! Stands on `crew`, which sorts the parts side by side, on `itertools`, whose `kmerge` merges
//! them, on `packed_numbers` for rows of ints, and on `rel_base` for rows and their order. No row
//! is copied or moved: what is sorted and merged are references. `collect` is for callers that want
//! a list, and nothing here calls it.
//!
//! Promises: `sort_parts` gives the rows of all parts in ascending order, each where its part has
//! it, and `ranges` cuts them into ranges that follow one another, each of which gives its rows;
//! `collect` gives them as one list.
//! Not promised: that memory is there, that parts are sorted at once, that ranges have equally many
//! rows, and that `sort_parts` returns: it waits for its jobs.
//!
//! Ranges are merged one by one, so that jobs can merge some each, side by side, and references to
//! all rows need not stand in memory at once. A part that is in order takes no more than a look at
//! each row beside the next, as a join's does that lists in order. Only a part that isn't in order
//! takes sixteen bytes a row, for a list of references, and more while it is sorted: rows of ints
//! that are near enough to one another are packed into numbers of eight or sixteen bytes, each in
//! front of its place, and any others stand beside numbers that mostly tell how they compare, in
//! 32 bytes. So a sort doesn't look for rows all over the memory. A list of shared rows at places
//! would need a stretch, of forty bytes and places of its own, for each run of rows of one block.
//!
//! Read `collecting.rt`, then `parts.rt`, `packing.rt`, `keys.rt`, `ranges.rt`, `rests.rt` and
//! `merging.rt`.
#![tactic(auto)]

mod collecting;
mod fields;
mod keys;
mod merging;
mod packing;
mod parts;
mod ranges;
mod rests;
mod runs;
mod sorting;

pub use collecting::{SortedRows, collect, sort_parts};
pub use ranges::RowRange;
