//! Rows packed in words: each in one word of 64 bits, where the ranges of its columns allow it.
//!
//! Stands on `rel_base` for rows, on `myrial_ast` for scalars and for what bags are, and on
//! `bag_laws` for their laws. Nothing here reads, writes or waits. What is packed of a row is what
//! it emits: all of its values, or those of picks, which are columns and literals. The columns of a
//! word are scanned or guessed from the rows, ints and booleans alone; those of a key stand in the
//! highest bits, so that the words in order are mostly the rows in the order of their keys.
//!
//! Promises: a word is taken only where it gives the values of its row back, so words are read in
//! the place of rows; two words compare as their rows do, and the words that have the row of the
//! first are counted. `PackedRows` is each row of a list once, `PackedOperands` gives the rows of
//! one list that another doesn't have; both are made only where the words in order have the rows in
//! order. Not promised: that memory is there, nor which columns are chosen, and so whether rows are
//! packed. That decides about speed alone: where there is no word, callers go by the rows.
//!
//! Read `specs/Unpacked.antt`, `specs/Emitted.antt` and `specs/Runs.antt`, then `columns.rt`,
//! `packing.rt` and `word_runs.rt`; `distinct_rows.rt` and `packed_bags.rt` have the operators.
#![tactic(auto)]

mod columns;
mod comparing;
mod distinct_rows;
mod emits;
mod packed_bags;
mod packing;
mod spans;
mod twin_columns;
pub mod word_runs;

pub use columns::PackedColumn;
pub use comparing::order_of;
pub use distinct_rows::PackedRows;
pub use emits::Emits;
pub use packed_bags::PackedOperands;
pub use packing::{key_columns, packed_columns, sorted_words};
pub use spans::{ScannedColumn, guessed_columns, scanned_columns};
