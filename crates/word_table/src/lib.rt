//! Flat words in place of values, under a dictionary that keeps their order.
//!
//! Stands on `rel_base`. Nothing here reads, writes or waits. A dictionary is built once over all
//! rows that are to be joined, and keeps their strings one behind another in one piece of memory,
//! from which it lends them; each value then has a word of 64 bits, and words of one type compare
//! as their values do. A table is rows of such words, in a flat list for each column, so that a
//! join compares numbers that stand side by side; it knows each column's least and greatest word.
//!
//! Promises: a dictionary has exactly the strings of the rows that it was built over, each once
//! and in byte order; a word is undone by `value`; a table has the words of its rows, in their
//! order; `encode` makes both for all parts of a join at once. Not promised: that memory is there,
//! nor anything of words of two types, which may coincide.
//!
//! Read `specs/Words.antt`, `specs/WordTables.antt` and `specs/Encodings.antt`, then
//! `dictionary.rt`, `tables.rt` and `encoding.rt`; `texts.rt` has how strings are kept.
#![tactic(auto)]

mod columns;
mod dictionary;
mod encoding;
mod gathering;
mod keyed;
mod numbering;
mod occurrences;
mod ranking;
mod shared_columns;
mod tables;
mod text_keys;
mod texts;
mod unlike;

pub use columns::WordRange;
pub use dictionary::{Dictionary, number_of_word, words_keep_order};
pub use encoding::{Encoded, encode};
pub use tables::Table;
