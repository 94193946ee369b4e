//! Values, rows, relations and keys: the data that every other crate speaks of.
//!
//! Stands on std alone. Nothing here reads, writes or waits.
//!
//! Promises: values and rows are ordered by `value_order` and `row_order`; a copy equals its
//! original; a relation's rows always have its columns' types. A list is seen by contracts as the
//! list of its items, and `Steps` as the number of steps that were counted in its ledger. Lists of
//! rows share blocks of rows: what copies, views, sorts and puts together copies no row that is
//! shared. Rows of a block stand value after value, and a row is lent as a slice of its values.
//! Not promised: that memory is there. `Memory` is the one error of this crate, and no clause says
//! when it comes; what the faults of a run mean is said where scripts are run.
//!
//! Read `specs/Values.antt`, `specs/Bags.antt` and `specs/Relations.antt`, then `list.rt` and
//! `rows.rt`.
#![tactic(auto)]

mod beginnings;
mod blocks;
mod codes;
mod copying;
mod counting;
mod failure;
mod faults;
mod flat_rows;
mod limits;
mod list;
mod names;
mod relations;
mod row_iter;
mod row_sources;
mod row_values;
mod rows;
mod shared_rows;
mod short_texts;
mod sort_keys;
mod stretches;
mod strides;
mod texts;
mod tuples;
mod values;

pub use beginnings::{LedRow, led_row};
pub use codes::mixed_with;
pub use copying::Duplicate;
pub use counting::Steps;
pub use failure::Memory;
pub use faults::RunFault;
pub use limits::{
    MOST_BATCH, MOST_CAPACITY, MOST_COLUMNS, MOST_ITEMS, MOST_NESTING, MOST_PIECES,
    MOST_RELATION_BYTES, MOST_ROWS, MOST_SCRIPT_BYTES, MOST_TOKENS, MOST_VARIABLES, MOST_WORKERS,
    TAPS, limits_are_as_defined,
};
pub use list::{Items, Places};
pub use names::{Files, Key, Keys, Stored};
pub use relations::{Column, Parts, Relation, Schema, Spread, sorted_permutation_is_unique};
pub use row_iter::RowIter;
pub use row_sources::RowSource;
pub use rows::Rows;
pub use sort_keys::sort_key;
pub use texts::Text;
pub use tuples::Row;
pub use values::{ColType, Value};
