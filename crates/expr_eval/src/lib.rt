//! The evaluation of scalars on rows.
//!
//! Stands on `rel_base` for values and rows and on `myrial_ast` for scalars and their exact
//! values. Nothing here reads, writes or waits.
//!
//! Promises: `eval` and `holds` give the exact value where every number that a part makes lies in
//! 64 bits, and an overflow exactly where one doesn't; every part is evaluated, also under `and`
//! and `or`. Inside, strings are lent: memory is asked for where the result is a string, and
//! nowhere else. Scalars need not be typed: a number counts as 0, and a truth as false, where the
//! value is of another type, and so does a column past the end of the row, as their definition
//! says. Not promised: that memory is there.
//!
//! The row may be anything that lends values by place, a `RowView`, as one row, rows side by side,
//! none of which is copied, or machine words that stand for values.
//!
//! Read `specs/Lent.antt`, then `lent_values.rt`, `views.rt` and `evaluating.rt`.
#![tactic(auto)]

mod evaluating;
mod lent_values;
mod lists;
mod operands;
mod views;

pub use evaluating::{EvalFault, Overflow, eval, holds};
pub use lent_values::Lent;
pub use lists::{all_hold, emit, plain_hold};
pub use views::{RowView, SideBySide};
