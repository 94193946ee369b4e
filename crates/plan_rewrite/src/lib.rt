//! Rewriting of checked scripts: steps that no store needs are left out, and what is said of the
//! columns of one atom alone is tested before its rows are joined.
//!
//! Stands on `rel_base` and `myrial_ast` for lists and scalars, and on `algebra` for steps, shapes
//! and what they mean. Nothing here looks at rows, reads or waits.
//!
//! Promises: `rewrite` gives a script that is rewritten as `IsRewritten` of `algebra`
//! (`specs/Rewriting.antt`) says: exactly the needed steps, each of the same kind and over the
//! same sources, and each join with the candidates, kept rows and prefixes that it had, and with
//! keeps that hold of exactly the kept rows. It takes any script. Not promised: that memory is
//! there.
//!
//! Read `specs/Rewriting.antt` of `algebra`, then `rewriting.rt` and `pushing.rt`.
#![tactic(auto)]

mod places;
mod pushing;
mod rewriting;
mod spans;

pub use rewriting::{Planned, is_last_use, rewrite};
