//! The scope of comprehensions: what their references mean, and what they emit.
//!
//! Stands on `rel_base` for schemas and on `myrial_ast` for trees and scalars. Nothing here looks
//! at rows. Who runs a comprehension and who gives it types resolve its names here, once, and see
//! no name behind that.
//!
//! Promises: a reference means no column, one or several by the places that it may mean; a
//! comprehension is resolved exactly where each of its references means one column, and then its
//! conjuncts and emitted columns are those of the definitions, with places in place of names. Not
//! promised: that memory is there.
//!
//! Read `specs/Scopes.antt`, `specs/Meanings.antt` and `specs/Emits.antt`, then `scopes.rt` and
//! `comprehensions.rt`.
#![tactic(auto)]

mod comprehensions;
mod conjuncts;
mod emits;
mod items;
mod meanings;
mod scalars;
mod scopes;

pub use comprehensions::Comprehension;
pub use emits::EmittedColumn;
pub use items::{ItemSchema, has_doubled_alias, is_alias};
pub use meanings::Meaning;
pub use scopes::Scope;
