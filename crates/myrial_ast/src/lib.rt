//! The syntax trees of the language: expressions, relation expressions and statements.
//!
//! Stands on `rel_base` for texts, values, schemas and keys. Nothing here reads text or gives a
//! tree a meaning.
//!
//! Promises: a copy has the tree of its original. Contracts see an expression by `tree_of`, the
//! tree without the places in memory where its nodes lie. Not promised: that memory is there.
//!
//! Read `specs/Trees.antt`, then `expressions.rt` and `relations.rt`.
#![tactic(auto)]

mod expressions;
mod laws;
mod operators;
mod relations;
mod scalars;
mod statements;

pub use expressions::{ColRef, Expr};
pub use laws::linked_columns_share_a_class;
pub use operators::{AggOp, BinOp};
pub use relations::{EmitItem, EmitItems, FromItem, FromItems, LoadForm, Operand, RelExpr};
pub use scalars::{Scalar, Scalars};
pub use statements::{Script, Stmt};
