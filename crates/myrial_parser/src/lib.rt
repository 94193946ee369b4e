//! The parser: reads the tokens of a script as its statements.
//!
//! Stands on `myrial_lexer` for tokens and on `myrial_ast` for trees.
//!
//! Promises: `parse` answers the script whose pieces read so by the grammar, `Reads`, or the first
//! fault of the first piece that has one. A script has one of these alone
//! (`a_script_has_one_reading`), so each comes exactly where it is so, want of memory aside. Not
//! promised: that memory is there, and how long it takes.
//!
//! Read `specs/Terminals.antt`, `specs/Grammar.antt` and `specs/Pieces.antt`, then `scripts.rt`.
#![tactic(auto)]

mod cursor;
mod expressions;
mod faults;
mod laws;
mod limits;
mod loads;
mod relations;
mod scripts;
mod separated;
mod terminals;

pub use faults::{ParseFault, What};
pub use laws::{a_piece_has_one_statement, a_script_has_one_reading, an_expression_has_one_tree};
pub use scripts::parse;
