//! The tokens of a script: cuts a text into words, numbers, strings and signs.
//!
//! Stands on `rel_base` for its list type and its one error of memory.
//!
//! Promises: `lex` answers the token list of the token rules, `tokens_of`, or the first fault with
//! its line. Each token of such a list is a slice of the text, of a byte or more: its bytes are
//! text again, those of a number write one below 2^63, and those of a string are two quotes with
//! text between them (`tokens_are_slices`). Not promised: that memory is there.
//!
//! Read `specs/Tokens.antt` and `specs/Slices.antt`, then `cutting.rt`.
#![tactic(auto)]

mod cutting;
mod faults;
mod front;
mod kinds;
mod laws;

pub use cutting::lex;
pub use faults::{LexFault, LexWhat};
pub use kinds::{Sign, Token, TokenKind, Tokens};
pub use laws::tokens_are_slices;
