//! Why tokens are no script.
ghost use Rattle.std.specs.Prelude.{◌≡◌};
ghost use Rattle.myrial_parser.specs.declared.faults.ParseFault.TheVariants.{Memory as NoRoom};
ghost use Rattle.myrial_parser.specs.declared.faults.Refusal.TheVariants.{Memory as OutOfMemory};

use rel_base::Memory;
use std::error::Error;
use std::fmt;

/// What a piece of a script has too many of.
#[derive(Clone, Copy, Debug, PartialEq, Eq)]
pub enum What {
    /// The piece is one past the most pieces of a script.
    Statements,
    /// Tokens of a piece.
    Tokens,
    /// Parentheses that are open at one place.
    Nesting,
    /// Items of a comprehension.
    FromItems,
    /// Emit items of a comprehension, or columns of `empty`.
    Columns,
}

/// Why `parse` gives no script. Statements are numbered from 1, empty ones too.
#[derive(Clone, Copy, Debug, PartialEq, Eq)]
pub enum ParseFault {
    /// The piece isn't in the grammar.
    Syntax {
        /// The number of the piece.
        statement: u32,
    },
    /// A limit is passed.
    TooMany {
        /// The number of the piece.
        statement: u32,
        /// What there are too many of.
        what: What,
    },
    /// Memory was refused.
    Memory,
}

/// Why a rule of the grammar reads nothing.
#[derive(Clone, Copy, Debug, PartialEq, Eq)]
pub enum Refusal {
    /// The terminals ahead aren't such a phrase.
    Syntax,
    /// Memory was refused.
    Memory,
}

impl From<Memory> for Refusal {
    ghost from_gives = { λ _ refusal. refusal ≡ OutOfMemory };

    fn from(_refused: Memory) -> Refusal {
        Refusal::Memory
    }
}

impl From<Memory> for ParseFault {
    ghost from_gives = { λ _ fault. fault ≡ NoRoom };

    fn from(_refused: Memory) -> ParseFault {
        ParseFault::Memory
    }
}

impl fmt::Display for What {
    ghost use Rattle.std.specs.Prelude.{Some};
    ghost use Rattle.myrial_parser.specs.Faults.{what_text};

    ghost output = { λ what. Some (what_text what) };

    fn fmt<W: fmt::Write>(&self, f: &mut fmt::Formatter<W>) -> fmt::Result {
        f.write_str(match self {
            What::Statements => "statements",
            What::Tokens => "tokens",
            What::Nesting => "parentheses",
            What::FromItems => "items",
            What::Columns => "columns",
        })
    }
}

impl fmt::Display for ParseFault {
    ghost use Rattle.std.specs.Prelude.{Some};
    ghost use Rattle.myrial_parser.specs.Faults.{fault_text};

    ghost output = { λ fault. Some (fault_text fault) };

    fn fmt<W: fmt::Write>(&self, f: &mut fmt::Formatter<W>) -> fmt::Result {
        match self {
            ParseFault::Syntax { statement } => write!(f, "statement {statement}: syntax error"),
            ParseFault::TooMany { statement, what } => {
                write!(f, "statement {statement}: too many {what}")
            }
            ParseFault::Memory => f.write_str("out of memory"),
        }
    }
}

impl Error for ParseFault {}
