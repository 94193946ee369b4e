//! Why a text has no tokens.
ghost use Rattle.std.specs.Prelude.{◌≡◌};
ghost use Rattle.myrial_lexer.specs.declared.faults.LexFault.TheVariants.{Memory as OutOfMemory};

use rel_base::Memory;
use std::error::Error;
use std::fmt;

/// What breaks the token rules at some place.
#[derive(Clone, Copy, Debug, PartialEq, Eq)]
pub enum LexWhat {
    /// A character outside strings and comments that starts no token.
    BadChar,
    /// The opening quote of a string that has no closing quote on its line.
    OpenString,
    /// A run of digits whose value is above 9,223,372,036,854,775,807.
    NumberTooLarge,
}

/// Why `lex` gives no tokens.
#[derive(Clone, Copy, Debug, PartialEq, Eq)]
pub enum LexFault {
    /// The bytes aren't UTF-8.
    NotText,
    /// The first place that breaks the token rules.
    At {
        /// The number of its line, from 1.
        line: u32,
        /// What stands there.
        what: LexWhat,
    },
    /// Memory was refused.
    Memory,
}

impl From<Memory> for LexFault {
    ghost from_gives = { λ _ fault. fault ≡ OutOfMemory };

    fn from(_refused: Memory) -> LexFault {
        LexFault::Memory
    }
}

impl fmt::Display for LexWhat {
    ghost use Rattle.std.specs.Prelude.{Some};
    ghost use Rattle.myrial_lexer.specs.Faults.{what_text};

    ghost output = { λ what. Some (what_text what) };

    fn fmt<W: fmt::Write>(&self, f: &mut fmt::Formatter<W>) -> fmt::Result {
        f.write_str(match self {
            LexWhat::BadChar => "unexpected character",
            LexWhat::OpenString => "string without end",
            LexWhat::NumberTooLarge => "number too large",
        })
    }
}

impl fmt::Display for LexFault {
    ghost use Rattle.std.specs.Prelude.{Some};
    ghost use Rattle.myrial_lexer.specs.Faults.{fault_text};

    ghost output = { λ fault. Some (fault_text fault) };

    fn fmt<W: fmt::Write>(&self, f: &mut fmt::Formatter<W>) -> fmt::Result {
        match self {
            LexFault::NotText => f.write_str("script is not UTF-8"),
            LexFault::At { line, what } => write!(f, "line {line}: {what}"),
            LexFault::Memory => f.write_str("out of memory"),
        }
    }
}

impl Error for LexFault {}
