//! The faults of typing.
use rel_base::Memory;
use std::error::Error;
use std::fmt;

/// What is wrong with a statement that isn't typed. Where it has several kinds, the first in this
/// order is told.
#[derive(Clone, Copy, Debug, PartialEq, Eq)]
pub enum TypeKind {
    /// An operand or a stored name isn't assigned earlier, or the name before a `.` is no alias.
    UnknownRelation,
    /// A reference finds no column.
    UnknownColumn,
    /// A reference finds two columns or more, or two items have one alias.
    AmbiguousColumn,
    /// A part has another type than it needs.
    TypeMismatch,
    /// An aggregate is no whole emit item.
    Misplaced,
    /// There are too many output columns or join variables.
    Limit,
    /// A file is loaded in another form than before.
    LoadConflict,
}

/// Why a script isn't typed.
#[derive(Clone, Copy, Debug, PartialEq, Eq)]
pub enum TypeFault {
    /// The first statement that isn't typed.
    At {
        /// The number of the statement, from 1.
        statement: u32,
        /// What is wrong with it.
        kind: TypeKind,
    },
    /// Memory was refused.
    Memory,
}

/// The kind in words, as `unknown relation`.
impl fmt::Display for TypeKind {
    ghost use Rattle.std.specs.Prelude.{Some};
    ghost use Rattle.myrial_types.specs.Faults.{kind_text};

    ghost output = { λ kind. Some (kind_text kind) };

    fn fmt<W: fmt::Write>(&self, f: &mut fmt::Formatter<W>) -> fmt::Result {
        f.write_str(match self {
            TypeKind::UnknownRelation => "unknown relation",
            TypeKind::UnknownColumn => "unknown column",
            TypeKind::AmbiguousColumn => "ambiguous column",
            TypeKind::TypeMismatch => "type mismatch",
            TypeKind::Misplaced => "misplaced aggregate",
            TypeKind::Limit => "limit",
            TypeKind::LoadConflict => "load conflict",
        })
    }
}

/// The fault in words, as `statement 2: load conflict`.
impl fmt::Display for TypeFault {
    ghost use Rattle.std.specs.Prelude.{Some};
    ghost use Rattle.myrial_types.specs.Faults.{fault_text};

    ghost output = { λ fault. Some (fault_text fault) };

    fn fmt<W: fmt::Write>(&self, f: &mut fmt::Formatter<W>) -> fmt::Result {
        match self {
            TypeFault::At { statement, kind } => write!(f, "statement {statement}: {kind}"),
            TypeFault::Memory => f.write_str("out of memory"),
        }
    }
}

impl Error for TypeFault {}

impl From<Memory> for TypeFault {
    ghost use Rattle.std.specs.Prelude.{◌≡◌};
    ghost use Rattle.myrial_types.specs.declared.faults.TypeFault.TheVariants as fault;

    ghost from_gives = { λ _ given. given ≡ fault.Memory };

    fn from(_refused: Memory) -> TypeFault {
        TypeFault::Memory
    }
}
