//! Why a file is not read.
use rel_base::Memory;
use std::error::Error;
use std::fmt;

/// Why no relation was read from a file. The header is record 0, and later records count from 1;
/// fields and columns count from 1.
#[derive(Clone, Copy, Debug, PartialEq, Eq)]
pub enum RelFault {
    /// The file has no record.
    NoHeader,
    /// A record is not UTF-8.
    NotText {
        /// The number of the record.
        nth: u32,
    },
    /// The header has more fields than a relation may have columns.
    TooManyColumns,
    /// What stands behind the last colon of a header field names no type.
    BadHeader {
        /// The number of the field.
        field: u32,
    },
    /// A record has more fields than there are columns, or fewer.
    FieldCount {
        /// The number of the record.
        nth: u32,
    },
    /// A field under an int column writes no number in 64 bits.
    BadInt {
        /// The number of the record.
        nth: u32,
        /// The number of the column.
        column: u32,
    },
    /// A field under a boolean column writes no truth value.
    BadBool {
        /// The number of the record.
        nth: u32,
        /// The number of the column.
        column: u32,
    },
    /// There are more records than a relation may have rows.
    TooManyRows,
    /// Memory was refused.
    Memory,
}

/// The fault in words, as `record 3 column 1 is not an int`.
impl fmt::Display for RelFault {
    ghost use Rattle.std.specs.Prelude.{Some};
    ghost use Rattle.relation_csv.specs.Faults.{fault_text};

    ghost output = { λ fault. Some (fault_text fault) };

    fn fmt<W: fmt::Write>(&self, f: &mut fmt::Formatter<W>) -> fmt::Result {
        match self {
            RelFault::NoHeader => f.write_str("no header"),
            RelFault::NotText { nth } => write!(f, "record {nth} is not UTF-8"),
            RelFault::TooManyColumns => f.write_str("too many columns"),
            RelFault::BadHeader { field } => write!(f, "bad header field {field}"),
            RelFault::FieldCount { nth } => {
                write!(f, "record {nth} has a wrong number of fields")
            }
            RelFault::BadInt { nth, column } => {
                write!(f, "record {nth} column {column} is not an int")
            }
            RelFault::BadBool { nth, column } => {
                write!(f, "record {nth} column {column} is not a boolean")
            }
            RelFault::TooManyRows => f.write_str("too many rows"),
            RelFault::Memory => f.write_str("out of memory"),
        }
    }
}

impl Error for RelFault {}

impl From<Memory> for RelFault {
    ghost use Rattle.std.specs.Prelude.{◌≡◌};
    ghost use Rattle.relation_csv.specs.declared.faults.RelFault.TheVariants as fault;

    ghost from_gives = { λ _ result. result ≡ fault.Memory };

    fn from(_refused: Memory) -> RelFault {
        RelFault::Memory
    }
}
