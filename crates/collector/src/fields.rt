//! The columns of a part whose values are ints, and how many binary digits these take.
//!
//! How fields are chosen decides about speed alone: a row is packed only where they have room for
//! it.
ghost use Rattle.std.specs.Prelude.{◌<◌};

use rel_base::{Memory, Rows, Value};
use std::alloc::Global;

/// Rows of more columns are not packed.
const MOST_FIELDS: usize = 8;

/// Where the ints of one column stand in a packed row.
#[derive(Clone, Copy)]
pub(crate) struct Field {
    /// The least int of the column, which is taken away from each.
    pub(crate) least: i64,
    /// How many binary digits the ints then have.
    pub(crate) digits: u32,
    ghost few: { digits < 64 },
}

/// The least and the greatest int of a column.
#[derive(Clone, Copy)]
struct Span {
    least: i64,
    greatest: i64,
}

impl Span {
    /// No int.
    const NONE: Span = Span {
        least: i64::MAX,
        greatest: i64::MIN,
    };

    /// The field with room for these ints; `None` where they take a whole machine word.
    fn field(self) -> Option<Field> {
        let digits = 64 - self.greatest.abs_diff(self.least).leading_zeros();
        if digits == 64 {
            return None;
        }
        Some(Field {
            least: self.least,
            digits,
        })
    }
}

/// The fields of the columns of a part; `None` where a value is no int, or rows differ in length.
pub(crate) fn fields_of(alloc: Global, part: &Rows) -> Result<Option<Vec<Field>>, Memory> {
    let Some(spans) = spans_of(alloc, part)? else {
        return Ok(None);
    };
    let mut fields = Vec::with_capacity(alloc, spans.len())?;
    for span in &spans {
        let Some(field) = span.field() else {
            return Ok(None);
        };
        fields.push(field)?;
    }
    Ok(Some(fields))
}

/// What the columns of a part have; `None` where a value is no int, or rows differ in length.
fn spans_of(alloc: Global, part: &Rows) -> Result<Option<Vec<Span>>, Memory> {
    if part.is_empty() {
        return Ok(None);
    }
    let width = part.get(0).len();
    if width > MOST_FIELDS {
        return Ok(None);
    }
    let mut spans = Vec::from_elem(alloc, Span::NONE, width)?;
    for row in part {
        if !widen(&mut spans, row) {
            return Ok(None);
        }
    }
    Ok(Some(spans))
}

/// Makes room for the ints of one row more; false where it has other values, or another length.
#[inline(always)]
fn widen(spans: &mut [Span], row: &[Value]) -> bool {
    if row.len() != spans.len() {
        return false;
    }
    for (span, value) in spans.iter_mut().zip(row) {
        let Value::Int(number) = value else {
            return false;
        };
        span.least = span.least.min(*number);
        span.greatest = span.greatest.max(*number);
    }
    true
}
