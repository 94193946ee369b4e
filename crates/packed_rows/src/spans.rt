//! What the columns of rows have, so that they may be packed.
use crate::columns::PackedColumn;
use crate::comparing::order_of;
use crate::emits::Emits;
use rel_base::{Memory, Rows, Value};
use std::alloc::Global;

/// How many rows of a list are looked at where columns are guessed.
const SAMPLED: u32 = 64;

/// What the values of a column are.
#[derive(Clone, Copy)]
pub enum Span {
    /// There is none.
    Nothing,
    /// Ints, of which these are the least and the greatest.
    Numbers(i64, i64),
    /// Booleans.
    Truths,
    /// Strings, or values of several types.
    Others,
}

impl Span {
    /// Adds one value more. Most numbers lie between those before, and change nothing.
    fn add(&mut self, value: &Value) {
        *self = match (*self, value) {
            (Span::Numbers(least, greatest), Value::Int(number)) => {
                if least <= *number && *number <= greatest {
                    return;
                }
                Span::Numbers(least.min(*number), greatest.max(*number))
            }
            (Span::Truths, Value::Bool(_)) => return,
            (Span::Nothing, Value::Int(number)) => Span::Numbers(*number, *number),
            (Span::Nothing, Value::Bool(_)) => Span::Truths,
            _ => Span::Others,
        };
    }

    /// The column of these values in the highest of so many bits that are left, where they take no
    /// more.
    pub fn column(self, left: u32) -> Option<PackedColumn> {
        match self {
            Span::Nothing => Some(PackedColumn::none()),
            Span::Numbers(least, greatest) => {
                PackedColumn::below(left, greatest.abs_diff(least), least, false)
            }
            Span::Truths => PackedColumn::below(left, 1, 0, true),
            Span::Others => None,
        }
    }

    /// How many bits the values take.
    fn bits(self) -> u32 {
        match self {
            Span::Numbers(least, greatest) => 64 - greatest.abs_diff(least).leading_zeros(),
            Span::Truths => 1,
            Span::Nothing | Span::Others => 0,
        }
    }

    /// These values and, where they are ints, as many more on both sides as so many further bits
    /// tell apart; none below 0 where there was none.
    fn widened(self, more: u32) -> Span {
        let Span::Numbers(least, greatest) = self else {
            return self;
        };
        let bits = self.bits().saturating_add(more).min(63);
        let farthest = i64::MAX >> (63 - bits);
        let room = farthest.saturating_sub(greatest.saturating_sub(least));
        let below = if least < 0 {
            room / 2
        } else {
            least.min(room / 2)
        };
        let above = room.saturating_sub(below);
        Span::Numbers(least.saturating_sub(below), greatest.saturating_add(above))
    }
}

/// A column of what rows emit.
#[derive(Clone, Copy)]
pub struct ScannedColumn {
    /// What its values are.
    pub span: Span,
    /// The place of a column that has the same value in each row; where none before it is known
    /// to, its own.
    pub twin: usize,
}

/// The first place of the value at a place of what a row emits.
fn first_place(emits: Emits<'_>, values: &[Value], place: usize) -> usize {
    for other in 0..place {
        if emits.value(values, other) == emits.value(values, place) {
            return other;
        }
    }
    place
}

/// The columns of what rows emit of which this is the first, as long as none is scanned.
fn columns_of(
    alloc: Global,
    emits: Emits<'_>,
    first: &[Value],
) -> Result<Vec<ScannedColumn>, Memory> {
    let width = emits.width(first);
    let mut columns = Vec::with_capacity(alloc, width)?;
    for place in 0..width {
        columns.push(ScannedColumn {
            span: Span::Nothing,
            twin: first_place(emits, first, place),
        })?;
    }
    Ok(columns)
}

/// Scans what one row more emits, and says whether a column may still be packed.
fn scan(columns: &mut [ScannedColumn], emits: Emits<'_>, values: &[Value]) -> bool {
    let mut may_pack = false;
    for (place, column) in columns.iter_mut().enumerate() {
        let Some(value) = emits.value(values, place) else {
            return false;
        };
        column.span.add(value);
        may_pack |= !matches!(column.span, Span::Others);
        if column.twin == place {
            continue;
        }
        match emits.value(values, column.twin) {
            Some(twin) if order_of(twin, value).is_eq() => {}
            _ => column.twin = place,
        }
    }
    may_pack
}

/// The columns of what the rows of both lists emit, as long as none is scanned; none where there is
/// no row.
fn unscanned_columns(
    alloc: Global,
    emits: Emits<'_>,
    rows: &Rows,
    others: &Rows,
) -> Result<Vec<ScannedColumn>, Memory> {
    let some = if rows.is_empty() { others } else { rows };
    if some.is_empty() {
        return Ok(Vec::new(alloc));
    }
    columns_of(alloc, emits, some.get(0))
}

/// The columns of what the rows of both lists emit; none where no column may be packed.
pub fn scanned_columns(
    alloc: Global,
    emits: Emits<'_>,
    rows: &Rows,
    others: &Rows,
) -> Result<Vec<ScannedColumn>, Memory> {
    let mut columns = unscanned_columns(alloc, emits, rows, others)?;
    if scan_all(&mut columns, emits, rows) && scan_all(&mut columns, emits, others) {
        Ok(columns)
    } else {
        Ok(Vec::new(alloc))
    }
}

/// Scans what more rows emit, and says whether a column may still be packed.
fn scan_all(columns: &mut [ScannedColumn], emits: Emits<'_>, rows: &Rows) -> bool {
    for row in rows {
        if !scan(columns, emits, row) {
            return false;
        }
    }
    true
}

/// The columns of what the rows of both lists emit, guessed from some of the rows; none where these
/// leave no bits of a word to widen columns by, or where no column may be packed.
///
/// A row that isn't looked at may have other values: the guess saves a pass where it is right.
pub fn guessed_columns(
    alloc: Global,
    emits: Emits<'_>,
    rows: &Rows,
    others: &Rows,
) -> Result<Vec<ScannedColumn>, Memory> {
    let mut columns = unscanned_columns(alloc, emits, rows, others)?;
    if scan_some(&mut columns, emits, rows)
        && scan_some(&mut columns, emits, others)
        && widen(&mut columns)
    {
        Ok(columns)
    } else {
        Ok(Vec::new(alloc))
    }
}

/// Scans what the first row emits, the last and some evenly between them, and says whether a column
/// may still be packed.
fn scan_some(columns: &mut [ScannedColumn], emits: Emits<'_>, rows: &Rows) -> bool {
    if rows.is_empty() {
        return true;
    }
    let last = rows.len() - 1;
    let step = last / (SAMPLED - 1) + 1;
    for place in (0..last).step_by(step as usize) {
        if !scan(columns, emits, rows.get(place)) {
            return false;
        }
    }
    scan(columns, emits, rows.get(last))
}

/// Widens each column of ints by an even share of the bits that are left in a word, and says
/// whether there is one.
fn widen(columns: &mut [ScannedColumn]) -> bool {
    let mut left: u32 = 64;
    let mut numbers: u32 = 0;
    for (place, column) in columns.iter().enumerate() {
        if column.twin == place {
            left = left.saturating_sub(column.span.bits());
            numbers = numbers.saturating_add(u32::from(matches!(column.span, Span::Numbers(..))));
        }
    }
    let more = left / numbers.max(1);
    for column in columns.iter_mut() {
        column.span = column.span.widened(more);
    }
    more > 0
}
