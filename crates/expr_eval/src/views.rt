//! Rows as scalars see them: values by place.
ghost use Rattle.std.specs.Prelude.{◌≡◌, List, option_map};
ghost use Rattle.std.specs.List.{slice_get};
ghost use Rattle.rel_base.specs.declared.values.Value.{Value as Datum};
ghost use Rattle.expr_eval.specs.Lent.{value_of_lent};
ghost use Rattle.expr_eval.specs.SideBySide.{values_of};

use crate::Lent;
use rel_base::Value;

/// What has a value at each place, as a row has in its columns.
pub trait RowView {
    ghost values: { Self → List Datum };

    /// The value at a place, from 0; `None` past the end.
    fn column(&self, place: u32) -> Option<Lent<'_>>
        ensures { option_map value_of_lent result ≡ slice_get (values self.now) place };
}

impl<'a> RowView for &'a [Value] {
    ghost values = { λ row. row.now };

    #[inline]
    fn column(&self, place: u32) -> Option<Lent<'_>> {
        let value = self.get(place as usize)?;
        Some(Lent::of(value))
    }
}

/// Rows side by side, seen as the row of all their columns. None is copied.
#[derive(Clone, Copy)]
pub struct SideBySide<'a> {
    /// The rows, from left to right.
    pub rows: &'a [&'a [Value]],
}

impl<'a> RowView for SideBySide<'a> {
    ghost values = { λ s. values_of s.rows.now };

    fn column(&self, place: u32) -> Option<Lent<'_>> {
        column_of(self.rows, place)
    }
}

/// The value at a place of rows side by side.
fn column_of<'a>(rows: &'a [&'a [Value]], place: u32) -> Option<Lent<'a>>
    ensures { option_map value_of_lent result ≡ slice_get (values_of rows.entry.now) place }
{
    match rows {
        [] => None,
        [row, rest @ ..] => {
            if (place as usize) < row.len() {
                Some(Lent::of(&row[place as usize]))
            } else {
                column_of(rest, place - row.len() as u32)
            }
        }
    }
}
