//! Parts that are equal, so that each is encoded once.
ghost use Rattle.std.specs.Prelude.{◌≡◌, ◌<◌, ◌++◌, ◌∷◌, [], List, ℕ, IfOk, IfSome, OnOk, length, slice_index, slice_index_or};
ghost use Rattle.rel_base.specs.declared.values.Value.{Value as Datum};
ghost use Rattle.word_table.specs.inner.Unlike.{parts_in, AreUnlike};

use rel_base::{Memory, Rows};
use std::alloc::Global;

/// The parts that are like none before them, and which of these each part is.
///
/// A join of a relation with itself has equal parts where no row moves, as at one worker.
pub(crate) struct UnlikeParts<'a> {
    pub(crate) parts: Vec<&'a Rows>,
    /// The number of columns of each.
    pub(crate) widths: Vec<u32>,
    /// For each of all parts the place of the one that it is like.
    pub(crate) places: Vec<usize>,
}

// Written out, since a derived drop is proved anew at each place where a value is let go.
impl<'a> Drop for UnlikeParts<'a> {
    fn drop(self) {
        let UnlikeParts {
            parts: _,
            widths: _,
            places: _,
        } = self;
    }
}

impl<'a> UnlikeParts<'a> {
    /// Of parts whose rows have so many columns each.
    pub(crate) fn of(
        alloc: Global,
        parts: &'a [Rows],
        widths: &[u32],
    ) -> Result<UnlikeParts<'a>, Memory>
        requires { length widths.now ≡ length parts.now }
        ensures { IfOk result (λ made. AreUnlike parts.entry.now widths.now
            (parts_in made.parts.items) made.widths.items made.places.items) }
    {
        let mut unlike = UnlikeParts {
            parts: Vec::new(alloc),
            widths: Vec::new(alloc),
            places: Vec::with_capacity(alloc, parts.len())?,
        };
        for place in 0..parts.len() {
            unlike.add(&parts[place], widths[place])?;
        }
        Ok(unlike)
    }

    /// Adds a part.
    fn add(&mut self, rows: &'a Rows, width: u32) -> Result<(), Memory>
        ensures { OnOk result ((parts : List (List (List Datum))) (widths : List ℕ)
            → AreUnlike parts widths
            (parts_in self.old.parts.items) self.old.widths.items self.old.places.items
            → AreUnlike (parts ++ rows.now ∷ []) (widths ++ width ∷ [])
            (parts_in self.new.parts.items) self.new.widths.items self.new.places.items) }
    {
        if let Some(place) = self.place_of(rows, width) {
            self.places.push(place)?;
            return Ok(());
        }
        self.places.push(self.parts.len())?;
        self.parts.push(rows)?;
        self.widths.push(width)?;
        Ok(())
    }

    /// The place of a part that is like this one.
    fn place_of(&self, rows: &Rows, width: u32) -> Option<usize>
        ensures within { IfSome result (λ place. place < length (parts_in self.now.parts.items)) }
        ensures rows { IfSome result (λ place.
            slice_index_or (parts_in self.now.parts.items) place [] ≡ rows.now) }
        ensures columns { IfSome result (λ place.
            slice_index self.now.widths.items place ≡ width) }
    {
        for place in 0..self.parts.len() {
            if self.widths.get(place) == Some(&width) && *self.parts[place] == *rows {
                return Some(place);
            }
        }
        None
    }
}
