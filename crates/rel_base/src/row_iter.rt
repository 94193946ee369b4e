//! Rows one by one.
ghost use Rattle.std.specs.Prelude.{◌≡◌, ◌∷◌, ◌++◌, ◌<◌, [], length, All, IfSome, IfNone};
ghost use Rattle.std.specs.Iterator.{YieldsFirstRef, item_count};
ghost use Rattle.rel_base.specs.Picks.{items_at, joined};

use crate::Value;
use crate::blocks::Block;
use crate::flat_rows::RowRun;
use crate::stretches::Stretch;
use std::marker::Model;
use std::mem;

/// The rows of a stretch that are left.
#[derive(Drop)]
pub enum StretchIter<'a> {
    /// Rows a fixed distance apart.
    Apart(RowRun<'a>),
    /// Rows at any places.
    At(PlacedRows<'a>),
}

/// The rows at places of a block that are left. Contracts see the list of these rows.
#[derive(Drop)]
pub struct PlacedRows<'a> {
    block: &'a Block,
    places: &'a [u32],
}

impl<'a> Model for PlacedRows<'a> {
    ghost use Rattle.std.specs.Prelude.{List, ◌<◌, length, All};
    ghost use Rattle.rel_base.specs.declared.values.Value.{Value as Datum};
    ghost use Rattle.rel_base.specs.Picks.{items_at};

    ghost Value = { List (List Datum) };

    ghost view = { λ p. items_at p.block.now p.places.now };

    ghost invariant = { λ p. All (λ place. place < length p.block.now) p.places.now };
}

impl<'a> PlacedRows<'a> {
    /// The rows of a block at these places.
    pub fn of(block: &'a Block, places: &'a [u32]) -> PlacedRows<'a>
        requires { All (λ place. place < length block.now) places.now }
        ensures { result ≡ items_at block.entry.now places.entry.now }
    {
        PlacedRows { block, places }
    }

    /// Takes the first row; `None` where none is left.
    fn take_first(&mut self) -> Option<&'a [Value]>
        ensures first { IfSome result (λ row. self.old ≡ row.now ∷ self.new) }
        ensures none { IfNone result (self.old ≡ []) }
        ensures over { IfNone result (self.new ≡ []) }
    {
        let (place, rest) = self.places.split_first()?;
        self.places = rest;
        Some(self.block.get(*place))
    }
}

/// The rows of a list that are left behind the run in hand.
#[derive(Drop)]
struct Behind<'a> {
    front: Option<PlacedRows<'a>>,
    stretches: &'a [Stretch],
    own: RowRun<'a>,
}

impl<'a> Model for Behind<'a> {
    ghost use Rattle.std.specs.Prelude.{List, ◌++◌, ◌<◌, length, All};
    ghost use Rattle.rel_base.specs.declared.values.Value.{Value as Datum};
    ghost use Rattle.rel_base.specs.Picks.{joined};
    ghost use Rattle.rel_base.specs.inner.Fronts.{front_rows};

    ghost Value = { List (List Datum) };

    ghost view = { λ b. front_rows b.front ++ joined b.stretches.now ++ b.own };

    ghost invariant = { λ b. All (λ s. 0 < length s) b.stretches.now };
}

impl<'a> Behind<'a> {
    /// Takes rows at the front that stand a fixed distance apart, at least one; `None` where no row
    /// is left.
    #[inline(never)]
    fn take_run(&mut self) -> Option<RowRun<'a>>
        ensures rows { IfSome result (λ run. self.old ≡ run ++ self.new) }
        ensures some { IfSome result (λ run. 0 < length run) }
        ensures none { IfNone result (self.old ≡ []) }
        ensures over { IfNone result (self.new ≡ []) }
    {
        let stretches = self.stretches;
        if let Some(rest) = &mut self.front {
            if let Some(row) = rest.take_first() {
                return Some(RowRun::of_one(row));
            }
            self.front = None;
        }
        let Some((stretch, rest)) = stretches.split_first() else {
            let own = mem::replace(&mut self.own, RowRun::empty());
            return own.some();
        };
        self.stretches = rest;
        match stretch.iter() {
            StretchIter::Apart(run) => Some(run),
            StretchIter::At(mut rows) => {
                let row = rows.take_first()?;
                self.front = Some(rows);
                Some(RowRun::of_one(row))
            }
        }
    }
}

/// The rows of a list that are left, which contracts see as the list of these rows. Rows that stand
/// a fixed distance apart are walked over without a look at their stretch, as the run.
#[derive(Drop)]
pub struct RowIter<'a> {
    run: RowRun<'a>,
    behind: Behind<'a>,
}

impl<'a> Model for RowIter<'a> {
    ghost use Rattle.std.specs.Prelude.{List, ◌++◌};
    ghost use Rattle.rel_base.specs.declared.values.Value.{Value as Datum};

    ghost Value = { List (List Datum) };

    ghost view = { λ it. it.run ++ it.behind };
}

impl<'a> RowIter<'a> {
    /// The rows of these stretches, and then these rows.
    pub(crate) fn of(stretches: &'a [Stretch], own: RowRun<'a>) -> RowIter<'a>
        requires { All (λ s. 0 < length s) stretches.now }
        ensures { result ≡ joined stretches.entry.now ++ own.entry }
    {
        RowIter {
            run: RowRun::empty(),
            behind: Behind {
                front: None,
                stretches,
                own,
            },
        }
    }
}

impl<'a> Iterator for RowIter<'a> {
    type Item = &'a [Value];

    ghost next_gives = { YieldsFirstRef (λ left. left) };

    ghost remaining = { item_count (λ left. left) };

    #[inline(always)]
    fn next(&mut self) -> Option<&'a [Value]> {
        if let Some(row) = self.run.take_first() {
            return Some(row);
        }
        let mut run = self.behind.take_run()?;
        let row = run.take_first()?;
        self.run = run;
        Some(row)
    }
}
