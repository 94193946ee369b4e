//! What is left of sorted parts while ranges are cut off their fronts.
ghost use Rattle.std.specs.Prelude.{◌≡◌, ◌≤◌, IfOk, length};
ghost use Rattle.collector.specs.inner.Cuts.{IsCutAt, IsPlaceOf};

use crate::parts::SortedPart;
use crate::runs::Run;
use rel_base::{Memory, Value};
use std::alloc::Global;
use std::marker::Model;

/// The rows of a sorted part from a place on. Contracts see the list of these rows.
#[derive(Drop)]
pub(crate) struct Rest<'s, 'a> {
    part: &'s SortedPart<'a>,
    from: u32,
}

impl<'s, 'a> Model for Rest<'s, 'a> {
    ghost use Rattle.std.specs.Prelude.{List, ◌≤◌, length, drop};
    ghost use Rattle.rel_base.specs.declared.values.Value.{Value as Datum};

    ghost Value = { List (List Datum) };

    ghost view = { λ r. drop r.from r.part.now };

    ghost invariant = { λ r. r.from ≤ length r.part.now };
}

impl<'s, 'a> Rest<'s, 'a> {
    /// All rows of a part.
    pub(crate) fn of(part: &'s SortedPart<'a>) -> Rest<'s, 'a>
        ensures { result ≡ part.entry.now }
    {
        Rest { part, from: 0 }
    }

    /// All rows that are left.
    pub(crate) fn all(self, alloc: Global) -> Result<Run<'s, 'a>, Memory>
        ensures { IfOk result (λ run. run ≡ self.entry) }
    {
        self.part.run(alloc, self.from, self.part.len())
    }

    /// The rows that stand before a row like this one, and what is then left.
    pub(crate) fn cut(
        self,
        alloc: Global,
        splitter: &[Value],
    ) -> Result<(Run<'s, 'a>, Rest<'s, 'a>), Memory>
        ensures { IfOk result (λ both. IsCutAt splitter.now self.entry both.0 both.1) }
    {
        let to = place_of(self.part, self.from, splitter);
        let front = self.part.run(alloc, self.from, to)?;
        Ok((
            front,
            Rest {
                part: self.part,
                from: to,
            },
        ))
    }
}

/// The place, from `from` on, of the first row of a part that doesn't stand before a row like this
/// one.
fn place_of(part: &SortedPart<'_>, from: u32, splitter: &[Value]) -> u32
    requires { from ≤ length part.now }
    ensures { IsPlaceOf splitter.now part.now from result }
{
    let mut low = from;
    let mut high = part.len();
    while low < high {
        let middle = low + (high - low) / 2;
        if part.get(middle).cmp(splitter).is_lt() {
            low = middle + 1;
        } else {
            high = middle;
        }
    }
    low
}
