//! A tap that counts.
ghost use Rattle.std.specs.Prelude.{◌≡◌};
ghost use Rattle.rel_io.specs.Taps.{no_rows};

use crate::{Tap, Totals};
use std::marker::Model;

/// A tap that keeps its three sums, which start at 0, and the tag that it was made with.
#[derive(Debug, Default, Drop)]
pub struct CountTap {
    tag: u32,
    totals: Totals,
}

impl Model for CountTap {
    ghost use Rattle.rel_io.specs.Taps.{CountingTap};

    ghost Value = { CountingTap };

    ghost view = { λ t. record { tag = t.tag; totals = t.totals } };
}

impl CountTap {
    /// A tap of tag 0 that has counted nothing.
    pub fn new() -> CountTap
        ensures { result ≡ record { tag = 0; totals = no_rows } }
    {
        CountTap::with_tag(0)
    }

    /// A tap of this tag that has counted nothing.
    pub fn with_tag(tag: u32) -> CountTap
        ensures { result ≡ record { tag = tag; totals = no_rows } }
    {
        CountTap {
            tag,
            totals: Totals::default(),
        }
    }
}

impl Tap for CountTap {
    ghost tag = { λ t. t.tag };

    ghost totals = { λ t. t.totals };

    fn sent(&mut self, rows: u64) {
        self.totals.sent = self.totals.sent.saturating_add(rows);
    }

    fn got(&mut self, rows: u64) {
        self.totals.got = self.totals.got.saturating_add(rows);
    }

    fn listed(&mut self, rows: u64) {
        self.totals.listed = self.totals.listed.saturating_add(rows);
    }

    fn totals(&self) -> Totals {
        self.totals
    }
}
