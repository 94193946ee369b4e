//! Taps: where the rows that a worker sends, receives and lists are counted.
ghost use Rattle.std.specs.Prelude.{◌≡◌, ℕ};
ghost use Rattle.rel_io.specs.declared.taps.Totals.{Totals as Sums};
ghost use Rattle.rel_io.specs.Taps.{with_sent, with_got, with_listed};

/// Numbers of rows. Each stops at 18,446,744,073,709,551,615.
#[derive(Clone, Copy, Debug, Default, PartialEq, Eq, Hash)]
pub struct Totals {
    /// Rows that were handed over to other workers, or to the worker itself.
    pub sent: u64,
    /// Rows that were taken from an inbox.
    pub got: u64,
    /// Rows that were listed as a result.
    pub listed: u64,
}

/// Counts rows. Each of its three sums stops at 18,446,744,073,709,551,615.
///
/// A tap has a tag, which no call changes, so that contracts can tell taps apart whatever they
/// have counted.
pub trait Tap {
    // What tells the tap from others.
    ghost tag: { Self → ℕ };

    // The three sums.
    ghost totals: { Self → Sums };

    /// Adds to the rows sent.
    fn sent(&mut self, rows: u64)
        ensures totals { totals self.new ≡ with_sent (totals self.old) rows }
        ensures tag { tag self.new ≡ tag self.old };

    /// Adds to the rows received.
    fn got(&mut self, rows: u64)
        ensures totals { totals self.new ≡ with_got (totals self.old) rows }
        ensures tag { tag self.new ≡ tag self.old };

    /// Adds to the rows listed.
    fn listed(&mut self, rows: u64)
        ensures totals { totals self.new ≡ with_listed (totals self.old) rows }
        ensures tag { tag self.new ≡ tag self.old };

    /// The three sums.
    fn totals(&self) -> Totals
        ensures { result ≡ totals self.now };
}
