//! Local joins that are watched, and such as find no memory.
use algebra::{JoinShape, Listed, LocalJoin};
use hash_join::Hashed;
use rel_base::{Memory, Parts, Rows, Steps, Value};
use std::alloc::Global;
use std::sync::atomic::{AtomicU64, Ordering};
use std::sync::ledger::Ledger;

/// Joins through hash tables, and notes how often it was asked, and of how many combinations of
/// rows.
#[derive(Drop)]
pub(crate) struct Noting {
    pub(crate) calls: AtomicU64,
    pub(crate) combinations: AtomicU64,
}

impl Noting {
    /// One that was never asked.
    pub(crate) fn new() -> Noting {
        Noting {
            calls: AtomicU64::new(0),
            combinations: AtomicU64::new(0),
        }
    }

    /// How often it was asked, and of how many combinations.
    pub(crate) fn noted(&self) -> (u64, u64) {
        (
            self.calls.load(Ordering::SeqCst),
            self.combinations.load(Ordering::SeqCst),
        )
    }
}

impl LocalJoin for Noting {
    fn list<L: Ledger>(
        &self,
        alloc: Global,
        shape: &JoinShape,
        parts: &Parts,
        steps: &mut Steps<L>,
    ) -> Result<Listed, Memory> {
        let mut combinations = 1u64;
        for rows in parts.as_slice() {
            combinations = combinations.saturating_mul(u64::from(rows.len()));
        }
        self.calls.fetch_add(1, Ordering::SeqCst);
        self.combinations.fetch_add(combinations, Ordering::SeqCst);
        Hashed.list(alloc, shape, parts, steps)
    }
}

/// Joins through hash tables, and finds no memory where it is given the number 3.
#[derive(Clone, Copy)]
pub(crate) struct Refusing;

impl LocalJoin for Refusing {
    fn list<L: Ledger>(
        &self,
        alloc: Global,
        shape: &JoinShape,
        parts: &Parts,
        steps: &mut Steps<L>,
    ) -> Result<Listed, Memory> {
        for rows in parts.as_slice() {
            if has_three(rows) {
                return Err(Memory);
            }
        }
        Hashed.list(alloc, shape, parts, steps)
    }
}

/// Whether one of these rows begins with the number 3.
fn has_three(rows: &Rows) -> bool {
    for row in rows {
        if let [Value::Int(number), ..] = row {
            if *number == 3 {
                return true;
            }
        }
    }
    false
}
