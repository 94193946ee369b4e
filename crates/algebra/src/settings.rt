//! The settings of a run.
ghost use Rattle.std.specs.Prelude.{◌≡◌, ◌≤◌, ◌↔◌, IsSome, IfSome};
ghost use Rattle.rel_base.specs.Limits.{most_workers, most_capacity, most_batch};

use rel_base::{MOST_BATCH, MOST_CAPACITY, MOST_WORKERS};

/// How the rows of a join's items meet.
#[derive(Clone, Copy, Debug, PartialEq, Eq)]
pub enum ShuffleKind {
    /// All items at once, by cells.
    Hc,
    /// Two items at a time, by keys.
    Rs,
    /// One item stays where it is, and the others go to all workers.
    Br,
}

/// How a worker joins what it has received.
#[derive(Clone, Copy, Debug, PartialEq, Eq)]
pub enum JoinKind {
    /// By sorted arrays.
    Tj,
    /// By hashes.
    Hj,
}

/// The settings of a run, which lie within their limits.
#[derive(Clone, Copy, Debug, PartialEq, Eq)]
pub struct Settings {
    /// The number of workers, 1 to 64.
    pub workers: u32,
    /// The messages that wait in a channel, 1 to 1,024.
    pub capacity: u32,
    /// The rows of a message, 1 to 4,096.
    pub batch: u32,
    /// The hash seed.
    pub seed: u64,
    /// How rows meet.
    pub shuffle: ShuffleKind,
    /// How a worker joins.
    pub local: JoinKind,
    /// Whether the rows that are in no answer go before a join sends any.
    pub reduce: bool,
    pub ghost workers_in_range: { (1 ≤ workers) × (workers ≤ most_workers) },
    pub ghost capacity_in_range: { (1 ≤ capacity) × (capacity ≤ most_capacity) },
    pub ghost batch_in_range: { (1 ≤ batch) × (batch ≤ most_batch) },
}

impl Settings {
    /// The settings with these numbers, where each lies within its limits.
    pub fn new(
        workers: u32,
        capacity: u32,
        batch: u32,
        seed: u64,
        shuffle: ShuffleKind,
        local: JoinKind,
        reduce: bool,
    ) -> Option<Settings>
        ensures numbers { IfSome result
            (λ s. (s.workers ≡ workers) × (s.capacity ≡ capacity) × (s.batch ≡ batch)) }
        ensures choices { IfSome result
            (λ s. (s.seed ≡ seed) × (s.shuffle ≡ shuffle) × (s.local ≡ local)
            × (s.reduce ≡ reduce)) }
        ensures within { IsSome result ↔ ((1 ≤ workers) × (workers ≤ most_workers)
            × (1 ≤ capacity) × (capacity ≤ most_capacity) × (1 ≤ batch) × (batch ≤ most_batch)) }
    {
        let within = (1..=MOST_WORKERS).contains(&workers)
            && (1..=MOST_CAPACITY).contains(&capacity)
            && (1..=MOST_BATCH).contains(&batch);
        if !within {
            return None;
        }
        Some(Settings {
            workers,
            capacity,
            batch,
            seed,
            shuffle,
            local,
            reduce,
        })
    }
}
