//! Joins by each shuffle: where equal numbers meet, what the taps are told, and what a refusal
//! leaves.
use crate::locals::{Noting, Refusing};
use crate::numbers::{Numbers, blank_taps, join_numbers, settings};
use algebra::{JoinFault, LocalJoin, ShuffleKind};
use rel_base::Spread;
use rel_io::{CountTap, Tap, Totals};
use std::alloc::Global;
use std::sync::Wait;
use std::thread::Threads;

pub(crate) const FOUR: Numbers = Numbers {
    first: &[0, 1, 2, 3],
    second: &[0, 1, 2, 3],
};

const SEVENS: Numbers = Numbers {
    first: &[7, 7, 7],
    second: &[7, 7],
};

/// By each shuffle: how many combinations of the four numbers two workers look at, how many rows
/// each receives, and how many it lists.
const MEETINGS: [(ShuffleKind, u64, [u64; 2], [u64; 2]); 3] = [
    (ShuffleKind::Hc, 10, [2, 6], [1, 3]),
    (ShuffleKind::Rs, 8, [4, 4], [2, 2]),
    (ShuffleKind::Br, 16, [4, 4], [2, 2]),
];

/// By each shuffle: how many rows each of two workers receives where the one that has the number 3
/// finds no memory. Then no tap is told of rows that were listed, of the other worker neither.
const REFUSALS: [(ShuffleKind, [u64; 2]); 3] = [
    (ShuffleKind::Hc, [2, 6]),
    (ShuffleKind::Rs, [4, 4]),
    (ShuffleKind::Br, [4, 4]),
];

/// How many rows all workers have.
pub(crate) fn size_of(parts: &Spread) -> u64 {
    let mut size = 0u64;
    for rows in parts.as_slice() {
        size = size.saturating_add(u64::from(rows.len()));
    }
    size
}

/// The sums of the taps of two workers.
pub(crate) fn sums_of_two(taps: &[CountTap]) -> Option<[Totals; 4]> {
    match taps {
        [first, second, third, fourth] => Some([
            first.totals(),
            second.totals(),
            third.totals(),
            fourth.totals(),
        ]),
        _ => None,
    }
}

/// So many rows sent, received and listed.
fn sums(sent: u64, got: u64, listed: u64) -> Totals {
    Totals { sent, got, listed }
}

/// What the taps of two workers are told where each sends so many rows.
pub(crate) fn told(sent: u64, received: [u64; 2], listed: [u64; 2]) -> [Totals; 4] {
    let [first_got, second_got] = received;
    let [first_listed, second_listed] = listed;
    [
        sums(sent, 0, 0),
        sums(0, first_got, first_listed),
        sums(sent, 0, 0),
        sums(0, second_got, second_listed),
    ]
}

/// The four numbers joined at two workers: how many rows there are, and what the taps were told.
fn four_at_two<R: Threads + Wait + Sync, J: LocalJoin + Sync>(
    rt: &R,
    alloc: Global,
    shuffle: ShuffleKind,
    local: &J,
) -> (Result<u64, JoinFault>, Option<[Totals; 4]>) {
    let (Some(settings), Ok(taps)) = (settings(2, 4, 256, shuffle), blank_taps(alloc, 4)) else {
        return (Err(JoinFault::TooManyRows), None);
    };
    let mut taps = taps;
    let answer = join_numbers(rt, alloc, &settings, &FOUR, local, &mut taps);
    (
        answer.map(|parts| size_of(&parts)),
        sums_of_two(taps.as_slice()),
    )
}

/// The sevens joined at 64 workers, with room for one message and batches of one row.
fn sevens_at_many<R: Threads + Wait + Sync, J: LocalJoin + Sync>(
    rt: &R,
    alloc: Global,
    shuffle: ShuffleKind,
    local: &J,
) -> Result<u64, JoinFault> {
    let (Some(settings), Ok(taps)) = (settings(64, 1, 1, shuffle), blank_taps(alloc, 128)) else {
        return Err(JoinFault::TooManyRows);
    };
    let mut taps = taps;
    let parts = join_numbers(rt, alloc, &settings, &SEVENS, local, &mut taps)?;
    Ok(size_of(&parts))
}

#[test]
fn equal_numbers_meet(rt: HostRuntime) {
    for (shuffle, combinations, received, listed) in MEETINGS {
        let local = Noting::new();
        let (size, sums) = four_at_two(&rt, rt.alloc(), shuffle, &local);
        assert_eq!(rt; size, Ok(4), "{shuffle:?}");
        assert_eq!(rt; sums, Some(told(4, received, listed)), "{shuffle:?}");
        assert_eq!(rt; local.noted(), (2, combinations), "{shuffle:?}");
    }
}

#[test]
fn what_was_sent_was_received_where_a_worker_finds_no_memory(rt: HostRuntime) {
    for (shuffle, received) in REFUSALS {
        let (size, sums) = four_at_two(&rt, rt.alloc(), shuffle, &Refusing);
        assert_eq!(rt; size, Err(JoinFault::Memory), "{shuffle:?}");
        assert_eq!(rt; sums, Some(told(4, received, [0, 0])), "{shuffle:?}");
    }
}

#[test]
fn small_inboxes_of_many_workers_suffice(rt: HostRuntime) {
    for shuffle in [ShuffleKind::Hc, ShuffleKind::Rs, ShuffleKind::Br] {
        let local = Noting::new();
        let size = sevens_at_many(&rt, rt.alloc(), shuffle, &local);
        assert_eq!(rt; size, Ok(6), "{shuffle:?}");
        assert_eq!(rt; local.noted(), (64, 6), "{shuffle:?}");
    }
}
