//! Items whose numbers leave one remainder by a step.
ghost use Rattle.std.specs.Prelude.{◌≡◌, ℕ, ◌+◌, ◌*◌, ◌%◌, ◌^◌, ◌<◌, ◌≤◌, length, IfOk};
ghost use Rattle.rel_base.specs.Picks.{every_nth};

use crate::{Duplicate, Memory};
use std::alloc::Global;

/// How many places below a length leave the remainder `start` by the step.
pub fn steps_below(len: u32, step: u32, start: u32) -> u32
    requires { 0 < step }
    ensures enough { len ≤ start + step * result }
    ensures inside { (i : ℕ) → i < result → start + step * i < len }
{
    len.saturating_sub(start).div_ceil(step)
}

/// How many items more are passed, behind so many, up to the next whose number leaves the remainder
/// `start` by the step.
pub fn start_behind(passed: u32, step: u32, start: u32) -> u32
    requires { start < step }
    ensures low { result < step }
    ensures next { (passed + result) % step ≡ start }
{
    let over = passed % step;
    if over <= start {
        start - over
    } else {
        start + (step - over)
    }
}

/// Copies of the items whose number, from 0, leaves the remainder `start` by the step.
pub fn copies_apart<T: Duplicate + Drop>(
    alloc: Global,
    items: &[T],
    step: u32,
    start: u32,
) -> Result<Vec<T>, Memory>
    requires order { start < step }
    requires room { length items.now < 2 ^ 32 }
    ensures { IfOk result (λ made. made.items ≡ every_nth items.now step start) }
{
    let count = steps_below(items.len() as u32, step, start);
    let mut copies = Vec::with_capacity(alloc, count as usize)?;
    for i in 0..count {
        let copy = items[(start + step * i) as usize].copy(alloc)?;
        copies.push(copy)?;
    }
    Ok(copies)
}
