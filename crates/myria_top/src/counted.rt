//! The taps of a run.
ghost use Rattle.std.specs.Prelude.{◌≡◌, All, IfOk, vec_len};
ghost use Rattle.rel_io.specs.Taps.{no_rows};

use rel_base::{Memory, TAPS};
use rel_io::CountTap;
use std::alloc::Global;

/// As many taps as a run takes, with nothing counted.
pub fn fresh_taps(alloc: Global) -> Result<Vec<CountTap>, Memory>
    ensures count { IfOk result (λ taps. vec_len taps ≡ TAPS) }
    ensures fresh { IfOk result (λ taps. All (λ tap. tap.totals ≡ no_rows) taps.items) }
{
    let mut taps = Vec::with_capacity(alloc, TAPS)?;
    for _ in 0..TAPS {
        taps.push(CountTap::new())?;
    }
    Ok(taps)
}
