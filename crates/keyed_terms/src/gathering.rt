//! What workers made, taken together.
ghost use Rattle.std.specs.Prelude.{◌≡◌, ◌<◌, ◌^◌, map, IfOk, IfErr, vec_len};
ghost use Rattle.keyed_terms.specs.inner.Making.{IsFaultOf};

use aggregate_ops::AggFault;
use rel_base::{Memory, Rows, Spread};
use std::alloc::Global;

/// What all workers made, where each found memory.
pub(crate) fn gather(alloc: Global, all: Vec<Result<Rows, Memory>>) -> Result<Spread, Memory>
    requires { vec_len all < 2 ^ 32 }
    ensures { IfOk result (λ made. map Ok made ≡ all.items) }
{
    let mut made = Spread::new(alloc);
    for one in all {
        made.push(one?)?;
    }
    Ok(made)
}

/// What all workers merged, or what was wrong at the first that had a fault.
pub(crate) fn gather_merged(
    alloc: Global,
    all: Vec<Result<Rows, AggFault>>,
) -> Result<Spread, AggFault>
    requires { vec_len all < 2 ^ 32 }
    ensures ok { IfOk result (λ made. map Ok made ≡ all.items) }
    ensures err { IfErr result (IsFaultOf all.items) }
{
    let mut made = Spread::new(alloc);
    for one in all {
        made.push(one?)?;
    }
    Ok(made)
}
