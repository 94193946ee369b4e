//! A key of all columns.
ghost use Rattle.std.specs.Prelude.{◌≡◌, IfOk};
ghost use Rattle.std.specs.List.{range_with_len};

use rel_base::{Memory, Places};
use std::alloc::Global;

/// The places of all columns of a row.
pub(crate) fn all_columns(alloc: Global, width: u32) -> Result<Places, Memory>
    ensures { IfOk result (λ made. made ≡ range_with_len 0 width) }
{
    let mut made = Places::with_capacity(alloc, width)?;
    for column in 0..width {
        made.push(column)?;
    }
    Ok(made)
}
