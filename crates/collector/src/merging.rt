//! The merge of lists that are in order.
ghost use Rattle.std.specs.Prelude.{All, IfOk};
ghost use Rattle.collector.specs.inner.Merged.{IsAscending, IsMerged};

use itertools::Itertools;
use std::alloc::{AllocError, Global};

/// The items of all lists in ascending order. A lone list is given back as it is.
pub(crate) fn merge<T: Ord + Drop>(
    alloc: Global,
    mut lists: Vec<Vec<T>>,
) -> Result<Vec<T>, AllocError>
    requires { All (IsAscending T.cmp) lists.items }
    ensures { IfOk result (IsMerged T.cmp lists.items) }
{
    if lists.len() == 1
        && let Some(only) = lists.pop()
    {
        return Ok(only);
    }
    merge_heads(alloc, lists)
}

/// The items of all lists in ascending order: of the lists' heads the least, over and over.
fn merge_heads<T: Ord + Drop>(alloc: Global, lists: Vec<Vec<T>>) -> Result<Vec<T>, AllocError>
    requires { All (IsAscending T.cmp) lists.items }
    ensures { IfOk result (IsMerged T.cmp lists.items) }
{
    let mut all = Vec::with_capacity(alloc, room_for(&lists))?;
    let merged = lists.into_iter().kmerge(alloc)?;
    all.extend(merged)?;
    Ok(all)
}

/// How many items the lists have.
fn room_for<T>(lists: &[Vec<T>]) -> usize {
    lists
        .iter()
        .fold(0, |room: usize, list| room.saturating_add(list.len()))
}
