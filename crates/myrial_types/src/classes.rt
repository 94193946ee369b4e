//! Join variables: the classes of columns that equalities hold together.
ghost use Rattle.std.specs.Prelude.{◌≡◌, ◌==◌, ◌<◌, if◌then◌else◌, ◌++◌, ◌∷◌, [], IfOk, OnOk};
ghost use Rattle.std.specs.Prelude.{length, map, sum};
ghost use Rattle.std.specs.List.{range_with_len};
ghost use Rattle.myrial_ast.specs.Classes.{leader, variables};
ghost use Rattle.algebra.specs.ShapeLaws.{InRange};
ghost use Rattle.myrial_types.specs.inner.Leaders.{class_by, is_first_by, merged, variables_at};

use algebra::{Variables, joins_items};
use rel_base::{Memory, Places};
use std::alloc::Global;

/// Adds the places of so many further columns.
fn push_columns(width: u32, columns: &mut Vec<u32>) -> Result<(), Memory>
    ensures { OnOk result (columns.new.items
        ≡ columns.old.items ++ range_with_len (length columns.old.items) width) }
{
    for _nth in 0..width {
        let place = columns.as_slice().len();
        if u32::MAX as usize <= place {
            return Err(Memory);
        }
        columns.push(place as u32)?;
    }
    Ok(())
}

/// The places of all columns, in order.
fn all_columns(alloc: Global, widths: &[u32]) -> Result<Vec<u32>, Memory>
    ensures { IfOk result (λ made. made.items ≡ range_with_len 0 (sum widths.now)) }
{
    let mut columns = Vec::new(alloc);
    for width in widths {
        push_columns(*width, &mut columns)?;
    }
    Ok(columns)
}

/// A leader, where one of this name has a new one.
fn renamed(leader: u32, own: u32, new: u32) -> u32
    ensures { result ≡ (if leader == own then new else leader) }
{
    if leader == own { new } else { leader }
}

/// The leaders behind an equality, which puts the class of its second column under the leader of
/// its first.
fn merged(alloc: Global, leaders: &[u32], left: u32, right: u32) -> Result<Vec<u32>, Memory>
    requires left { left < length leaders.now }
    requires right { right < length leaders.now }
    ensures { IfOk result (λ made. made.items ≡ merged leaders.now left right) }
{
    let own = leaders[right as usize];
    let new = leaders[left as usize];
    let made = leaders
        .iter()
        .map(|leader| renamed(*leader, own, new))
        .collect(alloc)?;
    Ok(made)
}

/// One column for each class: that of each of so many columns.
fn leaders_of(alloc: Global, widths: &[u32], equalities: &[(u32, u32)]) -> Result<Vec<u32>, Memory>
    requires { InRange (sum widths.now) equalities.now }
    ensures { IfOk result (λ made. made.items
        ≡ map (leader equalities.now) (range_with_len 0 (sum widths.now))) }
{
    let mut leaders = all_columns(alloc, widths)?;
    for i in (0..equalities.len()).rev() {
        let (left, right) = equalities[i];
        leaders = merged(alloc, &leaders, left, right)?;
    }
    Ok(leaders)
}

/// Whether no smaller column has the leader of this one.
fn is_first(leaders: &[u32], column: usize) -> bool
    requires { column < length leaders.now }
    ensures { result ≡ is_first_by leaders.now column }
{
    for place in 0..column {
        if leaders[place] == leaders[column] {
            return false;
        }
    }
    true
}

/// Adds a place at the end.
fn push_place(place: usize, into: &mut Places) -> Result<(), Memory>
    ensures { OnOk result (into.new ≡ into.old ++ place ∷ []) }
{
    let place = u32::try_from(place).map_err(|_| Memory)?;
    if into.len() == u32::MAX {
        return Err(Memory);
    }
    into.push(place)
}

/// The columns that have the leader of this one, in order.
fn class_of(alloc: Global, leaders: &[u32], column: usize) -> Result<Places, Memory>
    requires { column < length leaders.now }
    ensures { IfOk result (λ found. found ≡ class_by leaders.now column) }
{
    let own = leaders[column];
    let mut found = Places::new(alloc);
    for place in 0..leaders.len() {
        if leaders[place] == own {
            push_place(place, &mut found)?;
        }
    }
    Ok(found)
}

/// Adds the class of a column, where the column is the first of its class and the class is a join
/// variable.
fn push_variable(
    alloc: Global,
    widths: &[u32],
    leaders: &[u32],
    column: usize,
    into: &mut Variables,
) -> Result<(), Memory>
    requires { column < length leaders.now }
    ensures { OnOk result (into.new ≡ into.old ++ variables_at widths.now leaders.now column) }
{
    if !is_first(leaders, column) {
        return Ok(());
    }
    let class = class_of(alloc, leaders, column)?;
    if !joins_items(widths, class.as_slice()) {
        return Ok(());
    }
    if into.len() == u32::MAX {
        return Err(Memory);
    }
    into.push(class)
}

/// The join variables of these equalities of columns, where the items have so many columns: the
/// classes with columns of at least two items, in the order of their first columns.
///
/// Each column has the leader of its class, and an equality gives one class the leader of the
/// other: time in columns times equalities, and in the square of the columns.
pub(crate) fn variables(
    alloc: Global,
    widths: &[u32],
    equalities: &[(u32, u32)],
) -> Result<Variables, Memory>
    requires { InRange (sum widths.now) equalities.now }
    ensures { IfOk result (λ found. found ≡ variables widths.now equalities.now) }
{
    let leaders = leaders_of(alloc, widths, equalities)?;
    let mut found = Variables::new(alloc);
    let all = leaders.as_slice();
    for column in 0..all.len() {
        push_variable(alloc, widths, all, column, &mut found)?;
    }
    Ok(found)
}
