//! The test whether a shape is well formed.
ghost use Rattle.std.specs.Prelude.{◌≡◌, ◌≤◌, ◌==◌, ◌&&◌, nat_lt, nat_le, not, IfOk, length, map};
ghost use Rattle.rel_base.specs.Limits.{most_items, most_variables};
ghost use Rattle.std.specs.List.{flat_map, list_all, list_any};
ghost use Rattle.myrial_ast.specs.Classes.{item_of, joins_items};
ghost use Rattle.myrial_ast.specs.ScalarTrees.{scalar_tree_of};
ghost use Rattle.algebra.specs.declared.shapes.Atom.{Atom as AtomFields};
ghost use Rattle.algebra.specs.Trees.{atom_tree_of, shape_of_parts};
ghost use Rattle.algebra.specs.ShapeConditions.{is_plain_test, is_truth, is_typed, is_atom, kind_at, are_of, is_variable, all_different, is_shape};

use crate::kinds::{is_kind, is_plain_test, is_truth, is_typed};
use crate::{Atom, Atoms, Variables};
use myrial_ast::Scalars;
use rel_base::{ColType, MOST_ITEMS, MOST_VARIABLES, Memory, Places};
use std::alloc::Global;

/// Whether all of these are truths that compute no number.
fn are_plain_tests(kinds: &[ColType], scalars: &Scalars) -> bool
    ensures { result ≡ list_all (λ e. is_plain_test kinds.now (scalar_tree_of e)) scalars.now }
{
    scalars
        .as_slice()
        .iter()
        .all(|scalar| is_plain_test(kinds, scalar))
}

/// Whether all of these are truths.
fn are_truths(kinds: &[ColType], scalars: &Scalars) -> bool
    ensures { result ≡ list_all (λ e. is_truth kinds.now (scalar_tree_of e)) scalars.now }
{
    scalars
        .as_slice()
        .iter()
        .all(|scalar| is_truth(kinds, scalar))
}

/// Whether all of these have a type.
fn are_typed(kinds: &[ColType], scalars: &Scalars) -> bool
    ensures { result ≡ list_all (λ e. is_typed kinds.now (scalar_tree_of e)) scalars.now }
{
    scalars
        .as_slice()
        .iter()
        .all(|scalar| is_typed(kinds, scalar))
}

/// Whether an atom has a column, and plain tests alone as its keeps.
fn is_atom(atom: &Atom) -> bool
    ensures { result ≡ is_atom (atom_tree_of atom.now) }
{
    0 < atom.kinds.len() && are_plain_tests(atom.kinds.as_slice(), &atom.keeps)
}

/// The type of a column.
fn kind_at(kinds: &[ColType], column: u32) -> ColType
    ensures { result ≡ kind_at kinds.now column }
{
    kinds.get(column as usize).copied().unwrap_or(ColType::Int)
}

/// Whether columns are all of this type.
fn are_of(kinds: &[ColType], kind: ColType, columns: &[u32]) -> bool
    ensures { result ≡ are_of kinds.now kind columns.now }
{
    columns
        .iter()
        .all(|column| is_kind(kind, Some(kind_at(kinds, *column))))
}

/// The item that a column belongs to, where the items have so many columns.
fn item_of(widths: &[u32], column: u32) -> usize
    ensures item { result ≡ item_of widths.now column }
    ensures bound { result ≤ length widths.now }
{
    match widths {
        [] => 0,
        [width, others @ ..] => {
            if column < *width {
                0
            } else {
                1 + item_of(others, column - *width)
            }
        }
    }
}

/// Whether some column is of another item than this one.
fn leave_item(widths: &[u32], item: usize, columns: &[u32]) -> bool
    ensures { result ≡ list_any (λ d. not (item_of widths.now d == item)) columns.now }
{
    columns
        .iter()
        .any(|column| item_of(widths, *column) != item)
}

/// Whether some column is of another item than the first.
pub fn joins_items(widths: &[u32], columns: &[u32]) -> bool
    ensures { result ≡ joins_items widths.now columns.now }
{
    match columns {
        [] => false,
        [first, others @ ..] => leave_item(widths, item_of(widths, *first), others),
    }
}

/// Whether columns are below so many.
fn are_below(most: usize, columns: &[u32]) -> bool
    ensures { result ≡ list_all (λ c. nat_lt c most) columns.now }
{
    columns.iter().all(|column| (*column as usize) < most)
}

/// Whether columns are of one type.
fn have_one_kind(kinds: &[ColType], columns: &[u32]) -> bool
    ensures { result
        ≡ list_all (λ c. are_of kinds.now (kind_at kinds.now c) columns.now) columns.now }
{
    columns
        .iter()
        .all(|column| are_of(kinds, kind_at(kinds, *column), columns))
}

/// Whether columns are in range, of one type, and of two items at least.
fn is_variable(kinds: &[ColType], widths: &[u32], variable: &Places) -> bool
    ensures { result ≡ is_variable kinds.now widths.now variable.now }
{
    let columns = variable.as_slice();
    are_below(kinds.len(), columns) && have_one_kind(kinds, columns) && joins_items(widths, columns)
}

/// Whether a number stands among others.
fn stands_among(number: u32, others: &[u32]) -> bool
    ensures { result ≡ list_any (λ d. number == d) others.now }
{
    others.iter().any(|other| number == *other)
}

/// Whether no number stands twice.
fn all_different(numbers: &[u32]) -> bool
    ensures { result ≡ all_different numbers.now }
{
    match numbers {
        [] => true,
        [first, others @ ..] => !stands_among(*first, others) && all_different(others),
    }
}

/// The types of the columns of the combined row.
fn kinds_of(alloc: Global, atoms: &[Atom]) -> Result<Vec<ColType>, Memory>
    ensures { IfOk result (λ made. made.items ≡ flat_map (λ (a : AtomFields). a.kinds) atoms.now) }
{
    let mut made = Vec::new(alloc);
    for atom in atoms {
        made.extend_from_slice(atom.kinds.as_slice())?;
    }
    Ok(made)
}

/// The atoms' numbers of columns.
fn widths_of(alloc: Global, atoms: &[Atom]) -> Result<Vec<u32>, Memory>
    ensures { IfOk result (λ made. made.items ≡ map (λ (a : AtomFields). length a.kinds) atoms.now) }
{
    let mut made = Vec::with_capacity(alloc, atoms.len())?;
    for atom in atoms {
        made.push(atom.kinds.len())?;
    }
    Ok(made)
}

/// The columns of all variables.
fn columns_of(alloc: Global, variables: &[Places]) -> Result<Vec<u32>, Memory>
    ensures { IfOk result (λ made. made.items ≡ flat_map (λ v. v) variables.now) }
{
    let mut made = Vec::new(alloc);
    for variable in variables {
        made.extend_from_slice(variable.as_slice())?;
    }
    Ok(made)
}

/// Whether each atom has a column, and plain tests alone as its keeps.
fn are_all_atoms(atoms: &[Atom]) -> bool
    ensures { result ≡ list_all (λ a. is_atom (atom_tree_of a)) atoms.now }
{
    atoms.iter().all(|atom| is_atom(atom))
}

/// Whether all of these are variables.
fn are_all_variables(kinds: &[ColType], widths: &[u32], variables: &[Places]) -> bool
    ensures { result ≡ list_all (is_variable kinds.now widths.now) variables.now }
{
    variables
        .iter()
        .all(|variable| is_variable(kinds, widths, variable))
}

/// Whether there are 1 to 8 atoms.
fn are_atoms(atoms: &Atoms) -> bool
    ensures { result ≡ (nat_lt 0 (length atoms.now) && nat_le (length atoms.now) most_items
        && list_all (λ a. is_atom (atom_tree_of a)) atoms.now) }
{
    0 < atoms.len() && atoms.len() <= MOST_ITEMS && are_all_atoms(atoms.as_slice())
}

/// Whether there are at most 8 variables, and no column is of two of them.
fn are_variables(kinds: &[ColType], widths: &[u32], columns: &[u32], variables: &Variables) -> bool
    ensures { result ≡ (nat_le (length variables.now) most_variables
        && list_all (is_variable kinds.now widths.now) variables.now && all_different columns.now) }
{
    variables.len() <= MOST_VARIABLES
        && are_all_variables(kinds, widths, variables.as_slice())
        && all_different(columns)
}

/// Whether the plain tests, the arithmetic tests and the emits are of the types that are asked for.
fn are_scalars(kinds: &[ColType], plain: &Scalars, arith: &Scalars, emits: &Scalars) -> bool
    ensures { result ≡ (list_all (λ e. is_plain_test kinds.now (scalar_tree_of e)) plain.now
        && list_all (λ e. is_truth kinds.now (scalar_tree_of e)) arith.now
        && list_all (λ e. is_typed kinds.now (scalar_tree_of e)) emits.now) }
{
    are_plain_tests(kinds, plain) && are_truths(kinds, arith) && are_typed(kinds, emits)
}

/// Whether parts make a well-formed shape.
pub(crate) fn is_shape(
    alloc: Global,
    atoms: &Atoms,
    variables: &Variables,
    plain: &Scalars,
    arith: &Scalars,
    emits: &Scalars,
) -> Result<bool, Memory>
    ensures { IfOk result (λ found.
        found ≡ is_shape (shape_of_parts atoms.now variables.now plain.now arith.now emits.now)) }
{
    let kinds = kinds_of(alloc, atoms.as_slice())?;
    let widths = widths_of(alloc, atoms.as_slice())?;
    let columns = columns_of(alloc, variables.as_slice())?;
    let has_atoms = are_atoms(atoms);
    let has_variables = are_variables(&kinds, &widths, &columns, variables);
    let has_scalars = are_scalars(&kinds, plain, arith, emits);
    Ok(all_three(has_atoms, has_variables, has_scalars))
}

/// Whether all three hold.
fn all_three(first: bool, second: bool, third: bool) -> bool
    ensures { result ≡ (first && second && third) }
{
    first && second && third
}
