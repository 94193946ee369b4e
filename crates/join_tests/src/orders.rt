//! The order of least estimate, of the worked joins.
ghost use Rattle.std.specs.Prelude.{◌≡◌, ◌≤◌, [], ◌∷◌, IfOk, length};

use order_chooser::{AtomCounts, PrefixCounts, choose_order, estimate};
use rel_base::{Items, Memory, Places};
use std::alloc::Global;
use std::process::Abort;

/// The numbers of an atom with these variables.
fn atom_of(alloc: Global, uses: u8, numbers: &[u64]) -> Result<AtomCounts, Memory> {
    let mut counts = Vec::with_capacity(alloc, numbers.len())?;
    for number in numbers {
        counts.push(*number)?;
    }
    Ok(AtomCounts::new(uses, counts))
}

/// The numbers of a join of three atoms with these variables.
fn join_of(
    alloc: Global,
    variables: u32,
    first: AtomCounts,
    second: AtomCounts,
    third: AtomCounts,
) -> Result<PrefixCounts, Memory>
    requires { variables ≤ 8 }
    ensures variables { IfOk result (λ made. made.variables ≡ variables) }
    ensures atoms { IfOk result (λ made. length made.atoms ≡ 3) }
{
    let mut atoms = Items::new(alloc);
    atoms.push(first)?;
    atoms.push(second)?;
    atoms.push(third)?;
    Ok(PrefixCounts::new(variables, atoms))
}

/// Atom 1 with variables a and b and the rows 1,1 1,2 1,3 2,1, atom 2 with a and the rows 1 and 2,
/// and atom 3 with b and the row 1.
fn pairs(alloc: Global) -> Result<PrefixCounts, Memory>
    ensures variables { IfOk result (λ made. made.variables ≡ 2) }
    ensures atoms { IfOk result (λ made. length made.atoms ≡ 3) }
{
    let first = atom_of(alloc, 3, &[1, 2, 3, 4])?;
    let second = atom_of(alloc, 1, &[1, 2, 1, 2])?;
    let third = atom_of(alloc, 2, &[1, 1, 1, 1])?;
    join_of(alloc, 2, first, second, third)
}

/// Three atoms round a triangle, of so many rows with twice the same number each.
fn ring(alloc: Global, rows: u64) -> Result<PrefixCounts, Memory>
    ensures variables { IfOk result (λ made. made.variables ≡ 3) }
{
    let first = atom_of(alloc, 3, &[1, rows, rows, rows, 1, rows, rows, rows])?;
    let second = atom_of(alloc, 6, &[1, 1, rows, rows, rows, rows, rows, rows])?;
    let third = atom_of(alloc, 5, &[1, rows, 1, rows, rows, rows, rows, rows])?;
    join_of(alloc, 3, first, second, third)
}

/// The order of two variables.
fn order_of(alloc: Global, first: u32, second: u32) -> Result<Places, Memory>
    ensures { IfOk result (λ made. made ≡ first ∷ second ∷ []) }
{
    let mut order = Places::new(alloc);
    order.push(first)?;
    order.push(second)?;
    Ok(order)
}

/// Whether the order that is chosen is this one.
fn chooses(alloc: Global, counts: &PrefixCounts, wanted: &[u32]) -> Result<bool, Memory> {
    let order = choose_order(alloc, counts)?;
    Ok(order.as_slice() == wanted)
}

#[test]
fn the_numbers_are_those_that_were_given(rt: HostRuntime) -> Result<(), Memory> {
    let counts = pairs(rt.alloc())?;
    for (atom, set, number) in [(0, 1, 2), (0, 2, 3), (0, 3, 4), (1, 1, 2), (2, 2, 1)] {
        assert_eq!(rt; counts.of(atom, set), number);
    }
    Ok(())
}

#[test]
fn the_variable_of_one_value_comes_first(rt: HostRuntime) -> Result<(), Memory> {
    let alloc = rt.alloc();
    let counts = pairs(alloc)?;
    assert_eq!(rt; estimate(&counts, &order_of(alloc, 0, 1)?), 4);
    assert_eq!(rt; estimate(&counts, &order_of(alloc, 1, 0)?), 3);
    assert!(rt; chooses(alloc, &counts, &[1, 0])?);
    Ok(())
}

#[test]
fn the_first_order_is_chosen_at_a_tie(rt: HostRuntime) -> Result<(), Memory> {
    let alloc = rt.alloc();
    assert!(rt; chooses(alloc, &ring(alloc, 100)?, &[0, 1, 2])?);
    assert!(rt; chooses(alloc, &ring(alloc, 0)?, &[0, 1, 2])?);
    Ok(())
}

#[test]
fn no_variable_has_the_empty_order(rt: HostRuntime) -> Result<(), Memory> {
    let alloc = rt.alloc();
    let counts = PrefixCounts::new(0, Items::new(alloc));
    assert_eq!(rt; estimate(&counts, &Places::new(alloc)), 0);
    assert!(rt; chooses(alloc, &counts, &[])?);
    Ok(())
}
