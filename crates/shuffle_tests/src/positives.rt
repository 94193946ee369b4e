//! Numbers above 0, which are kept and listed where they lie.
ghost use Rattle.std.specs.Prelude.{IfOk};
ghost use Rattle.algebra.specs.ShapeTrees.{shape_tree_of};
ghost use Rattle.shuffle_tests.specs.inner.Numbers.{ListsPositive};

use crate::numbers::dealt;
use algebra::{Atom, Atoms, ColTypes, JoinFault, JoinShape, Variables};
use join_runs::list_alone;
use kept_rows::keep_rows;
use myrial_ast::{BinOp, Scalar, Scalars};
use rel_base::{ColType, Memory, Spread, Value};
use row_exchange::Spreads;
use std::alloc::Global;
use std::sync::Wait;
use std::thread::Threads;

/// The numbers of one item that are above 0.
fn positive_numbers(alloc: Global) -> Result<JoinShape, Memory>
    ensures { IfOk result (λ made. ListsPositive (shape_tree_of made)) }
{
    let mut kinds = ColTypes::new(alloc);
    kinds.push(ColType::Int)?;
    let zero = Scalar::Lit(Value::Int(0));
    let mut keeps = Scalars::new(alloc);
    keeps.push(Scalar::binary(alloc, BinOp::Gt, Scalar::At(0), zero)?)?;
    let mut atoms = Atoms::new(alloc);
    atoms.push(Atom { kinds, keeps })?;
    let mut emits = Scalars::new(alloc);
    emits.push(Scalar::At(0))?;
    let plain = Scalars::new(alloc);
    let arith = Scalars::new(alloc);
    match JoinShape::new(alloc, atoms, Variables::new(alloc), plain, arith, emits)? {
        Some(shape) => Ok(shape),
        None => Err(Memory),
    }
}

/// The numbers above 0, kept and listed at two workers.
fn listed_at_two<R: Threads + Wait + Sync>(
    rt: &R,
    alloc: Global,
    numbers: &[i64],
) -> Result<Spread, JoinFault> {
    let shape = positive_numbers(alloc)?;
    let mut parts = Spreads::new(alloc);
    parts.push(dealt(alloc, numbers, 2)?)?;
    let kept = keep_rows(alloc, &shape, &parts)?;
    list_alone(rt, alloc, &shape, kept.get(0))
}

#[test]
fn positive_numbers_are_listed_where_they_lie(rt: HostRuntime) -> Result<(), JoinFault> {
    let listed = listed_at_two(&rt, rt.alloc(), &[0, 1, 2, 3])?;
    let [first, second] = listed.as_slice() else {
        return Err(JoinFault::TooManyRows);
    };
    assert_eq!(rt; first.len(), 1);
    assert_eq!(rt; second.len(), 2);
    Ok(())
}
