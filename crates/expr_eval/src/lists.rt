//! Lists of scalars on one row: the tests of a join, and what it emits.
ghost use Rattle.std.specs.Prelude.{◌≡◌, ◌-◌, ◌^◌, ◌<◌, [], ◌∷◌, ◌++◌, length, IsTrue, map, IfOk, IfErr, OnOk, OnErr, true, false};
ghost use Rattle.std.specs.List.{list_all};
ghost use Rattle.myrial_ast.specs.Scalars.{is_plain};
ghost use Rattle.myrial_ast.specs.Combinations.{all_hold, emitted};
ghost use Rattle.myrial_ast.specs.CandidateFaults.{all_fit};
ghost use Rattle.myrial_ast.specs.ScalarTrees.{scalar_tree_of};
ghost use Rattle.expr_eval.specs.Results.{IsListFault};

use crate::{EvalFault, Overflow, RowView, eval, holds};
use myrial_ast::{Scalar, Scalars};
use rel_base::{RowSource, Rows, Value};
use std::alloc::Global;

/// Whether all of these, none of which computes a number, hold on a row. It takes no memory.
pub fn plain_hold<R: RowView>(scalars: &[Scalar], row: &R) -> bool
    requires { IsTrue (list_all (λ e. is_plain (scalar_tree_of e)) scalars.now) }
    ensures { result ≡ all_hold (map scalar_tree_of scalars.now) (R.values row.now) }
{
    for scalar in scalars {
        match holds(scalar, row) {
            Ok(true) => {}
            Ok(false) => return false,
            Err(Overflow) => unreachable!(),
        }
    }
    true
}

/// Whether all of these hold on a row. Each is evaluated, also behind one that doesn't hold. It
/// takes no memory.
pub fn all_hold<R: RowView>(scalars: &[Scalar], row: &R) -> Result<bool, Overflow>
    ensures value { IfOk result
        (λ truth. truth ≡ all_hold (map scalar_tree_of scalars.now) (R.values row.now)) }
    ensures fits { OnOk result (all_fit (map scalar_tree_of scalars.now) (R.values row.now) ≡ true) }
    ensures overflow { OnErr result (all_fit (map scalar_tree_of scalars.now) (R.values row.now) ≡ false) }
{
    let mut all = true;
    for scalar in scalars {
        match holds(scalar, row) {
            Ok(truth) => all &= truth,
            Err(Overflow) => return Err(Overflow),
        }
    }
    Ok(all)
}

/// The values of scalars on a row, as the row that they make.
#[derive(Clone, Copy)]
struct Emission<'a, R> {
    alloc: Global,
    scalars: &'a Scalars,
    row: &'a R,
}

impl<'a, R: RowView> RowSource for Emission<'a, R> {
    type Fault = EvalFault;

    ghost values = { λ made.
        emitted (map scalar_tree_of made.scalars.now) (R.values made.row.now) };

    ghost is_made = { λ made.
        all_fit (map scalar_tree_of made.scalars.now) (R.values made.row.now) ≡ true };

    ghost is_fault = { λ made fault.
        IsListFault fault (map scalar_tree_of made.scalars.now) (R.values made.row.now) };

    fn width(&self) -> u32 {
        self.scalars.len()
    }

    fn put_values(&self, into: &mut Vec<Value>) -> Result<(), EvalFault> {
        for scalar in self.scalars.as_slice() {
            match eval(self.alloc, scalar, self.row) {
                Ok(value) => {
                    if into.push(value).is_err() {
                        return Err(EvalFault::Memory);
                    }
                }
                Err(fault) => return Err(fault),
            }
        }
        Ok(())
    }

    fn refused(&self) -> EvalFault {
        EvalFault::Memory
    }
}

/// Adds the values of these on a row at the end of a list, as a row. Memory is asked for strings,
/// and where the list grows. After a fault the list is as it was.
#[inline]
pub fn emit<R: RowView>(
    alloc: Global,
    scalars: &Scalars,
    row: &R,
    into: &mut Rows,
) -> Result<(), EvalFault>
    requires { length into.old < 2 ^ 32 - 1 }
    ensures row { OnOk result (into.new
        ≡ into.old ++ emitted (map scalar_tree_of scalars.now) (R.values row.now) ∷ []) }
    ensures kept { OnErr result (into.new ≡ into.old) }
    ensures fits { OnOk result (all_fit (map scalar_tree_of scalars.now) (R.values row.now) ≡ true) }
    ensures fault { IfErr result
        (λ fault. IsListFault fault (map scalar_tree_of scalars.now) (R.values row.now)) }
{
    into.push_made(
        alloc,
        &Emission {
            alloc,
            scalars,
            row,
        },
    )
}
