//! The conjuncts of a condition.
ghost use Rattle.std.specs.Prelude.{◌≡◌, ◌++◌, IfOk, OnOk, map, option_map};
ghost use Rattle.myrial_ast.specs.Scalars.{conjuncts};
ghost use Rattle.myrial_ast.specs.ScalarTrees.{scalar_tree_of};
ghost use Rattle.myrial_ast.specs.Trees.{tree_of};
ghost use Rattle.myrial_scopes.specs.Emits.{conjuncts_of};

use crate::scopes::Scope;
use myrial_ast::{BinOp, Expr, Scalar, Scalars};
use rel_base::Memory;
use std::alloc::Global;

/// Adds the parts that top-level `and` joins, in order.
fn push_conjuncts(scalar: Scalar, into: &mut Scalars) -> Result<(), Memory>
    ensures { OnOk result
        (map scalar_tree_of into.new ≡ map scalar_tree_of into.old
        ++ conjuncts (scalar_tree_of scalar)) }
{
    match scalar {
        Scalar::Bin(BinOp::And, left, right) => {
            push_conjuncts(Box::into_inner(left), into)?;
            push_conjuncts(Box::into_inner(right), into)
        }
        other => {
            if into.len() == u32::MAX {
                return Err(Memory);
            }
            into.push(other)
        }
    }
}

impl Scope<'_> {
    /// The conjuncts of a condition, none where there is no condition; `None` where a reference
    /// doesn't mean one column.
    pub fn conjuncts(
        &self,
        alloc: Global,
        condition: &Option<Expr>,
    ) -> Result<Option<Scalars>, Memory>
        ensures { IfOk result
            (λ found. option_map (map scalar_tree_of) found
            ≡ conjuncts_of self.now (option_map tree_of condition.now)) }
    {
        let mut conjuncts = Scalars::new(alloc);
        if let Some(condition) = condition {
            let Some(scalar) = self.scalar(alloc, condition)? else {
                return Ok(None);
            };
            push_conjuncts(scalar, &mut conjuncts)?;
        }
        Ok(Some(conjuncts))
    }
}
