//! The variables of each atom, as the choice of shares asks for them.
ghost use Rattle.std.specs.Prelude.{◌≡◌, ◌≤◌, ◌<◌, ◌^◌, length, IfOk};
ghost use Rattle.rel_base.specs.Limits.{most_variables};
ghost use Rattle.algebra.specs.ShapeTrees.{shape_tree_of};
ghost use Rattle.share_chooser.specs.Shares.{uses_of};
ghost use Rattle.placement.specs.Plans as plans;
ghost use Rattle.join_plans.specs.inner.Spans.{span_of};
ghost use Rattle.join_plans.specs.inner.Counts.{bits_in};

use crate::spans::{Span, span_of_atom, widths_of};
use algebra::JoinShape;
use rel_base::{Memory, Places};
use share_chooser::ShareShape;
use std::alloc::Global;

/// The variables with a column in a span, as bits.
fn bits_in(span: &Span, variables: &[Places]) -> u8
    requires { length variables.now ≤ most_variables }
    ensures value { result ≡ bits_in (span_of span.now) variables.now }
    ensures bound { result < 2 ^ length variables.now }
{
    let mut bits: u32 = 0;
    let mut bit: u32 = 1;
    for variable in variables {
        if span.count(variable.as_slice()) > 0 {
            bits += bit;
        }
        bit *= 2;
    }
    bits as u8
}

/// What a join looks like to the choice of shares.
pub(crate) fn share_shape(alloc: Global, shape: &JoinShape) -> Result<ShareShape, Memory>
    ensures uses { IfOk result (λ made. uses_of made ≡ plans.uses_of (shape_tree_of shape.now)) }
    ensures count { IfOk result (λ made. made.variables ≡ length shape.now.variables) }
{
    let widths = widths_of(alloc, shape)?;
    let mut uses = [0; 8];
    for j in 0..widths.len() {
        uses[j] = bits_in(&span_of_atom(&widths, j), shape.variables.as_slice());
    }
    Ok(ShareShape {
        atoms: shape.atoms.len(),
        variables: shape.variables.len(),
        uses,
    })
}
