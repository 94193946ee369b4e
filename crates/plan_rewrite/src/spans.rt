//! Which columns of the combined row scalars read.
ghost use Rattle.std.specs.Prelude.{◌≡◌, ◌≤◌};
ghost use Rattle.std.specs.List.{list_any};
ghost use Rattle.myrial_ast.specs.KeptRows.{lies_in, reads_within};
ghost use Rattle.myrial_ast.specs.ScalarTrees.{scalar_tree_of};
ghost use Rattle.plan_rewrite.specs.inner.Pushing.{is_of_one};

use myrial_ast::Scalar;
use std::marker::Model;

/// The columns from one on and before another.
#[derive(Drop)]
pub(crate) struct Span {
    pub(crate) from: u32,
    pub(crate) to: u32,
}

impl Model for Span {
    ghost use Rattle.myrial_ast.specs.KeptRows.{Span as Columns};

    ghost Value = { Columns };

    ghost view = { λ s. record { from = s.from; to = s.to } };
}

impl Span {
    /// Whether a column lies here.
    pub(crate) fn has(&self, column: u32) -> bool
        ensures { result ≡ lies_in self.now column }
    {
        self.from <= column && column < self.to
    }

    /// Whether a scalar reads some column, and none that lies elsewhere.
    pub(crate) fn is_read_alone(&self, scalar: &Scalar) -> bool
        ensures { result ≡ reads_within self.now (scalar_tree_of scalar.now) }
    {
        scalar.reads_within(u64::from(self.from), u64::from(self.to))
    }
}

/// Whether a scalar reads columns of one of these spans alone.
pub(crate) fn is_of_one(spans: &[Span], scalar: &Scalar) -> bool
    ensures { result ≡ is_of_one spans.now (scalar_tree_of scalar.now) }
{
    spans.iter().any(|span| span.is_read_alone(scalar))
}
