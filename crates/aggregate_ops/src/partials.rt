//! Partial rows: what is formed of the rows of a part, and what the partial rows of all parts come
//! to.
ghost use Rattle.std.specs.Prelude.{◌≡◌, map, length, OnOk, IfOk, IfErr, IsTrue, true};
ghost use Rattle.std.specs.List.{list_all};
ghost use Rattle.rel_base.specs.Bags.{SameBag};
ghost use Rattle.myrial_ast.specs.Combinations.{emitted};
ghost use Rattle.myrial_ast.specs.CandidateFaults.{all_fit};
ghost use Rattle.myrial_ast.specs.ScalarTrees.{scalar_tree_of};
ghost use Rattle.myrial_ast.specs.Partials.{partial_kinds, partial_rows, partial_keys, merged};
ghost use Rattle.bag_laws.specs.PartialLaws.{AreGrouped};
ghost use Rattle.algebra.specs.Trees.{kind_of_emit};
ghost use Rattle.aggregate_ops.specs.Columns.{Overflows};
ghost use Rattle.aggregate_ops.specs.Forms.{merged_fits};
ghost use Rattle.aggregate_ops.specs.Picks.{are_picks};

use crate::AggFault;
use crate::group_rows::Form;
use crate::grouping::{grouped, grouped_picks, partial_places};
use algebra::EmitKinds;
use myrial_ast::Scalars;
use rel_base::{Memory, Places, Rows};
use std::alloc::Global;

/// A partial row for each group of the rows, in the order of their keys. Each sum stands in two
/// columns, of which the first counts times 2 ^ 62, so that it always lies in 64 bits.
pub fn partial(alloc: Global, rows: &Rows, kinds: &EmitKinds) -> Result<Rows, Memory>
    requires { AreGrouped (map kind_of_emit kinds.now) rows.now }
    ensures { IfOk result (λ made. SameBag
        (partial_rows (map kind_of_emit kinds.now) rows.now) made) }
{
    match grouped(alloc, Form::Split, rows, kinds) {
        Ok(made) => Ok(made),
        Err(AggFault::Memory) => Err(Memory),
        Err(AggFault::AggregateOverflow) => unreachable!(),
    }
}

/// A partial row for each group of what the rows emit by picks, which are columns and literals, in
/// the order of their keys. Where what a row emits fits one word it is packed into it, and nothing
/// else is made of the row. On Ok every emitted number lies in 64 bits.
pub fn partial_of_picks(
    alloc: Global,
    rows: &Rows,
    picks: &Scalars,
    kinds: &EmitKinds,
) -> Result<Rows, Memory>
    requires picks { IsTrue (are_picks (map scalar_tree_of picks.now)) }
    requires kinds { length kinds.now ≡ length picks.now }
    ensures bag { IfOk result (λ made. SameBag (partial_rows (map kind_of_emit kinds.now)
        (map (emitted (map scalar_tree_of picks.now)) rows.now)) made) }
    ensures fits { OnOk result (list_all (all_fit (map scalar_tree_of picks.now)) rows.now ≡ true) }
{
    match grouped_picks(alloc, Form::Split, rows, picks, kinds) {
        Ok(made) => Ok(made),
        Err(AggFault::Memory) => Err(Memory),
        Err(AggFault::AggregateOverflow) => unreachable!(),
    }
}

/// A row for each group of partial rows, in the order of their keys. Of the partial rows of some
/// lists it is the groups of the lists put together.
pub fn merge(alloc: Global, partials: &Rows, kinds: &EmitKinds) -> Result<Rows, AggFault>
    requires { AreGrouped (partial_kinds (map kind_of_emit kinds.now)) partials.now }
    ensures bag { IfOk result (λ made. SameBag
        (merged (map kind_of_emit kinds.now) partials.now) made) }
    ensures fits { OnOk result (merged_fits (map kind_of_emit kinds.now) partials.now ≡ true) }
    ensures fault { IfErr result (λ fault. Overflows fault
        (merged_fits (map kind_of_emit kinds.now) partials.now)) }
{
    grouped(alloc, Form::Merged, partials, kinds)
}

/// The places in a partial row of what rows are grouped by. There is no memory where a place is no
/// `u32`.
pub fn partial_keys(alloc: Global, kinds: &EmitKinds) -> Result<Places, Memory>
    ensures { IfOk result (λ places. places ≡ partial_keys (map kind_of_emit kinds.now)) }
{
    partial_places(alloc, kinds.as_slice())
}
