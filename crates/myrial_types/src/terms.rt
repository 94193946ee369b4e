//! The terms of comprehensions.
ghost use Rattle.std.specs.Prelude.{◌≡◌, false, true, IfOk, MatchOption, is_some, map, sum};
ghost use Rattle.std.specs.List.{list_any};
ghost use Rattle.myrial_ast.specs.Classes.{equalities, equality, variables};
ghost use Rattle.myrial_ast.specs.Scalars.{arithmetic_of, plain_of};
ghost use Rattle.myrial_ast.specs.ScalarTrees.{scalar_tree_of};
ghost use Rattle.myrial_scopes.specs.Resolutions.{emit_of, resolved_of};
ghost use Rattle.algebra.specs.CheckedTrees.{term_tree_of};
ghost use Rattle.algebra.specs.Conditions.{kinds_of_columns};
ghost use Rattle.algebra.specs.ShapeConditions.{is_shape};
ghost use Rattle.algebra.specs.Shapes.{shape_of};
ghost use Rattle.algebra.specs.ShapeTrees.{shape_tree_of};
ghost use Rattle.algebra.specs.Trees.{atom_tree_of, kind_of_emit};
ghost use Rattle.myrial_types.specs.Kinds.{is_term_past_limit};
ghost use Rattle.myrial_types.specs.Resolving.{join_term, kinds_of_items, sources_of};
ghost use Rattle.algebra.specs.ShapeLaws.{InRange, widths_in};
ghost use Rattle.myrial_types.specs.inner.Terms.{bare_atoms};

use crate::classes::variables;
use crate::names::MeantItem;
use algebra::{
    Atom, Atoms, ColTypes, EmitKind, EmitKinds, JoinShape, Sources, Term, Variables, is_plain,
};
use myrial_ast::{Scalar, Scalars};
use myrial_scopes::{Comprehension, EmittedColumn};
use rel_base::{Memory, Schema};
use std::alloc::Global;

/// The types of columns.
pub(crate) fn kinds_of(alloc: Global, schema: &Schema) -> Result<ColTypes, Memory>
    ensures { IfOk result (λ kinds. kinds ≡ kinds_of_columns schema.now) }
{
    let mut kinds = ColTypes::with_capacity(alloc, schema.len())?;
    for column in schema.as_slice() {
        kinds.push(column.kind)?;
    }
    Ok(kinds)
}

/// An atom without keeps for each item.
fn atoms_of(alloc: Global, items: &[MeantItem]) -> Result<Atoms, Memory>
    ensures { IfOk result
        (λ atoms. map atom_tree_of atoms ≡ bare_atoms (kinds_of_items items.now)) }
{
    let mut atoms = Atoms::new(alloc);
    for item in items {
        let kinds = kinds_of(alloc, item.schema())?;
        let keeps = Scalars::new(alloc);
        if atoms.len() == u32::MAX {
            return Err(Memory);
        }
        atoms.push(Atom { kinds, keeps })?;
    }
    Ok(atoms)
}

/// The items' numbers of columns.
fn widths_of(alloc: Global, items: &[MeantItem]) -> Result<Vec<u32>, Memory>
    ensures { IfOk result (λ widths. widths.items ≡ widths_in (kinds_of_items items.now)) }
{
    let mut widths = Vec::with_capacity(alloc, items.len())?;
    for item in items {
        widths.push(item.schema().len())?;
    }
    Ok(widths)
}

/// The items' sources.
fn sources_of(alloc: Global, items: &[MeantItem]) -> Result<Sources, Memory>
    ensures { IfOk result (λ sources. sources ≡ sources_of items.now) }
{
    let mut sources = Sources::new(alloc);
    for item in items {
        if sources.len() == u32::MAX {
            return Err(Memory);
        }
        sources.push(item.source())?;
    }
    Ok(sources)
}

/// The two columns that a conjunct holds together: it is their equality as a whole. One under `or`
/// or `not` holds nothing together.
fn equality_of(conjunct: &Scalar) -> Option<(u32, u32)>
    ensures { result ≡ equality (scalar_tree_of conjunct.now) }
{
    conjunct.equality()
}

/// The equalities of columns among conjuncts.
fn equalities_of(alloc: Global, conjuncts: &Scalars) -> Result<Vec<(u32, u32)>, Memory>
    ensures { IfOk result (λ found. found.items ≡ equalities (map scalar_tree_of conjuncts.now)) }
{
    let mut found = Vec::new(alloc);
    for conjunct in conjuncts.as_slice() {
        if let Some(pair) = equality_of(conjunct) {
            found.push(pair)?;
        }
    }
    Ok(found)
}

/// The conjuncts that compute no number.
fn plain_of(alloc: Global, conjuncts: &Scalars) -> Result<Scalars, Memory>
    ensures { IfOk result (λ found. map scalar_tree_of found
        ≡ plain_of (map scalar_tree_of conjuncts.now)) }
{
    let mut found = Scalars::new(alloc);
    for conjunct in conjuncts.as_slice() {
        if is_plain(conjunct) {
            found.push(conjunct.copy(alloc)?)?;
        }
    }
    Ok(found)
}

/// The conjuncts that compute a number.
fn arithmetic_of(alloc: Global, conjuncts: &Scalars) -> Result<Scalars, Memory>
    ensures { IfOk result (λ found. map scalar_tree_of found
        ≡ arithmetic_of (map scalar_tree_of conjuncts.now)) }
{
    let mut found = Scalars::new(alloc);
    for conjunct in conjuncts.as_slice() {
        if !is_plain(conjunct) {
            found.push(conjunct.copy(alloc)?)?;
        }
    }
    Ok(found)
}

/// What is emitted, an aggregate by its argument.
fn scalars_of(alloc: Global, emits: &[EmittedColumn]) -> Result<Scalars, Memory>
    ensures { IfOk result (λ found. map scalar_tree_of found
        ≡ map (λ e. (emit_of e).scalar) emits.now) }
{
    let mut found = Scalars::new(alloc);
    for emit in emits {
        if found.len() == u32::MAX {
            return Err(Memory);
        }
        found.push(emit.scalar.copy(alloc)?)?;
    }
    Ok(found)
}

/// What each emitted column is for.
fn kinds_of_emits(alloc: Global, emits: &[EmittedColumn]) -> Result<EmitKinds, Memory>
    ensures { IfOk result (λ found. map kind_of_emit found
        ≡ map (λ e. (emit_of e).aggregate) emits.now) }
{
    let mut found = EmitKinds::new(alloc);
    for emit in emits {
        let kind = match emit.aggregate {
            Some(op) => EmitKind::Agg(op),
            None => EmitKind::Key,
        };
        if found.len() == u32::MAX {
            return Err(Memory);
        }
        found.push(kind)?;
    }
    Ok(found)
}

/// Whether an aggregate is emitted.
fn has_aggregate(emits: &[EmittedColumn]) -> bool
    ensures { result ≡ list_any (λ e. is_some (emit_of e).aggregate) emits.now }
{
    emits.iter().any(|emit| emit.aggregate.is_some())
}

/// The join variables of a comprehension over these items, whose equalities are of columns that
/// there are.
fn variables_of(
    alloc: Global,
    items: &[MeantItem],
    comprehension: &Comprehension,
) -> Result<Variables, Memory>
    requires { InRange (sum (widths_in (kinds_of_items items.now)))
        (equalities (resolved_of comprehension.now).comprehension.conjuncts) }
    ensures { IfOk result (λ found. found ≡ variables (widths_in (kinds_of_items items.now))
        (equalities (resolved_of comprehension.now).comprehension.conjuncts)) }
{
    let widths = widths_of(alloc, items)?;
    let equalities = equalities_of(alloc, &comprehension.conjuncts)?;
    variables(alloc, &widths, &equalities)
}

/// The shape of a comprehension over these items, whose equalities are of columns that there are;
/// `None` where it isn't well formed.
fn shape_of(
    alloc: Global,
    items: &[MeantItem],
    comprehension: &Comprehension,
) -> Result<Option<JoinShape>, Memory>
    requires { InRange (sum (widths_in (kinds_of_items items.now)))
        (equalities (resolved_of comprehension.now).comprehension.conjuncts) }
    ensures { IfOk result (λ made.
        let shape = shape_of (kinds_of_items items.now)
        (resolved_of comprehension.now).comprehension in
        MatchOption made (is_shape shape ≡ false)
        (λ s. (shape_tree_of s ≡ shape) × (is_shape shape ≡ true))) }
{
    let variables = variables_of(alloc, items, comprehension)?;
    let atoms = atoms_of(alloc, items)?;
    let plain = plain_of(alloc, &comprehension.conjuncts)?;
    let arith = arithmetic_of(alloc, &comprehension.conjuncts)?;
    let emits = scalars_of(alloc, &comprehension.emits)?;
    JoinShape::new(alloc, atoms, variables, plain, arith, emits)
}

/// The term of a comprehension over these items; `None` where its shape isn't well formed.
pub(crate) fn join_of(
    alloc: Global,
    items: &[MeantItem],
    comprehension: &Comprehension,
) -> Result<Option<Term>, Memory>
    requires { InRange (sum (widths_in (kinds_of_items items.now)))
        (equalities (resolved_of comprehension.now).comprehension.conjuncts) }
    ensures { IfOk result (λ made.
        let term = join_term (kinds_of_items items.now) (sources_of items.now)
        (resolved_of comprehension.now).comprehension in
        MatchOption made (is_term_past_limit term ≡ true)
        (λ t. (term_tree_of t ≡ term) × (is_term_past_limit term ≡ false))) }
{
    let Some(shape) = shape_of(alloc, items, comprehension)? else {
        return Ok(None);
    };
    let sources = sources_of(alloc, items)?;
    if has_aggregate(&comprehension.emits) {
        let kinds = kinds_of_emits(alloc, &comprehension.emits)?;
        Ok(Some(Term::Group(shape, sources, kinds)))
    } else {
        Ok(Some(Term::Join(shape, sources)))
    }
}
