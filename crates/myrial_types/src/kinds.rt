//! The kinds of fault of a comprehension.
//!
//! Each expression is read once, whatever is looked for in it.
ghost use Rattle.std.specs.Prelude.{◌≡◌, ◌||◌, ◌∷◌, [], None, map, option_map};
ghost use Rattle.myrial_ast.specs.Trees.{tree_of, emit_tree_of};
ghost use Rattle.myrial_ast.specs.Trees as tree;
ghost use Rattle.myrial_scopes.specs.Scopes.{scope_of};
ghost use Rattle.rel_base.specs.Relations.{type_of};
ghost use Rattle.myrial_types.specs.Kinds.{aggregate_type, comprehension_kind, first_of};
ghost use Rattle.myrial_types.specs.Kinds.{has_any_aggregate, has_inner_aggregate};
ghost use Rattle.myrial_types.specs.Kinds.{is_unknown_behind, references, tree_kind};
ghost use Rattle.myrial_types.specs.inner.Readings.{either_faults, faults_in, no_faults};
ghost use Rattle.myrial_types.specs.inner.Readings.{reference_faults};

use crate::faults::TypeKind;
use algebra::{is_kind, kind_of_op, where_both};
use myrial_ast::{AggOp, ColRef, EmitItem, EmitItems, Expr, Scalar};
use myrial_scopes::{ItemSchema, Scope, has_doubled_alias, is_alias};
use rel_base::{ColType, Value};

/// What is wrong with a part of a comprehension.
#[derive(Clone, Copy)]
struct Faults {
    /// A name before a `.` is no alias.
    relation: bool,
    /// A reference finds no column.
    column: bool,
    /// A reference finds two columns or more.
    ambiguous: bool,
    /// A part has another type than it needs.
    mismatch: bool,
    /// An aggregate is no whole emit item.
    misplaced: bool,
}

impl Faults {
    /// Nothing is wrong.
    fn none() -> Faults
        ensures { result ≡ no_faults }
    {
        Faults {
            relation: false,
            column: false,
            ambiguous: false,
            mismatch: false,
            misplaced: false,
        }
    }

    /// What is wrong with this part or with another one.
    fn or(self, other: Faults) -> Faults
        ensures { result ≡ either_faults self other }
    {
        Faults {
            relation: either(self.relation, other.relation),
            column: either(self.column, other.column),
            ambiguous: either(self.ambiguous, other.ambiguous),
            mismatch: either(self.mismatch, other.mismatch),
            misplaced: either(self.misplaced, other.misplaced),
        }
    }

    /// The kind that is told: the first in their order.
    fn first(self) -> Option<TypeKind>
        ensures { result
            ≡ first_of self.relation self.column self.ambiguous self.mismatch self.misplaced }
    {
        if self.relation {
            Some(TypeKind::UnknownRelation)
        } else if self.column {
            Some(TypeKind::UnknownColumn)
        } else if self.ambiguous {
            Some(TypeKind::AmbiguousColumn)
        } else if self.mismatch {
            Some(TypeKind::TypeMismatch)
        } else if self.misplaced {
            Some(TypeKind::Misplaced)
        } else {
            None
        }
    }
}

/// What is found in an expression: what is wrong with its references, and its type, if all its
/// parts have the types that they need.
#[derive(Clone, Copy)]
struct Reading {
    faults: Faults,
    kind: Option<ColType>,
}

/// Whether one of two facts holds.
fn either(first: bool, second: bool) -> bool
    ensures { result ≡ (first || second) }
{
    first || second
}

/// The type of a value.
fn type_of(value: &Value) -> ColType
    ensures { result ≡ type_of value.now }
{
    match value {
        Value::Int(_) => ColType::Int,
        Value::Str(_) => ColType::Str,
        Value::Bool(_) => ColType::Bool,
    }
}

/// The type of an aggregate of values of a type, if it can have one.
fn aggregate_type(op: AggOp, argument: Option<ColType>) -> Option<ColType>
    ensures { result ≡ aggregate_type op argument }
{
    match op {
        AggOp::Sum => where_both(ColType::Int, ColType::Int, argument, argument),
        AggOp::Min | AggOp::Max => argument,
        AggOp::CountAll | AggOp::Count => match argument {
            Some(_) => Some(ColType::Int),
            None => None,
        },
    }
}

/// Whether an aggregate stands in an expression.
fn has_any_aggregate(expression: &Expr) -> bool
    ensures { result ≡ has_any_aggregate (tree_of expression.now) }
{
    match expression {
        Expr::Lit(_) | Expr::Col(_) => false,
        Expr::Not(operand) | Expr::Neg(operand) => has_any_aggregate(operand),
        Expr::Bin(_, left, right) => has_any_aggregate(left) || has_any_aggregate(right),
        Expr::Agg(_, _) => true,
    }
}

/// Whether an aggregate stands inside of an expression, other than as the whole of it.
fn has_inner_aggregate(expression: &Expr) -> bool
    ensures { result ≡ has_inner_aggregate (tree_of expression.now) }
{
    match expression {
        Expr::Agg(_, None) => false,
        Expr::Agg(_, Some(argument)) => has_any_aggregate(argument),
        other => has_any_aggregate(other),
    }
}

/// Whether the alias of a reference is that of no item.
fn is_unknown_behind(schemas: &[ItemSchema], reference: &ColRef) -> bool
    ensures { result ≡ is_unknown_behind schemas.now reference.now }
{
    match reference {
        ColRef::OfName(alias, _) | ColRef::OfPlace(alias, _) => !is_alias(schemas, alias),
        ColRef::ByName(_) | ColRef::ByPlace(_) => false,
    }
}

/// What is found in a reference.
#[tactic(auto, using(crate::proofs::ReadingLemmas::reference_of_one))]
fn read_reference(schemas: &[ItemSchema], scope: &Scope, reference: &ColRef) -> Reading
    requires { scope.now ≡ scope_of schemas.now }
    ensures faults { result.faults ≡ reference_faults schemas.now (reference.now ∷ []) }
    ensures kind { result.kind ≡ tree_kind scope.now (tree.Col reference.now) }
{
    let meaning = scope.meaning_of(reference);
    let faults = Faults {
        relation: is_unknown_behind(schemas, reference),
        column: meaning.is_unknown(),
        ambiguous: meaning.is_ambiguous(),
        mismatch: false,
        misplaced: false,
    };
    let kind = match meaning.place() {
        Some(place) => Some(scope.kind_of(&Scalar::At(place))),
        None => None,
    };
    Reading { faults, kind }
}

/// What is found in an expression.
#[tactic(auto, using(crate::proofs::ReadingLemmas::references_of_two))]
fn read(schemas: &[ItemSchema], scope: &Scope, expression: &Expr) -> Reading
    requires { scope.now ≡ scope_of schemas.now }
    ensures faults { result.faults
        ≡ reference_faults schemas.now (references (tree_of expression.now)) }
    ensures kind { result.kind ≡ tree_kind scope.now (tree_of expression.now) }
{
    match expression {
        Expr::Lit(value) => Reading {
            faults: Faults::none(),
            kind: Some(type_of(value)),
        },
        Expr::Col(reference) => read_reference(schemas, scope, reference),
        Expr::Not(operand) => {
            let Reading { faults, kind } = read(schemas, scope, operand);
            let kind = where_both(ColType::Bool, ColType::Bool, kind, kind);
            Reading { faults, kind }
        }
        Expr::Neg(operand) => {
            let Reading { faults, kind } = read(schemas, scope, operand);
            let kind = where_both(ColType::Int, ColType::Int, kind, kind);
            Reading { faults, kind }
        }
        Expr::Bin(op, left, right) => {
            let left = read(schemas, scope, left);
            let right = read(schemas, scope, right);
            Reading {
                faults: left.faults.or(right.faults),
                kind: kind_of_op(*op, left.kind, right.kind),
            }
        }
        Expr::Agg(op, None) => Reading {
            faults: Faults::none(),
            kind: aggregate_type(*op, Some(ColType::Bool)),
        },
        Expr::Agg(op, Some(argument)) => {
            let Reading { faults, kind } = read(schemas, scope, argument);
            let kind = aggregate_type(*op, kind);
            Reading { faults, kind }
        }
    }
}

/// What is wrong with a condition.
#[tactic(auto, using(crate::proofs::ReadingLemmas::condition_of_one))]
fn condition_faults(schemas: &[ItemSchema], scope: &Scope, condition: &Option<Expr>) -> Faults
    requires { scope.now ≡ scope_of schemas.now }
    ensures { result ≡ faults_in schemas.now (option_map tree_of condition.now) [] }
{
    match condition {
        None => Faults::none(),
        Some(condition) => {
            let Reading { faults, kind } = read(schemas, scope, condition);
            Faults {
                mismatch: !is_kind(ColType::Bool, kind),
                misplaced: has_any_aggregate(condition),
                ..faults
            }
        }
    }
}

/// What is wrong with an emit item.
#[tactic(auto, using(crate::proofs::ReadingLemmas::emit_of_one, crate::proofs::ReadingLemmas::emit_of_alias))]
fn emit_faults(schemas: &[ItemSchema], scope: &Scope, emit: &EmitItem) -> Faults
    requires { scope.now ≡ scope_of schemas.now }
    ensures { result ≡ faults_in schemas.now None (emit_tree_of emit.now ∷ []) }
{
    match emit {
        EmitItem::All => Faults::none(),
        EmitItem::AllOf(alias) => Faults {
            relation: !is_alias(schemas, alias),
            ..Faults::none()
        },
        EmitItem::One(expression, _) => {
            let Reading { faults, kind } = read(schemas, scope, expression);
            Faults {
                mismatch: kind.is_none(),
                misplaced: has_inner_aggregate(expression),
                ..faults
            }
        }
    }
}

/// What is wrong with a comprehension, apart from its aliases.
#[tactic(auto, using(crate::proofs::ReadingLemmas::faults_of_next))]
fn faults_in(
    schemas: &[ItemSchema],
    scope: &Scope,
    condition: &Option<Expr>,
    emits: &[EmitItem],
) -> Faults
    requires { scope.now ≡ scope_of schemas.now }
    ensures { result ≡ faults_in schemas.now (option_map tree_of condition.now)
        (map emit_tree_of emits.now) }
{
    let mut faults = condition_faults(schemas, scope, condition);
    for emit in emits {
        faults = faults.or(emit_faults(schemas, scope, emit));
    }
    faults
}

/// The first kind of a comprehension over these items, before its limits.
pub(crate) fn comprehension_kind(
    schemas: &[ItemSchema],
    scope: &Scope,
    condition: &Option<Expr>,
    emits: &EmitItems,
) -> Option<TypeKind>
    requires { scope.now ≡ scope_of schemas.now }
    ensures { result ≡ comprehension_kind schemas.now (option_map tree_of condition.now)
        (map emit_tree_of emits.now) }
{
    let faults = faults_in(schemas, scope, condition, emits.as_slice());
    let ambiguous = either(faults.ambiguous, has_doubled_alias(schemas));
    Faults {
        ambiguous,
        ..faults
    }
    .first()
}
