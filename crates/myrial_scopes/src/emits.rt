//! What a comprehension emits.
ghost use Rattle.std.specs.Prelude.{◌≡◌, ◌++◌, ◌<◌, ◌^◌, [], ◌∷◌, IfOk, OnOk, Some, None, map, length, option_map};
ghost use Rattle.std.specs.Option.{option_copied};
ghost use Rattle.myrial_ast.specs.Trees.{tree_of, emit_tree_of};
ghost use Rattle.myrial_ast.specs.ScalarTrees.{scalar_tree_of};
ghost use Rattle.myrial_scopes.specs.Emits.{emit_at, emit_of_tree, emits_of, emits_of_item, named, aggregate_kind, aggregated, emit_of_scalar};
ghost use Rattle.myrial_scopes.specs.Resolutions.{emit_of};
ghost use Rattle.myrial_scopes.specs.Scopes.{column_at};
ghost use Rattle.myrial_scopes.specs.inner.Columns.{is_emitted, emits_under};

use crate::scopes::Scope;
use myrial_ast::{AggOp, EmitItem, Expr, Scalar};
use rel_base::{ColType, Duplicate, Items, Memory, Text, Value};
use std::alloc::Global;

/// An emitted column.
#[derive(Drop)]
pub struct EmittedColumn {
    /// What is emitted, or the argument of its aggregate.
    pub scalar: Scalar,
    /// The aggregate, where there is one.
    pub aggregate: Option<AggOp>,
    /// The name, where the column has one.
    pub name: Option<Text>,
    /// The type.
    pub kind: ColType,
}

/// The type of an aggregate of values of a type.
fn aggregate_kind(op: AggOp, argument: ColType) -> ColType
    ensures { result ≡ aggregate_kind op argument }
{
    match op {
        AggOp::Min | AggOp::Max => argument,
        AggOp::CountAll | AggOp::Count | AggOp::Sum => ColType::Int,
    }
}

/// The column under the name behind `as`, where there is one.
fn named(
    alloc: Global,
    given: &Option<Text>,
    column: EmittedColumn,
) -> Result<EmittedColumn, Memory>
    ensures { IfOk result (λ made. emit_of made ≡ named given.now (emit_of column)) }
{
    let Some(given) = given else {
        return Ok(column);
    };
    let name = Some(given.copy(alloc)?);
    Ok(EmittedColumn { name, ..column })
}

impl Scope<'_> {
    /// Whether `*`, or `T.*` with this alias, emits the column at a place.
    fn is_emitted(&self, alias: Option<&Text>, place: u32) -> bool
        requires { place < length self.now }
        ensures { result ≡ is_emitted (option_copied alias.entry) (column_at self.now place) }
    {
        match alias {
            Some(alias) => self.column(place).is_under(alias),
            None => true,
        }
    }

    /// The name of a scalar that is a column.
    fn own_name(&self, alloc: Global, scalar: &Scalar) -> Result<Option<Text>, Memory>
        ensures { IfOk result (λ name. name ≡ (emit_of_scalar self.now (scalar_tree_of scalar.now)).name) }
    {
        match scalar {
            Scalar::At(place) => Ok(Some(self.name_at(alloc, *place)?)),
            _ => Ok(None),
        }
    }

    /// What a scalar without an aggregate emits. One that is only a column has that column's name.
    fn plain_column(&self, alloc: Global, scalar: Scalar) -> Result<EmittedColumn, Memory>
        ensures { IfOk result (λ made. emit_of made ≡ emit_of_scalar self.now (scalar_tree_of scalar)) }
    {
        let name = self.own_name(alloc, &scalar)?;
        let kind = self.kind_of(&scalar);
        Ok(EmittedColumn {
            scalar,
            aggregate: None,
            name,
            kind,
        })
    }

    /// What an aggregate of a scalar emits.
    fn aggregate_column(&self, op: AggOp, scalar: Scalar) -> EmittedColumn
        ensures { emit_of result ≡ aggregated self.now op (scalar_tree_of scalar) }
    {
        let kind = aggregate_kind(op, self.kind_of(&scalar));
        EmittedColumn {
            scalar,
            aggregate: Some(op),
            name: None,
            kind,
        }
    }

    /// What an expression emits; `None` where a reference doesn't mean one column, or an aggregate
    /// stands inside of it.
    fn column_of(&self, alloc: Global, expression: &Expr) -> Result<Option<EmittedColumn>, Memory>
        ensures { IfOk result
            (λ found. option_map emit_of found ≡ emit_of_tree self.now (tree_of expression.now)) }
    {
        match expression {
            Expr::Agg(op, None) => {
                let scalar = Scalar::Lit(Value::Bool(true));
                Ok(Some(self.aggregate_column(*op, scalar)))
            }
            Expr::Agg(op, Some(argument)) => match self.scalar(alloc, argument)? {
                Some(scalar) => Ok(Some(self.aggregate_column(*op, scalar))),
                None => Ok(None),
            },
            plain => match self.scalar(alloc, plain)? {
                Some(scalar) => Ok(Some(self.plain_column(alloc, scalar)?)),
                None => Ok(None),
            },
        }
    }

    /// The columns of the items with an alias, or all columns, in order.
    fn columns_under(
        &self,
        alloc: Global,
        alias: Option<&Text>,
    ) -> Result<Vec<EmittedColumn>, Memory>
        ensures { IfOk result
            (λ made. map emit_of made.items ≡ emits_under self.now (option_copied alias.entry)) }
    {
        let mut columns = Vec::new(alloc);
        for place in 0..self.len() {
            if self.is_emitted(alias, place) {
                columns.push(self.plain_column(alloc, Scalar::At(place))?)?;
            }
        }
        Ok(columns)
    }

    /// The columns of an emit item; `None` where a reference doesn't mean one column.
    fn columns_of(
        &self,
        alloc: Global,
        item: &EmitItem,
    ) -> Result<Option<Vec<EmittedColumn>>, Memory>
        ensures { IfOk result
            (λ found. option_map (λ v. map emit_of v.items) found
            ≡ emits_of_item self.now (emit_tree_of item.now)) }
    {
        match item {
            EmitItem::All => Ok(Some(self.columns_under(alloc, None)?)),
            EmitItem::AllOf(alias) => Ok(Some(self.columns_under(alloc, Some(alias))?)),
            EmitItem::One(expression, given) => {
                let Some(column) = self.column_of(alloc, expression)? else {
                    return Ok(None);
                };
                let column = named(alloc, given, column)?;
                Ok(Some(vec![in alloc; column]?))
            }
        }
    }

    /// The emitted columns, in order; `None` where a reference doesn't mean one column.
    pub fn emits(
        &self,
        alloc: Global,
        items: &[EmitItem],
    ) -> Result<Option<Vec<EmittedColumn>>, Memory>
        ensures { IfOk result
            (λ found. option_map (λ v. map emit_of v.items) found
            ≡ emits_of self.now (map emit_tree_of items.now)) }
    {
        let mut all = Vec::new(alloc);
        for item in items {
            let Some(mut columns) = self.columns_of(alloc, item)? else {
                return Ok(None);
            };
            all.append(&mut columns)?;
        }
        Ok(Some(all))
    }
}
