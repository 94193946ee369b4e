//! Whether each statement of a script stands for something, which `evaluate` requires.
ghost use Rattle.std.specs.Prelude.{◌≡◌, map, option_map, IfOk, IsTrue};
ghost use Rattle.std.specs.Option.{option_copied};
ghost use Rattle.myrial_ast.specs.Trees.{tree_of, emit_tree_of, rel_tree_of, statement_tree_of, trees_of};
ghost use Rattle.myrial_meaning.specs.Environments.{assigned_to, operand_of};
ghost use Rattle.myrial_meaning.specs.Meaning.{comprehension_over, relation_of};
ghost use Rattle.algebra.specs.Conditions.{kinds_of_columns, same_kinds};
ghost use Rattle.myrial_meaning.specs.Runnable.{is_defined, has_meaning, kinds_of_relation, operands_fit};
ghost use Rattle.myrial_meaning.specs.inner.Columns.{columns_of_two, declared};

use crate::environment::Environment;
use crate::holding::Held;
use crate::items::{ItemRelation, schemas_of};
use algebra::is_kind;
use myrial_ast::{EmitItems, Expr, Operand, RelExpr, Script, Stmt};
use myrial_scopes::Scope;
use rel_base::{Column, Duplicate, Files, Memory, Relation, Rows, Schema, Text};
use std::alloc::Global;

/// The columns of a comprehension over these items; `None` where a reference doesn't mean one
/// column.
fn columns_over<'a>(
    alloc: Global,
    items: &[ItemRelation<'a>],
    condition: &Option<Expr>,
    emits: &EmitItems,
) -> Result<Option<Schema>, Memory>
    ensures { IfOk result (λ found. found
        ≡ option_map (λ t. t.schema)
        (comprehension_over items.now (option_map tree_of condition.now)
        (map emit_tree_of emits.now))) }
{
    let schemas = schemas_of(alloc, items)?;
    let scope = Scope::of(alloc, &schemas)?;
    let Some(comprehension) = scope.resolve(alloc, condition, emits)? else {
        return Ok(None);
    };
    let schema = comprehension.schema(alloc)?;
    Ok(Some(schema))
}

/// Whether two lists of columns have the same types, one after another.
pub fn have_same_kinds(columns: &[Column], others: &[Column]) -> bool
    ensures { result ≡ same_kinds (kinds_of_columns columns.now) (kinds_of_columns others.now) }
{
    match (columns, others) {
        ([], []) => true,
        ([column, columns @ ..], [other, others @ ..]) => {
            is_kind(column.kind, Some(other.kind)) && have_same_kinds(columns, others)
        }
        _ => false,
    }
}

/// The columns of a relation; none where there is no relation.
fn columns_in(relation: Option<&Relation>) -> &[Column]
    ensures { kinds_of_columns result.now ≡ kinds_of_relation (option_copied relation.entry) }
{
    match relation {
        Some(relation) => relation.schema().as_slice(),
        None => &[],
    }
}

impl<'a> Environment<'a> {
    /// Whether the operands of a relation expression have columns of the same types, where they
    /// have to.
    fn operands_fit(&self, files: &'a Files, relation: &RelExpr) -> bool
        ensures { result ≡ operands_fit files.entry.now self.now (rel_tree_of relation.now) }
    {
        match relation {
            RelExpr::UnionAll(left, right) | RelExpr::Diff(left, right) => {
                let left = columns_in(self.operand(files, left));
                have_same_kinds(left, columns_in(self.operand(files, right)))
            }
            _ => true,
        }
    }

    /// The columns of an operand; `None` where it stands for no relation.
    fn columns_of_operand(
        &self,
        alloc: Global,
        files: &'a Files,
        operand: &Operand,
    ) -> Result<Option<Schema>, Memory>
        ensures { IfOk result
            (λ found. found ≡ option_map (λ t. t.schema)
            (operand_of files.entry.now self.now operand.now)) }
    {
        match self.operand(files, operand) {
            Some(relation) => Ok(Some(relation.schema().copy(alloc)?)),
            None => Ok(None),
        }
    }

    /// The columns of the first of two operands; `None` where one of them stands for no relation.
    fn columns_of_first(
        &self,
        alloc: Global,
        files: &'a Files,
        first: &Operand,
        second: &Operand,
    ) -> Result<Option<Schema>, Memory>
        ensures { IfOk result
            (λ found. found ≡ columns_of_two (operand_of files.entry.now self.now first.now)
            (operand_of files.entry.now self.now second.now)) }
    {
        if self.operand(files, second).is_none() {
            return Ok(None);
        }
        self.columns_of_operand(alloc, files, first)
    }

    /// The columns of a relation expression; `None` where it stands for no relation.
    fn columns_of(
        &self,
        alloc: Global,
        files: &'a Files,
        relation: &RelExpr,
    ) -> Result<Option<Schema>, Memory>
        ensures { IfOk result
            (λ found. found ≡ option_map (λ t. t.schema)
            (relation_of files.entry.now self.now (rel_tree_of relation.now))) }
    {
        match relation {
            RelExpr::Copy(operand) => self.columns_of_operand(alloc, files, operand),
            RelExpr::Empty(schema) => Ok(Some(schema.copy(alloc)?)),
            RelExpr::Distinct(operand) => self.columns_of_operand(alloc, files, operand),
            RelExpr::UnionAll(left, right) => self.columns_of_first(alloc, files, left, right),
            RelExpr::Diff(left, right) => self.columns_of_first(alloc, files, left, right),
            RelExpr::From(items, condition, emits) => {
                let Some(items) = self.item_relations(alloc, files, items.as_slice())? else {
                    return Ok(None);
                };
                columns_over(alloc, &items, condition, emits)
            }
        }
    }

    /// The columns of what a name stands for; `None` where it stands for nothing.
    fn columns_under(&self, alloc: Global, name: &Text) -> Result<Option<Schema>, Memory>
        ensures { IfOk result (λ found. found ≡ option_map (λ t. t.schema) (assigned_to self.now name.now)) }
    {
        match self.assigned_to(name) {
            Some(held) => Ok(Some(held.relation().schema().copy(alloc)?)),
            None => Ok(None),
        }
    }

    /// Whether a statement stands for something; if so, the names stand for its columns, without
    /// rows, from now on.
    fn declare(
        &mut self,
        alloc: Global,
        files: &'a Files,
        statement: &'a Stmt,
    ) -> Result<bool, Memory>
        ensures defined { IfOk result
            (λ is_so. is_so ≡ is_defined files.entry.now self.old
            (statement_tree_of statement.entry.now)) }
        ensures declared { IfOk result
            (λ is_so. IsTrue is_so
            → self.new ≡ declared files.entry.now self.old
            (statement_tree_of statement.entry.now)) }
    {
        match statement {
            Stmt::Nothing => Ok(true),
            Stmt::Assign(name, relation) => {
                let Some(schema) = self.columns_of(alloc, files, relation)? else {
                    return Ok(false);
                };
                if !self.operands_fit(files, relation) {
                    return Ok(false);
                }
                let bare = Relation::new(schema, Rows::new(alloc));
                self.assign(name, Held::Made(bare))?;
                Ok(true)
            }
            Stmt::Store(name, key) => {
                let Some(schema) = self.columns_under(alloc, name)? else {
                    return Ok(false);
                };
                let bare = Relation::new(schema, Rows::new(alloc));
                self.keep(key.copy(alloc)?, bare)?;
                Ok(true)
            }
        }
    }
}

/// Whether each statement stands for something: each name and key for a relation, each reference
/// for one column, and the operands of a `unionall` or a `diff` for columns of the same types.
/// Rows are not looked at.
pub fn has_meaning<'a>(alloc: Global, script: &'a Script, files: &'a Files) -> Result<bool, Memory>
    ensures { IfOk result (λ means. means ≡ has_meaning files.entry.now (trees_of script.entry.now)) }
{
    let mut names = Environment::new(alloc);
    for statement in script.as_slice() {
        if !names.declare(alloc, files, statement)? {
            return Ok(false);
        }
    }
    Ok(true)
}
