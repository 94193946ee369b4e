//! Relation expressions: what stands behind the `=` of an assignment.
ghost use Rattle.std.specs.Prelude.{◌≡◌, IfOk, map, option_map};
ghost use Rattle.myrial_ast.specs.Operands.{operands_of};
ghost use Rattle.myrial_ast.specs.Trees.{tree_of, emit_tree_of, rel_tree_of};

use crate::expressions::Expr;
use rel_base::{Duplicate, Items, Key, Memory, Schema, Text};
use std::alloc::Global;

/// A relation that is named: one that an earlier statement assigned, a stored one, or a file
/// without a header.
#[derive(Debug)]
pub enum Operand {
    /// The relation that was assigned to a name.
    Named(Text),
    /// The relation that is stored under a key.
    Scan(Key),
    /// The file of a name, without a header: read by these columns, behind so many records.
    Load(Text, Schema, u64),
}

// Written out, since a derived drop is proved anew at each place where a value is let go.
impl Drop for Operand {
    fn drop(self) {
        match self {
            Operand::Named(_) | Operand::Scan(_) | Operand::Load(_, _, _) => {}
        }
    }
}

/// How the file of a load is read.
#[derive(Debug, Drop)]
pub struct LoadForm {
    /// The columns that the script writes.
    pub schema: Schema,
    /// How many records are passed over.
    pub skip: u64,
}

/// An item of a comprehension.
#[derive(Debug)]
pub struct FromItem {
    /// The relation whose rows the item goes over.
    pub source: Operand,
    /// The name by which columns are told to be the item's.
    pub alias: Text,
}

// Written out, since a derived drop is proved anew at each place where a value is let go.
impl Drop for FromItem {
    fn drop(self) {
        let FromItem {
            source: _,
            alias: _,
        } = self;
    }
}

/// The items of a comprehension, in order.
pub type FromItems = Items<FromItem>;

/// What a comprehension emits.
#[derive(Debug)]
pub enum EmitItem {
    /// `*`: all columns of all items.
    All,
    /// `T.*`: all columns of the item with the alias `T`.
    AllOf(Text),
    /// An expression, and the name of its column where one is given.
    One(Expr, Option<Text>),
}

// Written out, since a derived drop is proved anew at each place where a value is let go.
impl Drop for EmitItem {
    fn drop(self) {
        match self {
            EmitItem::All | EmitItem::AllOf(_) | EmitItem::One(_, _) => {}
        }
    }
}

/// What a comprehension emits, in order.
pub type EmitItems = Items<EmitItem>;

/// A relation made of named ones.
#[derive(Debug)]
pub enum RelExpr {
    /// The operand itself.
    Copy(Operand),
    /// No row, with these columns.
    Empty(Schema),
    /// Each row once.
    Distinct(Operand),
    /// The rows of both.
    UnionAll(Operand, Operand),
    /// Each row of the first that the second doesn't have, once.
    Diff(Operand, Operand),
    /// A comprehension: its items, its condition where it has one, and what it emits.
    From(FromItems, Option<Expr>, EmitItems),
}

// Written out, since a derived drop is proved anew at each place where a value is let go.
impl Drop for RelExpr {
    fn drop(self) {
        match self {
            RelExpr::Copy(_)
            | RelExpr::Empty(_)
            | RelExpr::Distinct(_)
            | RelExpr::UnionAll(_, _)
            | RelExpr::Diff(_, _)
            | RelExpr::From(_, _, _) => {}
        }
    }
}

impl Duplicate for Operand {
    fn copy(&self, alloc: Global) -> Result<Operand, Memory> {
        match self {
            Operand::Named(name) => Ok(Operand::Named(name.copy(alloc)?)),
            Operand::Scan(key) => Ok(Operand::Scan(key.copy(alloc)?)),
            Operand::Load(name, schema, skip) => {
                let name = name.copy(alloc)?;
                Ok(Operand::Load(name, schema.copy(alloc)?, *skip))
            }
        }
    }
}

impl Duplicate for LoadForm {
    fn copy(&self, alloc: Global) -> Result<LoadForm, Memory> {
        Ok(LoadForm {
            schema: self.schema.copy(alloc)?,
            skip: self.skip,
        })
    }
}

impl Duplicate for FromItem {
    fn copy(&self, alloc: Global) -> Result<FromItem, Memory> {
        let source = self.source.copy(alloc)?;
        let alias = self.alias.copy(alloc)?;
        Ok(FromItem { source, alias })
    }
}

/// The same text, where there is one.
fn copy_of_text(alloc: Global, text: &Option<Text>) -> Result<Option<Text>, Memory>
    ensures { IfOk result (λ made. made ≡ text.now) }
{
    match text {
        None => Ok(None),
        Some(text) => Ok(Some(text.copy(alloc)?)),
    }
}

/// An expression with the same tree, where there is one.
fn copy_of_expression(alloc: Global, expression: &Option<Expr>) -> Result<Option<Expr>, Memory>
    ensures { IfOk result (λ made. option_map tree_of made ≡ option_map tree_of expression.now) }
{
    match expression {
        None => Ok(None),
        Some(expression) => Ok(Some(expression.copy(alloc)?)),
    }
}

/// Emit items with the same trees.
fn copy_of_emits(alloc: Global, emits: &EmitItems) -> Result<EmitItems, Memory>
    ensures { IfOk result (λ made. map emit_tree_of made ≡ map emit_tree_of emits.now) }
{
    let mut copies = EmitItems::with_capacity(alloc, emits.len())?;
    for emit in emits.as_slice() {
        copies.push(emit.copy(alloc)?)?;
    }
    Ok(copies)
}

impl EmitItem {
    /// An emit item with the same tree, in memory of its own.
    pub fn copy(&self, alloc: Global) -> Result<EmitItem, Memory>
        ensures { IfOk result (λ made. emit_tree_of made ≡ emit_tree_of self.now) }
    {
        match self {
            EmitItem::All => Ok(EmitItem::All),
            EmitItem::AllOf(alias) => Ok(EmitItem::AllOf(alias.copy(alloc)?)),
            EmitItem::One(expression, name) => {
                let expression = expression.copy(alloc)?;
                Ok(EmitItem::One(expression, copy_of_text(alloc, name)?))
            }
        }
    }
}

/// The sources of the items, in order.
fn sources_of(alloc: Global, items: &[FromItem]) -> Result<Vec<&Operand>, Memory>
    ensures { IfOk result
        (λ found. map (λ o. o.now) found.items ≡ map (λ item. item.source) items.entry.now) }
{
    let mut sources = Vec::with_capacity(alloc, items.len())?;
    for item in items {
        sources.push(&item.source)?;
    }
    Ok(sources)
}

impl RelExpr {
    /// The operands, in order.
    pub fn operands(&self, alloc: Global) -> Result<Vec<&Operand>, Memory>
        ensures { IfOk result
            (λ found. map (λ o. o.now) found.items ≡ operands_of (rel_tree_of self.entry.now)) }
    {
        match self {
            RelExpr::Empty(_) => Ok(Vec::new(alloc)),
            RelExpr::Copy(operand) => Ok(vec![in alloc; operand]?),
            RelExpr::Distinct(operand) => Ok(vec![in alloc; operand]?),
            RelExpr::UnionAll(left, right) => Ok(vec![in alloc; left, right]?),
            RelExpr::Diff(left, right) => Ok(vec![in alloc; left, right]?),
            RelExpr::From(items, _, _) => sources_of(alloc, items.as_slice()),
        }
    }

    /// A relation expression with the same tree, in memory of its own.
    pub fn copy(&self, alloc: Global) -> Result<RelExpr, Memory>
        ensures { IfOk result (λ made. rel_tree_of made ≡ rel_tree_of self.now) }
    {
        match self {
            RelExpr::Copy(operand) => Ok(RelExpr::Copy(operand.copy(alloc)?)),
            RelExpr::Empty(schema) => Ok(RelExpr::Empty(schema.copy(alloc)?)),
            RelExpr::Distinct(operand) => Ok(RelExpr::Distinct(operand.copy(alloc)?)),
            RelExpr::UnionAll(left, right) => {
                let left = left.copy(alloc)?;
                Ok(RelExpr::UnionAll(left, right.copy(alloc)?))
            }
            RelExpr::Diff(left, right) => {
                let left = left.copy(alloc)?;
                Ok(RelExpr::Diff(left, right.copy(alloc)?))
            }
            RelExpr::From(items, condition, emits) => {
                let items = items.copy(alloc)?;
                let condition = copy_of_expression(alloc, condition)?;
                Ok(RelExpr::From(items, condition, copy_of_emits(alloc, emits)?))
            }
        }
    }
}
