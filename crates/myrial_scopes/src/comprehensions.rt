//! Comprehensions with places for their references.
ghost use Rattle.std.specs.Prelude.{◌≡◌, ◌++◌, ◌<◌, codes, IfOk, IfSome, Some, length, map, option_map, unwrap_or};
ghost use Rattle.std.specs.Fmt.{decimal};
ghost use Rattle.myrial_ast.specs.ScalarTrees.{scalar_tree_of};
ghost use Rattle.myrial_ast.specs.Trees.{tree_of, emit_tree_of};
ghost use Rattle.myrial_scopes.specs.Emits.{conjuncts_of, emits_of, numbered_name, resolved};
ghost use Rattle.myrial_scopes.specs.Resolutions.{emit_of, resolved_of};

use crate::emits::EmittedColumn;
use crate::scopes::Scope;
use myrial_ast::{EmitItems, Expr, Scalars};
use rel_base::{Column, Duplicate, Memory, Schema, Text};
use std::alloc::Global;

/// A comprehension with places for its references.
pub struct Comprehension {
    /// The conjuncts of its condition.
    pub conjuncts: Scalars,
    /// What it emits.
    pub emits: Vec<EmittedColumn>,
}

// Written out, since a derived drop is proved anew at each place where a value is let go.
impl Drop for Comprehension {
    fn drop(self) {
        let Comprehension {
            conjuncts: _,
            emits: _,
        } = self;
    }
}

/// The name of a column without one, by its place in the output.
fn numbered_name(alloc: Global, place: usize) -> Result<Text, Memory>
    ensures { IfOk result (λ name. name ≡ numbered_name place) }
{
    let name = format!(in alloc; "_COLUMN{place}_")?;
    Text::of(alloc, &name)
}

impl EmittedColumn {
    /// The column's name and type, at a place in the output.
    fn column(&self, alloc: Global, place: usize) -> Result<Column, Memory>
        ensures name { IfOk result
            (λ column. column.name ≡ unwrap_or (emit_of self.now).name (numbered_name place)) }
        ensures kind { IfOk result (λ column. column.kind ≡ (emit_of self.now).kind) }
    {
        let name = match &self.name {
            Some(name) => name.copy(alloc)?,
            None => numbered_name(alloc, place)?,
        };
        let kind = self.kind;
        Ok(Column { name, kind })
    }
}

impl Comprehension {
    /// The names and types of the emitted columns.
    pub fn schema(&self, alloc: Global) -> Result<Schema, Memory>
        ensures { IfOk result (λ schema. schema ≡ (resolved_of self.now).schema) }
    {
        let mut schema = Schema::new(alloc);
        for (place, emitted) in self.emits.iter().enumerate() {
            let column = emitted.column(alloc, place)?;
            if schema.len() == u32::MAX {
                return Err(Memory);
            }
            schema.push(column)?;
        }
        Ok(schema)
    }
}

impl Scope<'_> {
    /// The comprehension of this condition and these emit items; `None` where a reference doesn't
    /// mean one column.
    pub fn resolve(
        &self,
        alloc: Global,
        condition: &Option<Expr>,
        emits: &EmitItems,
    ) -> Result<Option<Comprehension>, Memory>
        ensures resolved { IfOk result (λ found. option_map resolved_of found
            ≡ resolved self.now (option_map tree_of condition.now) (map emit_tree_of emits.now)) }
        ensures conjuncts { IfOk result (λ found. IfSome found (λ c.
            conjuncts_of self.now (option_map tree_of condition.now) ≡ Some (map scalar_tree_of c.conjuncts))) }
        ensures emits { IfOk result (λ found. IfSome found (λ c.
            emits_of self.now (map emit_tree_of emits.now) ≡ Some (map emit_of c.emits.items))) }
    {
        let Some(conjuncts) = self.conjuncts(alloc, condition)? else {
            return Ok(None);
        };
        let Some(emits) = self.emits(alloc, emits.as_slice())? else {
            return Ok(None);
        };
        Ok(Some(Comprehension { conjuncts, emits }))
    }
}
