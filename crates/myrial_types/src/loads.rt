//! The loads of a script.
ghost use Rattle.std.specs.Prelude.{◌≡◌, ◌++◌, IfOk, OnOk};
ghost use Rattle.std.specs.List.{flat_map, list_any};
ghost use Rattle.std.specs.Option.{option_to_list};
ghost use Rattle.myrial_ast.specs.Loads.{is_load_key};
ghost use Rattle.myrial_ast.specs.Operands.{operands_of};
ghost use Rattle.myrial_ast.specs.Trees.{rel_tree_of};
ghost use Rattle.myrial_meaning.specs.Fetches.{form_among, loads_of};
ghost use Rattle.myrial_types.specs.Fetching.{contradicts, same_columns};

use myrial_ast::{LoadForm, Operand, RelExpr};
use rel_base::{Duplicate, Key, Memory, Schema, Text};
use std::alloc::Global;
use std::marker::Model;

/// A load: the name of a file, and the form that is written for it.
#[derive(Drop)]
pub(crate) struct Load<'a> {
    name: &'a Text,
    schema: &'a Schema,
    skip: u64,
}

impl<'a> Model for Load<'a> {
    ghost use Rattle.myrial_meaning.specs.Fetches.{Load as Written};

    ghost Value = { Written };

    ghost view = { λ l. (l.name.now, record { schema = l.schema.now; skip = l.skip }) };
}

/// Whether a key is that of the loaded file of a name.
pub(crate) fn is_load_key(name: &Text, key: &Key) -> bool
    ensures { result ≡ is_load_key name.now key.now }
{
    key.user.as_str().is_empty() && key.program.as_str().is_empty() && key.name == *name
}

/// Whether two lists of columns have the same names and types, in the same order.
fn are_same_columns(columns: &Schema, others: &Schema) -> bool
    ensures { result ≡ same_columns columns.now others.now }
{
    *columns == *others
}

impl<'a> Load<'a> {
    /// An operand that is a load.
    fn of(operand: &'a Operand) -> Option<Load<'a>>
        ensures { option_to_list result ≡ loads_of operand.entry.now }
    {
        match operand {
            Operand::Load(name, schema, skip) => Some(Load {
                name,
                schema,
                skip: *skip,
            }),
            _ => None,
        }
    }

    /// The form that is written.
    fn form(&self, alloc: Global) -> Result<LoadForm, Memory>
        ensures { IfOk result (λ form. form ≡ self.now.1) }
    {
        let schema = self.schema.copy(alloc)?;
        let skip = self.skip;
        Ok(LoadForm { schema, skip })
    }

    /// Whether another load gives the file another form.
    fn contradicts(&self, other: &Load) -> bool
        ensures { result ≡ contradicts self.now other.now }
    {
        *self.name == *other.name
            && !(are_same_columns(self.schema, other.schema) && self.skip == other.skip)
    }

    /// Whether one of these gives the file another form.
    pub(crate) fn is_contradicted(&self, earlier: &[Load]) -> bool
        ensures { result ≡ list_any (contradicts self.now) earlier.now }
    {
        earlier.iter().any(|load| self.contradicts(load))
    }
}

/// Adds the loads of a relation expression, in order.
pub(crate) fn push_loads<'a>(
    alloc: Global,
    relation: &'a RelExpr,
    into: &mut Vec<Load<'a>>,
) -> Result<(), Memory>
    ensures { OnOk result (into.new.items
        ≡ into.old.items ++ flat_map loads_of (operands_of (rel_tree_of relation.entry.now))) }
{
    let operands = relation.operands(alloc)?;
    for operand in operands {
        if let Some(load) = Load::of(operand) {
            into.push(load)?;
        }
    }
    Ok(())
}

/// The form of the first of these loads that loads the file of a key; `None` where none does.
pub(crate) fn form_among(
    alloc: Global,
    loads: &[Load],
    key: &Key,
) -> Result<Option<LoadForm>, Memory>
    ensures { IfOk result (λ form. form ≡ form_among loads.now key.now) }
{
    for load in loads {
        if is_load_key(load.name, key) {
            return Ok(Some(load.form(alloc)?));
        }
    }
    Ok(None)
}
