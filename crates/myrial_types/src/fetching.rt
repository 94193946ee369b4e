//! The files that a script needs.
ghost use Rattle.std.specs.Prelude.{◌≡◌, ◌++◌, ◌∷◌, [], map, IfOk, OnOk};
ghost use Rattle.std.specs.List.{flat_map};
ghost use Rattle.indexmap.specs.IndexSet.{insert_all};
ghost use Rattle.rel_base.specs.Keys.{same_key};
ghost use Rattle.myrial_ast.specs.Loads.{load_key};
ghost use Rattle.myrial_ast.specs.Operands.{operands_of};
ghost use Rattle.myrial_ast.specs.Trees.{rel_tree_of, trees_of};
ghost use Rattle.myrial_meaning.specs.Fetches.{fetched_keys, fetches, form_among, has_key, keys_needed, loads_in};

use crate::loads::{Load, form_among, push_loads};
use indexmap::IndexSet;
use myrial_ast::{LoadForm, Operand, RelExpr, Script, Stmt};
use myrial_meaning::{Fetch, Fetches};
use rel_base::{Duplicate, Key, Keys, Memory, Text};
use std::alloc::Global;

/// The key of the loaded file of a name.
fn load_key(alloc: Global, name: &Text) -> Result<Key, Memory>
    ensures { IfOk result (λ key. key ≡ load_key name.now) }
{
    let user = Text::of(alloc, "")?;
    let program = Text::of(alloc, "")?;
    let name = name.copy(alloc)?;
    Ok(Key {
        user,
        program,
        name,
    })
}

/// Whether the key is among these.
fn is_among(keys: &[Key], key: &Key) -> bool
    ensures { result ≡ has_key keys.now key.now }
{
    keys.iter().any(|other| other == key)
}

/// Adds a key at the end.
fn push_key(alloc: Global, key: &Key, into: &mut Keys) -> Result<(), Memory>
    ensures { OnOk result (into.new ≡ into.old ++ key.now ∷ []) }
{
    if into.len() == u32::MAX {
        return Err(Memory);
    }
    into.push(key.copy(alloc)?)
}

/// Adds the key of the file that an operand needs, where these keys were stored, unless it is
/// there.
fn insert_key(
    alloc: Global,
    stored: &Keys,
    operand: &Operand,
    keys: &mut IndexSet<Key>,
) -> Result<(), Memory>
    ensures { OnOk result (keys.new.keys
        ≡ insert_all same_key keys.old.keys (keys_needed stored.now operand.now)) }
{
    match operand {
        Operand::Named(_) => {}
        Operand::Scan(key) => {
            if !is_among(stored.as_slice(), key) {
                keys.insert(key.copy(alloc)?)?;
            }
        }
        Operand::Load(name, _, _) => {
            keys.insert(load_key(alloc, name)?)?;
        }
    }
    Ok(())
}

/// Adds the keys of the files that a relation expression needs, where these keys were stored, each
/// unless it is there.
fn insert_keys(
    alloc: Global,
    stored: &Keys,
    relation: &RelExpr,
    keys: &mut IndexSet<Key>,
) -> Result<(), Memory>
    ensures { OnOk result (keys.new.keys
        ≡ insert_all same_key keys.old.keys
        (flat_map (keys_needed stored.now) (operands_of (rel_tree_of relation.now)))) }
{
    let operands = relation.operands(alloc)?;
    for operand in &operands {
        insert_key(alloc, stored, operand, keys)?;
    }
    Ok(())
}

/// The keys whose files a script needs, each once, in order.
fn needed_keys(alloc: Global, script: &[Stmt]) -> Result<IndexSet<Key>, Memory>
    ensures { IfOk result (λ keys. keys.keys ≡ fetched_keys (trees_of script.now)) }
{
    let mut stored = Keys::new(alloc);
    let mut keys = IndexSet::new(alloc);
    for statement in script {
        match statement {
            Stmt::Nothing => {}
            Stmt::Assign(_, relation) => insert_keys(alloc, &stored, relation, &mut keys)?,
            Stmt::Store(_, key) => push_key(alloc, key, &mut stored)?,
        }
    }
    Ok(keys)
}

/// The loads of a script, in order.
fn loads_of<'a>(alloc: Global, script: &'a [Stmt]) -> Result<Vec<Load<'a>>, Memory>
    ensures { IfOk result (λ loads. loads.items ≡ flat_map loads_in (trees_of script.entry.now)) }
{
    let mut loads = Vec::new(alloc);
    for statement in script {
        if let Stmt::Assign(_, relation) = statement {
            push_loads(alloc, relation, &mut loads)?;
        }
    }
    Ok(loads)
}

/// Adds the fetch of a key, whose file is loaded in this form or not loaded.
fn push_fetch(
    alloc: Global,
    key: &Key,
    form: Option<LoadForm>,
    into: &mut Fetches,
) -> Result<(), Memory>
    ensures { OnOk result
        (into.new ≡ into.old ++ record { key = key.now; form = form } ∷ []) }
{
    let key = key.copy(alloc)?;
    if into.len() == u32::MAX {
        return Err(Memory);
    }
    into.push(Fetch { key, form })
}

/// The fetch of each of these keys, in order, with the form of the first of these loads of its
/// file.
fn fetch_each(alloc: Global, keys: &[Key], loads: &[Load]) -> Result<Fetches, Memory>
    ensures { IfOk result (λ found. found
        ≡ map (λ key. record { key = key; form = form_among loads.now key }) keys.now) }
{
    let mut found = Fetches::new(alloc);
    for key in keys {
        let form = form_among(alloc, loads, key)?;
        push_fetch(alloc, key, form, &mut found)?;
    }
    Ok(found)
}

/// The files that a script needs, each once, in the order of their first scans and loads.
///
/// A scan needs a file where no earlier statement stores its key; a load needs its file in any
/// case, and the form of a file that is loaded more than once is that of its first load.
pub fn fetches(alloc: Global, script: &Script) -> Result<Fetches, Memory>
    ensures { IfOk result (λ found. found ≡ fetches (trees_of script.now)) }
{
    let keys = needed_keys(alloc, script.as_slice())?;
    let loads = loads_of(alloc, script.as_slice())?;
    fetch_each(alloc, keys.as_slice(), &loads)
}
