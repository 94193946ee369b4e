//! Scripts over one relation.
ghost use Rattle.std.specs.Prelude.{◌≡◌, All, IfOk, IsTrue, vec_len};
ghost use Rattle.rel_base.specs.Limits.{taps as tap_count};
ghost use Rattle.rel_base.specs.Relations.{HasTypes};
ghost use Rattle.myrial_ast.specs.Trees.{trees_of};
ghost use Rattle.algebra.specs.CheckedTrees.{checked_tree_of};
ghost use Rattle.algebra.specs.Conditions.{is_of};
ghost use Rattle.algebra.specs.Rewriting.{AreTyped};
ghost use Rattle.myrial_types.specs.Fetching.{have_forms};

use algebra::{Checked, Settings};
use engine::{Ran, run_script};
use myrial_ast::Script;
use myrial_lexer::lex;
use myrial_parser::parse;
use myrial_types::{check, fetches, steps_are_of_the_files};
use rel_base::{Duplicate, Files, MOST_SCRIPT_BYTES, Memory, Relation, RunFault};
use rel_io::Tap;
use relation_csv::read_relation;
use std::alloc::Global;
use std::sync::Wait;
use std::thread::Threads;

/// A script that is typed over its only file.
#[derive(Drop)]
pub(crate) struct Typed {
    checked: Checked,
    files: Files,
    ghost of: { IsTrue (is_of files (checked_tree_of checked)) },
    ghost typed: { AreTyped files },
}

impl Typed {
    /// The script of a text over the relation of a text; `Memory` also where it can't be run.
    pub(crate) fn new(alloc: Global, script: &str, relation: &str) -> Result<Typed, Memory> {
        let script = script_of(alloc, script)?;
        let relation = relation_of(alloc, relation)?;
        let files = files_of(alloc, &script, relation)?;
        let Ok(checked) = check(alloc, &script, &files) else {
            return Err(Memory);
        };
        // Law: the steps of a typed script are well formed.
        steps_are_of_the_files();
        Ok(Typed { checked, files })
    }

    /// Runs the script as the settings say.
    pub(crate) fn run<R: Threads + Wait + Sync, T: Tap + Send>(
        &self,
        rt: &R,
        alloc: Global,
        settings: &Settings,
        taps: &mut Vec<T>,
    ) -> Result<Ran, RunFault>
        requires { vec_len taps.old ≡ tap_count }
    {
        run_script(rt, alloc, &self.checked, &self.files, settings, None, taps)
    }
}

/// The script of a text; `Memory` also where it is none.
fn script_of(alloc: Global, text: &str) -> Result<Script, Memory> {
    let bytes = text.as_bytes();
    if bytes.len() > MOST_SCRIPT_BYTES as usize {
        return Err(Memory);
    }
    let Ok(tokens) = lex(alloc, bytes) else {
        return Err(Memory);
    };
    match parse(alloc, &tokens, bytes) {
        Ok(script) => Ok(script),
        Err(_) => Err(Memory),
    }
}

/// The relation of a text; `Memory` also where it is none.
fn relation_of(alloc: Global, text: &str) -> Result<Relation, Memory>
    ensures { IfOk result (λ made. All (HasTypes made.schema) made.rows) }
{
    match read_relation(alloc, text.as_bytes()) {
        Ok(relation) => Ok(relation),
        Err(_) => Err(Memory),
    }
}

/// The only file of a script that scans one relation; `Memory` also where it needs others.
fn files_of(alloc: Global, script: &Script, relation: Relation) -> Result<Files, Memory>
    requires { All (HasTypes relation.schema) relation.rows }
    ensures formed { IfOk result (λ files. IsTrue (have_forms files (trees_of script.now))) }
    ensures typed { IfOk result AreTyped }
{
    let needed = fetches(alloc, script)?;
    let [fetch] = needed.as_slice() else {
        return Err(Memory);
    };
    if fetch.form.is_some() {
        return Err(Memory);
    }
    let mut files = Files::new(alloc);
    files.push((fetch.key.copy(alloc)?, relation))?;
    Ok(files)
}
