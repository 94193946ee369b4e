//! The evaluation of a script.
ghost use Rattle.std.specs.Prelude.{◌≡◌, IsTrue, None, map, IfOk, OnOk, IfErr, false};
ghost use Rattle.myrial_ast.specs.Trees.{trees_of};
ghost use Rattle.myrial_meaning.specs.Meaning.{stored_relations};
ghost use Rattle.myrial_ast.specs.CandidateFaults.{joins_alone};
ghost use Rattle.myrial_meaning.specs.Faults.{in_each, run_fault};
ghost use Rattle.myrial_meaning.specs.Runnable.{has_meaning};
ghost use Rattle.myrial_meaning.specs.SortedFiles.{sorted_file};
ghost use Rattle.myrial_meaning.specs.Evaluating.{IsFault};

use crate::environment::Environment;
use crate::needed::needed_flags;
use myrial_ast::Script;
use rel_base::{Files, RunFault, Stored};
use std::alloc::Global;

/// What the stores of a script store, in their order, each relation's rows in ascending order.
///
/// Statements that no store needs are not run. Rows are lent and shared, and never copied for a
/// combination; a comprehension of n rows and m rows takes time in n * m.
pub fn evaluate<'a>(alloc: Global, script: &'a Script, files: &'a Files) -> Result<Stored, RunFault>
    requires meaning { IsTrue (has_meaning files.now (trees_of script.now)) }
    ensures stored { IfOk result
        (λ stored. stored
        ≡ map sorted_file (stored_relations files.entry.now (trees_of script.entry.now))) }
    ensures no_fault { OnOk result
        (run_fault (in_each joins_alone) files.entry.now (trees_of script.entry.now) ≡ None) }
    ensures fault { IfErr result
        (λ fault. IsFault fault
        (run_fault (in_each joins_alone) files.entry.now (trees_of script.entry.now))) }
{
    let needed = needed_flags(alloc, script.as_slice())?;
    let mut names = Environment::new(alloc);
    for i in 0..script.len() {
        let statement = script.get(i);
        if needed[i as usize] {
            match names.run(alloc, files, i + 1, statement) {
                Ok(()) => {}
                Err(fault) => return Err(fault),
            }
        }
    }
    Ok(names.into_stored(alloc)?)
}
