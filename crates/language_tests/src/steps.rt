//! A script that is typed.
use crate::fixtures::{files_of, script_of};
use algebra::{Checked, Source, Term};
use myrial_types::{check, fetches};
use std::alloc::Global;
use std::test::Fail;

const SCRIPT: &str = "A = scan(R); store(A, R);";

#[test]
fn a_file_is_fetched(rt: HostRuntime) -> Result<(), Fail> {
    let alloc = rt.alloc();
    let script = script_of(alloc, SCRIPT)?;
    assert_eq!(rt; fetches(alloc, &script)?.len(), 1);
    Ok(())
}

/// What the script comes to.
fn checked_script(alloc: Global) -> Result<Checked, Fail> {
    let script = script_of(alloc, SCRIPT)?;
    let files = files_of(alloc, "x:int\n")?;
    Ok(check(alloc, &script, &files)?)
}

#[test]
fn a_script_of_two_statements_has_a_step_and_a_store(rt: HostRuntime) -> Result<(), Fail> {
    let checked = checked_script(rt.alloc())?;
    assert_eq!(rt; checked.steps.len(), 1);
    assert!(rt; matches!(&checked.steps.get(0).term, Term::Same(Source::File(0))));
    assert_eq!(rt; checked.stores.len(), 1);
    Ok(())
}
