//! The relations of a trial. What they are is said by clauses and worked rows.
use rel_base::{Files, Value};
use std::test::Fail;
use trial_gen::trial_files;

/// The first row of the first relation.
fn first_row(files: &Files) -> Option<&[Value]> {
    let (_, relation) = files.as_slice().first()?;
    relation.rows().iter().next()
}

#[test]
fn three_relations_are_made(rt: HostRuntime) -> Result<(), Fail> {
    let files = trial_files(rt.alloc(), 2000)?;
    assert_eq!(rt; files.len(), 3);
    let row = first_row(&files).expect(&rt, "a row");
    assert_eq!(rt; row, [Value::Int(67), Value::Int(58)].as_slice());
    Ok(())
}
