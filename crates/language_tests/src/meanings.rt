//! What scripts store of a file, evaluated with ample memory.
use crate::fixtures::{files_of, script_of};
use myrial_ast::Script;
use myrial_meaning::{evaluate, has_meaning};
use rel_base::{Files, RunFault, Stored};
use relation_csv::{RelFault, read_relation};
use std::alloc::Global;
use std::process::Abort;
use std::test::Fail;

/// What a script stores of these files.
fn evaluated(
    rt: &impl Abort,
    alloc: Global,
    script: &Script,
    files: &Files,
) -> Result<Stored, RunFault> {
    assert!(rt; has_meaning(alloc, script, files)?);
    evaluate(alloc, script, files)
}

/// What a script stores where R has this text.
fn stored_of(rt: &impl Abort, alloc: Global, source: &str, text: &str) -> Result<Stored, Fail> {
    let script = script_of(alloc, source)?;
    let files = files_of(alloc, text)?;
    Ok(evaluated(rt, alloc, &script, &files)?)
}

/// Whether one relation is stored, which has the rows of this text in their order.
fn is_stored(alloc: Global, stored: &Stored, text: &str) -> Result<bool, RelFault> {
    let wanted = read_relation(alloc, text.as_bytes())?;
    Ok(stored.len() == 1 && stored.get(0).1.rows() == wanted.rows())
}

#[test]
fn each_script_stores_its_relation(rt: HostRuntime) -> Result<(), Fail> {
    let alloc = rt.alloc();
    let table = [
        (
            "J = [from scan(R) as a, scan(R) as b where a.y = b.x emit a.x, b.y]; store(J, Out);",
            "x:int,y:int\n1,2\n2,3\n2,3\n3,1\n",
            "x:int,y:int\n1,3\n1,3\n2,1\n2,1\n3,2\n",
        ),
        (
            "J = unionall(scan(R), scan(R)); store(J, Out);",
            "x:int,y:int\n2,1\n1,2\n",
            "x:int,y:int\n1,2\n1,2\n2,1\n2,1\n",
        ),
        (
            "J = [from scan(R) as a emit a.x, sum(a.y)]; store(J, Out);",
            "x:int,y:int\n2,1\n1,9223372036854775807\n2,5\n1,-1\n",
            "x:int,y:int\n1,9223372036854775806\n2,6\n",
        ),
    ];
    for (source, text, wanted) in table {
        let stored = stored_of(&rt, alloc, source, text)?;
        assert!(rt; is_stored(alloc, &stored, wanted)?, "{source}");
    }
    Ok(())
}
