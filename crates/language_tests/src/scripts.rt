//! A script with its statements and one with its fault. Trees are worked rows of the grammar, and
//! `checks/scripts` has the faults and the limits.
use crate::fixtures::script_of;
use myrial_lexer::lex;
use myrial_parser::{ParseFault, parse};
use std::test::Fail;

#[test]
fn a_script_has_its_statements(rt: HostRuntime) -> Result<(), Fail> {
    let alloc = rt.alloc();
    assert_eq!(rt; script_of(alloc, "A = scan(R);; store(A, Out);")?.len(), 3);
    Ok(())
}

#[test]
fn the_first_fault_is_told(rt: HostRuntime) -> Result<(), Fail> {
    let alloc = rt.alloc();
    let source = b"A = scan(R); store(A, Out) x";
    let fault = parse(alloc, &lex(alloc, source)?, source).err();
    assert_eq!(rt; fault, Some(ParseFault::Syntax { statement: 2 }));
    Ok(())
}
