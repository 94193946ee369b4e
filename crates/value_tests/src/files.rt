//! Files from outside, read as they were meant, where they stand or record by record, and written.
use rel_base::{Memory, Relation};
use relation_csv::{
    RelFault, header_text, read_relation, read_relation_in_jobs, read_with, row_text,
};
use std::alloc::Global;

/// The file that is written of a relation.
fn file_text(alloc: Global, relation: &Relation) -> Result<Vec<u8>, Memory> {
    let mut text = Vec::new(alloc);
    header_text(relation.schema(), &mut text)?;
    for row in relation.rows() {
        row_text(row, &mut text)?;
    }
    Ok(text)
}

/// The file that is written of what a file is read as.
fn written_again(alloc: Global, file: &[u8]) -> Result<Vec<u8>, RelFault> {
    let relation = read_relation(alloc, file)?;
    Ok(file_text(alloc, &relation)?)
}

const QUOTED: &[u8] =
    b"name,n:long,ok:Boolean\r\n\"a,\nb\",-9223372036854775808,TRUE\r\n\"\",+7,false\r\n";

const QUOTED_AGAIN: &[u8] =
    b"name:string,n:int,ok:boolean\n\"a,\nb\",-9223372036854775808,true\n,7,false\n";

const PLAIN: &[u8] =
    b"\xef\xbb\xbf\nname,n:long,ok:Boolean\n\nann,-9223372036854775808,TRUE\n,+7,false";

const PLAIN_AGAIN: &[u8] =
    b"name:string,n:int,ok:boolean\nann,-9223372036854775808,true\n,7,false\n";

#[test]
fn a_file_with_quotes_is_read(rt: HostRuntime) -> Result<(), RelFault> {
    assert!(rt; written_again(rt.alloc(), QUOTED)?.as_slice() == QUOTED_AGAIN);
    Ok(())
}

#[test]
fn a_plain_file_is_read(rt: HostRuntime) -> Result<(), RelFault> {
    assert!(rt; written_again(rt.alloc(), PLAIN)?.as_slice() == PLAIN_AGAIN);
    Ok(())
}

#[test]
fn records_are_passed_over(rt: HostRuntime) -> Result<(), RelFault> {
    let alloc = rt.alloc();
    let columns = read_relation(alloc, b"name,n:int")?;
    let relation = read_with(alloc, b"made by hand\nann,3\nbob,4\n", columns.schema(), 1)?;
    assert_eq!(rt; relation.rows().len(), 2);
    Ok(())
}

/// A file that is long enough to be read in jobs, with this line in its middle.
fn long_file(alloc: Global, middle: &[u8]) -> Result<Vec<u8>, Memory> {
    let mut file = Vec::new(alloc);
    file.extend_from_slice(b"n:int,name\n")?;
    for _ in 0..20_000 {
        file.extend_from_slice(b"1234567,ann\n")?;
    }
    file.extend_from_slice(middle)?;
    for _ in 0..20_000 {
        file.extend_from_slice(b"7654321,bob\n")?;
    }
    Ok(file)
}

#[test]
fn a_long_file_is_read_in_jobs_as_in_turn(rt: HostRuntime) -> Result<(), RelFault> {
    let alloc = rt.alloc();
    let file = long_file(alloc, b"8,carl\n")?;
    let wanted = read_relation(alloc, &file)?;
    let relation = read_relation_in_jobs(&rt, alloc, &file, 3)?;
    assert_eq!(rt; relation.rows().len(), 40_001);
    assert!(rt; file_text(alloc, &relation)? == file_text(alloc, &wanted)?);
    Ok(())
}

#[test]
fn a_fault_in_the_second_range_is_told(rt: HostRuntime) -> Result<(), RelFault> {
    let alloc = rt.alloc();
    let file = long_file(alloc, b"eight,carl\n")?;
    let fault = read_relation_in_jobs(&rt, alloc, &file, 3).err();
    assert!(rt;
        fault
            == Some(RelFault::BadInt {
                nth: 20_001,
                column: 1
            })
    );
    Ok(())
}
