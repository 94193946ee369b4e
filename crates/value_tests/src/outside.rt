//! Shelves, sinks and taps: those in memory, and those of the operating system.
ghost use Rattle.std.specs.Prelude.{IfOk};
ghost use Rattle.rel_io.specs.InMemory.{HasDistinctNames};

use rel_base::{Memory, Places, Text};
use rel_io::{
    Bytes, Contents, CountTap, FolderShelf, MemShelf, MemSink, Shelf, ShelfFault, Sink, SinkFault,
    StdSink, Tap, Totals, offer,
};
use std::alloc::Global;
use std::fs;
use std::process::Abort;

/// The list of one number.
fn one_place(alloc: Global, number: u32) -> Result<Places, Memory> {
    let mut places = Places::new(alloc);
    places.push(number)?;
    Ok(places)
}

/// The file `a` with `alpha` in it, and the file `b` with nothing in it.
fn two_files(alloc: Global) -> Result<Contents, Memory>
    ensures { IfOk result HasDistinctNames }
{
    let mut alpha = Bytes::new(alloc);
    for byte in b"alpha" {
        if alpha.len() < 5 {
            alpha.push(*byte)?;
        }
    }
    let a = Text::of(alloc, "a")?;
    let b = Text::of(alloc, "b")?;
    let mut contents = Contents::new(alloc);
    contents.push((a, alpha))?;
    contents.push((b, Bytes::new(alloc)))?;
    Ok(contents)
}

/// Fetches each file of a table, and compares the answer and what stands behind the bytes `to: `.
fn compare_fetches<F: Shelf>(
    rt: &impl Abort,
    alloc: Global,
    shelf: &mut F,
    table: &[(&str, &str, u64, Result<(), ShelfFault>, &[u8])],
) -> Result<(), Memory> {
    for (case, name, most, answer, bytes) in table {
        let mut into = b"to: ".to_vec(alloc)?;
        assert_eq!(rt; shelf.fetch(name, *most, &mut into), *answer, "{case}");
        assert_eq!(rt;
            into.as_slice().strip_prefix(b"to: "),
            Some(*bytes),
            "{case}"
        );
    }
    Ok(())
}

#[test]
fn a_shelf_in_memory_gives_its_files_and_fails_where_it_is_told_to(
    rt: HostRuntime,
) -> Result<(), Memory> {
    let failing = one_place(rt.alloc(), 3)?;
    let mut shelf = MemShelf::new(two_files(rt.alloc())?, failing);
    compare_fetches(
        &rt,
        rt.alloc(),
        &mut shelf,
        &[
            ("the whole file", "a", 6, Ok(()), b"alpha".as_slice()),
            ("its beginning", "a", 3, Ok(()), b"alp".as_slice()),
            (
                "the third fetch",
                "a",
                6,
                Err(ShelfFault::Failed),
                b"".as_slice(),
            ),
            ("an empty file", "b", 6, Ok(()), b"".as_slice()),
            (
                "no such file",
                "c",
                6,
                Err(ShelfFault::Absent),
                b"".as_slice(),
            ),
            (
                "the empty name",
                "",
                6,
                Err(ShelfFault::Absent),
                b"".as_slice(),
            ),
            ("no byte", "a", 0, Ok(()), b"".as_slice()),
        ],
    )?;
    Ok(())
}

#[test]
fn a_sink_in_memory_takes_pieces_and_fails_where_it_is_told_to(
    rt: HostRuntime,
) -> Result<(), Memory> {
    let failing = one_place(rt.alloc(), 3)?;
    let mut sink = MemSink::new(rt.alloc(), 2, failing);
    let table = [
        ("two writes", "abc", Ok(()), "abc"),
        ("the third write", "defg", Err(SinkFault::Failed), "abc"),
        ("behind the fault", "def", Ok(()), "abcdef"),
        ("nothing", "", Ok(()), "abcdef"),
    ];
    for (case, text, answer, taken) in table {
        assert_eq!(rt; offer(&mut sink, text.as_bytes()), answer, "{case}");
        assert_eq!(rt; sink.taken(), taken.as_bytes(), "{case}");
    }
    Ok(())
}

/// Counts as a worker's task does, which any thread may run.
fn count_some<T: Tap + Send>(tap: &mut T) {
    tap.sent(1);
    tap.sent(2);
    tap.got(40);
    tap.listed(u64::MAX);
    tap.listed(1);
}

#[test]
fn a_tap_counts_each_sum_apart_and_stops_at_the_end(rt: HostRuntime) {
    let mut tap = CountTap::new();
    count_some(&mut tap);
    let totals = Totals {
        sent: 3,
        got: 40,
        listed: u64::MAX,
    };
    assert_eq!(rt; tap.totals(), totals);
}

#[test]
fn a_folder_gives_its_files_and_tells_a_miss_from_a_fault(rt: HostRuntime) -> Result<(), Memory> {
    let name = "a_file_of_a_folder_shelf";
    assert!(rt; fs::write(&rt, name, "alpha").is_ok());
    let long = "123456789 ".repeat(rt.alloc(), 500)?;
    let mut shelf = FolderShelf::new(&rt);
    compare_fetches(
        &rt,
        rt.alloc(),
        &mut shelf,
        &[
            ("the whole file", name, 6, Ok(()), b"alpha".as_slice()),
            ("its beginning", name, 3, Ok(()), b"alp".as_slice()),
            (
                "no such file",
                "no_file_of_this_name",
                6,
                Err(ShelfFault::Absent),
                b"".as_slice(),
            ),
            (
                "the empty name",
                "",
                6,
                Err(ShelfFault::Absent),
                b"".as_slice(),
            ),
            ("a folder", ".", 6, Err(ShelfFault::Failed), b"".as_slice()),
            (
                "a name with a NUL",
                "a\0b",
                6,
                Err(ShelfFault::Failed),
                b"".as_slice(),
            ),
            (
                "a long name",
                long.as_str(),
                6,
                Err(ShelfFault::Failed),
                b"".as_slice(),
            ),
        ],
    )?;
    assert!(rt; fs::remove_file(&rt, name).is_ok());
    Ok(())
}

#[test]
fn standard_output_takes_a_piece_and_finishes(rt: HostRuntime) -> Result<(), Memory> {
    let mut out = StdSink::buffered(rt.alloc(), rt.stdout())?;
    assert_eq!(rt; offer(&mut out, b"standard output\n"), Ok(()));
    assert_eq!(rt; out.finish(), Ok(()));
    let mut err = StdSink::new(rt.stderr());
    assert_eq!(rt; offer(&mut err, b"standard error\n"), Ok(()));
    Ok(())
}

#[test]
fn a_finish_that_cannot_hand_on_what_was_kept_back_is_a_fault(
    rt: HostRuntime,
) -> Result<(), Memory> {
    let mut room = [0; 3];
    let mut sink = StdSink::buffered(rt.alloc(), room.as_mut_slice())?;
    assert_eq!(rt; sink.write(b"abcd"), Ok(4));
    assert_eq!(rt; sink.finish(), Err(SinkFault::Failed));
    Ok(())
}

#[test]
fn taking_nothing_of_a_piece_is_a_fault(rt: HostRuntime) {
    let mut room = [0; 3];
    let mut sink = StdSink::new(room.as_mut_slice());
    assert_eq!(rt; sink.write(b"abcd"), Ok(3));
    assert_eq!(rt; sink.write(b"d"), Err(SinkFault::Failed));
}
