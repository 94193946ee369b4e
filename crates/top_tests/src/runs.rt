//! Whole runs over files and sinks in memory. `examples/` and `checks/` have the answers that need
//! neither a failing shelf nor a failing sink.
ghost use Rattle.std.specs.Prelude.{◌≡◌, ◌≤◌, false, IfOk, Err, nat_eq};
ghost use Rattle.std.specs.Cmp.Lexicographic.{pointwise};
ghost use Rattle.rel_io.specs.InMemory.{HasDistinctNames};

use myria_top::{Outcome, fresh_taps, run_words};
use rel_base::{Memory, Places, Text};
use rel_io::{Bytes, Contents, MemShelf, MemSink, Sink, SinkFault};
use std::alloc::Global;
use std::process::Abort;
use std::sync::Wait;
use std::thread::Threads;

/// A file: its name and its text.
type File<'a> = (&'a str, &'a str);

/// The files of a shelf: a script and two relations.
type Files<'a> = (File<'a>, File<'a>, File<'a>);

/// The numbers of the fetch, of the write and of the write to standard error that fail; 0 for none.
type Failing = (u32, u32, u32);

/// The exit status, the output and the line on standard error.
type Wanted<'a> = (u8, &'a str, &'a str);

/// A run: what it shows, its words, its files, what fails, and what is wanted.
type Case<'a> = (&'a str, &'a [&'a str], Files<'a>, Failing, Wanted<'a>);

const NAMED: &[&str] = &["myria", "q"];

const SCRIPT: File<'static> = ("q", "A = scan(R); store(A, Out);\n");

const RELATION: File<'static> = ("public:adhoc:R.csv", "x:int,y:int\n3,1\n1,2\n2,5\n");

const JOIN: File<'static> = (
    "q",
    "J = [from scan(R) as a, scan(R) as b where a.y = b.x emit a.x, b.y]; store(J, Out);",
);

const UNION: File<'static> = (
    "q",
    "U = unionall(scan(R), scan(S)); V = unionall(U, scan(R)); store(V, Out);",
);

const NO_SCRIPT: File<'static> = ("p", "");

const REPLAYED: &[&str] = &[
    "myria",
    "--mode",
    "replay",
    "--from",
    "p.json",
    "--workers",
    "2",
    "--traffic",
    "q",
];

const KEYS_JOIN: File<'static> = (
    "q",
    "J = [from scan(R) as a, scan(R) as b where a.x = b.x emit a.x]; store(J, Out);",
);

const KEYS: File<'static> = ("public:adhoc:R.csv", "x:int\n0\n1\n2\n3\n");

const BY_KEYS: File<'static> = (
    "p.json",
    "{\"workers\":2,\"steps\":[{\"statement\":1,\"shuffle\":\"rs\"}]}",
);

/// No script asks for it.
const UNASKED: File<'static> = ("public:adhoc:T.csv", "no relation");

const SCANNED: Files<'static> = (SCRIPT, RELATION, UNASKED);

fn bytes_of(alloc: Global, text: &str) -> Result<Bytes, Memory> {
    let mut bytes = Bytes::new(alloc);
    for byte in text.as_bytes() {
        if bytes.len() < u32::MAX {
            bytes.push(*byte)?;
        }
    }
    Ok(bytes)
}

fn one_place(alloc: Global, number: u32) -> Result<Places, Memory> {
    let mut places = Places::new(alloc);
    places.push(number)?;
    Ok(places)
}

fn named_bytes(alloc: Global, file: File<'_>) -> Result<(Text, Bytes), Memory>
    ensures { IfOk result (λ named. named.0 ≡ file.entry.0.now) }
{
    let name = Text::of(alloc, file.0)?;
    Ok((name, bytes_of(alloc, file.1)?))
}

fn contents_of(
    alloc: Global,
    first: File<'_>,
    second: File<'_>,
    third: File<'_>,
) -> Result<Contents, Memory>
    requires first { pointwise nat_eq first.0.now second.0.now ≡ false }
    requires second { pointwise nat_eq first.0.now third.0.now ≡ false }
    requires third { pointwise nat_eq second.0.now third.0.now ≡ false }
    ensures { IfOk result HasDistinctNames }
{
    let mut contents = Contents::new(alloc);
    contents.push(named_bytes(alloc, first)?)?;
    contents.push(named_bytes(alloc, second)?)?;
    contents.push(named_bytes(alloc, third)?)?;
    Ok(contents)
}

fn words_of(alloc: Global, words: &[&str]) -> Result<Vec<Text>, Memory> {
    let mut texts = Vec::new(alloc);
    for word in words {
        texts.push(Text::of(alloc, word)?)?;
    }
    Ok(texts)
}

/// What a run reads and writes.
#[derive(Drop)]
struct Outside {
    shelf: MemShelf,
    out: MemSink,
    err: MemSink,
}

/// Three files, and sinks that have taken nothing and take a byte at once.
fn outside_of(
    rt: &impl Abort,
    alloc: Global,
    files: Files<'_>,
    failing: Failing,
) -> Result<Outside, Memory> {
    let (script, relation, other) = files;
    assert!(rt; script.0 != relation.0);
    assert!(rt; script.0 != other.0);
    assert!(rt; relation.0 != other.0);
    let contents = contents_of(alloc, script, relation, other)?;
    let fetch = one_place(alloc, failing.0)?;
    let write = one_place(alloc, failing.1)?;
    let line = one_place(alloc, failing.2)?;
    Ok(Outside {
        shelf: MemShelf::new(contents, fetch),
        out: MemSink::new(alloc, 1, write),
        err: MemSink::new(alloc, 1, line),
    })
}

/// Compares what a run answered and wrote.
fn compare_answer(
    rt: &impl Abort,
    name: &str,
    outcome: &Outcome,
    outside: &Outside,
    wanted: Wanted<'_>,
) {
    assert_eq!(rt; outcome.status(), wanted.0, "{name}");
    assert_eq!(rt; outside.out.taken(), wanted.1.as_bytes(), "{name}");
    assert_eq!(rt; outside.err.taken(), wanted.2.as_bytes(), "{name}");
}

/// Runs the words over three files, and compares what comes out.
fn compare_run<R: Abort + Threads + Wait + Sync>(
    rt: &R,
    alloc: Global,
    case: Case<'_>,
) -> Result<(), Memory> {
    let (name, words, files, failing, wanted) = case;
    let mut outside = outside_of(rt, alloc, files, failing)?;
    let words = words_of(alloc, words)?;
    let mut taps = fresh_taps(alloc)?;
    let outcome = run_words(
        rt,
        alloc,
        words.as_slice(),
        &mut outside.shelf,
        &mut outside.out,
        &mut outside.err,
        &mut taps,
    );
    compare_answer(rt, name, &outcome, &outside, wanted);
    Ok(())
}

const PRINTING: [Case<'static>; 6] = [
    (
        "doubled rows, signs, carriage returns, and a name that needs quotes",
        NAMED,
        (
            SCRIPT,
            (
                "public:adhoc:R.csv",
                "\"a,b:int\",y:int\r\n7,-1\r\n-8,+2\r\n7,-1",
            ),
            UNASKED,
        ),
        (0, 0, 0),
        (
            0,
            "-- store public:adhoc:Out 3 rows\n\"a,b:int\",y:int\n-8,2\n7,-1\n7,-1\n",
            "",
        ),
    ),
    (
        "a file that is scanned twice, where a third fetch would fail",
        NAMED,
        (
            JOIN,
            ("public:adhoc:R.csv", "x:int,y:int\n1,2\n2,3\n2,3\n3,1\n"),
            UNASKED,
        ),
        (3, 0, 0),
        (
            0,
            "-- store public:adhoc:Out 5 rows\nx:int,y:int\n1,3\n1,3\n2,1\n2,1\n3,2\n",
            "",
        ),
    ),
    (
        "two files of which one is scanned twice, where a fourth fetch would fail",
        NAMED,
        (
            UNION,
            ("public:adhoc:S.csv", "y:int\n2\n"),
            ("public:adhoc:R.csv", "x:int\n3\n1\n"),
        ),
        (4, 0, 0),
        (
            0,
            "-- store public:adhoc:Out 5 rows\nx:int\n1\n1\n2\n3\n3\n",
            "",
        ),
    ),
    (
        "a trial, where the first fetch would fail",
        &["myria", "--mode", "trial", "--size", "7", "t"],
        SCANNED,
        (1, 0, 0),
        (0, "-- trial size 7\n-- rows 343\n-- distinct 1\n", ""),
    ),
    (
        "a plan that is exported",
        &["myria", "--mode", "export", "--workers", "2", "q"],
        (KEYS_JOIN, KEYS, UNASKED),
        (0, 0, 0),
        (
            0,
            "{\"steps\":[{\"shares\":[2],\"shuffle\":\"hc\",\"statement\":1}],\"workers\":2}\n",
            "",
        ),
    ),
    (
        "a plan that is replayed",
        REPLAYED,
        (KEYS_JOIN, KEYS, BY_KEYS),
        (0, 0, 0),
        (
            0,
            "-- store public:adhoc:Out 4 rows\nx:int\n0\n1\n2\n3\n\
             -- traffic 1 join rs step 2\n\
             -- worker 0 received 4 listed 2\n-- worker 1 received 4 listed 2\n",
            "",
        ),
    ),
];

const REFUSED: [Case<'static>; 15] = [
    (
        "no script",
        NAMED,
        (NO_SCRIPT, RELATION, UNASKED),
        (0, 0, 0),
        (2, "", "myria: no script q\n"),
    ),
    (
        "no relation",
        NAMED,
        (SCRIPT, ("public:adhoc:S.csv", ""), UNASKED),
        (0, 0, 0),
        (6, "", "myria: no relation public:adhoc:R\n"),
    ),
    (
        "a script that can't be read",
        NAMED,
        SCANNED,
        (1, 0, 0),
        (11, "", "myria: cannot read q\n"),
    ),
    (
        "a relation that can't be read",
        NAMED,
        SCANNED,
        (2, 0, 0),
        (11, "", "myria: cannot read public:adhoc:R.csv\n"),
    ),
    (
        "of two relations the second can't be read",
        NAMED,
        (UNION, ("public:adhoc:S.csv", "y:int\n2\n"), RELATION),
        (3, 0, 0),
        (11, "", "myria: cannot read public:adhoc:S.csv\n"),
    ),
    (
        "of two bad files the one that is scanned first is told",
        NAMED,
        (
            UNION,
            ("public:adhoc:S.csv", ""),
            ("public:adhoc:R.csv", "x:int\n1,2\n"),
        ),
        (0, 0, 0),
        (
            7,
            "",
            "myria: relation public:adhoc:R: record 1 has a wrong number of fields\n",
        ),
    ),
    (
        "of a file that isn't there and a bad one the one that is scanned first is told",
        NAMED,
        (UNION, ("public:adhoc:S.csv", ""), UNASKED),
        (0, 0, 0),
        (6, "", "myria: no relation public:adhoc:R\n"),
    ),
    (
        "no plan",
        REPLAYED,
        (KEYS_JOIN, KEYS, UNASKED),
        (0, 0, 0),
        (15, "", "myria: no plan p.json\n"),
    ),
    (
        "a plan that can't be read",
        REPLAYED,
        (KEYS_JOIN, KEYS, BY_KEYS),
        (3, 0, 0),
        (11, "", "myria: cannot read p.json\n"),
    ),
    (
        "standard error fails at its first byte",
        NAMED,
        (NO_SCRIPT, RELATION, UNASKED),
        (0, 0, 1),
        (2, "", ""),
    ),
    (
        "standard error fails at its sixth byte",
        NAMED,
        (NO_SCRIPT, RELATION, UNASKED),
        (0, 0, 6),
        (2, "", "myria"),
    ),
    (
        "the write behind the first line fails",
        NAMED,
        SCANNED,
        (0, 34, 0),
        (
            12,
            "-- store public:adhoc:Out 3 rows\n",
            "myria: cannot write\n",
        ),
    ),
    (
        "the first write fails",
        NAMED,
        SCANNED,
        (0, 1, 0),
        (12, "", "myria: cannot write\n"),
    ),
    (
        "no word for the script, where the first fetch would fail",
        &["myria"],
        SCANNED,
        (1, 0, 0),
        (1, "", "myria: usage: myria [options] SCRIPT\n"),
    ),
    (
        "too many workers for a check",
        &["myria", "--mode", "check", "--workers", "65", "q"],
        SCANNED,
        (0, 0, 0),
        (1, "", "myria: usage: myria [options] SCRIPT\n"),
    ),
];

#[test]
fn a_run_prints_what_is_asked_for(rt: HostRuntime) -> Result<(), Memory> {
    for case in PRINTING {
        compare_run(&rt, rt.alloc(), case)?;
    }
    Ok(())
}

#[test]
fn a_run_that_is_refused_says_why(rt: HostRuntime) -> Result<(), Memory> {
    for case in REFUSED {
        compare_run(&rt, rt.alloc(), case)?;
    }
    Ok(())
}

/// An output for which there is no memory.
#[derive(Drop)]
struct NoRoom {
    wants: u64,
}

impl Sink for NoRoom {
    ghost use Rattle.std.specs.Prelude.{None};

    ghost taken = { λ _. None };

    ghost faults = { λ _. 0 };

    ghost wants = { λ s. s.wants };

    fn write(&mut self, _piece: &[u8]) -> Result<usize, SinkFault> {
        self.wants = self.wants.saturating_add(1);
        Err(SinkFault::Memory)
    }
}

#[test]
fn an_output_without_memory_is_told(rt: HostRuntime) -> Result<(), Memory> {
    let alloc = rt.alloc();
    let mut outside = outside_of(&rt, alloc, SCANNED, (0, 0, 0))?;
    let words = words_of(alloc, NAMED)?;
    let mut taps = fresh_taps(alloc)?;
    let mut out = NoRoom { wants: 0 };
    let outcome = run_words(
        &rt,
        alloc,
        words.as_slice(),
        &mut outside.shelf,
        &mut out,
        &mut outside.err,
        &mut taps,
    );
    compare_answer(
        &rt,
        "no memory for the output",
        &outcome,
        &outside,
        (13, "", "myria: out of memory\n"),
    );
    Ok(())
}
