//! A script that stores the same text by every setting.
ghost use Rattle.std.specs.Prelude.{◌≡◌, IfOk, vec_len};
ghost use Rattle.rel_base.specs.Limits.{taps as tap_count};

use crate::scripts::Typed;
use algebra::{JoinKind, Settings, ShuffleKind};
use output_texts::Pieces;
use rel_base::{Memory, Places, RunFault, TAPS};
use rel_io::{CountTap, MemSink};
use std::alloc::Global;
use std::process::Abort;
use std::sync::Wait;
use std::thread::Threads;

/// Triangles, a chain of three, the rows that others lack, a join with them as they are stored, and
/// groups of doubled rows beside themselves.
const SCRIPT: &str = "E = scan(E);
    T = [from E as a, E as b, E as c where a.y = b.x and b.y = c.x and c.y = a.x
        emit a.x, b.x as y, c.x as z];
    store(T, Triangles);
    C = [from E as a, E as b, E as c where a.y = b.x and b.y = c.x and a.x < b.x emit a.x, c.y];
    store(C, Chains);
    F = [from E as e where e.y = 2 emit e.x, e.y];
    D = diff(E, F);
    store(D, Others);
    J = [from scan(Others) as o, F as f where o.y = f.x emit o.x, f.y];
    store(J, Joined);
    G = [from E as a, E as b where a.x = b.x emit a.x, count(*) as n, sum(b.y) as total];
    store(G, Groups);";

/// Edges, of which one stands twice.
const EDGES: &str = "x:int,y:int\n1,2\n2,3\n3,1\n1,3\n1,2\n";

const TEXT: &str = "-- store public:adhoc:Triangles 6 rows\nx:int,y:int,z:int\n\
    1,2,3\n1,2,3\n2,3,1\n2,3,1\n3,1,2\n3,1,2\n\
    -- store public:adhoc:Chains 8 rows\nx:int,y:int\n\
    1,1\n1,1\n1,2\n1,2\n1,3\n2,2\n2,2\n2,3\n\
    -- store public:adhoc:Others 3 rows\nx:int,y:int\n1,3\n2,3\n3,1\n\
    -- store public:adhoc:Joined 2 rows\nx:int,y:int\n3,2\n3,2\n\
    -- store public:adhoc:Groups 3 rows\nx:int,n:int,total:int\n1,9,21\n2,1,3\n3,1,1\n";

/// Workers, messages that wait in an inbox, and rows in a batch.
const SIZES: [(u32, u32, u32); 3] = [(1, 16, 256), (2, 1, 1), (7, 1, 1)];

/// All taps, which were told nothing.
pub(crate) fn blank_taps(alloc: Global) -> Result<Vec<CountTap>, Memory>
    ensures { IfOk result (λ made. vec_len made ≡ tap_count) }
{
    let mut taps = Vec::with_capacity(alloc, TAPS)?;
    for tag in 0..TAPS as u32 {
        taps.push_reserved(CountTap::with_tag(tag));
    }
    Ok(taps)
}

/// A sink that took the text of what a run stores.
fn text_of<R: Threads + Wait + Sync>(
    rt: &R,
    alloc: Global,
    script: &Typed,
    settings: &Settings,
) -> Result<MemSink, RunFault> {
    let mut taps = blank_taps(alloc)?;
    let ran = script.run(rt, alloc, settings, &mut taps)?;
    let mut text = Pieces::new(alloc);
    text.add_stored(rt, alloc, &ran.stored)?;
    let mut sink = MemSink::new(alloc, 1000, Places::new(alloc));
    match text.print(&mut sink) {
        Ok(()) => Ok(sink),
        Err(_) => Err(RunFault::Memory),
    }
}

/// Runs the script at several numbers of workers, and compares what it stores.
fn compare_texts<R: Abort + Threads + Wait + Sync>(
    rt: &R,
    alloc: Global,
    script: &Typed,
    shuffle: ShuffleKind,
    local: JoinKind,
) -> Result<(), RunFault> {
    for (workers, capacity, batch) in SIZES {
        let seed = u64::from(workers);
        let Some(settings) = Settings::new(workers, capacity, batch, seed, shuffle, local, false)
        else {
            return Err(RunFault::Memory);
        };
        let sink = text_of(rt, alloc, script, &settings)?;
        assert_eq!(rt; sink.taken(), TEXT.as_bytes(), "{settings:?}");
    }
    Ok(())
}

#[test]
fn a_script_stores_the_same_by_every_setting(rt: HostRuntime) -> Result<(), RunFault> {
    let script = Typed::new(rt.alloc(), SCRIPT, EDGES)?;
    for shuffle in [ShuffleKind::Hc, ShuffleKind::Rs, ShuffleKind::Br] {
        for local in [JoinKind::Tj, JoinKind::Hj] {
            compare_texts(&rt, rt.alloc(), &script, shuffle, local)?;
        }
    }
    Ok(())
}
