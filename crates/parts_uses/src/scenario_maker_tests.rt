//! The scenarios of some seeds, as texts.

use edge::memory_sink::MemSink;
use edge::writing::{WriteBuffer, write_pieces};
use scenario_maker::make_scenario;
use scenario_text::ScenarioPieces;
use std::process::Abort;
use std::test::Fail;

// What each of them begins with.
const HEAD: &[u8] =
    b"jetlab 1\nsystem frames 64 target 16 inactive 16 store 64 critical 1 delay 4\ntask 0 band 0 active 24 soft inactive 12 soft\ntask 1 band 5 active 24 soft inactive 12 soft\ntask 2 band 10 active 65536 soft inactive 65536 soft internal\nobject 0 task 0 pages 1\nobject 1 task 1 pages 2\nobject 2 task 2 pages 3\nobject 3 task 0 pages 4\nobject 4 task 1 pages 1\nobject 5 task 2 pages 2\nobject 6 task 0 pages 3\nobject 7 task 1 pages 4\nobject 8 task 2 pages 1\nobject 9 task 0 pages 2\nobject 10 task 1 pages 3\nobject 11 task 2 pages 4\nobject 12 task 0 pages 1\nobject 13 task 1 pages 2\nobject 14 task 2 pages 3\nobject 15 task 0 pages 4\nobject 16 task 1 pages 1\nobject 17 task 2 pages 2\nobject 18 task 0 pages 3\nobject 19 task 1 pages 4\nobject 20 task 2 pages 1\nobject 21 task 0 pages 2\nobject 22 task 1 pages 3\nobject 23 task 2 pages 4\nobject 24 task 0 pages 1\nobject 25 task 1 pages 2\nobject 26 task 2 pages 3\nobject 27 task 0 pages 4\nobject 28 task 1 pages 1\nobject 29 task 2 pages 2\nobject 30 task 0 pages 3\nobject 31 task 1 pages 4\nobject 32 task 2 pages 1\nobject 33 task 0 pages 2\nobject 34 task 1 pages 3\nobject 35 task 2 pages 4\nobject 36 task 0 pages 1\nobject 37 task 1 pages 2\nobject 38 task 2 pages 3\nobject 39 task 0 pages 4\n";

// The threads, the calls of their scripts and the order, from a seed and a number of calls.
const MADE: [(u32, u32, &[u8]); 4] = [
    (
        7,
        0,
        b"thread 0 task 0\nthread 1 task 1\nthread 2 task 2\nthread 3 task 2\nthread 4 kernel\nthread 5 kernel\norder\nend\n",
    ),
    (
        7,
        2,
        b"thread 0 task 0\nthread 1 task 1\nthread 2 task 2\nwrite 17 5120 00000001\nthread 3 task 2\nthread 4 kernel\ntick\nthread 5 kernel\norder 4 2\nend\n",
    ),
    (
        0,
        6,
        b"thread 0 task 0\nset 12 1\nthread 1 task 1\nwrite 4 13312 00000001\nwrite 37 5120 00000002\nthread 2 task 2\nget 17\nthread 3 task 2\nthread 4 kernel\nscan\nscan\nthread 5 kernel\norder 0 1 1 4 2 4\nend\n",
    ),
    (
        2_147_483_647,
        6,
        b"thread 0 task 0\nthread 1 task 1\nwrite 19 15360 00000002\nthread 2 task 2\nthread 3 task 2\nmap 14\nthread 4 kernel\ntick\ntick\nthread 5 kernel\nscan\nscan\norder 5 4 1 4 5 3\nend\n",
    ),
];

// The scenario of a seed has the head and such scripts.
fn is_made(
    rt: &(impl Abort + AllocGlobal),
    seed: u32,
    calls: u32,
    scripts: &[u8],
) -> Result<(), Fail> {
    let alloc = rt.alloc();
    assert!(rt; seed < 1 << 31 && calls <= 200_000);
    let made = make_scenario(alloc, seed, calls)?;
    let mut sink = MemSink::new(alloc, 3000, 3000, Vec::new(alloc))?;
    let buffer = WriteBuffer::new(alloc)?;
    assert!(rt; write_pieces(&mut sink, ScenarioPieces::new(&made), buffer).is_ok());
    let mut text = HEAD.to_vec(alloc)?;
    text.extend_from_slice(scripts)?;
    assert_eq!(rt; sink.bytes(), text.as_slice(), "seed {seed} calls {calls}");
    Ok(())
}

#[test]
fn seeds(rt: HostRuntime) -> Result<(), Fail> {
    for (seed, calls, scripts) in MADE {
        is_made(&rt, seed, calls, scripts)?;
    }
    Ok(())
}

#[test]
fn most_calls(rt: HostRuntime) -> Result<(), Fail> {
    let made = make_scenario(rt.alloc(), 7, 200_000)?;
    assert_eq!(rt; made.call_count(), 200_000);
    assert_eq!(rt; made.order_len(), 200_000);
    Ok(())
}
