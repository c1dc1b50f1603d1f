//! How the check of a source ends.

use commands::check_source;
use edge::memory_source::MemSource;
use edge::reading::InputFault;
use kern_ids::faults::Why;
use kern_ids::replies::Reply;
use replay_check::{PieceEnd, Verdict};
use std::process::Abort;
use std::test::Fail;

// A scenario of 11 lines.
const SCENARIO: &str =
    "jetlab 1\nsystem frames 8 target 8 inactive 3 store 4 critical 0 delay 3\ntask 0 band 5 active 65536 soft inactive 65536 soft\nobject 0 task 0 pages 1\nthread 0 task 0\nmap 0\nwrite 0 0 616263\nthread 1 kernel\ninfo\norder 0 0\nend\n";

// The same with its history, legal and whole.
const WHOLE: &str =
    "jetlab 1\nsystem frames 8 target 8 inactive 3 store 4 critical 0 delay 3\ntask 0 band 5 active 65536 soft inactive 65536 soft\nobject 0 task 0 pages 1\nthread 0 task 0\nmap 0\nwrite 0 0 616263\nthread 1 kernel\norder 0 0\nend\nhistory\n0 map 0 = mapped\n0 write 0 0 616263 = wrote\ndone 2\n";

// The same with another reply at place 1.
const OTHER_REPLY: &str =
    "jetlab 1\nsystem frames 8 target 8 inactive 3 store 4 critical 0 delay 3\ntask 0 band 5 active 65536 soft inactive 65536 soft\nobject 0 task 0 pages 1\nthread 0 task 0\nmap 0\nwrite 0 0 616263\nthread 1 kernel\norder 0 0\nend\nhistory\n0 map 0 = mapped\n0 write 0 0 616263 = refused notmine\ndone 2\n";

// What is found of a text, through a source that hands out so many bytes a call.
fn found(
    rt: &(impl Abort + AllocGlobal),
    text: &str,
    piece: usize,
    fails: &[u64],
    limit: usize,
) -> Result<Result<PieceEnd, InputFault>, Fail> {
    assert!(rt; 0 < piece && limit < 1 << 30);
    let bytes = text.as_bytes().to_vec(rt.alloc())?;
    let mut source = MemSource::new(bytes, piece, fails.to_vec(rt.alloc())?);
    Ok(check_source(rt.alloc(), &mut source, limit))
}

// The check of the text ends so, whatever the pieces.
fn ends(rt: &(impl Abort + AllocGlobal), text: &str, end: PieceEnd) -> Result<(), Fail> {
    for piece in [1, 2, 7, 5000] {
        assert_eq!(rt; found(rt, text, piece, &[], 5000)?, Ok(end), "{piece}");
    }
    Ok(())
}

#[test]
fn verdicts(rt: HostRuntime) -> Result<(), Fail> {
    let other = Verdict::WrongReply {
        place: 1,
        expected: Reply::Wrote,
    };
    ends(&rt, WHOLE, PieceEnd::Done(Verdict::Legal))?;
    ends(&rt, OTHER_REPLY, PieceEnd::Done(other))
}

#[test]
fn faults(rt: HostRuntime) -> Result<(), Fail> {
    for (text, line, why) in [
        ("", 1, Why::NoEnd),
        ("jetlab 1\nsystem", 2, Why::NoEnd),
        // A refused line, and bytes after it.
        ("order\nend\nhistory\ndone 0\n", 1, Why::Word),
        (SCENARIO, 12, Why::NoEnd),
    ] {
        ends(&rt, text, PieceEnd::Bad { line, why })?;
    }
    Ok(())
}

#[test]
fn sources(rt: HostRuntime) -> Result<(), Fail> {
    // Seven bytes a call, up to the call that answers that nothing is left.
    let calls = WHOLE.len().div_ceil(7) as u64;
    for call in 0..calls + 1 {
        let failed = found(&rt, WHOLE, 7, &[call], 5000)?;
        assert_eq!(rt; failed, Err(InputFault::Failed), "{call}");
    }
    let whole = found(&rt, WHOLE, 7, &[calls + 1], WHOLE.len())?;
    assert_eq!(rt; whole, Ok(PieceEnd::Done(Verdict::Legal)));
    for limit in [0, 1, 100, WHOLE.len() - 1] {
        let over = found(&rt, WHOLE, 7, &[], limit)?;
        assert_eq!(rt; over, Err(InputFault::Over), "{limit}");
    }
    Ok(())
}
