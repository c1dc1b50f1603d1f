use edge::ends::Sink;
use edge::memory_sink::MemSink;
use edge::memory_source::MemSource;
use edge::pieces::{Both, Pieces};
use edge::reading::{InputFault, read_to_limit};
use edge::words::Words;
use edge::writing::{WriteBuffer, write_pieces};
use kern_ids::lines::LineBuf;
use std::process::Abort;
use std::test::Fail;

const TEXT: &[u8] = b"sixteen letters.";

// Reads the text through a source that hands out so many bytes a call.
fn read(
    rt: &(impl Abort + AllocGlobal),
    piece: usize,
    fails: &[u64],
    limit: usize,
) -> Result<Result<Vec<u8>, InputFault>, Fail> {
    assert!(rt; 0 < piece && limit < 1000);
    let mut source = MemSource::new(TEXT.to_vec(rt.alloc())?, piece, fails.to_vec(rt.alloc())?);
    Ok(read_to_limit(rt.alloc(), &mut source, limit))
}

#[test]
fn readings(rt: HostRuntime) -> Result<(), Fail> {
    // The calls up to the end are 17, 9 and 4; the last one answers that nothing is left.
    for (piece, calls) in [(1, 17), (2, 9), (7, 4)] {
        let whole = read(&rt, piece, &[calls], 16)?;
        assert_eq!(rt; whole.as_ref().map(|v| v.as_slice()), Ok(TEXT), "{piece}");
        for call in 0..calls {
            let failed = read(&rt, piece, &[call], 16)?;
            assert_eq!(rt; failed.err(), Some(InputFault::Failed), "{piece} {call}");
        }
        let over = read(&rt, piece, &[], 15)?;
        assert_eq!(rt; over.err(), Some(InputFault::Over), "{piece}");
    }
    Ok(())
}

// The rest of a text, in pieces of one byte.
#[derive(Drop)]
struct Bytewise {
    rest: &'static [u8],
}

impl Pieces for Bytewise {
    ghost text_left = { λ b. b.rest.now };

    fn next_piece(&mut self) -> Option<LineBuf> {
        let (first, rest) = self.rest.split_first()?;
        let mut piece = LineBuf::new();
        piece.push(&[*first]);
        self.rest = rest;
        Some(piece)
    }
}

// Writes the text twice through a sink that takes so many bytes a call. Whether that went well, and
// what the sink holds then.
fn write(
    rt: &(impl Abort + AllocGlobal),
    room: usize,
    piece: usize,
    fails: &[u64],
) -> Result<(bool, MemSink), Fail> {
    assert!(rt; 0 < piece);
    let fails = fails.to_vec(rt.alloc())?;
    let mut sink = MemSink::new(rt.alloc(), room, piece, fails).map_err(|_| "a sink")?;
    let buffer = WriteBuffer::new(rt.alloc()).map_err(|_| "a buffer")?;
    let twice = Both {
        first: Bytewise { rest: TEXT },
        second: Bytewise { rest: TEXT },
    };
    let written = write_pieces(&mut sink, twice, buffer).is_ok();
    Ok((written, sink))
}

#[test]
fn writings(rt: HostRuntime) -> Result<(), Fail> {
    let all = b"sixteen letters.sixteen letters.".as_slice();
    // So many calls write all of it.
    for (piece, calls) in [(1, 32), (2, 16), (7, 5), (100, 1)] {
        let (written, sink) = write(&rt, 32, piece, &[calls])?;
        assert!(rt; written);
        assert_eq!(rt; sink.bytes(), all, "{piece}");
        for call in 0..calls {
            let (written, sink) = write(&rt, 32, piece, &[call])?;
            assert!(rt; !written);
            assert_eq!(rt; sink.bytes().len(), call as usize * piece, "{piece}");
            assert_eq!(rt; sink.faults(), 1);
        }
    }
    let (written, sink) = write(&rt, 31, 7, &[])?;
    assert!(rt; !written);
    assert_eq!(rt; sink.bytes(), b"sixteen letters.sixteen letters".as_slice());
    Ok(())
}

#[test]
fn words_are_kept(rt: HostRuntime) -> Result<(), Fail> {
    let mut words = Words::new(rt.alloc());
    assert!(rt; words.push("why").is_ok());
    assert!(rt; words.push("7").is_ok());
    assert_eq!(rt; words.len(), 2);
    assert_eq!(rt; words.get(1), Some(b"7".as_slice()));
    assert_eq!(rt; words.get(2), None);
    Ok(())
}
