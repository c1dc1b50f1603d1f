use kern_ids::calls::{Call, Queue, Wish, decode_word};
use kern_ids::entries::{Entry, EntryList};
use kern_ids::ids::{ObjId, TaskId, ThreadId};
use kern_ids::lines::{ByteLine, LineBuf, TaskLine};
use kern_ids::replies::Reply;
use std::test::Fail;

// The words of the format's own table, and one bit outside the layout at each end.
#[test]
fn state_words(rt: HostRuntime) {
    let fifo = |group| {
        Some(Wish::Volatile {
            queue: Queue::Fifo,
            group,
        })
    };
    let lifo = |group| {
        Some(Wish::Volatile {
            queue: Queue::Lifo,
            group,
        })
    };
    let obsolete = Some(Wish::Volatile {
        queue: Queue::Obsolete,
        group: 0,
    });
    for (word, want) in [
        (0x000, Some(Wish::Nonvolatile)),
        (0x001, fifo(0)),
        (0x002, Some(Wish::Empty)),
        (0x003, None),
        (0x011, fifo(0)),
        (0x021, obsolete),
        (0x061, obsolete),
        (0x721, obsolete),
        (0x041, lifo(0)),
        (0x241, lifo(2)),
        (0x701, fifo(7)),
        (0x710, Some(Wish::Nonvolatile)),
        (0x004, None),
        (0x801, None),
        (0x1000, None),
        (0xffff_ffff, None),
    ] {
        assert_eq!(rt; decode_word(word), want, "at {word}");
    }
}

#[test]
fn lists_grow(rt: HostRuntime) -> Result<(), Fail> {
    let who = ThreadId::new(31).ok_or("a thread")?;
    let obj = ObjId::new(255).ok_or("an object")?;
    let entry = Entry {
        who,
        call: Call::Map { obj },
        reply: Reply::Mapped,
    };
    let mut list = EntryList::new(rt.alloc());
    for _ in 0..3 {
        assert!(rt; list.reserve(1).is_ok());
        list.push(Entry {
            who,
            call: Call::Map { obj },
            reply: Reply::Mapped,
        });
    }
    assert_eq!(rt; list.len(), 3);
    assert_eq!(rt; list.get(2).copied(), Some(entry));
    assert_eq!(rt; list.get(3).copied(), None);
    Ok(())
}

#[test]
fn lines_hold(rt: HostRuntime) -> Result<(), Fail> {
    let bytes = ByteLine::from_slice(&[7; 256]).ok_or("a line")?;
    assert_eq!(rt; bytes.as_slice().len(), 256);
    assert!(rt; ByteLine::from_slice(&[7; 257]).is_none());
    let mut tasks = TaskLine::new();
    tasks.push(TaskId::new(3).ok_or("a task")?);
    tasks.push(TaskId::new(0).ok_or("a task")?);
    tasks.push(TaskId::new(63).ok_or("a task")?);
    assert_eq!(rt; tasks.len(), 3);
    assert_eq!(rt; tasks.get(2).map(|t| t.get()), Some(63));
    assert_eq!(rt; tasks.get(3), None);
    let mut line = LineBuf::new();
    line.push(b"done ");
    line.push(b"6\n");
    assert_eq!(rt; line.as_slice(), b"done 6\n".as_slice());
    Ok(())
}
