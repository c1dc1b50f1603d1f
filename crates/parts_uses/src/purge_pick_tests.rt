//! Worked examples, call by call: when tokens are ripe, which goes, and which object is purged.

mod parts;

use kern_ids::calls::Queue::{self, Fifo, Lifo, Obsolete};
use parts::Step::{Deactivated, Emptied, Forced, Freed, Nonvolatile, Purge, Tokens, Volatile};
use parts::{Parts, Step};
use std::test::Fail;

/// A token that is ripe at once.
const RIPE_AT_ONCE: [Step; 4] = [Volatile(0, Fifo, 0), Deactivated, Purge(Some(0)), Freed];

/// Added with three pages entered and one gone, a token is ripe after exactly two departures.
const RIPE_AFTER_TWO: [Step; 11] = [
    Deactivated,
    Deactivated,
    Deactivated,
    Freed,
    Volatile(1, Fifo, 0),
    Tokens([0, 0, 0, 0, 0, 0, 0, 0, 1, 0, 2, 2]),
    Purge(None),
    Freed,
    Purge(None),
    Freed,
    Purge(Some(1)),
];

/// An object of FIFO in group 0 goes for the ripe token of LIFO, whose objects are in group 2, and its token moves.
const TOKEN_MOVES: [Step; 13] = [
    Volatile(1, Lifo, 2),
    Deactivated,
    Deactivated,
    Volatile(2, Lifo, 2),
    Deactivated,
    Volatile(3, Fifo, 0),
    Purge(Some(3)),
    Tokens([0, 0, 0, 0, 2, 0, 2, 3, 0, 0, 0, 0]),
    Purge(None),
    Freed,
    Freed,
    Purge(Some(2)),
    Tokens([0, 0, 0, 0, 1, 0, 1, 1, 0, 0, 0, 0]),
];

/// A return to NONVOLATILE takes the last token of the queue, and not the object's own.
const LAST_GOES: [Step; 10] = [
    Deactivated,
    Volatile(1, Fifo, 0),
    Deactivated,
    Deactivated,
    Volatile(2, Fifo, 0),
    Nonvolatile(1),
    Tokens([0, 0, 0, 0, 0, 0, 0, 0, 1, 0, 1, 1]),
    Purge(None),
    Freed,
    Purge(Some(2)),
];

/// An emptying takes the first.
const FIRST_GOES: [Step; 7] = [
    Deactivated,
    Volatile(1, Fifo, 0),
    Deactivated,
    Deactivated,
    Volatile(2, Fifo, 0),
    Emptied(2),
    Tokens([0, 0, 0, 0, 0, 0, 0, 0, 1, 0, 3, 3]),
];

/// From FIFO to LIFO, to another group, to OBSOLETE.
const FROM_QUEUE_TO_QUEUE: [Step; 10] = [
    Volatile(1, Fifo, 0),
    Deactivated,
    Volatile(1, Lifo, 0),
    Tokens([0, 0, 0, 0, 1, 0, 1, 1, 0, 0, 0, 0]),
    Deactivated,
    Volatile(1, Lifo, 2),
    Tokens([0, 0, 0, 0, 1, 0, 1, 1, 0, 0, 0, 0]),
    Volatile(1, Obsolete, 0),
    Tokens([1, 1, 0, 0, 0, 0, 0, 0, 0, 0, 0, 0]),
    Purge(Some(1)),
];

/// By force an object of FIFO goes before one of OBSOLETE, whose token is ripe.
const BY_FORCE: [Step; 6] = [
    Volatile(1, Obsolete, 0),
    Deactivated,
    Volatile(2, Fifo, 3),
    Forced(Some(2)),
    Forced(Some(1)),
    Forced(None),
];

#[test]
fn worked_examples(rt: HostRuntime) -> Result<(), Fail> {
    let examples: [(&str, &[Step]); 7] = [
        ("ripe at once", &RIPE_AT_ONCE),
        ("ripe after two", &RIPE_AFTER_TWO),
        ("token moves", &TOKEN_MOVES),
        ("last goes", &LAST_GOES),
        ("first goes", &FIRST_GOES),
        ("from queue to queue", &FROM_QUEUE_TO_QUEUE),
        ("by force", &BY_FORCE),
    ];
    for (name, steps) in examples {
        let mut parts = Parts::new(rt.alloc())?;
        assert_eq!(rt; parts.first_wrong(steps), None, "{name}");
    }
    Ok(())
}
