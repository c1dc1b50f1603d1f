//! What is reported of a scenario's history: why an entry was answered so, the table, the same as JSON, and
//! the line of a trial.

use crate::reading::scenario;
use crate::scenarios::{
    EMPTY, FORCED, HIGH_WATER, MIGRATED, OBSOLETE, OVER_LIMIT, PRESSED, RIPE, SHARED, STORED,
};
use report_tables::{Facts, json_text, summary, table_text, why_text};
use std::alloc::Global;
use std::process::Abort;
use std::test::Fail;
use thread_runner::serial::{run_kernel, run_serial};

// A scenario, the place of an entry of its history, and why that was answered so.
const REASONS: [(&[u8], u32, &str); 19] = [
    (FORCED, 0, "entry 0: 0 map 0 = mapped\n"),
    (
        FORCED,
        3,
        "entry 3: 1 force = purged 0\nbecause forced fifo group 0 object 0\n",
    ),
    (
        FORCED,
        4,
        "entry 4: 0 set 0 0 = old empty\nbecause emptied at entry 3\n",
    ),
    (FORCED, 5, "entry 5: 0 read 0 0 3 = bytes 000000\n"),
    (
        EMPTY,
        3,
        "entry 3: 0 set 0 1 = old empty\nbecause emptied at entry 1\n",
    ),
    (
        EMPTY,
        4,
        "entry 4: 0 get 0 = state empty\nbecause emptied at entry 1\n",
    ),
    (EMPTY, 7, "entry 7: 0 read 0 0 1 = bytes 00\n"),
    (RIPE, 13, "entry 13: 1 purge = nothing\n"),
    (
        RIPE,
        15,
        "entry 15: 1 purge = purged 1\nbecause ripe fifo deadline 3 left 3 group 0 object 1 from fifo\n",
    ),
    (
        MIGRATED,
        13,
        "entry 13: 1 purge = purged 3\nbecause ripe lifo deadline 0 left 0 group 0 object 3 from fifo\n",
    ),
    (
        MIGRATED,
        18,
        "entry 18: 1 purge = purged 2\nbecause ripe lifo deadline 2 left 2 group 2 object 2 from lifo\n",
    ),
    (
        OBSOLETE,
        13,
        "entry 13: 1 purge = purged 1\nbecause ripe obsolete deadline 0 left 0 group 0 object 1 from obsolete\n",
    ),
    (PRESSED, 3, "entry 3: 1 band 1 3 = banded\n"),
    (
        PRESSED,
        4,
        "entry 4: 1 jetsam = killed 2 pressure\nbecause pressure band 3 footprint 0 limit 65536 free 1\n",
    ),
    (PRESSED, 6, "entry 6: 0 get 0 = refused dead\n"),
    (
        HIGH_WATER,
        3,
        "entry 3: 1 jetsam = killed 1 highwater\nbecause highwater band 10 footprint 2 limit 1 free 6\n",
    ),
    (
        OVER_LIMIT,
        8,
        "entry 8: 1 jetsam = killed 1 limit\nbecause limit band 10 footprint 2 limit 1 free 6\n",
    ),
    (
        SHARED,
        3,
        "entry 3: 2 jetsam = killed 0 pressure\nbecause pressure band 1 footprint 1 limit 65536 free 7\n",
    ),
    (STORED, 5, "entry 5: 1 scan = compressed 0 0\n"),
];

// A scenario, and the table of the state after its history, also as JSON.
const TABLES: [(&[u8], &str, &str); 5] = [
    (
        FORCED,
        "entries 6 purged 1 killed 0\ntask 0 band 5 idle pages 1 0 0 0 1\nobject 0 task 0 nonvolatile 1 0 0\nframes 7 1 0 0 0 0\ntokens 0 0 0 0 0 0 0 0 0 0 0 0\n",
        "{\"entries\":6,\"frames\":[7,1,0,0,0,0],\"killed\":0,\"objects\":[[\"nonvolatile\",1,0,0]],\"purged\":1,\"tasks\":[[5,\"idle\",1,0,0,0,1]],\"tokens\":[0,0,0,0,0,0,0,0,0,0,0,0]}\n",
    ),
    (
        MIGRATED,
        "entries 20 purged 2 killed 0\ntask 0 band 5 idle pages 1 0 0 0 1\nobject 0 task 0 nonvolatile 0 1 0\nobject 1 task 0 volatile 0 0 0\nobject 2 task 0 empty 0 0 0\nobject 3 task 0 empty 0 0 0\nframes 7 0 1 0 3 2\ntokens 0 0 0 0 1 0 1 1 0 0 0 0\n",
        "{\"entries\":20,\"frames\":[7,0,1,0,3,2],\"killed\":0,\"objects\":[[\"nonvolatile\",0,1,0],[\"volatile\",0,0,0],[\"empty\",0,0,0],[\"empty\",0,0,0]],\"purged\":2,\"tasks\":[[5,\"idle\",1,0,0,0,1]],\"tokens\":[0,0,0,0,1,0,1,1,0,0,0,0]}\n",
    ),
    (
        PRESSED,
        "entries 9 purged 0 killed 2\ntask 0 band 1 idle pages 0 0 0 0 0\ntask 1 dead\ntask 2 dead\nobject 0 task 1 unmapped\nframes 2 0 0 0 0 0\ntokens 0 0 0 0 0 0 0 0 0 0 0 0\n",
        "{\"entries\":9,\"frames\":[2,0,0,0,0,0],\"killed\":2,\"objects\":[[\"unmapped\"]],\"purged\":0,\"tasks\":[[1,\"idle\",0,0,0,0,0],[\"dead\"],[\"dead\"]],\"tokens\":[0,0,0,0,0,0,0,0,0,0,0,0]}\n",
    ),
    (
        SHARED,
        "entries 8 purged 0 killed 2\ntask 0 dead\ntask 1 dead\nobject 0 task 0 unmapped\nframes 8 0 0 0 0 0\ntokens 0 0 0 0 0 0 0 0 0 0 0 0\n",
        "{\"entries\":8,\"frames\":[8,0,0,0,0,0],\"killed\":2,\"objects\":[[\"unmapped\"]],\"purged\":0,\"tasks\":[[\"dead\"],[\"dead\"]],\"tokens\":[0,0,0,0,0,0,0,0,0,0,0,0]}\n",
    ),
    (
        STORED,
        "entries 10 purged 0 killed 0\ntask 0 band 5 active pages 2 0 1 0 3\nobject 0 task 0 nonvolatile 1 1 1\nframes 6 1 1 1 3 2\ntokens 0 0 0 0 0 0 0 0 0 0 0 0\n",
        "{\"entries\":10,\"frames\":[6,1,1,1,3,2],\"killed\":0,\"objects\":[[\"nonvolatile\",1,1,1]],\"purged\":0,\"tasks\":[[5,\"active\",2,0,1,0,3]],\"tokens\":[0,0,0,0,0,0,0,0,0,0,0,0]}\n",
    ),
];

// A scenario, and the line of a trial of it.
const SUMMARIES: [(&[u8], &str); 5] = [
    (
        FORCED,
        "entries 6 refused 0 purged 1 killed 0 freed 0 compressed 0\n",
    ),
    (
        MIGRATED,
        "entries 20 refused 0 purged 2 killed 0 freed 2 compressed 0\n",
    ),
    (
        PRESSED,
        "entries 9 refused 2 purged 0 killed 2 freed 0 compressed 0\n",
    ),
    (
        EMPTY,
        "entries 9 refused 1 purged 0 killed 0 freed 0 compressed 0\n",
    ),
    (
        STORED,
        "entries 10 refused 0 purged 0 killed 0 freed 0 compressed 1\n",
    ),
];

// An entry was answered so for this reason.
fn has_reason(
    rt: &impl Abort,
    alloc: Global,
    text: &[u8],
    place: u32,
    lines: &str,
) -> Result<(), Fail> {
    let scenario = scenario(rt, alloc, text)?;
    let history = run_serial(alloc, &scenario)?;
    let why = why_text(alloc, scenario.boot(), &history, place)?.ok_or("an entry")?;
    assert_eq!(rt; why.as_slice(), lines.as_bytes(), "{lines}");
    Ok(())
}

#[test]
fn reasons(rt: HostRuntime) -> Result<(), Fail> {
    for (text, place, lines) in REASONS {
        has_reason(&rt, rt.alloc(), text, place, lines)?;
    }
    Ok(())
}

#[test]
fn no_such_entry(rt: HostRuntime) -> Result<(), Fail> {
    let scenario = scenario(&rt, rt.alloc(), FORCED)?;
    let history = run_serial(rt.alloc(), &scenario)?;
    assert!(rt; why_text(rt.alloc(), scenario.boot(), &history, 6)?.is_none());
    Ok(())
}

// The state after the turns of a scenario.
fn facts_after(rt: &impl Abort, alloc: Global, text: &[u8]) -> Result<Facts, Fail> {
    let scenario = scenario(rt, alloc, text)?;
    let kernel = run_kernel(alloc, &scenario)?;
    Ok(Facts::of_kernel(alloc, scenario.boot(), kernel.kernel())?)
}

// The facts have this table, and this JSON.
fn are_told(
    rt: &impl Abort,
    alloc: Global,
    facts: &Facts,
    table: &str,
    json: &str,
) -> Result<(), Fail> {
    let lines = table_text(alloc, facts)?;
    assert_eq!(rt; lines.as_slice(), table.as_bytes(), "{table}");
    let object = json_text(alloc, facts)?;
    assert_eq!(rt; object.as_slice(), json.as_bytes(), "{json}");
    Ok(())
}

#[test]
fn tables(rt: HostRuntime) -> Result<(), Fail> {
    for (text, table, json) in TABLES {
        let facts = facts_after(&rt, rt.alloc(), text)?;
        are_told(&rt, rt.alloc(), &facts, table, json)?;
    }
    Ok(())
}

// The line of a trial of the scenario is this one.
fn has_summary(rt: &impl Abort, alloc: Global, text: &[u8], line: &str) -> Result<(), Fail> {
    let scenario = scenario(rt, alloc, text)?;
    let history = run_serial(alloc, &scenario)?;
    assert_eq!(rt; summary(&history).as_slice(), line.as_bytes(), "{line}");
    Ok(())
}

#[test]
fn summaries(rt: HostRuntime) -> Result<(), Fail> {
    for (text, line) in SUMMARIES {
        has_summary(&rt, rt.alloc(), text, line)?;
    }
    Ok(())
}
