//! Jars that are filled by one thread and by two.

ghost use Rattle.std.specs.Prelude.{◌≡◌, ◌+◌, ◌<◌, [], ◌∷◌, IfOk};
ghost use Rattle.turn_lock.specs.Passes.{IsPassOf, HoldsNothing, weight_of};

use crate::{Filler, Jar, Jars, Note, Notes, add, collect};
use std::alloc::{AllocError, Global};
use std::sync::Wait;
use std::test::Fail;
use std::thread;
use std::thread::Threads;

// What a thread puts into a jar: the numbers from 0 up to this one.
const TIMES: u64 = 10_000;

fn no_notes(alloc: Global) -> Notes
    ensures { result.notes.items ≡ [] }
{
    Notes {
        notes: Vec::new(alloc),
    }
}

fn two_jars(alloc: Global) -> Result<Vec<Jar>, AllocError>
    ensures { IfOk result (λ v. v.items ≡ record { sum = 0 } ∷ record { sum = 0 } ∷ []) }
{
    let mut jars = Vec::new(alloc);
    jars.push(Jar { sum: 0 })?;
    jars.push(Jar { sum: 0 })?;
    Ok(jars)
}

// Puts 0, 1 and so on into the first jar.
fn add_all<R: Wait>(rt: &R, jars: &Jars, mut filler: Filler, times: u64) -> Filler
    requires pass { IsPassOf jars.now filler × HoldsNothing filler }
    requires some { 0 < jars.now.objects }
    ensures { IsPassOf jars.now result × HoldsNothing result × (weight_of result ≡ weight_of filler) }
{
    for amount in 0..times {
        let _ = add(rt, jars, &mut filler, 0, amount);
    }
    filler
}

// Two threads fill the first jar beside each other, and the passes are made one.
fn add_both<R: Threads + Wait + Sync>(rt: &R, jars: &Jars, first: Filler, second: Filler) -> Filler
    requires first { IsPassOf jars.now first × HoldsNothing first }
    requires second { IsPassOf jars.now second × HoldsNothing second }
    requires some { 0 < jars.now.objects }
    ensures { IsPassOf jars.now result × HoldsNothing result × (weight_of result ≡ weight_of first + weight_of second) }
{
    let (mut first, second) = thread::join(
        rt,
        move ||
            requires pass { IsPassOf jars.now first × HoldsNothing first }
            requires some { 0 < jars.now.objects }
            ensures { IsPassOf jars.entry.now result × HoldsNothing result × (weight_of result ≡ weight_of first) }
        { add_all(rt, jars, first, TIMES) },
        move ||
            requires pass { IsPassOf jars.now second × HoldsNothing second }
            requires some { 0 < jars.now.objects }
            ensures { IsPassOf jars.entry.now result × HoldsNothing result × (weight_of result ≡ weight_of second) }
        { add_all(rt, jars, second, TIMES) },
    );
    jars.join_pass(&mut first, second);
    first
}

// How many notes a thread made, if they are in the order in which it made them.
fn count_in_order(notes: &[Note], by: u32) -> Option<u64> {
    let mut count = 0u64;
    for note in notes {
        if note.by == by {
            if note.amount != count {
                return None;
            }
            count = count.wrapping_add(1);
        }
    }
    Some(count)
}

#[test]
fn two_threads_write_one_history(rt: HostRuntime) -> Result<(), Fail> {
    let alloc = rt.alloc();
    let (jars, mut list) = Jars::new(alloc, no_notes(alloc), two_jars(alloc)?, 2)?;
    let (Some(first), Some(second)) = (list.take_last(), list.take_last()) else {
        return Ok(());
    };
    let filler = add_both(&rt, &jars, first, second);
    let notes = jars.close(filler).notes;
    assert_eq!(rt; notes.len(), 20_000);
    assert_eq!(rt; count_in_order(notes.as_slice(), 0), Some(TIMES));
    assert_eq!(rt; count_in_order(notes.as_slice(), 1), Some(TIMES));
    Ok(())
}

#[test]
fn two_fillers_put_into_one_jar(rt: HostRuntime) -> Result<(), Fail> {
    let alloc = rt.alloc();
    let (jars, mut list) = Jars::new(alloc, no_notes(alloc), two_jars(alloc)?, 2)?;
    let (Some(mut a), Some(mut b)) = (list.take_last(), list.take_last()) else {
        return Ok(());
    };
    add(&rt, &jars, &mut a, 1, 5)?;
    add(&rt, &jars, &mut b, 1, 7)?;
    let notes = collect(jars, a, b).notes;
    assert_eq!(rt; notes.len(), 2);
    Ok(())
}

#[test]
fn a_look_does_not_wait_for_the_turn(rt: HostRuntime) -> Result<(), Fail> {
    let alloc = rt.alloc();
    let (jars, mut list) = Jars::new(alloc, no_notes(alloc), two_jars(alloc)?, 2)?;
    let (Some(mut a), Some(mut b)) = (list.take_last(), list.take_last()) else {
        return Ok(());
    };
    let turn = jars.enter(&rt, &mut a);
    assert_eq!(rt; jars.look(&mut b), 5);
    jars.leave(&mut a, turn);
    assert_eq!(rt; collect(jars, a, b).notes.len(), 0);
    Ok(())
}

#[test]
fn a_body_is_handed_over(rt: HostRuntime) -> Result<(), Fail> {
    let alloc = rt.alloc();
    let (jars, mut list) = Jars::new(alloc, no_notes(alloc), two_jars(alloc)?, 2)?;
    let (Some(mut a), Some(mut b)) = (list.take_last(), list.take_last()) else {
        return Ok(());
    };
    add(&rt, &jars, &mut a, 0, 7)?;
    let mut held = jars.take_object(&rt, &mut b, 0);
    assert_eq!(rt; held.body().sum, 7);
    jars.put_object(&mut b, 0, held);
    jars.join_pass(&mut a, b);
    assert_eq!(rt; a.weight(), 2);
    assert_eq!(rt; jars.close(a).notes.len(), 1);
    Ok(())
}
