//! A use of `turn_lock`: jars that threads fill. Each jar has a sum, and one list of notes says who put
//! what into which jar.
#![tactic(auto)]

ghost use Rattle.std.specs.Prelude.{◌≡◌, ◌+◌, ◌^◌, ◌<◌, [], ◌∷◌, ◌++◌, IfOk, OnErr};
ghost use Rattle.std.specs.List.{AllByRecursion};
ghost use Rattle.turn_lock.specs.Histories.{StartsWith};
ghost use Rattle.turn_lock.specs.Passes.{IsPassOf, HoldsNothing, weight_of};

#[cfg(test)]
mod tests;

use std::alloc::AllocError;
use std::sync::Wait;
use turn_lock::{Ordered, Pass, TwoLevel};

/// An amount that a thread put into a jar.
#[derive(Drop, Clone, Copy)]
pub struct Note {
    pub by: u32,
    pub object: u32,
    pub amount: u64,
}

/// All notes, in the order in which they were made.
#[derive(Drop)]
pub struct Notes {
    pub notes: Vec<Note>,
}

/// What was put into one jar, added up modulo 2^64.
#[derive(Drop)]
pub struct Jar {
    pub sum: u64,
}

impl Ordered<Jar> for Notes {
    ghost use Rattle.std.specs.Prelude.{[], ◌∷◌};
    ghost use Rattle.turn_lock_uses.specs.Jars.{sum_in};
    ghost use Rattle.turn_lock_uses.specs.Totals.{sum_in-other};

    type Base = ();

    type Entry = Note;

    type Content = u64;

    ghost base = { λ _. tt };

    ghost entries = { λ s. s.notes.items };

    ghost free_of = { λ _ _. 5 };

    ghost who = { λ e. e.by };

    ghost content = { sum_in };

    ghost held = { λ j. j.sum };

    ghost touches = { λ e. e.object ∷ [] };

    ghost untouched = { sum_in-other };

    fn free(&self) -> u64 {
        5
    }
}

pub type Jars = TwoLevel<Notes, Jar>;

pub type Filler = Pass<Notes, Jar>;

/// Puts an amount into a jar, and makes the note of it. Without memory for the note nothing is put in.
pub fn add<R: Wait>(
    rt: &R,
    jars: &Jars,
    filler: &mut Filler,
    object: u32,
    amount: u64,
) -> Result<(), AllocError>
    requires of { IsPassOf jars.now filler.old }
    requires free { HoldsNothing filler.old }
    requires object { object < jars.now.objects }
    ensures kept { IsPassOf jars.now filler.new × HoldsNothing filler.new × (weight_of filler.new ≡ weight_of filler.old) }
    ensures seen { StartsWith filler.new.seen filler.old.seen }
    ensures mine { IfOk result (λ _. filler.new.mine ≡ filler.old.mine ++ record { by = filler.old.number; object = object; amount = amount } ∷ []) }
    ensures no_memory { OnErr result (filler.new.mine ≡ filler.old.mine) }
{
    let note = Note {
        by: filler.number(),
        object,
        amount,
    };
    let mut held = jars.take_object(rt, filler, object);
    let mut turn = jars.enter(rt, filler);
    if turn.value().notes.push(note).is_err() {
        jars.leave(filler, turn);
        jars.put_object(filler, object, held);
        return Err(AllocError);
    }
    let jar = held.body();
    jar.sum = jar.sum.wrapping_add(amount);
    jars.leave(filler, turn);
    jars.put_object(filler, object, held);
    Ok(())
}

/// The notes of two fillers that have all passes together.
pub fn collect(jars: Jars, mut first: Filler, second: Filler) -> Notes
    requires first { IsPassOf jars first × HoldsNothing first }
    requires second { IsPassOf jars second × HoldsNothing second }
    requires all { weight_of first + weight_of second ≡ jars.passes }
    ensures numbers { AllByRecursion (λ e. e.by < jars.passes) result.notes.items }
    ensures first { StartsWith result.notes.items first.seen }
    ensures second { StartsWith result.notes.items second.seen }
{
    jars.join_pass(&mut first, second);
    jars.close(first)
}
