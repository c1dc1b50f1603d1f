//! Slots in an order that changes at any place in constant time, each with a number.

ghost use Rattle.std.specs.Prelude.{◌≡◌, ◌≤◌, ◌<◌, ◌+◌, ◌∷◌, [], ℕ, length, IfOk, if◌then◌else◌, nat_lt};
ghost use Rattle.std.specs.List.{insert, remove};
ghost use Rattle.std.proofs.Common.{get_or, set};
ghost use Rattle.token_list.specs.Slots.{Stands, StandsAt, number_at, times};

use kern_ids::entries::NoMemory;
use std::alloc::Global;
use std::marker::Model;

/// How many slots there are.
pub const SLOTS: usize = 256;

/// The place after the last slot. It has a number too.
pub const END: usize = 256;

/// The slots that are in use, in their order, then the end.
#[derive(Drop)]
pub struct SlotRing {
    /// The slot that follows each, the end after the last and the first after the end.
    next: Box<[usize; 257]>,
    /// The slot before each, likewise.
    previous: Box<[usize; 257]>,
    numbers: Box<[u64; 257]>,
    /// The slots that are not in use, from place `used` on.
    free: Box<[usize; 256]>,
    used: usize,
}

impl Model for SlotRing {
    ghost use Rattle.token_list.specs.Slots.{Row};

    ghost Value = { Row };

    ghost use Rattle.token_list.specs.Ring.{row, IsRing};

    ghost view = { row };

    ghost invariant = { IsRing };
}

impl SlotRing {
    /// No slot in use; the end has the number 0.
    pub fn new(alloc: Global) -> Result<SlotRing, NoMemory>
        ensures { IfOk result (λ ring. ring ≡ record { slots = 256 ∷ []; numbers = 0 ∷ [] }) }
    {
        Ok(SlotRing {
            next: Box::new(alloc, [END; 257]).map_err(|_| NoMemory)?,
            previous: Box::new(alloc, [END; 257]).map_err(|_| NoMemory)?,
            numbers: Box::new(alloc, [0; 257]).map_err(|_| NoMemory)?,
            free: Box::new(alloc, all_slots()).map_err(|_| NoMemory)?,
            used: 0,
        })
    }

    /// How many slots are in use.
    pub fn len(&self) -> usize
        ensures value { result + 1 ≡ length self.now.slots }
        ensures numbers { result + 1 ≡ length self.now.numbers }
        ensures bound { result ≤ 256 }
    {
        self.used
    }

    /// The first slot, or the end.
    pub fn first(&self) -> usize
        ensures bound { result ≤ 256 }
        ensures place { StandsAt self.now.slots 0 result }
    {
        self.next[END]
    }

    /// The last slot.
    pub fn last(&self) -> usize
        requires { 1 < length self.now.slots }
        ensures bound { result ≤ 256 }
        ensures place { (p : ℕ) → p + 2 ≡ length self.now.slots → StandsAt self.now.slots p result }
    {
        self.previous[END]
    }

    /// The slot after another, or the end.
    pub fn after(&self, slot: usize) -> usize
        requires slot { slot < 256 }
        requires stands { Stands self.now.slots slot }
        ensures bound { result ≤ 256 }
        ensures place { (p : ℕ) → StandsAt self.now.slots p slot → StandsAt self.now.slots (p + 1) result }
    {
        self.next[slot]
    }

    /// The slot before another or before the end.
    pub fn before(&self, slot: usize) -> usize
        requires slot { slot ≤ 256 }
        requires stands { Stands self.now.slots slot }
        ensures bound { result ≤ 256 }
        ensures place { (p : ℕ) → StandsAt self.now.slots (p + 1) slot → StandsAt self.now.slots p result }
    {
        self.previous[slot]
    }

    /// The number of a slot or of the end.
    pub fn number(&self, slot: usize) -> u64
        requires { slot ≤ 256 }
        ensures { (p : ℕ) → StandsAt self.now.slots p slot → result ≡ number_at self.now.numbers p }
    {
        self.numbers[slot]
    }

    /// Gives a slot or the end another number.
    pub fn set_number(&mut self, slot: usize, number: u64)
        requires { Stands self.old.slots slot }
        ensures slots { self.new.slots ≡ self.old.slots }
        ensures numbers { (p : ℕ) → StandsAt self.old.slots p slot → self.new.numbers ≡ set self.old.numbers p number }
    {
        self.numbers[slot] = number;
    }

    /// Takes a slot that is free into use, with a number, before another or before the end.
    pub fn insert_before(&mut self, at: usize, number: u64) -> usize
        requires room { length self.old.slots ≤ 256 }
        requires stands { Stands self.old.slots at }
        ensures slot { result < 256 }
        ensures slots { (p : ℕ) → StandsAt self.old.slots p at → self.new.slots ≡ insert self.old.slots p result }
        ensures numbers { (p : ℕ) → StandsAt self.old.slots p at → self.new.numbers ≡ insert self.old.numbers p number }
    {
        let slot = self.free[self.used];
        let before = self.previous[at];
        link(&mut self.next, &mut self.previous, before, slot);
        link(&mut self.next, &mut self.previous, slot, at);
        self.numbers[slot] = number;
        self.used += 1;
        slot
    }

    /// Takes a slot out of use.
    pub fn remove(&mut self, slot: usize)
        requires bound { slot < 256 }
        requires stands { Stands self.old.slots slot }
        ensures slots { (p : ℕ) → StandsAt self.old.slots p slot → self.new.slots ≡ remove self.old.slots p }
        ensures numbers { (p : ℕ) → StandsAt self.old.slots p slot → self.new.numbers ≡ remove self.old.numbers p }
    {
        let before = self.previous[slot];
        let after = self.next[slot];
        link(&mut self.next, &mut self.previous, before, after);
        self.used -= 1;
        self.free[self.used] = slot;
    }
}

/// Each slot, once.
fn all_slots() -> [usize; 256]
    ensures once { (v : ℕ) → times v result ≡ (if nat_lt v 256 then 1 else 0) }
    ensures size { length result ≡ 256 }
{
    let mut slots = [0; 256];
    for slot in 0..SLOTS {
        slots[slot] = slot;
    }
    slots
}

/// Lets a slot follow another.
fn link(next: &mut [usize; 257], previous: &mut [usize; 257], before: usize, slot: usize)
    requires before { before < 257 }
    requires slot { slot < 257 }
    ensures next { next.new ≡ set next.old before slot }
    ensures previous { previous.new ≡ set previous.old slot before }
{
    next[before] = slot;
    previous[slot] = before;
}
