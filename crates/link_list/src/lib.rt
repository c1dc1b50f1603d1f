//! Doubly linked lists of keys. All memory is taken when they are made, and every operation takes
//! constant time.
#![tactic(auto)]

ghost use Rattle.std.specs.Prelude.{◌≡◌, ℕ, true, ◌∷◌, ◌++◌, ◌<◌, [], length, map, set, replicate, IsSome, IsNone, IfSome, IfOk, slice_get};
ghost use Rattle.link_list.specs.KeyLists.{has, list_at, place_of, list_with, after, without, IsOnceEach};

mod fill;

use fill::{count_up, owner_marks};
use kern_ids::entries::NoMemory;
use std::alloc::Global;
use std::marker::Model;

/// `N` lists of keys below a number, `cap`. Each key is in the lists at most once.
///
/// The keys and an end mark for each list are linked into a ring a list.
#[derive(Drop)]
pub struct Lists<const N: usize> {
    cap: usize,
    next: Vec<usize>,
    prev: Vec<usize>,
    owner: Vec<usize>,
}

impl<const N: usize> Model for Lists<N> {
    ghost use Rattle.link_list.specs.KeyLists.{KeyLists};
    ghost use Rattle.link_list.specs.Linked.{IsLinked, lists_of};

    ghost Value = { KeyLists };

    ghost view = { λ a. record { cap = a.cap; lists = lists_of N a.next.items a.cap } };

    ghost invariant = { λ a. IsLinked N a.cap a.next.items a.prev.items a.owner.items (lists_of N a.next.items a.cap) };
}

impl<const N: usize> Lists<N> {
    /// N empty lists, for keys below `cap`.
    pub fn new(alloc: Global, cap: usize) -> Result<Self, NoMemory>
        ensures { IfOk result (λ made. made ≡ record { cap = cap; lists = replicate N [] }) }
    {
        let size = cap.checked_add(N).ok_or(NoMemory)?;
        Ok(Lists {
            cap,
            next: count_up(alloc, size)?,
            prev: count_up(alloc, size)?,
            owner: owner_marks(alloc, cap, N)?,
        })
    }

    /// Puts a key that is in no list at the tail of list l.
    pub fn push_back(&mut self, l: usize, key: usize)
        requires list { l < N }
        requires key { key < self.old.cap }
        requires absent { IsNone (place_of key self.old.lists) }
        ensures cap { self.new.cap ≡ self.old.cap }
        ensures lists { self.new.lists ≡ set self.old.lists l (list_at self.old.lists l ++ key ∷ []) }
    {
        let end = self.cap + l;
        let last = self.prev[end];
        self.next[last] = key;
        self.next[key] = end;
        self.prev[key] = last;
        self.prev[end] = key;
        self.owner[key] = l;
    }

    /// Puts a key that is in no list at the head of list l.
    pub fn push_front(&mut self, l: usize, key: usize)
        requires list { l < N }
        requires key { key < self.old.cap }
        requires absent { IsNone (place_of key self.old.lists) }
        ensures cap { self.new.cap ≡ self.old.cap }
        ensures lists { self.new.lists ≡ set self.old.lists l (key ∷ list_at self.old.lists l) }
    {
        let end = self.cap + l;
        let first = self.next[end];
        self.next[end] = key;
        self.next[key] = first;
        self.prev[key] = end;
        self.prev[first] = key;
        self.owner[key] = l;
    }

    /// Takes a key out of the list in which it stands.
    pub fn remove(&mut self, key: usize)
        requires key { key < self.old.cap }
        requires present { IsSome (place_of key self.old.lists) }
        ensures cap { self.new.cap ≡ self.old.cap }
        ensures lists { self.new.lists ≡ map (without key) self.old.lists }
    {
        let before = self.prev[key];
        let behind = self.next[key];
        self.next[before] = behind;
        self.prev[behind] = before;
        self.owner[key] = N;
    }

    /// The first key of list l; None where the list is empty.
    pub fn front(&self, l: usize) -> Option<usize>
        requires list { l < N }
        ensures first { result ≡ slice_get (list_at self.now.lists l) 0 }
        ensures bound { IfSome result (λ key. key < self.now.cap) }
    {
        let first = self.next[self.cap + l];
        if first < self.cap { Some(first) } else { None }
    }

    /// The key that comes right after a key in its list; None where it is in no list or is the last.
    pub fn next(&self, key: usize) -> Option<usize>
        requires key { key < self.now.cap }
        ensures behind { result ≡ after key (list_with key self.now.lists) }
        ensures bound { IfSome result (λ behind. behind < self.now.cap) }
    {
        if self.owner[key] == N {
            return None;
        }
        let behind = self.next[key];
        if behind < self.cap {
            Some(behind)
        } else {
            None
        }
    }

    /// The number of the list that a key is in; None where it is in none.
    pub fn list_of(&self, key: usize) -> Option<usize>
        requires key { key < self.now.cap }
        ensures place { result ≡ place_of key self.now.lists }
        ensures bound { IfSome result (λ l. l < N) }
    {
        let l = self.owner[key];
        if l < N { Some(l) } else { None }
    }

    /// That there are N lists, each key is in them at most once, and all are below `cap`, for a proof that needs it.
    pub fn each_once(&self)
        ensures count { length self.now.lists ≡ N }
        ensures once { IsOnceEach self.now.lists }
        ensures below { (l key : ℕ) → has key (list_at self.now.lists l) ≡ true → key < self.now.cap }
    {
        let _ = &self.cap;
    }
}
