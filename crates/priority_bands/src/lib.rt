//! The priority bands of the tasks. All memory is taken at the start.
#![tactic(auto)]

ghost use Rattle.std.specs.Prelude.{◌≡◌, ◌<◌, ℕ, Bool, true, [], replicate, find, slice_get, IfOk};
ghost use Rattle.link_list.specs.KeyLists.{list_at, list_with, place_of, after, has};
ghost use Rattle.priority_bands.specs.Banded.{removed, placed, tasks_from, IsFirstTrue, AreBands};

use kern_ids::entries::NoMemory;
use kern_ids::ids::{Band, TaskId};
use link_list::Lists;
use std::alloc::Global;
use std::marker::Model;

/// The tasks of each band, in order. A task is in at most one band.
#[derive(Drop)]
pub struct Bands {
    lists: Lists<21>,
}

impl Model for Bands {
    ghost use Rattle.std.specs.Prelude.{List, ℕ};
    ghost use Rattle.priority_bands.specs.Banded.{IsKept};

    ghost Value = { List (List ℕ) };

    ghost view = { λ a. a.lists.lists };

    ghost invariant = { λ a. IsKept a.lists };
}

impl Bands {
    /// No task in any band.
    pub fn new(alloc: Global) -> Result<Bands, NoMemory>
        ensures { IfOk result (λ made. made ≡ replicate 21 []) }
    {
        Ok(Bands {
            lists: Lists::new(alloc, 64)?,
        })
    }

    /// A task leaves its band, if it is in one, and goes to the tail of band b.
    pub fn place(&mut self, t: TaskId, b: Band)
        ensures { self.new ≡ placed self.old t b }
    {
        self.remove(t);
        self.lists.push_back(b.get() as usize, t.get() as usize);
    }

    /// A task leaves its band, if it is in one.
    pub fn remove(&mut self, t: TaskId)
        ensures { self.new ≡ removed self.old t }
    {
        let key = t.get() as usize;
        if self.lists.list_of(key).is_some() {
            self.lists.remove(key);
        }
    }

    /// The band of a task; None exactly where it is in none.
    pub fn band_of(&self, t: TaskId) -> Option<Band>
        ensures { result ≡ place_of t self.now }
    {
        let band = self.lists.list_of(t.get() as usize)?;
        Band::new(band as u32)
    }

    /// The head of a band; None exactly where the band is empty.
    pub fn first(&self, b: Band) -> Option<TaskId>
        ensures { result ≡ slice_get (list_at self.now b) 0 }
    {
        let key = self.lists.front(b.get() as usize)?;
        TaskId::new(key as u32)
    }

    /// The task right after a task in its band; None exactly where it is in none or is the last.
    pub fn next(&self, t: TaskId) -> Option<TaskId>
        ensures { result ≡ after t (list_with t self.now) }
    {
        let key = self.lists.next(t.get() as usize)?;
        TaskId::new(key as u32)
    }

    /// The least task in bands b and above for which p is true, the lowest band and in it the head coming
    /// first; None exactly where there is none.
    ///
    /// p may be asked of each task in these bands. What it answered is said by `answers`; where it has one
    /// answer for each task, `found` says which task that is.
    pub fn first_from<P: Fn(TaskId) -> bool>(&self, b: Band, p: P) -> Option<TaskId>
        requires { (t : ℕ) → has t (tasks_from self.now b) ≡ true → P.pre p t }
        ensures answers { IsFirstTrue (P.post p) (tasks_from self.now b) result }
        ensures found { (q : ℕ → Bool) → ((t : ℕ) (x : Bool) → has t (tasks_from self.now b) ≡ true → P.post p t x → x ≡ q t) → result ≡ find q (tasks_from self.now b) }
    {
        self.are_bands();
        let mut at = self.head_from(b.get());
        while let Some(t) = at {
            if p(t) {
                return Some(t);
            }
            at = self.following(t);
        }
        None
    }

    /// What is true of all bands, for a proof that needs it.
    pub fn are_bands(&self)
        ensures { AreBands self.now }
    {
        self.lists.each_once();
    }

    /// The least task in the bands from a number on.
    fn head_from(&self, from: u32) -> Option<TaskId>
        ensures { result ≡ slice_get (tasks_from self.now from) 0 }
    {
        for b in from..21 {
            match self.lists.front(b as usize) {
                Some(key) => return TaskId::new(key as u32),
                None => {}
            }
        }
        None
    }

    /// The task after a task, in its band or at the head of the next band that isn't empty.
    fn following(&self, t: TaskId) -> Option<TaskId>
        ensures { (from : ℕ) → has t (tasks_from self.now from) ≡ true → result ≡ after t (tasks_from self.now from) }
    {
        self.are_bands();
        match self.next(t) {
            Some(behind) => Some(behind),
            None => match self.band_of(t) {
                Some(b) => self.head_from(b.get() + 1),
                None => None,
            },
        }
    }
}
