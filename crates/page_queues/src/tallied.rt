//! The lists of pages, with the number of each object's pages in each list kept beside them.

ghost use Rattle.std.specs.Prelude.{◌≡◌, ◌*◌, ◌<◌, ◌≤◌, ◌++◌, ◌∷◌, [], length, set, replicate, slice_get, IsNone, IfSome, IfOk};
ghost use Rattle.link_list.specs.KeyLists.{list_at, place_of, IsOnceEach};
ghost use Rattle.page_queues.specs.Tallies.{taken, count_of};

use kern_ids::entries::NoMemory;
use link_list::Lists;
use std::alloc::Global;
use std::marker::Model;

/// The numbers of the three lists.
pub(crate) const ACTIVE: usize = 0;

pub(crate) const INACTIVE: usize = 1;

pub(crate) const STORED: usize = 2;

/// Three lists of the keys of pages. The key of page p of object o is 256 o + p.
#[derive(Drop)]
pub(crate) struct Tallied {
    objects: usize,
    lists: Lists<3>,
    lengths: Vec<u32>,
    counts: Vec<u32>,
}

impl Model for Tallied {
    ghost use Rattle.page_queues.specs.Tallies.{Tallies, IsTallied};

    ghost Value = { Tallies };

    ghost view = { λ a. record { objects = a.objects; lists = a.lists.lists } };

    ghost invariant = { λ a. IsTallied a.objects a.lists a.lengths.items a.counts.items };
}

/// n times zero.
fn zeros(alloc: Global, n: usize) -> Result<Vec<u32>, NoMemory>
    ensures { IfOk result (λ made. made.items ≡ replicate n 0) }
{
    let mut made = Vec::with_capacity(alloc, n).map_err(|_| NoMemory)?;
    for _ in 0..n {
        made.push(0).map_err(|_| NoMemory)?;
    }
    Ok(made)
}

impl Tallied {
    /// Empty lists for the pages of so many objects.
    pub(crate) fn new(alloc: Global, objects: usize) -> Result<Tallied, NoMemory>
        requires few { objects ≤ 256 }
        ensures { IfOk result (λ made. made ≡ record { objects = objects; lists = replicate 3 [] }) }
    {
        Ok(Tallied {
            objects,
            lists: Lists::new(alloc, 256 * objects)?,
            lengths: zeros(alloc, 3)?,
            counts: zeros(alloc, 3 * objects)?,
        })
    }

    /// A key that is in no list goes to the tail of list l.
    pub(crate) fn push_back(&mut self, l: usize, key: usize)
        requires list { l < 3 }
        requires key { key < 256 * self.old.objects }
        requires absent { IsNone (place_of key self.old.lists) }
        ensures objects { self.new.objects ≡ self.old.objects }
        ensures lists { self.new.lists ≡ set self.old.lists l (list_at self.old.lists l ++ key ∷ []) }
    {
        self.lists.each_once();
        self.lists.push_back(l, key);
        self.lengths[l] += 1;
        self.counts[3 * (key / 256) + l] += 1;
    }

    /// A key leaves its list, if it is in one.
    pub(crate) fn take(&mut self, key: usize)
        requires key { key < 256 * self.old.objects }
        ensures objects { self.new.objects ≡ self.old.objects }
        ensures lists { self.new.lists ≡ taken self.old.lists key }
    {
        self.lists.each_once();
        match self.lists.list_of(key) {
            Some(l) => {
                self.lists.remove(key);
                self.lengths[l] -= 1;
                self.counts[3 * (key / 256) + l] -= 1;
            }
            None => {}
        }
    }

    /// The first key of a list.
    pub(crate) fn front(&self, l: usize) -> Option<usize>
        requires list { l < 3 }
        ensures first { result ≡ slice_get (list_at self.now.lists l) 0 }
        ensures bound { IfSome result (λ key. key < 256 * self.now.objects) }
    {
        self.lists.front(l)
    }

    /// The list in which a key stands.
    pub(crate) fn list_of(&self, key: usize) -> Option<usize>
        requires key { key < 256 * self.now.objects }
        ensures place { result ≡ place_of key self.now.lists }
        ensures bound { IfSome result (λ l. l < 3) }
    {
        self.lists.list_of(key)
    }

    /// The length of a list.
    pub(crate) fn len(&self, l: usize) -> u32
        requires list { l < 3 }
        ensures { result ≡ length (list_at self.now.lists l) }
    {
        self.lengths[l]
    }

    /// The number of the pages of an object in a list.
    pub(crate) fn count(&self, o: usize, l: usize) -> u32
        requires object { o < self.now.objects }
        requires list { l < 3 }
        ensures { result ≡ count_of o (list_at self.now.lists l) }
    {
        self.counts[3 * o + l]
    }

    /// What is true of all these lists, for a proof that needs it.
    pub(crate) fn each_once(&self)
        ensures three { length self.now.lists ≡ 3 }
        ensures once { IsOnceEach self.now.lists }
    {
        self.lists.each_once();
    }
}
