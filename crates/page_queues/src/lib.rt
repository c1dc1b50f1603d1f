//! The queues of the pages that have frames, and the places of all pages. All memory is taken at the start.
#![tactic(auto)]

ghost use Rattle.std.specs.Prelude.{◌≡◌, ◌≤◌, ◌<◌, ◌⊎◌, ◌+◌, ◌*◌, ◌&&◌, ℕ, All, Bool, true, false, [], length, map, replicate, set, not, nat_lt, slice_get, slice_index_or, IsTrue, IfOk, OnSome, Some, option_map, if◌then◌else◌};
ghost use Rattle.kern_ids.specs.declared.ids.PageId.{PageId};
ghost use Rattle.link_list.specs.KeyLists.{has, list_at, IsOnceEach};
ghost use Rattle.page_queues.specs.Tallies.{count_of};
ghost use Rattle.page_queues.specs.Pages.{IsPage, key_of, page_of, active, inactive, stored, place, is_out, is_inactive, free, is_marked, placed, absented, is_of_first, without_object};

mod keys;
mod tallied;

use kern_ids::entries::NoMemory;
use kern_ids::ids::{ObjId, PageId};
use kernel_model::place::Place;
use keys::{all_false, copied, key_of, page_of};
use std::alloc::Global;
use std::marker::Model;
use tallied::{ACTIVE, INACTIVE, STORED, Tallied};

/// How many frames are free, and how many pages have each place.
#[derive(Clone, Copy, PartialEq, Eq, Debug)]
pub struct PlaceCounts {
    pub free: u32,
    pub active: u32,
    pub inactive: u32,
    pub stored: u32,
}

/// How many pages of an object have each place.
#[derive(Clone, Copy, PartialEq, Eq, Debug)]
pub struct ObjectPlaces {
    pub active: u32,
    pub inactive: u32,
    pub stored: u32,
}

/// The places of all pages, the Active and the Inactive ones in the order in which they were placed, and
/// the marks of the Inactive ones that were touched since.
#[derive(Drop)]
pub struct PageQueues {
    frames: u32,
    sizes: Vec<u32>,
    queues: Tallied,
    marks: Vec<bool>,
}

impl Model for PageQueues {
    ghost use Rattle.page_queues.specs.Pages.{Pages, AreKept};

    ghost Value = { Pages };

    ghost view = { λ a. record { frames = a.frames; sizes = a.sizes.items; queues = a.queues.lists; marks = a.marks.items } };

    ghost invariant = { λ a. AreKept a.queues.objects (record { frames = a.frames; sizes = a.sizes.items; queues = a.queues.lists; marks = a.marks.items }) };
}

impl PageQueues {
    /// All pages of objects of these sizes Absent, and so many frames free.
    pub fn new(alloc: Global, frames: u32, sizes: &[u32]) -> Result<PageQueues, NoMemory>
        requires frames { frames ≤ 4096 }
        requires objects { length sizes.now ≤ 256 }
        requires pages { All (λ size. size ≤ 256) sizes.now }
        ensures { IfOk result (λ made. made ≡ record { frames = frames; sizes = sizes.now; queues = replicate 3 []; marks = replicate (256 * length sizes.now) false }) }
    {
        Ok(PageQueues {
            frames,
            sizes: copied(alloc, sizes)?,
            queues: Tallied::new(alloc, sizes.len())?,
            marks: all_false(alloc, 256 * sizes.len())?,
        })
    }

    /// The place of a page.
    pub fn place(&self, p: PageId) -> Place
        requires page { IsPage self.now p }
        ensures { result ≡ place self.now p }
    {
        match self.queues.list_of(self.key(p)) {
            None => Place::Absent,
            Some(ACTIVE) => Place::Active,
            Some(INACTIVE) => Place::Inactive,
            Some(_) => Place::Stored,
        }
    }

    /// A page that is Absent or Stored takes a free frame: it becomes Active, placed last. Answers false,
    /// and nothing changes, exactly where no frame is free.
    pub fn fault(&mut self, p: PageId) -> bool
        requires page { IsPage self.old p }
        requires out { IsTrue (is_out (place self.old p)) }
        ensures answer { result ≡ nat_lt 0 (free self.old) }
        ensures pages { self.new ≡ (if result then placed self.old (key_of p) 0 else self.old) }
    {
        if self.counts().free == 0 {
            return false;
        }
        let key = self.key(p);
        self.move_to(key, ACTIVE);
        true
    }

    /// Marks a page where it is Inactive.
    pub fn touch(&mut self, p: PageId)
        requires page { IsPage self.old p }
        ensures { self.new ≡ (if is_inactive (place self.old p) then record self.old { marks = set self.old.marks (key_of p) true } else self.old) }
    {
        let key = self.key(p);
        match self.queues.list_of(key) {
            Some(INACTIVE) => self.marks[key] = true,
            _ => {}
        }
    }

    /// The Active page that was placed first; None exactly where no page is Active.
    pub fn first_active(&self) -> Option<PageId>
        ensures { result ≡ option_map page_of (slice_get (active self.now) 0) }
    {
        let key = self.queues.front(ACTIVE)?;
        Some(page_of(key))
    }

    /// The Inactive page that was placed first, and whether it is marked; None exactly where no page is
    /// Inactive.
    pub fn first_inactive(&self) -> Option<(PageId, bool)>
        ensures { result ≡ option_map (λ key. (page_of key, is_marked self.now key)) (slice_get (inactive self.now) 0) }
    {
        let key = self.queues.front(INACTIVE)?;
        Some((page_of(key), self.marks[key]))
    }

    /// The Active page that was placed first becomes Inactive, placed last and not marked.
    pub fn deactivate_first(&mut self) -> PageId
        requires some { 0 < length (active self.old) }
        ensures page { Some result ≡ option_map page_of (slice_get (active self.old) 0) }
        ensures pages { self.new ≡ placed self.old (slice_index_or (active self.old) 0 0) 1 }
    {
        let key = self.first_of(ACTIVE);
        self.move_to(key, INACTIVE);
        page_of(key)
    }

    /// The Inactive page that was placed first becomes Active, placed last.
    pub fn reactivate_first(&mut self) -> PageId
        requires some { 0 < length (inactive self.old) }
        ensures page { Some result ≡ option_map page_of (slice_get (inactive self.old) 0) }
        ensures pages { self.new ≡ placed self.old (slice_index_or (inactive self.old) 0 0) 0 }
    {
        let key = self.first_of(INACTIVE);
        self.move_to(key, ACTIVE);
        page_of(key)
    }

    /// The Inactive page that was placed first becomes Absent.
    pub fn free_first(&mut self) -> PageId
        requires some { 0 < length (inactive self.old) }
        ensures page { Some result ≡ option_map page_of (slice_get (inactive self.old) 0) }
        ensures pages { self.new ≡ absented self.old (slice_index_or (inactive self.old) 0 0) }
    {
        let key = self.first_of(INACTIVE);
        self.make_absent(key);
        page_of(key)
    }

    /// The Inactive page that was placed first becomes Stored.
    pub fn store_first(&mut self) -> PageId
        requires some { 0 < length (inactive self.old) }
        ensures page { Some result ≡ option_map page_of (slice_get (inactive self.old) 0) }
        ensures pages { self.new ≡ placed self.old (slice_index_or (inactive self.old) 0 0) 2 }
    {
        let key = self.first_of(INACTIVE);
        self.move_to(key, STORED);
        page_of(key)
    }

    /// How many frames are free, and how many pages are Active, Inactive and Stored.
    pub fn counts(&self) -> PlaceCounts
        ensures { result ≡ record { free = free self.now; active = length (active self.now); inactive = length (inactive self.now); stored = length (stored self.now) } }
    {
        let active = self.queues.len(ACTIVE);
        let inactive = self.queues.len(INACTIVE);
        PlaceCounts {
            free: self.frames - (active + inactive),
            active,
            inactive,
            stored: self.queues.len(STORED),
        }
    }

    /// How many pages of an object are Active, Inactive and Stored.
    pub fn object_counts(&self, o: ObjId) -> ObjectPlaces
        requires object { o < length self.now.sizes }
        ensures { result ≡ record { active = count_of o (active self.now); inactive = count_of o (inactive self.now); stored = count_of o (stored self.now) } }
    {
        let object = o.get() as usize;
        ObjectPlaces {
            active: self.queues.count(object, ACTIVE),
            inactive: self.queues.count(object, INACTIVE),
            stored: self.queues.count(object, STORED),
        }
    }

    /// All pages of an object become Absent. Answers how many of them were Inactive.
    pub fn drop_object(&mut self, o: ObjId) -> u32
        requires object { o < length self.old.sizes }
        ensures count { result ≡ count_of o (inactive self.old) }
        ensures frames { self.new.frames ≡ self.old.frames }
        ensures sizes { self.new.sizes ≡ self.old.sizes }
        ensures queues { self.new.queues ≡ without_object o (slice_index_or self.old.sizes o 0) self.old.queues }
        ensures marks { (key : ℕ) → is_marked self.new key ≡ (is_marked self.old key && not (is_of_first o (slice_index_or self.old.sizes o 0) key)) }
    {
        let inactive = self.object_counts(o).inactive;
        for page in 0..self.size(o) {
            self.make_absent(key_of(PageId { obj: o, page }));
        }
        inactive
    }

    /// What is true of all queues of pages, for a proof that needs it.
    pub fn are_pages(&self)
        ensures three { length self.now.queues ≡ 3 }
        ensures once { IsOnceEach self.now.queues }
        ensures frames { length (active self.now) + length (inactive self.now) ≤ self.now.frames }
        ensures marked { (key : ℕ) → is_marked self.now key ≡ true → has key (inactive self.now) ≡ true }
        ensures marks { length self.now.marks ≡ 256 * length self.now.sizes }
    {
        self.queues.each_once();
    }

    /// The number of the pages of an object.
    fn size(&self, o: ObjId) -> u32
        requires object { o < length self.now.sizes }
        ensures value { result ≡ slice_index_or self.now.sizes o 0 }
        ensures few { result ≤ 256 }
        ensures keys { length self.now.marks ≡ 256 * length self.now.sizes }
    {
        self.sizes[o.get() as usize]
    }

    /// The key of a page.
    fn key(&self, p: PageId) -> usize
        requires page { IsPage self.now p }
        ensures value { result ≡ key_of p }
        ensures bound { result < length self.now.marks }
    {
        let _ = &self.marks;
        key_of(p)
    }

    /// The first key of a list that isn't empty.
    fn first_of(&self, l: usize) -> usize
        requires list { l < 3 }
        requires some { 0 < length (list_at self.now.queues l) }
        ensures first { result ≡ slice_index_or (list_at self.now.queues l) 0 0 }
        ensures found { slice_get (list_at self.now.queues l) 0 ≡ Some result }
        ensures bound { result < length self.now.marks }
        ensures few { length self.now.marks ≤ 65536 }
    {
        self.queues.front(l).unwrap()
    }

    /// A key leaves its list, if it is in one, goes to the tail of list l, and loses its mark.
    fn move_to(&mut self, key: usize, l: usize)
        requires list { l < 3 }
        requires key { key < length self.old.marks }
        requires frame { l < 2 → IsTrue (has key (active self.old)) ⊎ (IsTrue (has key (inactive self.old)) ⊎ (0 < free self.old)) }
        ensures { self.new ≡ placed self.old key l }
    {
        self.queues.take(key);
        self.queues.push_back(l, key);
        self.marks[key] = false;
    }

    /// A key leaves its list, if it is in one, and loses its mark.
    fn make_absent(&mut self, key: usize)
        requires key { key < length self.old.marks }
        ensures { self.new ≡ absented self.old key }
    {
        self.queues.take(key);
        self.marks[key] = false;
    }
}
