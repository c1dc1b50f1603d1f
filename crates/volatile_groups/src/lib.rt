//! The groups of volatile objects: three queues of eight groups each. All memory is taken at the start.
#![tactic(auto)]

ghost use Rattle.std.specs.Prelude.{◌≡◌, ◌+◌, ◌<◌, [], map, replicate, slice_get, Some, IsNone, IsSome, IfOk};
ghost use Rattle.kern_ids.specs.declared.calls.Queue.TheVariants.{Obsolete};
ghost use Rattle.link_list.specs.KeyLists.{place_of, without};
ghost use Rattle.volatile_groups.specs.Grouped.{first_list, members, entered, queue_at, queue_of, AreGroups};

use kern_ids::calls::Queue;
use kern_ids::entries::NoMemory;
use kern_ids::ids::ObjId;
use link_list::Lists;
use std::alloc::Global;
use std::marker::Model;

/// The objects of each queue and group, the first of a group at the head of its list.
///
/// An object is in at most one list, and one in OBSOLETE in its group 0.
#[derive(Drop)]
pub struct Groups {
    lists: Lists<24>,
}

impl Model for Groups {
    ghost use Rattle.std.specs.Prelude.{List, ℕ};
    ghost use Rattle.volatile_groups.specs.Grouped.{IsKept};

    ghost Value = { List (List ℕ) };

    ghost view = { λ a. a.lists.lists };

    ghost invariant = { λ a. IsKept a.lists };
}

/// The number of the list of a queue and group.
fn list_number(queue: Queue, group: u32) -> usize
    requires { group < 8 }
    ensures { result ≡ first_list queue + group }
{
    let group = group as usize;
    match queue {
        Queue::Obsolete => group,
        Queue::Lifo => 8 + group,
        Queue::Fifo => 16 + group,
    }
}

/// The queue of a list.
fn queue_of_list(list: usize) -> Queue
    ensures { result ≡ queue_at list }
{
    if list < 8 {
        Queue::Obsolete
    } else if list < 16 {
        Queue::Lifo
    } else {
        Queue::Fifo
    }
}

impl Groups {
    /// No object in any group.
    pub fn new(alloc: Global) -> Result<Groups, NoMemory>
        ensures { IfOk result (λ made. made ≡ replicate 24 []) }
    {
        Ok(Groups {
            lists: Lists::new(alloc, 256)?,
        })
    }

    /// An object that is in no list enters a group below 8, which is 0 in OBSOLETE: in LIFO at the head,
    /// otherwise at the tail.
    pub fn enter(&mut self, o: ObjId, q: Queue, g: u32)
        requires absent { IsNone (place_of o self.old) }
        requires group { g < 8 }
        requires obsolete { q ≡ Obsolete → g ≡ 0 }
        ensures { self.new ≡ entered self.old q g o }
    {
        let list = list_number(q, g);
        match q {
            Queue::Lifo => self.lists.push_front(list, o.get() as usize),
            _ => self.lists.push_back(list, o.get() as usize),
        }
    }

    /// An object that is in a list is taken out; answers the queue in which it was.
    pub fn remove(&mut self, o: ObjId) -> Queue
        requires present { IsSome (place_of o self.old) }
        ensures groups { self.new ≡ map (without o) self.old }
        ensures queue { queue_of o self.old ≡ Some result }
    {
        let key = o.get() as usize;
        let list = self.lists.list_of(key).unwrap_or(0);
        self.lists.remove(key);
        queue_of_list(list)
    }

    /// The queue that an object is in; None where it is in none.
    pub fn queue_of(&self, o: ObjId) -> Option<Queue>
        ensures { result ≡ queue_of o self.now }
    {
        let list = self.lists.list_of(o.get() as usize)?;
        Some(queue_of_list(list))
    }

    /// The first object of a group below 8; None exactly where the group is empty.
    pub fn first(&self, q: Queue, g: u32) -> Option<ObjId>
        requires group { g < 8 }
        ensures { result ≡ slice_get (members self.now q g) 0 }
    {
        let key = self.lists.front(list_number(q, g))?;
        ObjId::new(key as u32)
    }

    /// What is true of all groups, for a proof that needs it.
    pub fn are_groups(&self)
        ensures { AreGroups self.now }
    {
        self.lists.each_once();
    }
}
