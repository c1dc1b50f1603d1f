//! Operations on lists of keys.

ghost use Rattle.std.specs.Prelude.{◌≡◌, ◌<◌};

use crate::draws::{Draws, mixed};
use kern_ids::entries::NoMemory;
use link_list::Lists;
use std::alloc::Global;

const KEYS: usize = 1024;

const LISTS: usize = 8;

/// Lists of keys, and the checksum of what was answered.
#[derive(Drop)]
struct ListRun {
    lists: Lists<LISTS>,
    sum: u64,
    ghost keys: { lists.cap ≡ 1024 },
}

/// Does so many operations on new lists; answers the checksum.
pub fn run(alloc: Global, operations: u32) -> Result<u64, NoMemory> {
    let mut draws = Draws::new();
    let mut run = ListRun {
        lists: Lists::new(alloc, KEYS)?,
        sum: 0,
    };
    for _ in 0..operations {
        run.step(draws.next());
    }
    Ok(run.sum)
}

impl ListRun {
    /// The operation of a drawn number.
    fn step(&mut self, drawn: u64) {
        let key = (drawn % 1024) as usize;
        let list = (drawn / 1024 % 8) as usize;
        let answer = match drawn / 8192 % 8 {
            0 => self.lists.front(list),
            1 => self.lists.next(key),
            2 => self.lists.list_of(key),
            kind => Some(self.change(key, list, kind % 2 == 0)),
        };
        self.sum = mixed(self.sum, answer.unwrap_or(KEYS) as u64);
    }

    /// Takes a key out of its list, or puts it into a list where it is in none.
    fn change(&mut self, key: usize, list: usize, at_tail: bool) -> usize
        requires key { key < 1024 }
        requires list { list < 8 }
    {
        match self.lists.list_of(key) {
            Some(l) => {
                self.lists.remove(key);
                l
            }
            None if at_tail => {
                self.lists.push_back(list, key);
                LISTS
            }
            None => {
                self.lists.push_front(list, key);
                LISTS
            }
        }
    }
}
