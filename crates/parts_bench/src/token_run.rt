//! Operations on the tokens of one queue.

ghost use Rattle.std.specs.Prelude.{◌≡◌, ◌≤◌, ◌<◌, length};

use crate::draws::{Draws, mixed};
use kern_ids::entries::NoMemory;
use std::alloc::Global;
use token_list::TokenList;

/// No page enters once so many are ahead.
const MOST_AHEAD: u32 = 1_000_000;

/// The tokens of a queue, how many pages are ahead, and the checksum of what was answered.
#[derive(Drop)]
struct TokenRun {
    list: TokenList,
    ahead: u32,
    sum: u64,
    ghost ahead_is: { list.ahead ≡ ahead },
}

/// Does so many operations on a new list; answers the checksum.
pub fn run(alloc: Global, operations: u32) -> Result<u64, NoMemory> {
    let mut draws = Draws::new();
    let mut run = TokenRun {
        list: TokenList::new(alloc)?,
        ahead: 0,
        sum: 0,
    };
    for _ in 0..operations {
        run.step(draws.next());
    }
    Ok(run.sum)
}

impl TokenRun {
    /// The operation of a drawn number.
    fn step(&mut self, drawn: u64) {
        let pages = (drawn / 16 % 4) as u32;
        match drawn % 16 {
            0..=3 => self.enter(pages),
            4..=7 => self.leave(pages),
            8 | 9 => self.add(),
            10 => self.insert(drawn / 64 % 1024),
            11 | 12 => self.drop_first(),
            13 => self.drop_last(),
            14 => self.sum = mixed(self.sum, self.list.first_is_ripe() as u64),
            _ => {
                let counts = self.list.counts();
                let dues = mixed(counts.next, counts.last);
                self.sum = mixed(mixed(self.sum, dues), counts.ripe as u64);
            }
        }
    }

    /// The number of tokens.
    fn tokens(&self) -> u32
        ensures { result ≡ length self.now.list.dues }
    {
        self.list.counts().tokens
    }

    /// Pages enter, if not too many are ahead.
    fn enter(&mut self, pages: u32)
        requires { pages < 4 }
    {
        if self.ahead < MOST_AHEAD {
            self.list.entered(pages);
            self.ahead += pages;
        }
    }

    /// Pages leave, if so many are ahead.
    fn leave(&mut self, pages: u32) {
        if pages <= self.ahead {
            self.list.advance(pages);
            self.ahead -= pages;
        }
    }

    /// One more token, if there is room.
    fn add(&mut self) {
        if self.tokens() < 256 {
            self.list.add();
        }
    }

    /// One more token at its place, if there is room.
    fn insert(&mut self, due: u64) {
        if self.tokens() < 256 && due <= self.ahead as u64 {
            self.list.insert(due);
        }
    }

    /// The first token goes.
    fn drop_first(&mut self) {
        if self.tokens() > 0 {
            let due = self.list.drop_first();
            self.sum = mixed(self.sum, due);
        }
    }

    /// The last token goes.
    fn drop_last(&mut self) {
        if self.tokens() > 0 {
            let due = self.list.drop_last();
            self.sum = mixed(self.sum, due);
        }
    }
}
