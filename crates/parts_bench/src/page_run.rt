//! Operations on the queues of pages.

ghost use Rattle.std.specs.Prelude.{◌≡◌, ◌<◌, replicate};

use crate::draws::{Draws, mixed};
use kern_ids::entries::NoMemory;
use kern_ids::ids::{ObjId, PageId};
use kernel_model::place::Place;
use page_queues::PageQueues;
use std::alloc::Global;

/// How many frames there are.
const FRAMES: u32 = 2048;

/// The queues of the pages of 64 objects of 64 pages each, and the checksum of what was answered.
#[derive(Drop)]
struct PageRun {
    queues: PageQueues,
    sum: u64,
    ghost sizes: { queues.sizes ≡ replicate 64 64 },
}

/// Does so many operations on new queues; answers the checksum.
pub fn run(alloc: Global, operations: u32) -> Result<u64, NoMemory> {
    let mut draws = Draws::new();
    let mut run = PageRun {
        queues: PageQueues::new(alloc, FRAMES, &[64; 64])?,
        sum: 0,
    };
    for _ in 0..operations {
        run.step(draws.next());
    }
    Ok(run.sum)
}

/// A checksum with one more page, or that there is none.
fn with_page(sum: u64, page: Option<PageId>) -> u64 {
    match page {
        Some(p) => mixed(sum, 64 * p.obj.get() as u64 + p.page as u64),
        None => mixed(sum, 4096),
    }
}

impl PageRun {
    /// The operation of a drawn number.
    fn step(&mut self, drawn: u64) {
        let page = (drawn % 64) as u32;
        let Some(obj) = ObjId::new((drawn / 64 % 64) as u32) else {
            return;
        };
        let kind = drawn / 4096 % 16;
        match kind {
            0..=5 => self.use_page(obj, page),
            6..=10 => self.move_first(kind),
            11 => self.sum = with_page(self.sum, self.queues.first_active()),
            12 => self.read_inactive(),
            13 => {
                let counts = self.queues.counts();
                self.sum = mixed(self.sum, counts.free as u64 + counts.stored as u64);
            }
            14 => {
                let counts = self.queues.object_counts(obj);
                self.sum = mixed(self.sum, counts.inactive as u64);
            }
            _ if drawn / 65536 % 16 == 0 => {
                let inactive = self.queues.drop_object(obj);
                self.sum = mixed(self.sum, inactive as u64);
            }
            _ => self.touch_page(obj, page),
        }
    }

    /// A page comes into a frame, or is touched where it has one.
    fn use_page(&mut self, obj: ObjId, page: u32)
        requires object { obj < 64 }
        requires inside { page < 64 }
    {
        match self.queues.place(PageId { obj, page }) {
            Place::Absent | Place::Stored => {
                let came = self.queues.fault(PageId { obj, page });
                self.sum = mixed(self.sum, came as u64);
            }
            _ => self.queues.touch(PageId { obj, page }),
        }
    }

    /// A page is touched.
    fn touch_page(&mut self, obj: ObjId, page: u32)
        requires object { obj < 64 }
        requires inside { page < 64 }
    {
        self.queues.touch(PageId { obj, page });
    }

    /// The first page of a queue that has one moves on.
    fn move_first(&mut self, kind: u64) {
        let counts = self.queues.counts();
        let moved = if kind <= 7 {
            if counts.active == 0 {
                return;
            }
            self.queues.deactivate_first()
        } else {
            if counts.inactive == 0 {
                return;
            }
            match kind {
                8 => self.queues.reactivate_first(),
                9 => self.queues.free_first(),
                _ => self.queues.store_first(),
            }
        };
        self.sum = with_page(self.sum, Some(moved));
    }

    /// The first Inactive page, and whether it is marked.
    fn read_inactive(&mut self) {
        if let Some((p, is_marked)) = self.queues.first_inactive() {
            self.sum = mixed(with_page(self.sum, Some(p)), is_marked as u64);
        }
    }
}
