//! The bytes of an object: pages of 4,096 bytes in a slab, which are there once a place on them was prepared.
#![tactic(auto)]

ghost use Rattle.std.specs.Prelude.{◌≡◌, ◌<◌, ◌≤◌, ◌+◌, ◌/◌, ◌%◌, ◌||◌, ℕ, true, false, length, map, set, slice_index_or, IfOk, OnOk, OnErr, IsOk};
ghost use Rattle.std.specs.List.{range_with_len};
ghost use Rattle.page_store.specs.Contents.{nothing, bytes_of, byte_at, overwritten, is_prepared, shares_page, IsRangePrepared};

pub mod law;
mod page_table;

use kern_ids::entries::NoMemory;
use kern_ids::lines::ByteLine;
use page_table::PageTable;
use std::alloc::Global;
use std::marker::Model;

/// The bytes of a page.
const PAGE: u32 = 4096;

/// The bytes of an object of at most 256 pages. A place is the number of a byte, below 1,048,576.
///
/// It is seen as the finite map of the bytes that aren't 0, and the places that are prepared. A place that is
/// prepared can be written without memory.
#[derive(Drop)]
pub struct Body {
    pages: PageTable,
}

impl Model for Body {
    ghost use Rattle.std.specs.Prelude.{map, is_some};
    ghost use Rattle.page_store.specs.Contents.{Contents, bytes_of};
    ghost use Rattle.page_store.specs.Tables.{byte_in};

    ghost Value = { Contents };

    ghost view = { λ a. record { bytes = bytes_of (byte_in a.pages); prepared = map is_some a.pages } };
}

impl Body {
    /// All bytes 0, and nothing prepared.
    pub fn new(alloc: Global) -> Result<Body, NoMemory>
        ensures { IfOk result (λ made. made ≡ nothing) }
    {
        Ok(Body {
            pages: PageTable::new(alloc)?,
        })
    }

    /// Prepares a range of at most 256 places. It takes memory for the pages that have a place of the range and
    /// aren't prepared, which are at most two. Whatever it answers, no byte changes and what was prepared stays so.
    pub fn prepare(&mut self, off: u32, len: u32) -> Result<(), NoMemory>
        requires few { len ≤ 256 }
        requires inside { off + len ≤ 1048576 }
        ensures bytes { self.new.bytes ≡ self.old.bytes }
        ensures range { OnOk result (IsRangePrepared self.new off len) }
        ensures kept { (place : ℕ) → is_prepared self.old place ≡ true → is_prepared self.new place ≡ true }
        ensures only { (place : ℕ) → is_prepared self.new place ≡ true → (is_prepared self.old place || shares_page off len place) ≡ true }
        ensures prepared { OnOk result ((place : ℕ) → is_prepared self.new place ≡ (is_prepared self.old place || shares_page off len place)) }
        ensures ready { IsRangePrepared self.old off len → IsOk result }
    {
        self.are_contents();
        if len == 0 {
            return Ok(());
        }
        self.prepare_page(off / PAGE)?;
        self.prepare_page((off + len - 1) / PAGE)
    }

    /// Writes bytes from a place on, in a range that is prepared. Takes no memory.
    pub fn write(&mut self, off: u32, bytes: &[u8])
        requires prepared { IsRangePrepared self.old off (length bytes.now) }
        ensures bytes { self.new.bytes ≡ overwritten self.old.bytes off bytes.now }
        ensures prepared { self.new.prepared ≡ self.old.prepared }
    {
        self.are_contents();
        let mut place = off;
        let mut rest = bytes;
        while !rest.is_empty() {
            let count = rest.len().min((PAGE - place % PAGE) as usize);
            let (piece, others) = rest.split_at(count);
            self.write_in_page(place, piece);
            place += count as u32;
            rest = others;
        }
        self.are_contents();
    }

    /// The bytes of a range of at most 256 places. Takes no memory.
    pub fn read(&self, off: u32, len: u32) -> ByteLine
        requires few { len ≤ 256 }
        requires inside { off + len ≤ 1048576 }
        ensures { result ≡ map (byte_at self.now.bytes) (range_with_len off len) }
    {
        let mut held = [0; 256];
        for i in 0..len {
            held[i as usize] = self.byte(off + i);
        }
        match ByteLine::from_slice(&held[..len as usize]) {
            Some(line) => line,
            None => unreachable!(),
        }
    }

    /// Makes all bytes 0, and nothing is prepared any more. Takes no memory.
    pub fn clear(&mut self)
        ensures { self.new ≡ nothing }
    {
        self.pages.clear();
    }

    /// What is true of all bodies, for a proof that needs it.
    pub fn are_contents(&self)
        ensures bytes { self.now.bytes ≡ bytes_of (byte_at self.now.bytes) }
        ensures pages { length self.now.prepared ≡ 256 }
    {
        self.pages.are_pages();
    }

    /// Prepares the places of a page. It takes memory where they aren't prepared.
    fn prepare_page(&mut self, page: u32) -> Result<(), NoMemory>
        requires page { page < 256 }
        ensures bytes { self.new.bytes ≡ self.old.bytes }
        ensures ok { OnOk result (self.new.prepared ≡ set self.old.prepared page true) }
        ensures err { OnErr result (self.new.prepared ≡ self.old.prepared) }
        ensures ready { slice_index_or self.old.prepared page false ≡ true → IsOk result }
    {
        self.pages.are_pages();
        let page = page as usize;
        if self.pages.has(page) {
            return Ok(());
        }
        self.pages.add(page)?;
        Ok(())
    }

    /// Writes some bytes from a place on, all on its page, which is prepared.
    fn write_in_page(&mut self, place: u32, bytes: &[u8])
        requires some { 0 < length bytes.now }
        requires inside { place % 4096 + length bytes.now ≤ 4096 }
        requires prepared { is_prepared self.old place ≡ true }
        ensures bytes { self.new.bytes ≡ overwritten self.old.bytes place bytes.now }
        ensures prepared { self.new.prepared ≡ self.old.prepared }
    {
        self.pages.are_pages();
        let page = (place / PAGE) as usize;
        let start = (place % PAGE) as usize;
        self.pages.write(page, start, bytes);
    }

    /// The byte of a place.
    fn byte(&self, place: u32) -> u8
        requires { place < 1048576 }
        ensures { result ≡ byte_at self.now.bytes place }
    {
        let page = (place / PAGE) as usize;
        let start = (place % PAGE) as usize;
        self.pages.byte(page, start)
    }
}
