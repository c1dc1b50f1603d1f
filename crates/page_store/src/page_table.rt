//! The pages of a body, in a slab.

ghost use Rattle.std.specs.Prelude.{◌≡◌, ◌<◌, ◌≤◌, ◌+◌, length, set, replicate, None, Some, IsSome, IsNone, is_some, IfOk, OnOk, OnErr, slice_index, ◌≢◌};
ghost use Rattle.std.specs.Option.{option_map_or, unwrap_or};
ghost use Rattle.slab.specs.Slab.{get as get_in, Updates, ContainsKey, slab_len};
ghost use Rattle.page_store.specs.Tables.{page_at, slot_with, ArePages};

use kern_ids::entries::NoMemory;
use slab::Slab;
use std::alloc::Global;
use std::marker::Model;

/// 256 pages, each absent or an array of 4,096 bytes under a key of the slab.
#[derive(Drop)]
pub(crate) struct PageTable {
    keys: Vec<Option<usize>>,
    slab: Slab<[u8; 4096]>,
}

impl Model for PageTable {
    ghost use Rattle.std.specs.Prelude.{List, Option, ℕ};
    ghost use Rattle.page_store.specs.Tables.{pages_in, IsKept};

    ghost Value = { List (Option (List ℕ)) };

    ghost view = { λ a. pages_in a.slab a.keys.items };

    ghost invariant = { λ a. IsKept a.slab a.keys.items };
}

/// No key for any of n pages.
fn no_keys(alloc: Global, n: usize) -> Result<Vec<Option<usize>>, NoMemory>
    ensures { IfOk result (λ made. made.items ≡ replicate n None) }
{
    let mut keys = Vec::with_capacity(alloc, n).map_err(|_| NoMemory)?;
    for _ in 0..n {
        keys.push(None).map_err(|_| NoMemory)?;
    }
    Ok(keys)
}

/// Writes bytes into the array of a key, from a place in it on.
fn overwrite(slab: &mut Slab<[u8; 4096]>, key: usize, at: usize, bytes: &[u8])
    requires key { ContainsKey slab.old key }
    requires inside { at + length bytes.now ≤ 4096 }
    ensures page { Updates slab.old slab.new key (slot_with (get_in slab.old key) at bytes.now) }
    ensures len { slab_len slab.new ≡ slab_len slab.old }
{
    if let Some(page) = slab.get_mut(key) {
        page[at..at + bytes.len()].copy_from_slice(bytes);
    }
}

impl PageTable {
    /// All pages absent.
    pub(crate) fn new(alloc: Global) -> Result<PageTable, NoMemory>
        ensures { IfOk result (λ made. made ≡ replicate 256 None) }
    {
        Ok(PageTable {
            keys: no_keys(alloc, 256)?,
            slab: Slab::new(alloc),
        })
    }

    /// Whether a page is there.
    pub(crate) fn has(&self, page: usize) -> bool
        requires page { page < 256 }
        ensures { result ≡ is_some (page_at self.now page) }
    {
        self.keys[page].is_some()
    }

    /// The byte of a place in a page, 0 where the page is absent.
    pub(crate) fn byte(&self, page: usize, at: usize) -> u8
        requires page { page < 256 }
        requires inside { at < 4096 }
        ensures { result ≡ option_map_or (λ bytes. slice_index bytes at) (page_at self.now page) 0 }
    {
        match self.keys[page] {
            Some(key) => self.slab[key][at],
            None => 0,
        }
    }

    /// A page that is absent is there, and its bytes are 0; out of memory, nothing has changed.
    pub(crate) fn add(&mut self, page: usize) -> Result<(), NoMemory>
        requires page { page < 256 }
        requires absent { IsNone (page_at self.old page) }
        ensures ok { OnOk result (self.new ≡ set self.old page (Some (replicate 4096 0))) }
        ensures err { OnErr result (self.new ≡ self.old) }
    {
        match self.slab.insert([0; 4096]) {
            Ok(key) => {
                self.keys[page] = Some(key);
                Ok(())
            }
            Err(_) => Err(NoMemory),
        }
    }

    /// Writes bytes into a page that is there, from a place in it on.
    pub(crate) fn write(&mut self, page: usize, at: usize, bytes: &[u8])
        requires page { page < 256 }
        requires there { IsSome (page_at self.old page) }
        requires inside { at + length bytes.now ≤ 4096 }
        ensures { self.new ≡ set self.old page (slot_with (page_at self.old page) at bytes.now) }
    {
        if let Some(key) = self.keys[page] {
            overwrite(&mut self.slab, key, at, bytes);
        }
    }

    /// All pages become absent.
    pub(crate) fn clear(&mut self)
        ensures { self.new ≡ replicate 256 None }
    {
        self.keys.fill(None);
        self.slab.clear();
    }

    /// What is true of all pages, for a proof that needs it.
    pub(crate) fn are_pages(&self)
        ensures { ArePages self.now }
    {
        let _ = &self.keys;
    }
}
