//! The keys of pages.

ghost use Rattle.std.specs.Prelude.{◌≡◌, ◌<◌, ◌≤◌, false, replicate, IfOk};
ghost use Rattle.page_queues.specs.Pages.{key_of, page_of};

use kern_ids::entries::NoMemory;
use kern_ids::ids::{ObjId, PageId};
use std::alloc::Global;

/// The key of a page below 256.
pub(crate) fn key_of(p: PageId) -> usize
    requires { p.page < 256 }
    ensures { result ≡ key_of p }
{
    let PageId { obj, page } = p;
    256 * obj.get() as usize + page as usize
}

/// The page of a key.
pub(crate) fn page_of(key: usize) -> PageId
    requires { key < 65536 }
    ensures { result ≡ page_of key }
{
    PageId {
        obj: ObjId::new((key / 256) as u32).unwrap(),
        page: (key % 256) as u32,
    }
}

/// A copy of the sizes of objects.
pub(crate) fn copied(alloc: Global, sizes: &[u32]) -> Result<Vec<u32>, NoMemory>
    ensures { IfOk result (λ made. made.items ≡ sizes.now) }
{
    let made = Vec::from_slice(alloc, sizes).map_err(|_| NoMemory)?;
    Ok(made)
}

/// n times false.
pub(crate) fn all_false(alloc: Global, n: usize) -> Result<Vec<bool>, NoMemory>
    ensures { IfOk result (λ made. made.items ≡ replicate n false) }
{
    let mut made = Vec::with_capacity(alloc, n).map_err(|_| NoMemory)?;
    for _ in 0..n {
        made.push(false).map_err(|_| NoMemory)?;
    }
    Ok(made)
}
