//! The arrays of links and owners of empty lists.

ghost use Rattle.std.specs.Prelude.{◌≡◌, ◌+◌, ◌++◌, ◌<◌, ◌^◌, replicate, IfOk};
ghost use Rattle.std.specs.List.{range_with_len};

use kern_ids::entries::NoMemory;
use std::alloc::Global;

/// The numbers below n, in order.
#[tactic(auto, using(crate::proofs::Ranges::range_more))]
pub(crate) fn count_up(alloc: Global, n: usize) -> Result<Vec<usize>, NoMemory>
    ensures { IfOk result (λ made. made.items ≡ range_with_len 0 n) }
{
    let mut numbers = Vec::with_capacity(alloc, n).map_err(|_| NoMemory)?;
    for i in 0..n {
        numbers.push(i).map_err(|_| NoMemory)?;
    }
    Ok(numbers)
}

/// For each key below `cap` the number n, which is no list's, and then the numbers of n lists.
#[tactic(auto, using(crate::proofs::Ranges::range_more_behind))]
pub(crate) fn owner_marks(alloc: Global, cap: usize, n: usize) -> Result<Vec<usize>, NoMemory>
    requires { cap + n < 2 ^ 64 }
    ensures { IfOk result (λ made. made.items ≡ replicate cap n ++ range_with_len 0 n) }
{
    let mut owners = Vec::with_capacity(alloc, cap + n).map_err(|_| NoMemory)?;
    for _ in 0..cap {
        owners.push(n).map_err(|_| NoMemory)?;
    }
    for l in 0..n {
        owners.push(l).map_err(|_| NoMemory)?;
    }
    Ok(owners)
}
