//! Texts that the tests feed.

use std::alloc::Global;
use std::test::Fail;

/// A text, so many times a byte, and a text.
pub fn long(
    alloc: Global,
    front: &[u8],
    byte: u8,
    count: usize,
    back: &[u8],
) -> Result<Vec<u8>, Fail> {
    let mut text = front.to_vec(alloc)?;
    for _ in 0..count {
        text.push(byte)?;
    }
    text.extend_from_slice(back)?;
    Ok(text)
}
