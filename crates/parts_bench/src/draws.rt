//! Numbers that look random, the same ones in each run.

/// A generator of numbers by shifts of 64 bits.
#[derive(Clone, Copy)]
pub struct Draws {
    state: u64,
}

impl Draws {
    /// The generator at its start.
    pub fn new() -> Draws {
        Draws {
            state: 0x9e37_79b9_7f4a_7c15,
        }
    }

    /// The next number, below 2^48.
    #[inline]
    pub fn next(&mut self) -> u64 {
        self.state ^= self.state << 13;
        self.state ^= self.state >> 7;
        self.state ^= self.state << 17;
        self.state.wrapping_mul(0x2545_f491_4f6c_dd1d) >> 16
    }
}

/// A checksum with one more answer.
#[inline]
pub fn mixed(sum: u64, answer: u64) -> u64 {
    sum.wrapping_mul(31).wrapping_add(answer)
}
