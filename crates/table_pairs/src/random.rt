//! Random numbers from a seed.

/// A sequence of random numbers, which its seed determines.
#[derive(Clone, Copy, Debug)]
pub(crate) struct Random {
    state: u64,
}

impl Random {
    pub(crate) fn new(seed: u64) -> Random {
        Random { state: seed }
    }

    /// The next number, below `bound`; 0 where the bound is 0.
    pub(crate) fn below(&mut self, bound: u32) -> u32 {
        // Knuth's multiplier; the high bits of the state are the random ones.
        self.state = self
            .state
            .wrapping_mul(6_364_136_223_846_793_005)
            .wrapping_add(1_442_695_040_888_963_407);
        let high = (self.state >> 33) as u32;
        high.checked_rem(bound).unwrap_or(0)
    }

    /// The next number, below `bound`, which is at most 65,536.
    pub(crate) fn word(&mut self, bound: u32) -> u16 {
        (self.below(bound) % 65536) as u16
    }

    /// The next number, below `bound`, as a byte.
    pub(crate) fn byte(&mut self, bound: u8) -> u8 {
        (self.below(u32::from(bound)) % 256) as u8
    }
}
