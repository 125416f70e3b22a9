/// Numbers that look drawn at random: xorshift64* (Marsaglia; Vigna).
#[derive(Clone, Copy)]
pub(crate) struct Random(u64);

impl Random {
    /// Begins with a state of its own for each seed and each stream, which isn't 0.
    pub(crate) fn of(seed: u64, stream: u64) -> Random {
        let mixed = seed
            .wrapping_mul(0x9E37_79B9_7F4A_7C15)
            .wrapping_add(stream.wrapping_mul(0xD1B5_4A32_D192_ED03));
        Random(mixed | 1)
    }

    /// The next one, of 32 bits.
    pub(crate) fn next(&mut self) -> u64 {
        self.0 ^= self.0 >> 12;
        self.0 ^= self.0 << 25;
        self.0 ^= self.0 >> 27;
        self.0.wrapping_mul(0x2545_F491_4F6C_DD1D) >> 32
    }

    /// A number below `end`, which is at most 2^32; 0 if that is 0.
    pub(crate) fn below(&mut self, end: u64) -> u64 {
        self.next().wrapping_mul(end) >> 32
    }

    /// A number from `low` on and below `high`; `low` if there is none.
    pub(crate) fn between(&mut self, low: u64, high: u64) -> u64 {
        low.saturating_add(self.below(high.saturating_sub(low)))
    }
}
