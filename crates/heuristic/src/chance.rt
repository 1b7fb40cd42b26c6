//! Numbers by chance, the same for the same seed.

/// A source of numbers by chance: a linear congruential generator (Knuth's constants), of whose state the upper half is drawn.
#[derive(Clone, Copy)]
pub struct Chance {
    state: u64,
}

impl Chance {
    /// The source of a seed.
    pub fn new(seed: u64) -> Chance {
        Chance { state: seed }
    }

    /// A number of 32 bits.
    pub fn draw(&mut self) -> u32 {
        self.state = self
            .state
            .wrapping_mul(6_364_136_223_846_793_005)
            .wrapping_add(1_442_695_040_888_963_407);
        (self.state / 4_294_967_296) as u32
    }

    /// A number below `n`, or 0 where `n` is 0.
    pub fn below(&mut self, n: u32) -> u32 {
        let drawn = u64::from(self.draw()).wrapping_mul(u64::from(n));
        (drawn / 4_294_967_296) as u32
    }

    /// True so many times in 65,536.
    pub fn comes_true(&mut self, times: u32) -> bool {
        self.below(65_536) < times
    }

    /// A number from `least` to less than `width` above it.
    pub fn from(&mut self, least: i64, width: u32) -> i64 {
        least.wrapping_add(i64::from(self.below(width)))
    }
}
