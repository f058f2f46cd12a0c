//! Numbers for tests that look like any, and are the same in each run.
#![tactic(auto)]

/// A linear congruential generator, whose high bits are taken.
#[derive(Drop)]
pub struct Chance {
    state: u64,
}

impl Chance {
    /// The generator that begins with this seed.
    pub fn new(seed: u64) -> Chance {
        Chance { state: seed }
    }

    /// The next number, of those below `count`; 0 where there are none.
    pub fn below(&mut self, count: u32) -> u32 {
        self.state = self
            .state
            .wrapping_mul(6_364_136_223_846_793_005)
            .wrapping_add(1_442_695_040_888_963_407);
        let high = (self.state >> 32) as u32;
        if count == 0 { 0 } else { high % count }
    }

    /// Whether what comes up once in `count` times comes up now.
    pub fn is_one_in(&mut self, count: u32) -> bool {
        self.below(count) == 0
    }
}
