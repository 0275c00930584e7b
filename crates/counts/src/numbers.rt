// Numbers that come in the same order in every run.

// A linear congruential generator.
#[derive(Clone, Copy)]
pub struct Numbers {
    state: u64,
}

impl Numbers {
    // The numbers that follow from this seed.
    pub fn from_seed(seed: u64) -> Numbers {
        Numbers { state: seed }
    }

    // The next number: the upper half of the state, whose lower bits repeat too soon.
    fn next_number(&mut self) -> u64 {
        self.state = self
            .state
            .wrapping_mul(6_364_136_223_846_793_005)
            .wrapping_add(1_442_695_040_888_963_407);
        self.state >> 33
    }

    // A number from 0 on, below `end`; 0 if `end` is 0.
    pub fn below(&mut self, end: u64) -> u64 {
        let number = self.next_number();
        number.checked_rem(end).unwrap_or(0)
    }

    // A number from 1 to `most`; 1 if `most` is 0.
    pub fn up_to(&mut self, most: u64) -> u64 {
        self.below(most).saturating_add(1)
    }

    // One of the items; 0 if there are none.
    pub fn pick(&mut self, items: &[u64]) -> u64 {
        let place = self.below(items.len() as u64);
        items.get(place as usize).copied().unwrap_or(0)
    }

    // True once in so many times.
    pub fn once_in(&mut self, times: u64) -> bool {
        self.below(times) == 0
    }
}
