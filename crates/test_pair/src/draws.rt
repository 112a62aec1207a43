//! Numbers that a seed draws.

/// Numbers that a seed draws, one after another.
#[derive(Clone, Copy)]
pub(crate) struct Draws {
    state: u64,
}

impl Draws {
    /// Those of the seed.
    pub(crate) fn of(seed: u64) -> Draws {
        Draws { state: seed }
    }

    /// The next number, below 2 to the 31st.
    pub(crate) fn next(&mut self) -> u32 {
        self.state = self
            .state
            .wrapping_mul(6364136223846793005)
            .wrapping_add(1442695040888963407);
        (self.state >> 33) as u32
    }
}
