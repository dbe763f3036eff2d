// Pseudo-random numbers.
ghost use Rattle.std.specs.Prelude.{◌<◌};

/// Pseudo-random numbers by a linear congruence, whose high bits are taken. The same seed draws the same numbers.
#[derive(Drop)]
pub struct Random {
    state: u64,
}

impl Random {
    /// Numbers that are drawn from a seed.
    pub fn new(seed: u64) -> Random {
        Random { state: seed }
    }

    /// The next number, below this limit, which isn't 0.
    pub fn below(&mut self, limit: usize) -> usize
        requires { 0 < limit }
        ensures { result < limit }
    {
        let state = self.state.wrapping_mul(6364136223846793005);
        self.state = state.wrapping_add(1442695040888963407);
        (self.state >> 33) as usize % limit
    }
}
