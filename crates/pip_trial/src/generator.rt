ghost use Rattle.std.specs.Prelude.{◌≡◌, ◌<◌};
ghost use Rattle.program_model.specs.Trial.{after_draw, drawn};

use std::marker::Model;

const MULTIPLIER: u64 = 6_364_136_223_846_793_005;

const INCREMENT: u64 = 1_442_695_040_888_963_407;

/// A linear congruential generator modulo 2^64; a draw takes the high bits of its state.
#[derive(Drop)]
pub struct Generator {
    state: u64,
}

impl Model for Generator {
    ghost use Rattle.std.specs.Prelude.{ℕ};

    ghost Value = { ℕ };

    ghost view = { λ generator. generator.state };
}

impl Generator {
    /// The generator whose state is the seed.
    pub fn new(seed: u64) -> Generator
        ensures { result ≡ seed }
    {
        Generator { state: seed }
    }

    /// Goes to the next state, and answers a number of it below `range`, which is at least 1.
    pub fn draw(&mut self, range: u64) -> u64
        requires { 0 < range }
        ensures state { self.new ≡ after_draw self.old }
        ensures value { result ≡ drawn (after_draw self.old) range }
        ensures below { result < range }
    {
        self.state = self.state.wrapping_mul(MULTIPLIER).wrapping_add(INCREMENT);
        (self.state >> 33) % range
    }
}
