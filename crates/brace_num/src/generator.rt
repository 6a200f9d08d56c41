ghost use Rattle.std.specs.Prelude.{◌≡◌, ◌%◌, ◌^◌};
ghost use Rattle.brace_num.specs.Generator.{following};

use std::marker::Model;

/// A linear congruential generator of 32-bit numbers, with the multiplier 1664525 and the increment
/// 1013904223 of Knuth and Lewis. Contracts see its last number.
///
/// It is made for choosing orders and places for tests: its low bits are weak.
#[derive(Debug, Drop)]
pub struct Generator {
    last: u32,
}

impl Model for Generator {
    ghost use Rattle.std.specs.Prelude.{ℕ};

    ghost Value = { ℕ };

    ghost view = { λ generator. generator.last };
}

impl Generator {
    /// The generator of a seed, of which the low 32 bits count.
    pub fn new(seed: u64) -> Generator
        ensures { result ≡ seed % 2 ^ 32 }
    {
        Generator {
            last: (seed % 4_294_967_296) as u32,
        }
    }

    /// The next number.
    pub fn draw(&mut self) -> u32
        ensures next { self.new ≡ following self.old }
        ensures drawn { result ≡ self.new }
    {
        self.last = self
            .last
            .wrapping_mul(1_664_525)
            .wrapping_add(1_013_904_223);
        self.last
    }
}
