//! The numbers that a seed gives.
ghost use Rattle.std.specs.Prelude.{◌≡◌, ◌<◌};
ghost use Rattle.load_requests.specs.Generator.{begun, next, drawn};

use std::marker::Model;

const MODULUS: u64 = 1 << 31;

const MULTIPLIER: u64 = 1_103_515_245;

const INCREMENT: u64 = 12_345;

/// What a draw leaves out of a number.
const LOWER: u64 = 65_536;

/// A source of numbers: the linear congruence of the C standard's example of `rand` (ISO C, section 7.24.2), modulo 2^31.
///
/// A contract sees it as its number.
#[derive(Drop)]
pub struct Generator {
    number: u64,
}

impl Model for Generator {
    ghost use Rattle.std.specs.Prelude.{ℕ, ◌<◌, ◌^◌};

    ghost Value = { ℕ };

    ghost view = { λ g. g.number };

    ghost invariant = { λ g. g.number < 2 ^ 31 };
}

impl Generator {
    /// The source of this seed.
    #[tactic(auto, unfolding(crate::specs::Generator::begun))]
    pub fn new(seed: u64) -> Generator
        ensures { result ≡ begun seed }
    {
        Generator {
            number: seed % MODULUS,
        }
    }

    /// The next draw, 0 to 32767.
    #[tactic(auto, unfolding(crate::specs::Generator::next, crate::specs::Generator::drawn))]
    pub fn draw(&mut self) -> u64
        ensures number { self.new ≡ next self.old }
        ensures drawn { result ≡ drawn self.new }
    {
        self.number = (self.number * MULTIPLIER + INCREMENT) % MODULUS;
        self.number / LOWER
    }
}
