ghost use Rattle.std.specs.Prelude.{◌≡◌, ◌<◌, ◌%◌};

use std::marker::Model;

/// A number that many others are divided by, with what spares the divisions. Contracts see the number.
#[derive(Debug, Drop)]
pub struct Divisor {
    number: u64,
    inverse: u64,
}

impl Model for Divisor {
    ghost use Rattle.std.specs.Prelude.{ℕ};
    ghost use Rattle.lt_bloom.specs.Divisor.{HasInverse};

    ghost Value = { ℕ };

    ghost view = { λ d. d.number };

    ghost invariant = { λ d. HasInverse d.number d.inverse };
}

impl Divisor {
    pub fn new(number: u64) -> Divisor
        requires { 0 < number }
        ensures { result ≡ number }
    {
        Divisor {
            number,
            inverse: u64::MAX / number,
        }
    }

    /// What a number leaves, divided by this one. It takes two multiplications and no division.
    pub fn left_of(&self, number: u64) -> u64
        ensures exact { result ≡ number % self.now }
        ensures within { result < self.now }
    {
        let quotient = ((u128::from(number) * u128::from(self.inverse)) >> 64) as u64;
        // The quotient is right, or one too small.
        let left = number - quotient * self.number;
        if left < self.number {
            left
        } else {
            left - self.number
        }
    }
}
