//! Remainders without a division.

ghost use Rattle.std.specs.Prelude.{◌≡◌, ◌%◌, ◌^◌, ◌<◌};

use std::marker::Model;

/// A number by which others are divided often: a remainder takes two multiplications, and no division, which takes longer.
#[derive(Drop)]
pub struct Modulus {
    number: u64,
    /// 2^64 divided by it, rounded up; 0 where that is 2^64 itself.
    reciprocal: u64,
}

impl Model for Modulus {
    ghost use Rattle.std.specs.Prelude.{ℕ};
    ghost use Rattle.gen_core.specs.Reciprocals.{IsReciprocal};

    ghost Value = { ℕ };

    ghost view = { λ modulus. modulus.number };

    ghost invariant = { λ modulus. IsReciprocal modulus.number modulus.reciprocal };
}

impl Modulus {
    /// Takes a number below 2^32.
    pub fn new(number: u64) -> Modulus
        requires { (0 < number) × (number < 2 ^ 32) }
        ensures { result ≡ number }
    {
        Modulus {
            number,
            reciprocal: (u64::MAX / number).wrapping_add(1),
        }
    }

    /// The remainder of a number below 2^32. What stands behind the point of its multiple of the reciprocal is the
    /// remainder's part of the divisor, and too little more to tell.
    pub fn remainder(&self, number: u64) -> u64
        requires { number < 2 ^ 32 }
        ensures value { result ≡ number % self.now }
        ensures range { result < self.now }
    {
        let fraction = self.reciprocal.wrapping_mul(number);
        ((u128::from(fraction) * u128::from(self.number)) >> 64) as u64
    }
}
