//! Draws from a linear congruential sequence.

ghost use Rattle.std.specs.Prelude.{◌≡◌, ◌<◌, ◌%◌};
ghost use Rattle.gen_core.specs.Draws.{next_number, answer_of};

use crate::modulus::Modulus;

/// The number of 64 bits at which the draws stand.
#[derive(Clone, Copy, Debug, PartialEq, Eq)]
pub struct Draws {
    pub number: u64,
}

impl Draws {
    /// Steps to the next number.
    #[tactic(auto, unfolding(crate::specs::Draws::next_number))]
    fn step(&mut self)
        ensures { self.new.number ≡ next_number self.old.number }
    {
        self.number = self
            .number
            .wrapping_mul(6_364_136_223_846_793_005)
            .wrapping_add(1_442_695_040_888_963_407);
    }

    /// One draw, modulo a number.
    pub fn below(&mut self, bound: u64) -> u64
        requires { 0 < bound }
        ensures number { self.new.number ≡ next_number self.old.number }
        ensures answer { result ≡ answer_of self.new.number % bound }
        ensures range { result < bound }
    {
        self.step();
        (self.number >> 33) % bound
    }

    /// One draw, modulo a number that is kept for many draws.
    pub fn modulo(&mut self, modulus: &Modulus) -> u64
        ensures number { self.new.number ≡ next_number self.old.number }
        ensures answer { result ≡ answer_of self.new.number % modulus.now }
        ensures range { result < modulus.now }
    {
        self.step();
        modulus.remainder(self.number >> 33)
    }
}
