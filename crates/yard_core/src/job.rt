//! What workers share out.

ghost use Rattle.std.specs.Prelude.{◌≡◌, ℕ, ◌↔◌, IsTrue};

/// A piece of work with its place. What it was made from is plain data, which it keeps.
pub trait Job: Send + Drop {
    /// What a job is made from.
    type Origin;

    /// Its number among the jobs of a yard, from 0.
    ghost place_of: { Self → ℕ };

    /// What this job was made from.
    ghost origin_of: { Self → Self.Origin };

    /// It is worked, and holds the defined value of its origin, or want of memory.
    ghost has_result: { Self → Type 0 };

    /// Its place.
    fn place(&self) -> u32
        ensures { result ≡ place_of self.now };

    /// Does the work. A job that finds no memory holds that as its result.
    fn work(&mut self)
        ensures place { place_of self.new ≡ place_of self.old }
        ensures origin { origin_of self.new ≡ origin_of self.old }
        ensures result { has_result self.new };

    /// Whether it is worked.
    fn worked(&self) -> bool
        ensures { IsTrue result ↔ has_result self.now };
}
