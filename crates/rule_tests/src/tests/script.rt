//! Steps of a test, in few words.

use std::process::Abort;

/// A call of what is tested, with the answer that it has to give.
pub trait Step<T> {
    /// Takes the step, and says whether the answer is as wanted.
    fn holds(&self, tested: &mut T) -> bool;
}

/// Takes the steps one after the other.
pub fn play<T, S: Step<T>, R: Abort>(rt: &R, tested: &mut T, steps: &[S]) {
    for (place, step) in steps.iter().enumerate() {
        assert!(rt; step.holds(tested), "step {place}");
    }
}

/// Goes over the rows of a table, where nothing is kept from one to the next.
pub fn check<S: Step<()>, R: Abort>(rt: &R, rows: &[S]) {
    play(rt, &mut (), rows);
}
