//! Steps of a test, in few words.

use std::process::Abort;

/// What takes the steps of a test.
pub trait Script<Step> {
    /// Takes a step. Whether it answers what is wanted.
    fn answers(&mut self, step: &Step) -> bool;
}

/// Takes the steps one after the other.
pub fn play<R: Abort, P, S: Script<P>>(rt: &R, script: &mut S, steps: &[P]) {
    for (place, step) in steps.iter().enumerate() {
        assert!(rt; script.answers(step), "step {place}");
    }
}
