//! A job that squares its number.

ghost use Rattle.std.specs.Prelude.{◌≡◌, ◌*◌, true};

use yard_core::Job;

/// The square of a number.
#[derive(Drop)]
pub struct Square {
    place: u32,
    number: u32,
    is_done: bool,
    pub answer: u64,
    ghost right: { is_done ≡ true → answer ≡ number * number },
}

impl Job for Square {
    ghost use Rattle.std.specs.Prelude.{◌≡◌, ◌*◌, true};

    type Origin = u32;

    ghost place_of = { λ job. job.place };

    ghost origin_of = { λ job. job.number };

    ghost has_result = { λ job. (job.is_done ≡ true) × (job.answer ≡ job.number * job.number) };

    fn place(&self) -> u32 {
        self.place
    }

    fn work(&mut self) {
        self.answer = u64::from(self.number) * u64::from(self.number);
        self.is_done = true;
    }

    fn worked(&self) -> bool {
        self.is_done
    }
}

/// The job to square a number, not worked yet.
pub fn square_of(place: u32, number: u32) -> Square
    ensures { (result.place ≡ place) × (result.number ≡ number) }
{
    Square {
        place,
        number,
        is_done: false,
        answer: 0,
    }
}
