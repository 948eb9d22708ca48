//! Two workers are at work at once.

use std::sync::atomic::AtomicBool;
use std::sync::atomic::Ordering::SeqCst;
use yard_core::Gate;

/// Two pieces, each of which raises its own flag at the gate and looks for the other's.
#[derive(Drop)]
pub struct Meeting {
    here: [AtomicBool; 2],
    met: [AtomicBool; 2],
}

impl Meeting {
    pub fn new() -> Meeting {
        Meeting {
            here: [AtomicBool::new(false), AtomicBool::new(false)],
            met: [AtomicBool::new(false), AtomicBool::new(false)],
        }
    }

    /// Whether each piece has seen the other's flag.
    pub fn have_met(&self) -> bool {
        self.met[0].load(SeqCst) && self.met[1].load(SeqCst)
    }
}

impl Gate for Meeting {
    fn enter(&self, piece: u32) {
        let mine = piece as usize % 2;
        self.here[mine].store(true, SeqCst);
        for _ in 0..100_000_000u32 {
            if self.here[1 - mine].load(SeqCst) {
                self.met[mine].store(true, SeqCst);
                return;
            }
        }
    }
}
