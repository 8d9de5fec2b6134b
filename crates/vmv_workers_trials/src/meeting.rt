use std::sync::atomic::{AtomicBool, AtomicU64, Ordering};
use vmv_crew::Turnstile;

/// Holds the first job that comes until a second one has come, but not for ever, and notes whether one did.
#[derive(Drop)]
pub struct Meeting {
    came: AtomicU64,
    met: AtomicBool,
}

impl Meeting {
    /// Nobody has come.
    pub fn new() -> Meeting {
        Meeting {
            came: AtomicU64::new(0),
            met: AtomicBool::new(false),
        }
    }

    /// Whether the first job was still there when a second one came.
    pub fn has_met(&self) -> bool {
        self.met.load(Ordering::SeqCst)
    }
}

impl Turnstile for Meeting {
    fn pass(&self, _place: usize) {
        if self.came.fetch_add(1, Ordering::SeqCst) > 0 {
            return;
        }
        for _ in 0..1_000_000_000u32 {
            if self.came.load(Ordering::SeqCst) > 1 {
                self.met.store(true, Ordering::SeqCst);
                return;
            }
        }
    }
}
