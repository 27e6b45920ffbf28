//! A gate that tests give to what they test.

use ll_pool::Gate;
use ll_trace::ProcessId;
use std::hint;
use std::sync::atomic::{AtomicU64, Ordering};

/// A gate that holds each job of some processes until another one of them has begun, or for a billion looks.
#[derive(Drop)]
pub(crate) struct Meeting {
    /// The least of the processes.
    first: u32,
    /// The greatest.
    last: u32,
    /// How many of their jobs have begun.
    begun: AtomicU64,
    /// How many waited for another one in vain.
    in_vain: AtomicU64,
}

impl Meeting {
    /// A meeting of the processes from one to another.
    pub(crate) fn of(first: u32, last: u32) -> Meeting {
        Meeting {
            first,
            last,
            begun: AtomicU64::new(0),
            in_vain: AtomicU64::new(0),
        }
    }

    /// How many jobs have begun, and how many waited in vain.
    pub(crate) fn counts(&self) -> (u64, u64) {
        (
            self.begun.load(Ordering::SeqCst),
            self.in_vain.load(Ordering::SeqCst),
        )
    }

    /// Looks a billion times whether another job has begun.
    fn is_met(&self) -> bool {
        for _ in 0..1_000_000_000 {
            if self.begun.load(Ordering::SeqCst) > 1 {
                return true;
            }
            hint::spin_loop();
        }
        false
    }
}

impl Gate for Meeting {
    fn begun(&self, process: ProcessId) {
        if process.0 < self.first || process.0 > self.last {
            return;
        }
        self.begun.fetch_add(1, Ordering::SeqCst);
        if !self.is_met() {
            self.in_vain.fetch_add(1, Ordering::SeqCst);
        }
    }
}
