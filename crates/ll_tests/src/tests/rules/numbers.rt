//! Numbers that look like chance, the same in every run.

use bitflags::Flags;
use ll_rights::Fs;

/// Numerical Recipes, "Portable Random Number Generators".
#[derive(Clone, Copy)]
pub(crate) struct Numbers {
    pub(crate) last: u32,
}

impl Numbers {
    pub(crate) fn next(&mut self) -> u32 {
        self.last = self.last.wrapping_mul(1664525).wrapping_add(1013904223);
        self.last >> 16
    }

    /// A set of named rights, of about half of them or of few.
    pub(crate) fn rights(&mut self) -> Fs {
        let sparse = self.next() % 2 == 0;
        let half = self.next();
        Fs::from_bits_retain(if sparse { half & self.next() } else { half } & 0xffff)
    }
}
