//! The bits of keys by levels, two bits each, from the lowest on.

ghost use Rattle.std.specs.Prelude.{◌≡◌, ◌≢◌, ◌+◌, ◌*◌, ◌<◌, ◌/◌, ◌%◌, ◌^◌, ℕ, Some, None, if◌then◌else◌, IfSome};
ghost use Rattle.ll_shared.specs.Levels.{agree, whole};

/// How many levels a fork skips.
#[derive(Clone, Copy)]
pub(crate) struct Levels {
    count: u8,
    ghost few: { count < 32 },
}

impl Levels {
    /// In how many levels two keys agree before they differ.
    pub(crate) fn common(a: u64, b: u64) -> Levels
        requires { a ≢ b }
        ensures agree { a % 4 ^ result.count ≡ b % 4 ^ result.count }
        ensures differ { a / 4 ^ result.count % 4 ≢ b / 4 ^ result.count % 4 }
    {
        let count = ((a ^ b).trailing_zeros() / 2) as u8;
        Levels { count }
    }

    /// Two to the bits of the levels.
    fn size(self) -> u64
        ensures { result ≡ 4 ^ self.count }
    {
        1 << (2 * u32::from(self.count))
    }

    /// The bits that a key has in the levels.
    fn low(self, key: u64) -> u64
        ensures { result ≡ key % 4 ^ self.count }
    {
        key & (self.size() - 1)
    }

    /// The bits that a key has above the levels.
    pub(crate) fn above(self, key: u64) -> u64
        ensures { result ≡ key / 4 ^ self.count }
    {
        key >> (2 * u32::from(self.count))
    }

    /// The bits of a key above the levels, or nothing if it has other bits in them than another key.
    pub(crate) fn behind(self, low: u64, key: u64) -> Option<u64>
        ensures { result
            ≡ (if agree self.count key low then Some (key / 4 ^ self.count) else None) }
    {
        if self.count == 0 {
            Some(key)
        } else if self.low(key) == self.low(low) {
            Some(self.above(key))
        } else {
            None
        }
    }

    /// The levels that are left above other levels and the one that follows them.
    pub(crate) fn less(self, other: Levels) -> Levels
        requires { other.count < self.count }
        ensures { result.count + other.count + 1 ≡ self.count }
    {
        Levels {
            count: self.count - other.count - 1,
        }
    }

    /// These levels, one more, and then others, or nothing if there aren't so many.
    pub(crate) fn more(self, other: Levels) -> Option<Levels>
        ensures { IfSome result (λ levels. levels.count ≡ self.count + other.count + 1) }
    {
        let count = self.count + other.count + 1;
        if count < 32 {
            Some(Levels { count })
        } else {
            None
        }
    }

    /// The key that has the bits of one in the levels, then two bits, and then the rest, or nothing if it is too large.
    pub(crate) fn whole(self, low: u64, bits: u64, rest: u64) -> Option<u64>
        ensures { IfSome result (λ key. key ≡ whole self.count low bits rest) }
    {
        let above = rest.checked_mul(4)?.checked_add(bits)?;
        above.checked_mul(self.size())?.checked_add(self.low(low))
    }
}
