//! The versions of Landlock's interface that an audit goes over.

ghost use Rattle.std.specs.Prelude.{◌≡◌, ◌==◌, Some, None, if◌then◌else◌};
ghost use Rattle.ll_rights.specs.Abis.{number_of};
ghost use Rattle.ll_rights.specs.AbiRanges.{IsRising, is_in, range_from};

use crate::abi::Abi;
use std::marker::Model;

/// Neighbouring versions of Landlock's interface: all from the oldest to the newest, which both belong to them.
/// There is at least one.
#[derive(Clone, Copy, Debug, PartialEq, Eq)]
pub struct AbiRange {
    oldest: Abi,
    newest: Abi,
}

impl Model for AbiRange {
    ghost use Rattle.std.specs.Prelude.{◌≤◌};
    ghost use Rattle.ll_rights.specs.{Abis.number_of, AbiRanges.Range};

    ghost Value = { Range };

    ghost view = { λ range. record { oldest = range.oldest; newest = range.newest } };

    ghost invariant = { λ range. number_of range.oldest ≤ number_of range.newest };

    ghost inverse = { λ range. record { oldest = range.oldest; newest = range.newest } };
}

impl AbiRange {
    /// The range from a version to one that isn't older.
    pub fn new(oldest: Abi, newest: Abi) -> Option<AbiRange>
        ensures { result ≡ range_from oldest newest }
    {
        if oldest.number() <= newest.number() {
            Some(AbiRange { oldest, newest })
        } else {
            None
        }
    }

    /// One version alone.
    pub fn only(abi: Abi) -> AbiRange
        ensures { result ≡ record { oldest = abi; newest = abi } }
    {
        AbiRange {
            oldest: abi,
            newest: abi,
        }
    }

    /// The oldest version of the range.
    pub fn oldest(self) -> Abi
        ensures version { result ≡ self.oldest }
        ensures rising { IsRising self }
    {
        self.oldest
    }

    /// Whether a version is in the range.
    pub fn has(self, abi: Abi) -> bool
        ensures { result ≡ is_in self abi }
    {
        let number = abi.number();
        let oldest = self.oldest.number();
        oldest <= number && number <= self.newest.number()
    }

    /// The version of the range, where it has just one.
    pub fn single(self) -> Option<Abi>
        ensures { result
            ≡ (if number_of self.oldest == number_of self.newest then Some self.oldest else None) }
    {
        if self.oldest.number() == self.newest.number() {
            Some(self.oldest)
        } else {
            None
        }
    }
}
