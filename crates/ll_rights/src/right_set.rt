//! What sets of rights for files and sets of rights for the network have in common.

ghost use Rattle.std.specs.Prelude.{◌≡◌, false, map};
ghost use Rattle.ll_rights.specs.Families as families;

use crate::abi::Abi;

/// A set of access rights, for files or for the network.
pub trait RightSet: Copy {
    /// A right of the set's table.
    type Right: Copy + 'static;

    ghost Named: { Type 0 };

    ghost family: { families.Family Self Named };

    // The right that one of the code stands for.
    ghost named: { Self.Right → Named };

    /// All rights, in the order of the table.
    fn all() -> &'static [Self::Right]
        ensures { map named result.now ≡ family.all_rights };

    /// The name of a right, which is empty where it has none.
    fn name(right: Self::Right) -> &'static str
        ensures { result.now ≡ (family.row (named right)).name };

    /// The set without any right.
    fn none() -> Self
        ensures { result ≡ families.no_right family };

    /// The set of the one right that a name stands for.
    fn of_name(name: &str) -> Self
        ensures { result ≡ family.only (family.right_named name.now) };

    /// Whether the set has a right.
    fn has(self, right: Self::Right) -> bool
        ensures { result ≡ family.has self (named right) };

    /// Whether the set has a right without a name.
    fn has_other(self) -> bool
        ensures { result ≡ family.has self family.other };

    /// The rights of either set.
    fn union(self, other: Self) -> Self
        ensures { result ≡ family.united self other };

    /// The rights that both sets have.
    fn common(self, other: Self) -> Self
        ensures { result ≡ families.common family self other };

    /// Whether the set has no right.
    fn is_empty(self) -> bool
        ensures { result ≡ families.is_empty family self };

    /// Whether each right of the set is one of `whole`, a set of known rights.
    fn is_within(self, whole: Self) -> bool
        requires known { family.has whole family.other ≡ false }
        ensures { result ≡ families.is_within family self whole };

    /// Whether some right of the set is handled and not granted, where what is handled are known
    /// rights.
    fn lacks(self, handled: Self, granted: Self) -> bool
        requires known { family.has handled family.other ≡ false }
        ensures { result ≡ families.is_lacking family self handled granted };

    /// What a program keeps of the set that goes by its kernel's version: the rights that came with
    /// a later version are taken out, and any other right stays.
    fn supported(self, abi: Abi) -> Self
        ensures { result ≡ family.supported abi self };
}
