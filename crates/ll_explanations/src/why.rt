//! Why the policy isn't asked about a call.

use ll_rights::Kind;

/// Which of the paths that a call names: its only one or the first of two, or the second.
#[derive(Clone, Copy, PartialEq, Eq)]
pub enum Which {
    First,
    Second,
}

/// A path that a call names, or one above it.
#[derive(Clone, Copy, PartialEq, Eq)]
pub struct NamedPath {
    /// The path of the call.
    pub which: Which,
    /// How many names are left out at its end.
    pub above: u32,
}

/// Why the policy isn't asked about a call. Each variant stands for the reason of the same name in the definitions; its
/// paths are those that the call names.
#[derive(Clone, Copy, PartialEq, Eq)]
pub enum Reason {
    /// There is no object of this path.
    Absent(NamedPath),
    /// The object of this path should be a directory and is none.
    NoDirectory(NamedPath),
    /// There is an object of this path of the call, where a new one should be.
    Present(Which),
    /// The object of the first path is of a kind that the call doesn't take.
    OfKind(Kind),
    /// The root is neither moved nor removed nor replaced.
    Root,
    /// The object of the first path would go where it is.
    Unmoved,
    /// The object of the first path would go under itself, to the second path.
    BeneathItself,
    /// The object of the first path would take the place of that of the second, which it is in.
    OverItself,
    /// One of the two objects is a directory and the other isn't.
    Mixed,
    /// The descriptor's number is open already.
    OpenAlready(u64),
    /// The descriptor's number isn't open.
    Unopened(u64),
    /// The descriptor isn't that of a regular file open for writing.
    NotForWriting(u64),
    /// The ruleset's number is held already.
    HeldAlready(u64),
    /// The ruleset's number isn't held.
    Unheld(u64),
    /// The program leaves the call out: the version supports none of the rights that the rule would grant.
    Unsupported,
    /// The program leaves the call out: the version supports none of the rights that the ruleset would handle.
    Unenforced,
}
