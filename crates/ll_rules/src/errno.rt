//! The errors that Landlock answers, and those of this crate's own calls.

/// An error of a system call (landlock_create_ruleset(2), landlock_add_rule(2),
/// landlock_restrict_self(2), "ERRORS").
#[derive(Clone, Copy, Debug, PartialEq, Eq)]
pub enum Errno {
    /// `EPERM`: the call isn't permitted.
    Perm,
    /// `EBADF`: no such ruleset is held.
    BadFd,
    /// `EACCES`: the layers lack a right.
    Acces,
    /// `EXDEV`: the object may not leave its directory.
    XDev,
    /// `EINVAL`: an unknown right, an unhandled one, or one that doesn't fit the object.
    Inval,
    /// `E2BIG`: a longer structure than the version knows, or too many layers.
    TooBig,
    /// `ENOMSG`: no right at all.
    NoMsg,
}

/// Why a rule isn't added.
#[derive(Clone, Copy, Debug, PartialEq, Eq)]
pub enum RuleFault {
    /// The system call's error.
    Errno(Errno),
    /// The path names no object of the tree, so the call is moot.
    Moot,
    /// Out of memory for the rule.
    Memory,
}

/// A domain has sixteen layers already.
#[derive(Clone, Copy, Debug, PartialEq, Eq)]
pub struct Full;
