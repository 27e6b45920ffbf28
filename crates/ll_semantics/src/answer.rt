//! What Landlock answers to a call, what the rulebook says of a record before its process is judged, and what a
//! descriptor keeps from when it was opened.

use ll_rules::{Errno, LayerId, LayerSet};
use ll_trace::Sort;

/// The answer to one call of a trace.
#[derive(Clone, Copy, Debug, PartialEq, Eq)]
pub enum Answer {
    /// The policy lets the call through.
    Allowed,
    /// The policy isn't asked: the tree or the process's tables decide the call.
    Moot,
    /// The call fails with this error, refused by these layers of the domain.
    Refused(Errno, LayerSet),
}

/// What is known of a record from the rulesets alone, whichever processes added their rules.
#[derive(Clone, Copy, Debug, PartialEq, Eq)]
pub enum RulesetOutcome {
    /// The record creates, changes or closes a ruleset, and has this answer.
    Answered(Answer),
    /// The record restricts its process by a ruleset that it holds, which was frozen to this layer.
    Frozen(LayerId),
    /// The record's answer rests on the state of its process alone.
    ByState,
}

/// What a descriptor is open on, and the layers that refused `truncate` (a file) or `ioctl_dev` (a
/// device) when it was opened (the kernel's userspace document on Landlock, "Truncating files").
#[derive(Clone, Copy, Debug, PartialEq, Eq)]
pub struct Descriptor {
    pub sort: Sort,
    pub kept: LayerSet,
}
