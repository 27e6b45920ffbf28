//! Why a file does not read.

ghost use Rattle.std.specs.Prelude.{◌≡◌};
ghost use Rattle.ll_lines.specs.declared.fault.Cause.TheVariants.{Json, Memory};

use json::Invalid;
use std::alloc::{AllocError, AllocFailed};

/// What is wrong with a line of the tree or of the trace. Where a line has several faults, the first
/// of them counts, in the order in which `docs/FORMATS.md` lists them for each file.
#[derive(Clone, Copy, Debug, PartialEq, Eq)]
pub enum Cause {
    /// The line is not one JSON value.
    Json,
    /// A member is missing or has another form than its name asks for.
    Field,
    /// A path is not `/`, nor names that each follow one `/`.
    BadPath,
    /// No earlier line lists the directory of the path.
    NoParent,
    /// The path is listed already, or the process runs already.
    Twice,
    /// The file has more nodes, records or processes than are allowed.
    TooMany,
    /// No running process has the record's pid.
    UnknownProcess,
    /// Out of memory while the line was read.
    Memory,
}

/// The first faulty line of a file, and its first fault. Lines are numbered from 1.
#[derive(Clone, Copy, Debug, PartialEq, Eq)]
pub struct ReadFault {
    pub line: u64,
    pub cause: Cause,
}

impl From<AllocError> for Cause {
    ghost from_gives = { λ _ cause. cause ≡ Memory };

    fn from(_refused: AllocError) -> Cause {
        Cause::Memory
    }
}

impl<T: Drop> From<AllocFailed<T>> for Cause {
    ghost from_gives = { λ _ cause. cause ≡ Memory };

    fn from(_refused: AllocFailed<T>) -> Cause {
        Cause::Memory
    }
}

impl From<Invalid> for Cause {
    ghost from_gives = { λ _ cause. cause ≡ Json };

    fn from(_invalid: Invalid) -> Cause {
        Cause::Json
    }
}
