//! Why an audit gives no report.

ghost use Rattle.std.specs.Prelude.{◌≡◌};
ghost use Rattle.ll_audit.specs.{declared.fault.Fault.TheVariants.Memory, Causes.fault_of_pool};

use ll_pool::PoolFault;
use ll_tree::ReadFault;
use std::alloc::AllocError;
use thiserror::Error;

/// Why an audit gives no report. They are looked for in the order `Workers`, `Tree`, `Trace`,
/// `NoThread`; `Memory` comes in place of any of the others but `Workers`, where a growth was
/// refused.
#[derive(Clone, Copy, Debug, PartialEq, Eq, Error)]
pub enum Fault {
    /// The tree doesn't read.
    #[error("line {} of the tree is wrong: {:?}", .0.line, .0.cause)]
    Tree(ReadFault),
    /// The trace doesn't read.
    #[error("line {} of the trace is wrong: {:?}", .0.line, .0.cause)]
    Trace(ReadFault),
    /// The number of workers isn't 1 to 64.
    #[error("the number of workers isn't 1 to 64")]
    Workers,
    /// Out of memory.
    #[error("no memory is left")]
    Memory,
    /// A thread could not be started.
    #[error("a thread could not be started")]
    NoThread,
}

impl From<AllocError> for Fault {
    ghost from_gives = { λ _ fault. fault ≡ Memory };

    fn from(_refused: AllocError) -> Fault {
        Fault::Memory
    }
}

impl From<PoolFault> for Fault {
    ghost from_gives = { λ why fault. fault ≡ fault_of_pool why };

    fn from(why: PoolFault) -> Fault {
        match why {
            PoolFault::Memory => Fault::Memory,
            PoolFault::NoThread => Fault::NoThread,
        }
    }
}
