//! What a case stands on, for tests.

ghost use Rattle.std.specs.Prelude.{◌≡◌};
ghost use Rattle.ll_process.specs.Cases.{IsCase, case_of};
ghost use Rattle.ll_audit.specs.CasesOnce.{IsCase-once};

use ll_process::{Case, Settled};
use ll_trace::{Kernel, Located};
use std::alloc::{AllocError, Global};

/// A tree and a trace, and what is settled of them.
#[derive(Drop)]
pub struct Ground {
    located: Located,
    settled: Settled,
    ghost is_case: { IsCase (case_of located settled) } by { IsCase-once (case_of located settled) },
}

impl Ground {
    /// Settles a trace under a kernel.
    pub fn new(alloc: Global, located: Located, kernel: Kernel) -> Result<Ground, AllocError> {
        let settled = Settled::of(alloc, &located, kernel)?;
        Ok(Ground { located, settled })
    }

    /// The case.
    pub fn case(&self) -> Case<'_> {
        Case::of(&self.located, &self.settled)
    }
}
