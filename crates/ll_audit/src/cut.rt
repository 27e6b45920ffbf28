//! At which forks the work is cut.

ghost use Rattle.std.specs.Prelude.{◌≡◌, ◌<◌, IfOk};
ghost use Rattle.ll_trace.specs.Processes.{process_count};
ghost use Rattle.ll_audit.specs.Inputs.{cuts_by, is_long};

use ll_trace::{ProcessId, Trace};
use std::alloc::{AllocError, Global};

/// At which forks a child may be judged by another thread than its parent.
#[derive(Debug, Drop)]
pub enum Cut {
    /// Where the child has at least this many records.
    Grain(u64),
    /// Where the list has `true` at the child's number. A number past its end counts as `false`.
    List(Vec<bool>),
}

/// For each process whether it may be judged by another thread than its parent.
pub(crate) fn cuts_of(alloc: Global, trace: &Trace, cut: Cut) -> Result<Vec<bool>, AllocError>
    ensures { IfOk result (λ cuts. cuts.items ≡ cuts_by trace.now cut) }
{
    match cut {
        Cut::Grain(grain) => long_ones(alloc, trace, grain),
        Cut::List(cuts) => Ok(cuts),
    }
}

/// For each process whether it has this many records.
fn long_ones(alloc: Global, trace: &Trace, grain: u64) -> Result<Vec<bool>, AllocError>
    ensures { IfOk result (λ cuts. cuts.items ≡ cuts_by trace.now (Cut.Grain grain)) }
{
    (0..trace.processes())
        .map(|process| has_many(trace, ProcessId(process), grain))
        .collect(alloc)
}

/// Whether a process has this many records.
fn has_many(trace: &Trace, process: ProcessId, grain: u64) -> bool
    requires { process.0 < process_count trace.now }
    ensures { result ≡ is_long trace.now grain process.0 }
{
    grain <= trace.records_of(process).len() as u64
}
