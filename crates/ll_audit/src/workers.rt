//! The threads of an audit: how many they are, and who is told of each job.

ghost use Rattle.std.specs.Prelude.{◌≡◌, IfOk, IfErr};
ghost use Rattle.ll_process.specs.Cases.{IsCase, case_of};
ghost use Rattle.ll_findings.specs.Findings.{judged_in};
ghost use Rattle.ll_audit.specs.Causes.{IsOutOfMemoryOrThreads};
ghost use Rattle.ll_audit.specs.Audits.{IsWorkerCount};

use crate::fault::Fault;
use ll_pool::{Gate, assemble, run};
use ll_process::{Answer, Case, Settled};
use ll_trace::{Located, ProcessId};
use std::alloc::Global;
use std::sync::Wait;
use std::thread::Threads;

/// The threads that read and judge, and the gate that is told of each job.
#[derive(Drop)]
pub(crate) struct Workers<'a, R, G> {
    pub(crate) rt: &'a R,
    pub(crate) alloc: Global,
    /// How many judge.
    pub(crate) count: u64,
    pub(crate) gate: &'a G,
}

/// The answers to all records of a case, whose work is cut at these processes, by so many workers. The case is that of
/// a tree and a trace, and what was settled of them.
pub(crate) fn answers_by<R: Threads + Wait + Sync, G: Gate + Sync>(
    rt: &R,
    alloc: Global,
    count: u64,
    gate: &G,
    located: &Located,
    settled: &Settled,
    cuts: &[bool],
) -> Result<Vec<Answer>, Fault>
    requires count { IsWorkerCount count }
    requires case { IsCase (case_of located.now settled.now) }
    ensures answers { IfOk result
        (λ answers. answers.items ≡ judged_in (case_of located.now settled.now)) }
    ensures fault { IfErr result IsOutOfMemoryOrThreads }
{
    let case = Case::of(located, settled);
    let pieces = run(rt, alloc, &case, count as usize, cuts, gate)?;
    Ok(assemble(alloc, &case, pieces)?)
}

/// A gate that lets every job through at once.
#[derive(Clone, Copy, Debug)]
pub struct Idle;

impl Gate for Idle {
    fn begun(&self, _process: ProcessId) {}
}
