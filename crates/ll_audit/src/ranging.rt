//! An audit over several versions.

ghost use Rattle.std.specs.Prelude.{◌≡◌, ◌+◌, ◌<◌, ◌^◌, IfOk, IfErr, length};
ghost use Rattle.ll_rights.specs.{Abis.number_of};
ghost use Rattle.ll_json.specs.Reports.{AreFound};
ghost use Rattle.ll_audit.specs.Causes.{IsOutOfMemoryOrThreads};
ghost use Rattle.ll_audit.specs.ShownReports.{versions_by};
ghost use Rattle.ll_audit.specs.Ranging.{ComesTo, GoesOn, IsOf, IsThrough};
ghost use Rattle.ll_audit.specs.Audits.{IsWorkerCount};

use crate::fault::Fault;
use crate::judged::Judged;
use crate::workers::Workers;
use ll_findings::Findings;
use ll_pool::Gate;
use ll_report::{Audited, Options};
use ll_rights::Abi;
use ll_trace::{Kernel, Located, Trace};
use ll_tree::Tree;
use std::sync::Wait;
use std::thread::Threads;

/// What an audit is asked for, who does it, and at which forks its work is cut.
#[derive(Clone, Copy)]
pub(crate) struct Audit<'a, R, G> {
    pub(crate) workers: &'a Workers<'a, R, G>,
    pub(crate) options: &'a Options,
    pub(crate) cuts: &'a [bool],
}

impl<'a, R, G> Audit<'a, R, G> {
    /// The kernel of a version, as the options ask for it.
    pub(crate) fn kernel(&self, abi: Abi) -> Kernel
        ensures abi { result.abi ≡ abi }
        ensures effort { result.effort ≡ self.now.options.now.effort }
    {
        Kernel {
            abi,
            effort: self.options.effort,
        }
    }
}

/// How far an audit under several versions is, the newest first.
#[derive(Drop)]
pub(crate) enum Progress<'l> {
    /// No version has judged yet.
    Begun,
    /// Some have; the oldest of them isn't explained yet.
    Judged(Judged<'l>),
}

impl<'l> Progress<'l> {
    /// Judges under a version too, which is older than those before, if it is asked for.
    fn under<R: Threads + Wait + Sync, G: Gate + Sync>(
        self,
        audit: &Audit<'_, R, G>,
        located: &'l Located,
        abi: Abi,
    ) -> Result<Progress<'l>, Fault>
        requires count { IsWorkerCount audit.now.workers.now.count }
        requires of_it { IsOf located.now self }
        ensures of_it { IfOk result (IsOf located.now) }
        ensures further { IfOk result
            (GoesOn audit.now.options.now located.now abi self.entry) }
        ensures fault { IfErr result IsOutOfMemoryOrThreads }
    {
        if !audit.options.abis.has(abi) {
            return Ok(self);
        }
        let judged = match self {
            Progress::Begun => {
                Judged::of(Findings::none(audit.workers.alloc), audit, located, abi)?
            }
            Progress::Judged(newer) => newer.next(audit, abi)?,
        };
        Ok(Progress::Judged(judged))
    }

    /// What was found under all versions so far. As many threads explain the oldest of them as there are workers, but
    /// two if there is one worker.
    fn finish<R: Threads + Wait + Sync, G: Gate + Sync>(
        self,
        audit: &Audit<'_, R, G>,
    ) -> Result<Findings, Fault>
        ensures found { IfOk result (ComesTo audit.now.options.now self.entry) }
        ensures fault { IfErr result IsOutOfMemoryOrThreads }
    {
        match self {
            Progress::Begun => Ok(Findings::none(audit.workers.alloc)),
            Progress::Judged(judged) => judged.finish(audit, audit.workers.count.max(2)),
        }
    }

    /// Judges a trace under all versions that are asked for, the newest first.
    fn through<R: Threads + Wait + Sync, G: Gate + Sync>(
        audit: &Audit<'_, R, G>,
        located: &'l Located,
    ) -> Result<Progress<'l>, Fault>
        requires { IsWorkerCount audit.now.workers.now.count }
        ensures through { IfOk result (IsThrough audit.now.options.now located.now) }
        ensures fault { IfErr result IsOutOfMemoryOrThreads }
    {
        let versions = Abi::all();
        let mut progress = Progress::Begun;
        for index in (0..versions.len()).rev() {
            let abi = versions[index];
            progress = progress.under(audit, located, abi)?;
        }
        Ok(progress)
    }
}

/// What is found of a tree and a trace under all versions that are asked for.
fn found_in<R: Threads + Wait + Sync, G: Gate + Sync>(
    audit: &Audit<'_, R, G>,
    located: &Located,
) -> Result<Findings, Fault>
    requires { IsWorkerCount audit.now.workers.now.count }
    ensures findings { IfOk result (AreFound audit.now.options.now.shown.explanations
        located.now.tree located.now.trace
        (versions_by audit.now.options.now located.now.trace)) }
    ensures fault { IfErr result IsOutOfMemoryOrThreads }
{
    let progress = Progress::through(audit, located)?;
    progress.finish(audit)
}

/// Audits a tree and a trace under all versions that are asked for.
#[tactic(auto, using(crate::proofs::FoundByVersion::founds_inside))]
pub(crate) fn audit_all<R: Threads + Wait + Sync, G: Gate + Sync>(
    audit: &Audit<'_, R, G>,
    tree: Tree,
    trace: Trace,
) -> Result<Audited, Fault>
    requires { IsWorkerCount audit.now.workers.now.count }
    ensures tree { IfOk result (λ all. all.located.tree ≡ tree) }
    ensures trace { IfOk result (λ all. all.located.trace ≡ trace) }
    ensures findings { IfOk result
        (λ all. AreFound audit.now.options.now.shown.explanations tree trace
        (versions_by audit.now.options.now trace) all.findings) }
    ensures few { IfOk result (λ all. number_of audit.now.options.now.abis.oldest
        + length all.findings < 2 ^ 64) }
    ensures fault { IfErr result IsOutOfMemoryOrThreads }
{
    let Workers {
        rt,
        alloc,
        count,
        ..
    } = audit.workers;
    let located = Located::of_by(*rt, *alloc, tree, trace, *count as usize)?;
    let findings = found_in(audit, &located)?;
    Ok(Audited { located, findings })
}
