//! A case that is judged, and not explained yet.

ghost use Rattle.std.specs.Prelude.{◌≡◌, IfOk, IfErr};
ghost use Rattle.std.specs.Thread.{IsSync};
ghost use Rattle.ll_process.specs.Cases.{IsCase, case_of};
ghost use Rattle.ll_audit.specs.CasesOnce.{IsCase-once};
ghost use Rattle.ll_audit.specs.Causes.{IsOutOfMemoryOrThreads};
ghost use Rattle.ll_audit.specs.Audits.{IsWorkerCount};
ghost use Rattle.ll_findings.specs.Findings.{AddsFinding, judged_in};

use crate::fault::Fault;
use crate::ranging::Audit;
use crate::workers::{Workers, answers_by};
use ll_findings::Findings;
use ll_pool::Gate;
use ll_process::{Answer, Case, Settled, answers_alike};
use ll_rights::Abi;
use ll_trace::{Kernel, Located};
use std::alloc::{AllocError, Global};
use std::sync::Wait;
use std::thread::{Threads, join};

/// A case that is judged, whose explanations are still to be worked out, and what was found under newer versions, the
/// oldest first.
#[derive(Drop)]
pub(crate) struct Judged<'l> {
    pub(crate) located: &'l Located,
    pub(crate) settled: Settled,
    pub(crate) answers: Vec<Answer>,
    pub(crate) newer: Findings,
    ghost is_case: { IsCase (case_of located.now settled) } by { IsCase-once (case_of located.now settled) },
    ghost judged: { answers.items ≡ judged_in (case_of located.now settled) },
}

/// What is found of a case too, by the answers to it, and what was found under newer versions. At most this many
/// threads explain it.
fn explain<R: Threads + Sync>(
    rt: &R,
    alloc: Global,
    located: &Located,
    settled: &Settled,
    answers: Vec<Answer>,
    explains: bool,
    newer: Findings,
    threads: u64,
) -> Result<Findings, AllocError>
    requires case { IsCase (case_of located.now settled.now) }
    requires answers { answers.items ≡ judged_in (case_of located.now settled.now) }
    ensures { IfOk result (AddsFinding explains (case_of located.now settled.now) newer) }
{
    let case = Case::of(located, settled);
    newer.with(rt, alloc, &case, answers, explains, threads as usize)
}

/// Explains a case while the workers judge that of an older version. Of four workers three explain too: each takes
/// memory of its own.
fn explain_beside<R: Threads + Wait + Sync, G: Gate + Sync>(
    audit: &Audit<'_, R, G>,
    located: &Located,
    older: &Settled,
    settled: &Settled,
    answers: Vec<Answer>,
    newer: Findings,
) -> Result<(Findings, Vec<Answer>), Fault>
    requires count { IsWorkerCount audit.now.workers.now.count }
    requires older { IsCase (case_of located.now older.now) }
    requires case { IsCase (case_of located.now settled.now) }
    requires answers { answers.items ≡ judged_in (case_of located.now settled.now) }
    ensures findings { IfOk result (λ both. AddsFinding audit.now.options.now.shown.explanations
        (case_of located.now settled.now) newer both.0) }
    ensures judged { IfOk result
        (λ both. both.1.items ≡ judged_in (case_of located.now older.now)) }
    ensures fault { IfErr result IsOutOfMemoryOrThreads }
{
    let (rt, alloc, gate) = (audit.workers.rt, audit.workers.alloc, audit.workers.gate);
    let (explains, cuts) = (audit.options.shown.explanations, audit.cuts);
    let count = audit.workers.count;
    let (findings, judged) = join(
        rt,
        move ||
            requires sync { IsSync R.row }
            requires case { IsCase (case_of located.now settled.now) }
            requires answers { answers.items ≡ judged_in (case_of located.now settled.now) }
        {
            explain(
                rt,
                alloc,
                located,
                settled,
                answers,
                explains,
                newer,
                count - count / 4,
            )
        },
        move ||
            requires count { IsWorkerCount count }
            requires older { IsCase (case_of located.now older.now) }
        { answers_by(rt, alloc, count, gate, located, older, cuts) },
    );
    Ok((findings?, judged?))
}

impl<'l> Judged<'l> {
    /// Judges a trace under a version, which is older than those under which something was found.
    pub(crate) fn of<R: Threads + Wait + Sync, G: Gate + Sync>(
        newer: Findings,
        audit: &Audit<'_, R, G>,
        located: &'l Located,
        abi: Abi,
    ) -> Result<Judged<'l>, Fault>
        requires { IsWorkerCount audit.now.workers.now.count }
        ensures located { IfOk result (λ one. one.located.now ≡ located.now) }
        ensures abi { IfOk result (λ one. one.settled.kernel.abi ≡ abi) }
        ensures effort { IfOk result
            (λ one. one.settled.kernel.effort ≡ audit.now.options.now.effort) }
        ensures newer { IfOk result (λ one. one.newer ≡ newer) }
        ensures fault { IfErr result IsOutOfMemoryOrThreads }
    {
        let settled = Settled::of(audit.workers.alloc, located, audit.kernel(abi))?;
        Judged::of_settled(newer, audit, located, settled)
    }

    /// Judges a trace by what is settled of it under a version.
    fn of_settled<R: Threads + Wait + Sync, G: Gate + Sync>(
        newer: Findings,
        audit: &Audit<'_, R, G>,
        located: &'l Located,
        settled: Settled,
    ) -> Result<Judged<'l>, Fault>
        requires count { IsWorkerCount audit.now.workers.now.count }
        requires case { IsCase (case_of located.now settled) }
        ensures located { IfOk result (λ one. one.located.now ≡ located.now) }
        ensures settled { IfOk result (λ one. one.settled ≡ settled) }
        ensures newer { IfOk result (λ one. one.newer ≡ newer) }
        ensures fault { IfErr result IsOutOfMemoryOrThreads }
    {
        let Workers {
            rt,
            alloc,
            count,
            gate,
        } = audit.workers;
        let answers = answers_by(*rt, *alloc, *count, *gate, located, &settled, audit.cuts)?;
        Ok(Judged {
            located,
            settled,
            answers,
            newer,
        })
    }

    /// Goes on to an older version. If no record changes anything else there, its answers follow from this version's.
    /// Otherwise the workers judge it, while other threads explain this version if explanations are asked for.
    pub(crate) fn next<R: Threads + Wait + Sync, G: Gate + Sync>(
        self,
        audit: &Audit<'_, R, G>,
        abi: Abi,
    ) -> Result<Judged<'l>, Fault>
        requires { IsWorkerCount audit.now.workers.now.count }
        ensures located { IfOk result (λ next. next.located.now ≡ self.entry.located.now) }
        ensures findings { IfOk result (λ next. AddsFinding
            audit.now.options.now.shown.explanations
            (case_of self.entry.located.now self.entry.settled) self.entry.newer next.newer) }
        ensures abi { IfOk result (λ next. next.settled.kernel.abi ≡ abi) }
        ensures effort { IfOk result
            (λ next. next.settled.kernel.effort ≡ audit.now.options.now.effort) }
        ensures fault { IfErr result IsOutOfMemoryOrThreads }
    {
        let Workers { alloc, count, .. } = audit.workers;
        let located = self.located;
        let older = Settled::of(*alloc, located, audit.kernel(abi))?;
        let alike = answers_alike(*alloc, located, &self.settled, &self.answers, &older)?;
        if let Some(answers) = alike {
            let newer = self.finish(audit, *count)?;
            return Ok(Judged {
                located,
                settled: older,
                answers,
                newer,
            });
        }
        if !audit.options.shown.explanations {
            let newer = self.finish(audit, *count)?;
            return Judged::of_settled(newer, audit, located, older);
        }
        let Judged {
            settled,
            answers,
            newer,
            ..
        } = self;
        let (newer, answers) = explain_beside(audit, located, &older, &settled, answers, newer)?;
        Ok(Judged {
            located,
            settled: older,
            answers,
            newer,
        })
    }

    /// Explains the version by at most this many threads.
    pub(crate) fn finish<R: Threads + Wait + Sync, G: Gate + Sync>(
        self,
        audit: &Audit<'_, R, G>,
        threads: u64,
    ) -> Result<Findings, Fault>
        ensures found { IfOk result (AddsFinding audit.now.options.now.shown.explanations
            (case_of self.entry.located.now self.entry.settled) self.entry.newer) }
        ensures fault { IfErr result IsOutOfMemoryOrThreads }
    {
        let Judged {
            located,
            settled,
            answers,
            newer,
        } = self;
        let explains = audit.options.shown.explanations;
        let Workers { rt, alloc, .. } = audit.workers;
        let findings = explain(
            *rt, *alloc, located, &settled, answers, explains, newer, threads,
        )?;
        Ok(findings)
    }
}
