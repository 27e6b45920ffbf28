//! That two workers judge at once, and that jobs begin where the work is cut.

use crate::tests::gates::Meeting;
use crate::tests::runs::ready::{audited_through, run_through};
use ll_audit::Cut;
use ll_fixtures::TREE;
use ll_pool::Gate;
use ll_trace::ProcessId;
use std::alloc::{AllocError, Global};
use std::sync::Wait;
use std::sync::atomic::{AtomicU64, Ordering};
use std::test::Fail;
use std::thread::Threads;

const SIBLINGS: &str = "\
{\"op\":\"start\",\"pid\":1}
{\"op\":\"fork\",\"pid\":1,\"child\":2}
{\"op\":\"fork\",\"pid\":1,\"child\":3}
";

const SIBLINGS_REPORT: &str = "\
1 1 start allowed
2 1 fork allowed
3 1 fork allowed
total 3 allowed 3 refused 0 moot 0
";

#[test]
fn two_workers_meet_in_an_audit(rt: HostRuntime) -> Result<(), Fail> {
    let gate = Meeting::of(1, 2);
    let answer = audited_through(&rt, SIBLINGS.as_bytes(), 2, Cut::Grain(0), &gate);
    let report = answer.ok().ok_or("no report")?;
    assert_eq!(rt; report.bytes.as_slice(), SIBLINGS_REPORT.as_bytes());
    assert_eq!(rt; gate.counts(), (2, 0));
    Ok(())
}

#[test]
fn two_workers_meet_in_the_program(rt: HostRuntime) -> Result<(), Fail> {
    let words = [
        "landaudit",
        "--abi",
        "4",
        "--workers",
        "2",
        "--grain",
        "0",
        "t",
        "r",
    ];
    let files = [("t", TREE.as_bytes()), ("r", SIBLINGS.as_bytes())];
    let gate = Meeting::of(1, 2);
    let ended = run_through(&rt, words.as_slice(), files.as_slice(), &gate)?;
    assert!(rt; ended.is(0, SIBLINGS_REPORT, ""));
    assert_eq!(rt; gate.counts(), (2, 0));
    Ok(())
}

/// A gate that notes of which processes a job has begun, each as a bit, and how many jobs have.
#[derive(Drop)]
struct Noted {
    processes: AtomicU64,
    jobs: AtomicU64,
}

impl Gate for Noted {
    fn begun(&self, process: ProcessId) {
        self.processes
            .fetch_or(1u64.wrapping_shl(process.0), Ordering::SeqCst);
        self.jobs.fetch_add(1, Ordering::SeqCst);
    }
}

/// The first process starts a second, with two records of its own, and a third, with one.
const UNLIKE_SIBLINGS: &str = "\
{\"op\":\"start\",\"pid\":1}
{\"op\":\"fork\",\"pid\":1,\"child\":2}
{\"op\":\"fork\",\"pid\":1,\"child\":3}
{\"op\":\"nnp\",\"pid\":2}
{\"op\":\"nnp\",\"pid\":3}
{\"op\":\"nnp\",\"pid\":2}
";

/// Of which processes a job begins where the work is cut so, and how many jobs do.
fn jobs_begun<R: Threads + Wait + AllocGlobal + Sync>(
    rt: &R,
    workers: u64,
    cut: Cut,
) -> Result<(u64, u64), Fail> {
    let gate = Noted {
        processes: AtomicU64::new(0),
        jobs: AtomicU64::new(0),
    };
    let answer = audited_through(rt, UNLIKE_SIBLINGS.as_bytes(), workers, cut, &gate);
    let _report = answer.ok().ok_or("no report")?;
    Ok((
        gate.processes.load(Ordering::SeqCst),
        gate.jobs.load(Ordering::SeqCst),
    ))
}

/// A cut at the processes of a list.
fn listed(alloc: Global, cuts: &[bool]) -> Result<Cut, AllocError> {
    let mut list = Vec::new(alloc);
    for cut in cuts {
        list.push(*cut)?;
    }
    Ok(Cut::List(list))
}

/// The jobs that begin by a list of cuts.
fn jobs_by_list<R: Threads + Wait + AllocGlobal + Sync>(
    rt: &R,
    workers: u64,
    cuts: &[bool],
) -> Result<(u64, u64), Fail> {
    jobs_begun(rt, workers, listed(rt.alloc(), cuts)?)
}

#[test]
fn jobs_begin_by_the_grain(rt: HostRuntime) -> Result<(), Fail> {
    for workers in [1, 3] {
        for (grain, jobs) in [
            (0, (0b111, 3)),
            (1, (0b111, 3)),
            (2, (0b011, 2)),
            (3, (0b001, 1)),
        ] {
            assert_eq!(rt; jobs_begun(&rt, workers, Cut::Grain(grain))?, jobs);
        }
    }
    Ok(())
}

#[test]
fn jobs_begin_where_a_list_cuts(rt: HostRuntime) -> Result<(), Fail> {
    for workers in [1, 3] {
        let jobs = [
            jobs_by_list(&rt, workers, &[])?,
            jobs_by_list(&rt, workers, &[true, false, true])?,
            jobs_by_list(&rt, workers, &[false, true, true, true])?,
        ];
        assert_eq!(rt; jobs, [(0b001, 1), (0b101, 2), (0b111, 3)]);
    }
    Ok(())
}
