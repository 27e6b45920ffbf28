//! A worked trace, reports, and running the program on the worked tree.

use ll_audit::{Cut, Fault, Idle, MemorySource, Report, audit, front};
use ll_fixtures::TREE;
use ll_pool::Gate;
use ll_rights::Abi;
use std::alloc::{AllocError, Global};
use std::sync::Wait;
use std::thread::Threads;

pub(crate) const TRACE: &str = "\
{\"op\":\"start\",\"pid\":10}
{\"op\":\"nnp\",\"pid\":10}
{\"op\":\"create\",\"pid\":10,\"rs\":3,\"fs\":[\"read_file\"]}
{\"op\":\"add_path\",\"pid\":10,\"rs\":3,\"path\":\"/a\",\"fs\":[\"read_file\"]}
{\"op\":\"restrict\",\"pid\":10,\"rs\":3}
{\"op\":\"open\",\"pid\":10,\"path\":\"/a/f\",\"fd\":4,\"mode\":\"r\"}
{\"op\":\"open\",\"pid\":10,\"path\":\"/b/g\",\"fd\":5,\"mode\":\"r\"}
{\"op\":\"open\",\"pid\":10,\"path\":\"/b/g\",\"fd\":5,\"mode\":\"w\"}
";

pub(crate) const REPORT: &str = "\
1 10 start allowed
2 10 nnp allowed
3 10 create allowed
4 10 add_path allowed
5 10 restrict allowed
6 10 open allowed
7 10 open refused EACCES 1
8 10 open allowed
total 8 allowed 7 refused 1 moot 0
";

pub(crate) const FAMILY_REPORT: &str = "\
1 1 start allowed
2 1 nnp allowed
3 1 create allowed
4 1 fork allowed
5 1 fork allowed
6 2 add_path allowed
7 3 restrict allowed
8 2 fork allowed
9 2 fork allowed
10 3 fork allowed
11 3 fork allowed
12 4 fork allowed
13 4 fork allowed
14 5 fork allowed
15 5 fork allowed
16 6 fork allowed
17 12 open allowed
18 12 open refused EACCES 1
19 8 open allowed
20 1 restrict allowed
21 1 open refused EACCES 1
22 9 ftruncate moot
23 7 mount refused EPERM 1
24 10 exit allowed
25 11 open allowed
total 25 allowed 21 refused 3 moot 1
";

/// What a run ended with.
#[derive(Drop)]
pub(crate) struct Ended {
    pub(crate) status: u8,
    pub(crate) out: Vec<u8>,
    pub(crate) err: Vec<u8>,
}

impl Ended {
    /// Whether it ended with this status, and wrote just this.
    pub(crate) fn is(&self, status: u8, out: &str, err: &str) -> bool {
        self.status == status
            && self.out.as_slice() == out.as_bytes()
            && self.err.as_slice() == err.as_bytes()
    }
}

pub(crate) fn owned(alloc: Global, words: &[&str]) -> Result<Vec<String>, AllocError> {
    let mut all = Vec::new(alloc);
    for word in words {
        all.push(String::from_str(alloc, word)?)?;
    }
    Ok(all)
}

/// Runs the program on the files `t` and `r`, where they are there.
pub(crate) fn run<R: Threads + Wait + AllocGlobal + Sync>(
    rt: &R,
    words: &[&str],
    files: &[(&str, &[u8])],
) -> Result<Ended, AllocError> {
    run_through(rt, words, files, &Idle)
}

/// Runs the program so, through a gate.
pub(crate) fn run_through<R: Threads + Wait + AllocGlobal + Sync, G: Gate + Sync>(
    rt: &R,
    words: &[&str],
    files: &[(&str, &[u8])],
    gate: &G,
) -> Result<Ended, AllocError> {
    let words = owned(rt.alloc(), words)?;
    let mut source = MemorySource::new(files);
    let mut out = Vec::new(rt.alloc());
    let mut err = Vec::new(rt.alloc());
    let status = front(
        rt,
        rt.alloc(),
        &words,
        &mut source,
        &mut out,
        &mut err,
        gate,
    );
    Ok(Ended { status, out, err })
}

/// Audits a trace against the worked tree.
pub(crate) fn audited<R: Threads + Wait + AllocGlobal + Sync>(
    rt: &R,
    trace: &[u8],
    workers: u64,
    cut: Cut,
) -> Result<Report, Fault> {
    audited_through(rt, trace, workers, cut, &Idle)
}

/// Audits so, through a gate.
pub(crate) fn audited_through<R: Threads + Wait + AllocGlobal + Sync, G: Gate + Sync>(
    rt: &R,
    trace: &[u8],
    workers: u64,
    cut: Cut,
    gate: &G,
) -> Result<Report, Fault> {
    audit(
        rt,
        rt.alloc(),
        TREE.as_bytes(),
        trace,
        Abi::V4,
        workers,
        cut,
        gate,
    )
}

/// A cut at each process whose number is below a bound and even.
pub(crate) fn even_ones(alloc: Global, bound: u64) -> Result<Cut, AllocError> {
    let mut cuts = Vec::new(alloc);
    for process in 0..bound {
        cuts.push(process % 2 == 0)?;
    }
    Ok(Cut::List(cuts))
}
