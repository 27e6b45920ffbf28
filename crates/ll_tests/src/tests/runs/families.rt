//! Traces of many processes, by any number of workers and with any cut.

use crate::tests::runs::ready::{FAMILY_REPORT, audited, even_ones};
use ll_audit::{Cut, Fault};
use ll_fixtures::FAMILY;
use ll_tree::{Cause, ReadFault};
use std::alloc::Global;
use std::io;
use std::io::Write;
use std::sync::Wait;
use std::test::Fail;
use std::thread::Threads;

/// Whether the report on a trace has these bytes, and counts so many refused records.
fn is_reported<R: Threads + Wait + AllocGlobal + Sync>(
    rt: &R,
    trace: &[u8],
    workers: u64,
    cut: Cut,
    (bytes, refused): (&[u8], u64),
) -> Result<bool, Fail> {
    let report = audited(rt, trace, workers, cut).ok().ok_or("no report")?;
    Ok(report.bytes.as_slice() == bytes && report.refused == refused)
}

#[test]
fn one_report_for_all_workers_and_cuts(rt: HostRuntime) -> Result<(), Fail> {
    let trace = FAMILY.as_bytes();
    let report = (FAMILY_REPORT.as_bytes(), 3);
    for workers in [1, 3, 8] {
        let whole = Cut::List(Vec::new(rt.alloc()));
        assert!(rt; is_reported(&rt, trace, workers, whole, report)?);
        assert!(rt; is_reported(&rt, trace, workers, Cut::Grain(0), report)?);
        let even = even_ones(rt.alloc(), 12)?;
        assert!(rt; is_reported(&rt, trace, workers, even, report)?);
    }
    Ok(())
}

/// A trace that starts the process 1, from which each other process descends: each is forked by the one before.
fn chain(alloc: Global, last: u64) -> io::Result<Vec<u8>> {
    let mut trace = Vec::from_slice(alloc, b"{\"op\":\"start\",\"pid\":1}\n")?;
    for child in 2..last.saturating_add(1) {
        let pid = child.saturating_sub(1);
        writeln!(trace, "{{\"op\":\"fork\",\"pid\":{pid},\"child\":{child}}}")?;
    }
    Ok(trace)
}

/// The report on that trace: all is allowed.
fn chain_report(alloc: Global, last: u64) -> io::Result<Vec<u8>> {
    let mut report = Vec::from_slice(alloc, b"1 1 start allowed\n")?;
    for child in 2..last.saturating_add(1) {
        let pid = child.saturating_sub(1);
        writeln!(report, "{child} {pid} fork allowed")?;
    }
    writeln!(report, "total {last} allowed {last} refused 0 moot 0")?;
    Ok(report)
}

/// Whether the chain of so many processes is reported as allowed by so many workers, cut at each process or at none.
fn is_chain_allowed<R: Threads + Wait + AllocGlobal + Sync>(
    rt: &R,
    last: u64,
    workers: u64,
) -> Result<bool, Fail> {
    let trace = chain(rt.alloc(), last)?;
    let report = chain_report(rt.alloc(), last)?;
    let report = (report.as_slice(), 0);
    let whole = Cut::List(Vec::new(rt.alloc()));
    Ok(
        is_reported(rt, &trace, workers, Cut::Grain(0), report)?
            && is_reported(rt, &trace, workers, whole, report)?,
    )
}

#[test]
fn as_many_processes_as_a_trace_may_have(rt: HostRuntime) -> Result<(), Fail> {
    for workers in [1, 8] {
        assert!(rt; is_chain_allowed(&rt, 65_536, workers)?, "{workers}");
    }
    Ok(())
}

#[test]
fn one_process_too_many(rt: HostRuntime) -> Result<(), Fail> {
    let trace = chain(rt.alloc(), 65_537)?;
    let fault = ReadFault {
        line: 65_537,
        cause: Cause::TooMany,
    };
    let answer = audited(&rt, trace.as_slice(), 8, Cut::Grain(0));
    assert_eq!(rt; answer.err(), Some(Fault::Trace(fault)));
    Ok(())
}
