//! Whole runs of the program over files in memory.

use crate::tests::runs::ready::{Ended, REPORT, TRACE, run};
use ll_audit::{Cut, Fault, Idle, audit};
use ll_fixtures::TREE;
use ll_rights::Abi;
use ll_tree::{Cause, ReadFault};
use std::alloc::AllocError;
use std::sync::Wait;
use std::test::Fail;
use std::thread::Threads;

/// How the program ends by eight workers on the worked tree and a trace.
fn ended_on<R: Threads + Wait + AllocGlobal + Sync>(
    rt: &R,
    trace: &str,
) -> Result<Ended, AllocError> {
    let files = [("t", TREE.as_bytes()), ("r", trace.as_bytes())];
    let words = ["landaudit", "--abi", "4", "--workers", "8", "t", "r"];
    run(rt, words.as_slice(), files.as_slice())
}

const START: &str = "{\"op\":\"start\",\"pid\":10}\n";

const START_REPORT: &str = "\
1 10 start allowed
total 1 allowed 1 refused 0 moot 0
";

#[test]
fn reports_of_runs(rt: HostRuntime) -> Result<(), Fail> {
    for (trace, report, status) in [
        ("", "total 0 allowed 0 refused 0 moot 0\n", 0),
        (START, START_REPORT, 0),
        (TRACE, REPORT, 1),
    ] {
        assert!(rt; ended_on(&rt, trace)?.is(status, report, ""), "{report}");
    }
    Ok(())
}

/// How the program ends on files.
fn ended_with<R: Threads + Wait + AllocGlobal + Sync>(
    rt: &R,
    files: &[(&str, &[u8])],
) -> Result<Ended, AllocError> {
    let words = ["landaudit", "--abi", "4", "t", "r"];
    run(rt, words.as_slice(), files)
}

#[test]
fn files_at_fault(rt: HostRuntime) -> Result<(), Fail> {
    let cut = TRACE.len() - "g\",\"fd\":5,\"mode\":\"w\"}\n".len();
    let short = &TRACE.as_bytes()[..cut];
    let bad_tree: &[u8] = b"{\"path\":\"/a/f\",\"kind\":\"reg\"}\n";
    let bad_trace = [("t", TREE.as_bytes()), ("r", short)];
    let no_tree = [("r", TRACE.as_bytes())];
    let both_bad = [("t", bad_tree), ("r", short)];
    let cases: [(&[(&str, &[u8])], &str); 3] = [
        (bad_trace.as_slice(), "landaudit: trace line 8: Json\n"),
        (no_tree.as_slice(), "landaudit: cannot read t\n"),
        (both_bad.as_slice(), "landaudit: tree line 1: NoParent\n"),
    ];
    for (files, line) in cases {
        assert!(rt; ended_with(&rt, files)?.is(3, "", line), "{line}");
    }
    Ok(())
}

/// Whether the program ends on words with a status, and writes on one of its outputs alone: where that is 2 on the
/// second.
fn is_told<R: Threads + Wait + AllocGlobal + Sync>(
    rt: &R,
    words: &[&str],
    status: u8,
) -> Result<bool, AllocError> {
    let files = [("t", TREE.as_bytes()), ("r", TRACE.as_bytes())];
    let ended = run(rt, words, files.as_slice())?;
    Ok(
        ended.status == status
            && ended.out.is_empty() == (status == 2)
            && ended.err.is_empty() == (status == 0),
    )
}

#[test]
fn words_at_fault(rt: HostRuntime) -> Result<(), Fail> {
    let cases: [(&[&str], u8); 4] = [
        (["landaudit", "--abi", "6", "t", "r"].as_slice(), 2),
        (
            ["landaudit", "--abi", "4", "--workers", "0", "t", "r"].as_slice(),
            2,
        ),
        (["landaudit", "--abi", "4", "t"].as_slice(), 2),
        (["landaudit", "--help"].as_slice(), 0),
    ];
    for (words, status) in cases {
        assert!(rt; is_told(&rt, words, status)?, "{words:?}");
    }
    Ok(())
}

/// The fault of an audit at version 4 by so many workers.
fn fault_of<R: Threads + Wait + AllocGlobal + Sync>(
    rt: &R,
    tree: &str,
    trace: &str,
    workers: u64,
) -> Option<Fault> {
    let (tree, trace) = (tree.as_bytes(), trace.as_bytes());
    let cut = Cut::Grain(0);
    audit(rt, rt.alloc(), tree, trace, Abi::V4, workers, cut, &Idle).err()
}

/// They are looked at before the files.
#[test]
fn numbers_of_workers(rt: HostRuntime) {
    for tree in [TREE, "{}"] {
        for workers in [0, 65] {
            assert_eq!(rt; fault_of(&rt, tree, TRACE, workers), Some(Fault::Workers));
        }
    }
    let fault = ReadFault {
        line: 1,
        cause: Cause::Field,
    };
    assert_eq!(rt; fault_of(&rt, TREE, "[]", 64), Some(Fault::Trace(fault)));
}
