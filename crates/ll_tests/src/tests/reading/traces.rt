//! What a trace says of its records, and that it reads alike by every number of threads, wherever that cuts it.

use crate::tests::reading::texts::{Format, fault_of};
use ll_lines::Cause;
use ll_rights::Abi;
use ll_trace::{Effort, Kernel, Op, ProcessId, Record, TakenTrace, Trace};
use std::test::Fail;
use std::thread::Threads;

/// The pid 11 names three processes in turn.
const REUSED: &str = "\
{\"op\":\"start\",\"pid\":10}\n\
{\"op\":\"nnp\",\"pid\":10}\n\
{\"op\":\"create\",\"pid\":10,\"rs\":3,\"fs\":[\"read_file\"]}\n\
{\"op\":\"restrict\",\"pid\":10,\"rs\":3}\n\
{\"op\":\"fork\",\"pid\":10,\"child\":11}\n\
{\"op\":\"open\",\"pid\":11,\"path\":\"/b/g\",\"fd\":4,\"mode\":\"r\"}\n\
{\"op\":\"exit\",\"pid\":11}\n\
{\"op\":\"start\",\"pid\":11}\n\
{\"op\":\"open\",\"pid\":11,\"path\":\"/b/g\",\"fd\":4,\"mode\":\"r\"}\n\
{\"op\":\"close\",\"pid\":11,\"fd\":4}\n\
{\"op\":\"exit\",\"pid\":11}\n\
{\"op\":\"fork\",\"pid\":10,\"child\":11}\n\
{\"op\":\"open\",\"pid\":11,\"path\":\"/b/g\",\"fd\":4,\"mode\":\"r\"}\n";

/// The process of each record of [`REUSED`].
const OWNERS: [u32; 13] = [0, 0, 0, 0, 0, 1, 1, 2, 2, 2, 2, 0, 3];

fn are_owned(records: &[Record]) -> bool {
    records.len() == OWNERS.len()
        && records
            .iter()
            .zip(OWNERS.iter())
            .all(|(record, owner)| record.process.0 == *owner)
}

/// Whether the last process is a child of the first, which the record before the last starts.
fn ends_with_a_child(trace: &Trace) -> bool {
    let child = ProcessId(3);
    trace.processes() == 4
        && trace.starts(11) == Some(child)
        && trace.parent_of(child) == Some(ProcessId(0))
        && trace.records_of(child) == [12].as_slice()
}

#[test]
fn reused_pids(rt: HostRuntime) -> Result<(), Fail> {
    let trace = Trace::read(rt.alloc(), REUSED.as_bytes())?;
    assert!(rt; are_owned(trace.records()) && ends_with_a_child(&trace));
    Ok(())
}

/// Files of several lines, and the first faulty line with its first cause. In the first, which has none, two lines are
/// blank and the last has no line feed.
const FILES: [(&str, Option<(u64, Cause)>); 15] = [
    (
        "{\"op\":\"start\",\"pid\":10}\n\n{\"op\":\"fork\",\"pid\":10,\"child\":11}\n\x20\t\r\n{\"op\":\"exec\",\"pid\":11,\"path\":\"/a\"}\n{\"op\":\"exit\",\"pid\":11}\n{\"op\":\"start\",\"pid\":11}\n{\"op\":\"nnp\",\"pid\":11}",
        None,
    ),
    ("", None),
    ("\n \n\n", None),
    (
        "[]\n{\"op\":\"start\",\"pid\":10}\n",
        Some((1, Cause::Field)),
    ),
    (
        "{\"op\":\"start\",\"pid\":10}\n{\"op\":\"nnp\",\"pid\":10}\n{\"op\":\n{\"op\":\"nnp\",\"pid\":10}\n",
        Some((3, Cause::Json)),
    ),
    (
        "{\"op\":\"start\",\"pid\":10}\n\n{\"op\":\"bind\",\"pid\":10,\"port\":65536}\n",
        Some((3, Cause::Field)),
    ),
    (
        "{\"op\":\"start\",\"pid\":10}\n{\"op\":\"nnp\",\"pid\":18446744073709551616}\n",
        Some((2, Cause::Field)),
    ),
    (
        "{\"op\":\"start\",\"pid\":10}\n{\"op\":\"exec\",\"pid\":10,\"path\":\"/a/\"}",
        Some((2, Cause::BadPath)),
    ),
    (
        "{\"op\":\"start\",\"pid\":10}\n{\"op\":\"exec\",\"pid\":12,\"path\":\"a\"}\n",
        Some((2, Cause::BadPath)),
    ),
    (
        "{\"op\":\"start\",\"pid\":10}\n\n{\"op\":\"nnp\",\"pid\":12}\n{\"op\":\"nnp\",\"pid\":10}\n",
        Some((3, Cause::UnknownProcess)),
    ),
    (
        "{\"op\":\"start\",\"pid\":10}\n{\"op\":\"exit\",\"pid\":10}\n\n\n{\"op\":\"nnp\",\"pid\":10}\n",
        Some((5, Cause::UnknownProcess)),
    ),
    (
        "{\"op\":\"start\",\"pid\":10}\n{\"op\":\"nnp\",\"pid\":10}\n{\"op\":\"nnp\",\"pid\":10}\n{\"op\":\"start\",\"pid\":10}\n",
        Some((4, Cause::Twice)),
    ),
    (
        "{\"op\":\"start\",\"pid\":10}\n{\"op\":\"nnp\",\"pid\":12}\n{\"op\":\"nnp\",\"pid\":10}\n{\"op\":\n",
        Some((2, Cause::UnknownProcess)),
    ),
    (
        "{\"op\":\"start\",\"pid\":10}\n{\"op\":\n{\"op\":\"nnp\",\"pid\":10}\n{\"op\":\"start\",\"pid\":10}\n",
        Some((2, Cause::Json)),
    ),
    (
        "{\"op\":\"start\",\"pid\":10}\n{\"op\":\"exec\",\"pid\":10,\"path\":\"a\"}\n\n{\"op\":\n",
        Some((2, Cause::BadPath)),
    ),
];

/// A number of threads by which a file is read with another fault, if there is one.
fn read_otherwise<R: AllocGlobal + Threads + Sync>(
    rt: &R,
    file: &[u8],
    fault: Option<(u64, Cause)>,
) -> Option<usize> {
    for workers in 0..=file.len() {
        if fault_of(rt, Format::Trace(workers), file) != fault {
            return Some(workers);
        }
    }
    if fault_of(rt, Format::Trace(usize::MAX), file) != fault {
        return Some(usize::MAX);
    }
    None
}

#[test]
fn files_read_alike_wherever_they_are_cut(rt: HostRuntime) {
    for (file, fault) in FILES {
        let otherwise = read_otherwise(&rt, file.as_bytes(), fault);
        assert_eq!(rt; otherwise, None, "{file}");
    }
}

/// A ruleset for a right that came with version 3.
const TRUNCATING: &[u8] = b"\
{\"op\":\"start\",\"pid\":1}\n\
{\"op\":\"create\",\"pid\":1,\"rs\":3,\"fs\":[\"truncate\"]}\n";

#[test]
fn calls_as_they_were_recorded(rt: HostRuntime) -> Result<(), Fail> {
    let trace = Trace::read(rt.alloc(), TRUNCATING)?;
    let kernel = Kernel {
        abi: Abi::V1,
        effort: Effort::Best,
    };
    let taken = TakenTrace::of(&trace, kernel);
    if taken.count() != 2 {
        return Err(Fail::from("there are two records"));
    }
    let (op, process) = taken.recorded(1);
    assert!(rt; matches!(op, Op::Create { rs: 3, .. }));
    assert_eq!(rt; process, ProcessId(0));
    Ok(())
}
