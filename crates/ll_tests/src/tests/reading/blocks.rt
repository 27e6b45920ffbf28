//! A file in blocks of whole lines, and a trace that is read in them.

use ll_lines::Cause;
use ll_lines::blocks::{LineBlock, LineBlocks};
use ll_trace::{Record, Trace};
use std::alloc::{AllocError, Global};
use std::io::{self, ErrorKind, Read};
use std::test::Fail;
use std::thread::Threads;

/// The first line of a trace, and the one that is repeated.
const START: &str = "{\"op\":\"start\",\"pid\":10}\n";

const NNP: &str = "{\"op\":\"nnp\",\"pid\":10}\n";

/// More than two blocks of 262,144 bytes.
const LINES: usize = 30_000;

/// A trace with so many records.
fn trace_of(alloc: Global, records: usize) -> Result<String, AllocError> {
    let mut text = String::from_str(alloc, START)?;
    for _ in 1..records {
        text.push_str(NNP)?;
    }
    Ok(text)
}

/// The number of the last line of some blocks.
fn last_number(blocks: &[LineBlock]) -> u64 {
    let mut last = 0;
    for block in blocks {
        for line in block.lines() {
            last = line.number;
        }
    }
    last
}

#[test]
fn lines_go_on_from_block_to_block(rt: HostRuntime) -> Result<(), Fail> {
    let text = trace_of(rt.alloc(), LINES)?;
    let read = LineBlocks::read(rt.alloc(), &mut text.as_bytes(), text.len() as u64)?;
    let blocks = read.into_blocks(rt.alloc())?;
    assert!(rt; blocks.len() > 2);
    assert_eq!(rt; last_number(&blocks), LINES as u64);
    Ok(())
}

/// The first line of a trace has more than ten bytes.
#[test]
fn a_file_that_is_too_large_has_no_blocks(rt: HostRuntime) {
    let read = LineBlocks::read(rt.alloc(), &mut START.as_bytes(), 10);
    assert!(rt; read.is_err_and(|error| error.kind() == ErrorKind::FileTooLarge));
}

/// Gives its bytes one by one.
#[derive(Drop)]
struct OneByOne<'a> {
    bytes: &'a [u8],
}

impl Read for OneByOne<'_> {
    fn read(&mut self, buf: &mut [u8]) -> io::Result<usize> {
        let most = buf.len().min(1);
        self.bytes.read(&mut buf[..most])
    }
}

#[test]
fn bytes_may_come_one_by_one(rt: HostRuntime) -> Result<(), Fail> {
    let mut reader = OneByOne { bytes: b"a\n\nb" };
    let blocks = LineBlocks::read(rt.alloc(), &mut reader, 4)?.into_blocks(rt.alloc())?;
    assert_eq!(rt; last_number(&blocks), 3);
    Ok(())
}

/// Whether the records are those of all lines.
fn are_whole(records: &[Record]) -> bool {
    records.len() == LINES && records[LINES - 1].line == LINES as u64
}

/// Whether a trace reads as a whole in blocks.
fn reads_whole<R: AllocGlobal + Threads + Sync>(
    rt: &R,
    text: &str,
    workers: usize,
) -> Result<bool, Fail> {
    let blocks = LineBlocks::read(rt.alloc(), &mut text.as_bytes(), u64::MAX)?;
    let trace = Trace::read_blocks_by(rt, rt.alloc(), blocks, workers)?;
    Ok(are_whole(trace.records()))
}

#[test]
fn a_trace_reads_in_blocks_as_it_reads_as_a_whole(rt: HostRuntime) -> Result<(), Fail> {
    let text = trace_of(rt.alloc(), LINES)?;
    for workers in [0, 1, 2, 3] {
        assert!(rt; reads_whole(&rt, &text, workers)?, "{workers} workers");
    }
    Ok(())
}

/// The faulty line is in the last block.
#[test]
fn a_fault_has_the_number_of_its_line(rt: HostRuntime) -> Result<(), Fail> {
    let mut text = trace_of(rt.alloc(), LINES)?;
    text.push_str("{}")?;
    for workers in [1, 2, 3] {
        let blocks = LineBlocks::read(rt.alloc(), &mut text.as_bytes(), u64::MAX)?;
        let fault = Trace::read_blocks_by(&rt, rt.alloc(), blocks, workers).err();
        assert!(rt;
            fault.is_some_and(|fault| {
                fault.line == LINES as u64 + 1 && fault.cause == Cause::Field
            })
        );
    }
    Ok(())
}
