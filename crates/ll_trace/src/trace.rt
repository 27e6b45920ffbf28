//! A trace that was read.

ghost use Rattle.std.specs.Prelude.{◌≡◌, ◌≢◌, ◌<◌, ◌≤◌, length, option_map, All, IfOk, IfErr, IfSome};
ghost use Rattle.ll_lines.specs.{declared.fault.Cause.TheVariants.Memory, Reading.IsBad};
ghost use Rattle.ll_trace.specs.declared.reader.TheConstants.{MOST_PROCESSES, MOST_RECORDS};
ghost use Rattle.ll_trace.specs.{Entries.trace_file, Traces.AreRecords, Records.IsTrace};
ghost use Rattle.ll_trace.specs.Processes.{process_count, parent_of, own_records, started_at};

use crate::op::{ProcessId, Record};
use crate::parts::{no_memory, parts_of, read_parts, read_parts_by};
use crate::reader::Reader;
use crate::tables::{Tables, index};
use ll_lines::blocks::LineBlocks;
use ll_lines::{Cause, ReadFault};
use std::alloc::Global;
use std::marker::Model;
use std::thread::Threads;

/// How the rulesets of a trace are taken.
#[derive(Clone, Copy, Debug, PartialEq, Eq)]
pub enum Effort {
    /// As they were recorded: a right that the version doesn't know is an error.
    AsRecorded,
    /// As a program makes them that first asks its kernel for the version, and then names those rights
    /// alone that this version supports (the kernel's userspace document on Landlock, which advises
    /// "a best-effort security approach").
    Best,
}

/// The records of a trace, in the order of the file; contracts see their list.
#[derive(Drop)]
pub struct Trace {
    records: Vec<Record>,
    tables: Tables,
}

impl Model for Trace {
    ghost use Rattle.std.specs.Prelude.{List};
    ghost use Rattle.ll_trace.specs.declared.op.Record.{Record as OneRecord};

    ghost Value = { List OneRecord };

    ghost use Rattle.ll_trace.specs.Traces.{records_in, IsWhole};

    ghost view = { records_in };

    ghost invariant = { IsWhole };
}

impl Trace {
    /// Reads a trace file: its records if no line has a fault, else the first fault of the first
    /// faulty line. If memory runs out, the fault is `Memory` at the line that was being read, or at
    /// the first line.
    ///
    /// ```
    /// let lines = "{\"op\":\"start\",\"pid\":10}\n{\"op\":\"nnp\",\"pid\":10}\n";
    /// let trace = Trace::read(rt.alloc(), lines.as_bytes())?;
    /// assert_eq!(rt; trace.records().len(), 2);
    /// ```
    #[tactic(auto, using(ll_lines::proofs::ReadingLemmas::good_from_reading, ll_lines::proofs::ReadingLemmas::bad_from_fault))]
    pub fn read(alloc: Global, bytes: &[u8]) -> Result<Trace, ReadFault>
        ensures good { IfOk result (λ trace. IsTrace bytes.now trace) }
        ensures bad { IfErr result
            (λ fault. fault.cause ≢ Memory → IsBad trace_file bytes.now fault) }
    {
        let Ok(parts) = parts_of(alloc, bytes, 1) else {
            return Err(no_memory());
        };
        Trace::of(alloc, read_parts(alloc, parts)?)
    }

    /// Reads a trace file as [`Trace::read`] does, with at most this many threads, which read parts of
    /// its lines at the same time; 0 counts as one, and one starts no thread. If memory runs out, the
    /// fault is `Memory` at a line that was being read, or at the first line.
    #[tactic(auto, using(ll_lines::proofs::ReadingLemmas::good_from_reading, ll_lines::proofs::ReadingLemmas::bad_from_fault))]
    pub fn read_by<R: Threads + Sync>(
        rt: &R,
        alloc: Global,
        bytes: &[u8],
        workers: usize,
    ) -> Result<Trace, ReadFault>
        ensures good { IfOk result (λ trace. IsTrace bytes.now trace) }
        ensures bad { IfErr result
            (λ fault. fault.cause ≢ Memory → IsBad trace_file bytes.now fault) }
    {
        let Ok(parts) = parts_of(alloc, bytes, workers) else {
            return Err(no_memory());
        };
        Trace::of(alloc, read_parts_by(rt, alloc, parts, workers)?)
    }

    /// Reads a trace file in blocks as [`Trace::read_by`] does, and gives the memory of each block back once its lines
    /// are read.
    #[tactic(auto, using(ll_lines::proofs::ReadingLemmas::good_from_reading, ll_lines::proofs::ReadingLemmas::bad_from_fault))]
    pub fn read_blocks_by<R: Threads + Sync>(
        rt: &R,
        alloc: Global,
        blocks: LineBlocks,
        workers: usize,
    ) -> Result<Trace, ReadFault>
        ensures good { IfOk result (λ trace. IsTrace blocks trace) }
        ensures bad { IfErr result
            (λ fault. fault.cause ≢ Memory → IsBad trace_file blocks fault) }
    {
        let Ok(parts) = blocks.into_blocks(alloc) else {
            return Err(no_memory());
        };
        Trace::of(alloc, read_parts_by(rt, alloc, parts, workers)?)
    }

    /// The trace with the records that were read.
    fn of(alloc: Global, reader: Reader) -> Result<Trace, ReadFault>
        requires { AreRecords reader.records.items }
        ensures ok { IfOk result (λ trace. trace ≡ reader.records.items) }
        ensures err { IfErr result (λ fault. fault.cause ≡ Memory) }
    {
        let records = reader.into_records();
        match index(alloc, &records) {
            Ok(tables) => Ok(Trace { records, tables }),
            Err(_) => Err(ReadFault {
                line: last_line(&records),
                cause: Cause::Memory,
            }),
        }
    }

    /// The records, in the order of the file.
    #[tactic(auto, using(crate::proofs::Numbering::few_records))]
    pub fn records(&self) -> &[Record]
        ensures value { result.now ≡ self.now }
        ensures few { length self.now ≤ MOST_RECORDS }
        ensures are_records { AreRecords self.now }
    {
        let records = &self.records;
        records.as_slice()
    }

    /// The number of processes of the trace.
    #[tactic(auto, using(crate::proofs::Numbering::few_processes))]
    pub fn processes(&self) -> u32
        ensures count { result ≡ process_count self.now }
        ensures few { result ≤ MOST_PROCESSES }
    {
        self.tables.own.len() as u32
    }

    /// The process that forked this one; a process of a `start` record has no parent.
    pub fn parent_of(&self, process: ProcessId) -> Option<ProcessId>
        requires { process.0 < process_count self.now }
        ensures value { result ≡ parent_of self.now process.0 }
        ensures below { IfSome result (λ parent. parent.0 < process.0) }
    {
        self.tables.parents[process.0 as usize]
    }

    /// The indices of a process's records among [`Trace::records`], in ascending order.
    pub fn records_of(&self, process: ProcessId) -> &[u32]
        requires { process.0 < process_count self.now }
        ensures value { result.now ≡ own_records self.now process.0 }
        ensures within { All (λ index. index < length self.now) result.now }
    {
        let own = &self.tables.own[process.0 as usize];
        own.as_slice()
    }

    /// The process that the `start` or `fork` record at an index starts. Other records start none,
    /// and an index after the last record has none.
    pub fn starts(&self, index: u32) -> Option<ProcessId>
        ensures { option_map (λ process. process.0) result ≡ started_at self.now index }
    {
        let starts = &self.tables.starts;
        match starts.binary_search(&index) {
            Ok(process) => Some(ProcessId(process as u32)),
            Err(_) => None,
        }
    }
}

/// The line of the last record, or the first line if there is none.
fn last_line(records: &[Record]) -> u64 {
    match records.last() {
        None => 1,
        Some(record) => record.line,
    }
}
