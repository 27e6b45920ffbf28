//! What a line of a trace file says, and the admission of entries as records, one after another.

ghost use Rattle.std.specs.Prelude.{◌≡◌, ◌<◌, [], List, OnOk, IfOk, IfErr, None, unwrap_or, nat_le};
ghost use Rattle.ll_lines.specs.{declared.fault.Cause.TheVariants.Memory, Readers.Gives};
ghost use Rattle.ll_lines.specs.LineByLine.{with_entry, line_view};
ghost use Rattle.ll_trace.specs.declared.reader.TheConstants.{MOST_PROCESSES, MOST_RECORDS};
ghost use Rattle.ll_trace.specs.Entries.{Entry as Seen, entry_at, is_live as is_live_in, is_unknown as is_unknown_in, is_twice as is_twice_in, is_too_many, is_end_of, entry_fault, process_count, started_pid, trace_file};
ghost use Rattle.ll_trace.specs.Records.{process_of};
ghost use Rattle.ll_trace.specs.Kept.{IsKept, IsNoted, Begins, Stops, entries, entry_view, number, owner_of, past, runs};

use crate::op::{Op, ProcessId, Record};
use crate::operations::operation_of;
use crate::owners::{Owner, Owners};
use json::Scratch;
use ll_lines::Cause;
use ll_lines::lines::FileLine;
use ll_members::{Name, number_of, read_members};
use std::alloc::Global;

/// The most records of a trace.
pub const MOST_RECORDS: usize = 1_000_000;

/// The most processes of a trace.
pub const MOST_PROCESSES: u32 = 65_536;

/// What a line says.
#[derive(Drop)]
pub(crate) struct Entry {
    pub(crate) line: u64,
    pid: u64,
    op: Op,
}

/// What is read so far.
#[derive(Drop)]
pub(crate) struct Reader {
    records: Vec<Record>,
    owners: Owners,
    processes: u32,
}

/// What a line says.
#[tactic(auto, unfolding(ll_members::specs::Slots::spelt, crate::specs::Entries::entry_at))]
pub(crate) fn entry_of(
    alloc: Global,
    line: &FileLine,
    scratch: &mut Scratch,
) -> Result<Entry, Cause>
    ensures gives { Gives entry_view result (entry_at (line_view line.now)) }
    ensures line { IfOk result (λ entry. entry.line ≡ line.now.number) }
{
    let members = read_members(line.bytes, scratch)?;
    let pid = number_of(&members, Name::Pid)?;
    let op = operation_of(alloc, &members)?;
    Ok(Entry {
        line: line.number,
        pid,
        op,
    })
}

fn is_running(owner: Option<Owner>) -> bool
    ensures { result ≡ runs owner }
{
    match owner {
        None => false,
        Some(owner) => owner.running,
    }
}

/// Whether there are as many records as a trace may have.
fn is_most(records: usize) -> bool
    ensures { result ≡ nat_le MOST_RECORDS records }
{
    records >= MOST_RECORDS
}

/// Whether an entry's pid must be live and is not; the latest process of the pid is given.
fn is_unknown(entry: &Entry, owner: Option<Owner>) -> bool
    ensures { (past : List Seen) → owner ≡ owner_of past entry.now.pid
        → result ≡ is_unknown_in past (entry_view entry.now) }
{
    !entry.op.is_start() && !is_running(owner)
}

impl Reader {
    #[tactic(auto, using(crate::proofs::KeptLemmas::nobody))]
    pub(crate) fn new(alloc: Global) -> Reader
        ensures kept { IsKept result }
        ensures empty { entries result ≡ [] }
    {
        Reader {
            records: Vec::new(alloc),
            owners: Owners::new(alloc),
            processes: 0,
        }
    }

    pub(crate) fn into_records(self) -> Vec<Record>
        ensures { result.items ≡ self.records.items }
    {
        let Reader { records, .. } = self;
        records
    }

    fn owner(&self, pid: u64) -> Option<Owner>
        requires { IsKept self.now }
        ensures { result ≡ owner_of (past self.now) pid }
    {
        self.owners.get(pid)
    }

    #[tactic(auto, using(crate::proofs::KeptLemmas::is_running))]
    fn is_live(&self, pid: u64) -> bool
        requires { IsKept self.now }
        ensures { result ≡ is_live_in (past self.now) pid }
    {
        is_running(self.owner(pid))
    }

    fn is_twice(&self, entry: &Entry) -> bool
        requires { IsKept self.now }
        ensures { result ≡ is_twice_in (past self.now) (entry_view entry.now) }
    {
        match entry.op.started_pid(entry.pid) {
            None => false,
            Some(pid) => self.is_live(pid),
        }
    }

    fn is_full(&self, entry: &Entry) -> bool
        requires { IsKept self.now }
        ensures { result ≡ is_too_many (past self.now) (entry_view entry.now) }
    {
        is_most(self.records.len())
            || entry.op.started_pid(entry.pid).is_some() && self.processes >= MOST_PROCESSES
    }

    /// Why an entry is at fault, by the entries before it: the first cause, if there is one. The latest process of its
    /// pid is known.
    fn entry_fault(&self, entry: &Entry, owner: Option<Owner>) -> Option<Cause>
        requires kept { IsKept self.now }
        requires owner { owner ≡ owner_of (past self.now) entry.now.pid }
        ensures { result ≡ entry_fault (past self.now) (entry_view entry.now) }
    {
        if is_unknown(entry, owner) {
            return Some(Cause::UnknownProcess);
        }
        if self.is_twice(entry) {
            return Some(Cause::Twice);
        }
        if self.is_full(entry) {
            return Some(Cause::TooMany);
        }
        None
    }

    fn process_of(&self, entry: &Entry, owner: Option<Owner>) -> ProcessId
        requires kept { IsKept self.now }
        requires owner { owner ≡ owner_of (past self.now) entry.now.pid }
        ensures { result.0 ≡ process_of (past self.now) (entry_view entry.now) }
    {
        if entry.op.is_start() {
            return ProcessId(self.processes);
        }
        process_or_first(owner)
    }

    /// Admits an entry as a record, if the entries before it do not put it at fault.
    pub(crate) fn admit(&mut self, entry: Entry) -> Result<(), Cause>
        requires { IsKept self.old }
        ensures gives { Gives (λ _. entries self.new) result
            (with_entry trace_file (entries self.old) (entry_view entry)) }
        ensures kept { OnOk result (IsKept self.new) }
    {
        let owner = self.owner(entry.pid);
        if let Some(cause) = self.entry_fault(&entry, owner) {
            return Err(cause);
        }
        let process = self.process_of(&entry, owner);
        self.note(&entry)?;
        self.records.push(Record {
            line: entry.line,
            process,
            pid: entry.pid,
            op: entry.op,
        })?;
        Ok(())
    }

    /// Notes which process an entry starts or ends.
    #[tactic(auto, using(crate::proofs::KeptLemmas::noted_begin, crate::proofs::KeptLemmas::noted_stop, crate::proofs::KeptLemmas::noted_same))]
    fn note(&mut self, entry: &Entry) -> Result<(), Cause>
        requires kept { IsKept self.old }
        requires faultless { entry_fault (past self.old) (entry_view entry.now) ≡ None }
        ensures ok { OnOk result (IsNoted self.old self.new (entry_view entry.now)) }
        ensures err { IfErr result (λ cause. cause ≡ Memory) }
    {
        if let Some(pid) = entry.op.started_pid(entry.pid) {
            return self.begin(pid);
        }
        if entry.op.is_exit() {
            return self.end(entry.pid);
        }
        Ok(())
    }

    /// A new process gets the pid.
    fn begin(&mut self, pid: u64) -> Result<(), Cause>
        requires { self.old.processes < MOST_PROCESSES }
        ensures ok { OnOk result (Begins self.old self.new pid) }
        ensures err { IfErr result (λ cause. cause ≡ Memory) }
    {
        let owner = Owner {
            process: ProcessId(self.processes),
            running: true,
        };
        self.owners.insert(pid, owner)?;
        self.processes += 1;
        Ok(())
    }

    /// The process that has the pid ends.
    fn end(&mut self, pid: u64) -> Result<(), Cause>
        ensures ok { OnOk result (Stops self.old self.new pid) }
        ensures err { IfErr result (λ cause. cause ≡ Memory) }
    {
        if let Some(owner) = self.owners.get(pid) {
            let stopped = Owner {
                process: owner.process,
                running: false,
            };
            self.owners.insert(pid, stopped)?;
        }
        Ok(())
    }
}

fn process_or_first(owner: Option<Owner>) -> ProcessId
    ensures { result.0 ≡ unwrap_or (number owner) 0 }
{
    match owner {
        None => ProcessId(0),
        Some(owner) => owner.process,
    }
}
