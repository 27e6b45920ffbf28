//! Records as they are seen through a kernel. The trace itself stays as it was read.

ghost use Rattle.std.specs.Prelude.{◌≡◌, ◌<◌, ◌≤◌, ◌&&◌, All, IfNone, IfSome, Some, false, length, option_map, slice_get};
ghost use Rattle.ll_rights.specs.Rights as files;
ghost use Rattle.ll_rights.specs.NetRights as network;
ghost use Rattle.ll_trace.specs.declared.op.Op.{Op as Operation};
ghost use Rattle.ll_trace.specs.{Entries.is_start, SeenRecords.record_of};
ghost use Rattle.ll_rights.specs.Supported.{supported_fs, supported_net};
ghost use Rattle.ll_trace.specs.declared.op.Record.{Record as OneRecord};
ghost use Rattle.ll_trace.specs.declared.reader.TheConstants.{MOST_PROCESSES, MOST_RECORDS};
ghost use Rattle.ll_trace.specs.BestEffort.{adds_path, adds_port, at_best_effort, creates};
ghost use Rattle.ll_trace.specs.Processes.{is_fork, process_count, parent_of, own_records, forked_at};
ghost use Rattle.ll_trace.specs.Borrowed.{IsTold, is_of_rights, meant};
ghost use Rattle.ll_trace.specs.Taken.{records_taken, taken};
ghost use Rattle.ll_trace.specs.Traces.{AreRecords};

use crate::op::{Op, ProcessId};
use crate::path_text::PathText;
use crate::trace::{Effort, Trace};
use ll_rights::{Abi, Fs, Net, RightSet};
use std::marker::Model;

/// The kernel that a trace is judged under: its version of the interface, and whether programs ask it for this version.
#[derive(Clone, Copy, Debug, PartialEq, Eq)]
pub struct Kernel {
    pub abi: Abi,
    pub effort: Effort,
}

/// A call as a program makes it under a kernel, borrowed from the record.
#[derive(Clone, Copy, Debug)]
pub enum Call<'t> {
    Create { rs: u64, fs: Fs, net: Net },
    CreateEmpty { rs: u64 },
    AddPath { rs: u64, path: &'t PathText, fs: Fs },
    AddPort { rs: u64, port: u64, net: Net },
    LeaveOutPath { path: &'t PathText },
    LeaveOutPort,
    /// A call that no kernel changes.
    Other(&'t Op),
}

/// The same; contracts see the operation that it stands for.
#[derive(Debug, Drop)]
pub struct Seen<'t> {
    call: Call<'t>,
}

impl<'t> Model for Seen<'t> {
    ghost use Rattle.ll_trace.specs.declared.op.Op.{Op as Operation};

    ghost Value = { Operation };

    ghost use Rattle.ll_trace.specs.Borrowed.{IsTold, meant};

    ghost view = { λ seen. meant seen.call };

    ghost invariant = { λ seen. IsTold seen.call };
}

/// Whether two sets have no right.
fn are_empty(fs: Fs, net: Net) -> bool
    ensures { result ≡ (files.is_empty fs && network.is_empty net) }
{
    fs.is_empty() && net.is_empty()
}

/// What a program calls for a `create`: if none of its rights is supported, the program does without a
/// ruleset, and is judged with one that handles nothing.
#[tactic(auto, unfolding(crate::specs::Borrowed::meant))]
fn created<'t>(rs: u64, fs: Fs, net: Net, abi: Abi) -> Call<'t>
    ensures told { IsTold result }
    ensures call { meant result ≡ creates rs fs net (supported_fs abi fs) (supported_net abi net) }
{
    let supported = fs.supported(abi);
    let ports = net.supported(abi);
    if are_empty(supported, ports) && !are_empty(fs, net) {
        Call::CreateEmpty { rs }
    } else {
        Call::Create {
            rs,
            fs: supported,
            net: ports,
        }
    }
}

/// What a program calls for an `add_path`: it leaves out the call if none of its rights is supported.
#[tactic(auto, unfolding(crate::specs::Borrowed::meant))]
fn path_added<'t>(rs: u64, path: &'t PathText, fs: Fs, abi: Abi) -> Call<'t>
    ensures told { IsTold result }
    ensures call { meant result ≡ adds_path rs path.now fs (supported_fs abi fs) }
{
    let supported = fs.supported(abi);
    if supported.is_empty() && !fs.is_empty() {
        Call::LeaveOutPath { path }
    } else {
        Call::AddPath {
            rs,
            path,
            fs: supported,
        }
    }
}

/// What a program calls for an `add_port`: it leaves out the call if none of its rights is supported.
#[tactic(auto, unfolding(crate::specs::Borrowed::meant))]
fn port_added<'t>(rs: u64, port: u64, net: Net, abi: Abi) -> Call<'t>
    ensures told { IsTold result }
    ensures call { meant result ≡ adds_port rs port net (supported_net abi net) }
{
    let supported = net.supported(abi);
    if supported.is_empty() && !net.is_empty() {
        Call::LeaveOutPort
    } else {
        Call::AddPort {
            rs,
            port,
            net: supported,
        }
    }
}

impl Op {
    /// The call as it was recorded.
    #[tactic(auto, unfolding(crate::specs::Borrowed::meant, crate::specs::Borrowed::is_of_rights))]
    fn as_recorded(&self) -> Call<'_>
        ensures told { IsTold result }
        ensures call { meant result ≡ self.now }
    {
        match self {
            Op::Create { rs, fs, net } => Call::Create {
                rs: *rs,
                fs: *fs,
                net: *net,
            },
            Op::AddPath { rs, path, fs } => Call::AddPath {
                rs: *rs,
                path,
                fs: *fs,
            },
            Op::AddPort { rs, port, net } => Call::AddPort {
                rs: *rs,
                port: *port,
                net: *net,
            },
            Op::CreateEmpty { rs } => Call::CreateEmpty { rs: *rs },
            Op::LeaveOutPath { path } => Call::LeaveOutPath { path },
            Op::LeaveOutPort => Call::LeaveOutPort,
            _ => Call::Other(self),
        }
    }

    /// The call of a program that uses what a version supports.
    #[tactic(auto, unfolding(crate::specs::Borrowed::meant, crate::specs::BestEffort::at_best_effort))]
    fn making_do(&self, abi: Abi) -> Call<'_>
        ensures told { IsTold result }
        ensures call { meant result ≡ at_best_effort abi self.now }
    {
        match self {
            Op::Create { rs, fs, net } => created(*rs, *fs, *net, abi),
            Op::AddPath { rs, path, fs } => path_added(*rs, path, *fs, abi),
            Op::AddPort { rs, port, net } => port_added(*rs, *port, *net, abi),
            _ => self.as_recorded(),
        }
    }

    /// The call of a program under a kernel.
    #[tactic(auto, unfolding(crate::specs::Taken::by_effort))]
    pub fn at(&self, kernel: Kernel) -> Seen<'_>
        ensures { result ≡ taken kernel self.now }
    {
        let call = match kernel.effort {
            Effort::AsRecorded => self.as_recorded(),
            Effort::Best => self.making_do(kernel.abi),
        };
        Seen { call }
    }
}

impl<'t> Seen<'t> {
    /// The call, to be told apart.
    pub fn call(&self) -> Call<'t>
        ensures told { IsTold result }
        ensures call { meant result ≡ self.now }
    {
        self.call
    }

    /// The operation itself, if it is one that no kernel changes. The others start no process.
    #[tactic(auto, unfolding(crate::specs::Borrowed::meant, crate::specs::Processes::is_fork, crate::specs::Entries::is_start))]
    fn unchanged(&self) -> Option<&'t Op>
        ensures same { IfSome result (λ op. op.now ≡ self.now) }
        ensures no_fork { IfNone result (is_fork self.now ≡ false) }
        ensures no_start { IfNone result (is_start self.now ≡ false) }
    {
        match self.call {
            Call::Other(op) => Some(op),
            Call::Create { .. }
            | Call::CreateEmpty { .. }
            | Call::AddPath { .. }
            | Call::AddPort { .. }
            | Call::LeaveOutPath { .. }
            | Call::LeaveOutPort => None,
        }
    }

    /// Whether it forks.
    pub fn is_fork(&self) -> bool
        ensures { result ≡ is_fork self.now }
    {
        self.unchanged().is_some_and(|op| op.is_fork())
    }

    /// Whether it begins a process with which the trace begins.
    pub fn is_start(&self) -> bool
        ensures { result ≡ is_start self.now }
    {
        self.unchanged().is_some_and(|op| op.is_start())
    }
}

/// The flags of a start.
#[tactic(auto, unfolding(crate::specs::Entries::is_start))]
fn started(op: &Op) -> Option<(bool, bool)>
    ensures some { IfSome result (λ flags. op.now ≡ Operation.Start flags.0 flags.1) }
    ensures none { IfNone result (is_start op.now ≡ false) }
{
    match op {
        Op::Start { nnp, admin } => Some((*nnp, *admin)),
        _ => None,
    }
}

/// A record as it is seen through a kernel.
#[derive(Debug, Drop)]
pub struct SeenRecord<'t> {
    pub line: u64,
    pub process: ProcessId,
    pub pid: u64,
    pub op: Seen<'t>,
}

/// A trace under a kernel; contracts see its records as they are taken.
#[derive(Drop)]
pub struct TakenTrace<'t> {
    trace: &'t Trace,
    kernel: Kernel,
}

impl<'t> Model for TakenTrace<'t> {
    ghost use Rattle.std.specs.Prelude.{List};
    ghost use Rattle.ll_trace.specs.declared.op.Record.{Record as OneRecord};

    ghost Value = { List OneRecord };

    ghost use Rattle.ll_trace.specs.Taken.{records_taken};

    ghost view = { λ taken. records_taken taken.kernel taken.trace.now };
}

impl<'t> TakenTrace<'t> {
    /// A trace under a kernel.
    pub fn of(trace: &'t Trace, kernel: Kernel) -> TakenTrace<'t>
        ensures { result ≡ records_taken kernel trace.now }
    {
        TakenTrace { trace, kernel }
    }

    /// How many records there are.
    pub fn count(&self) -> usize
        ensures count { result ≡ length self.now }
        ensures few { result ≤ MOST_RECORDS }
        ensures are_records { AreRecords self.now }
    {
        let trace = self.trace;
        trace.records().len()
    }

    /// The call of the record at an index, and the process that makes it.
    pub fn call(&self, index: usize) -> (Seen<'t>, ProcessId)
        requires { index < length self.now }
        ensures op { (r : OneRecord) → slice_get self.now index ≡ Some r → result.0 ≡ r.op }
        ensures process { (r : OneRecord) → slice_get self.now index ≡ Some r
            → result.1 ≡ r.process }
    {
        let trace = self.trace;
        let record = &trace.records()[index];
        (record.op.at(self.kernel), record.process)
    }

    /// The operation of the record at an index as it was recorded, and the process that makes it. It is the operation
    /// that is seen, unless it names rights.
    pub fn recorded(&self, index: usize) -> (&'t Op, ProcessId)
        requires { index < length self.now }
        ensures op { is_of_rights result.0.now ≡ false → (r : OneRecord)
            → slice_get self.now index ≡ Some r → r.op ≡ result.0.now }
        ensures process { (r : OneRecord) → slice_get self.now index ≡ Some r
            → result.1 ≡ r.process }
    {
        let trace = self.trace;
        let record = &trace.records()[index];
        (&record.op, record.process)
    }

    /// The record at an index.
    pub fn record(&self, index: usize) -> SeenRecord<'t>
        requires { index < length self.now }
        ensures { slice_get self.now index ≡ Some (record_of result) }
    {
        let trace = self.trace;
        let record = &trace.records()[index];
        SeenRecord {
            line: record.line,
            process: record.process,
            pid: record.pid,
            op: record.op.at(self.kernel),
        }
    }

    /// The flags of the process that the record at an index begins, if it is a start, as it then is under every kernel.
    pub fn start(&self, index: usize) -> Option<(bool, bool)>
        requires { index < length self.now }
        ensures some { IfSome result (λ flags. (r : OneRecord) → slice_get self.now index ≡ Some r
            → r.op ≡ Operation.Start flags.0 flags.1) }
        ensures none { IfNone result ((r : OneRecord) → slice_get self.now index ≡ Some r
            → is_start r.op ≡ false) }
    {
        let trace = self.trace;
        let record = &trace.records()[index];
        started(&record.op)
    }

    /// The number of processes.
    pub fn processes(&self) -> u32
        ensures count { result ≡ process_count self.now }
        ensures few { result ≤ MOST_PROCESSES }
    {
        let trace = self.trace;
        trace.processes()
    }

    /// The parent of a process.
    pub fn parent_of(&self, process: ProcessId) -> Option<ProcessId>
        requires { process.0 < process_count self.now }
        ensures value { result ≡ parent_of self.now process.0 }
        ensures below { IfSome result (λ parent. parent.0 < process.0) }
    {
        let trace = self.trace;
        trace.parent_of(process)
    }

    /// The indices of a process's records.
    pub fn records_of(&self, process: ProcessId) -> &'t [u32]
        requires { process.0 < process_count self.now }
        ensures value { result.now ≡ own_records self.now process.0 }
        ensures within { All (λ index. index < length self.now) result.now }
    {
        let trace = self.trace;
        trace.records_of(process)
    }

    /// The child that the record at an index forks, if it forks one, as it then does under every kernel.
    pub fn child_at(&self, index: u32) -> Option<ProcessId>
        requires { index < length self.now }
        ensures { option_map (λ child. child.0) result ≡ forked_at self.now index }
    {
        let trace = self.trace;
        let record = &trace.records()[index as usize];
        if record.op.is_fork() {
            trace.starts(index)
        } else {
            None
        }
    }
}
