//! Laws on traces, which follow from the definitions.

ghost use Rattle.std.specs.Prelude.{◌≡◌, ◌<◌, ◌≤◌, ℕ, All, List, [], map, Some, Ok};
ghost use Rattle.std.specs.List.{list_any, slice_get};
ghost use Rattle.serde_json.specs.Data.{Items};
ghost use Rattle.ll_rights.specs.{declared.abi.Abi.Abi, declared.fs.Fs.Fs, declared.net.Net.Net, Abis.number_of};
ghost use Rattle.ll_rights.specs.Rights as files;
ghost use Rattle.ll_rights.specs.NetRights as network;
ghost use Rattle.ll_lines.specs.{Lines.Line, Members.fold_texts, LineByLine.ReadsInOneWay};
ghost use Rattle.ll_members.specs.Rights.{with_fs, with_net};
ghost use Rattle.ll_trace.specs.{declared.op.ProcessId.ProcessId, declared.op.Record.Record};
ghost use Rattle.ll_trace.specs.Entries.{Entry, entry_at, trace_file};
ghost use Rattle.ll_trace.specs.Operations.{op_name};
ghost use Rattle.ll_trace.specs.SaidByName.{SaysOperation, texts_of};
ghost use Rattle.ll_trace.specs.Traces.{AreFaultless};
ghost use Rattle.ll_trace.specs.Records.{entry_of, records_after, IsTrace};
ghost use Rattle.ll_trace.specs.Processes.{process_count, parent_of, forked_by, started_at, IsNumbered};
ghost use Rattle.ll_trace.specs.BestEffort.{records_at_best_effort, IsSupported};
ghost use Rattle.ll_trace.specs.SingleUse.{IsStrictTrace};

/// A file either reads as one trace and has no fault, or has one first fault, with its line and its cause, and
/// reads as no trace.
#[tactic(auto, using(crate::proofs::LawLemmas::in_one_way))]
pub fn files_read_as_one_trace()
    ensures { ReadsInOneWay trace_file IsTrace }
{}

/// A file that reads as a trace under the rule that a pid is never used again reads as the same
/// trace under the rule that it is used again only after its process has exited.
pub fn traces_of_single_pids()
    ensures { (bytes : List ℕ) (records : List Record)
        → IsStrictTrace bytes records → IsTrace bytes records }
{}

/// If no entry is at fault, their records are numbered. Each number below the count is that of
/// a process that exactly one record starts; this record names its parent, whose number is below its own.
pub fn processes_are_numbered()
    ensures numbered { (records : List Record) → AreFaultless [] (map entry_of records)
        → records ≡ records_after [] (map entry_of records) → IsNumbered records }
    ensures each { (records : List Record) (process : ℕ) → process < process_count records
        → (index : ℕ) × (started_at records index ≡ Some process) }
    ensures once { (records : List Record) (index other process : ℕ)
        → started_at records index ≡ Some process
        → started_at records other ≡ Some process → index ≡ other }
    ensures forked { (records : List Record) (index process : ℕ) (r : Record)
        → slice_get records index ≡ Some r → started_at records index ≡ Some process
        → parent_of records process ≡ forked_by r.op r.process }
    ensures parent { (records : List Record) (process : ℕ) (parent : ProcessId) → IsNumbered records
        → process < process_count records
        → parent_of records process ≡ Some parent → parent.0 < process }
{}

/// A set of rights that is read from a list of names has exactly the rights that some name of the list
/// stands for.
#[tactic(auto, using(crate::proofs::SetLemmas::fs_by_names, crate::proofs::SetLemmas::net_by_names))]
pub fn sets_are_their_names()
    ensures fs { (names : Items) (set : Fs) (right : files.FsRight)
        → fold_texts with_fs files.no_right names ≡ Ok set → files.has set right
        ≡ list_any (λ name. files.is_right right (files.right_named name)) (texts_of names) }
    ensures net { (names : Items) (set : Net) (right : network.NetRight)
        → fold_texts with_net network.no_right names ≡ Ok set → network.has set right
        ≡ list_any (λ name. network.is_right right (network.right_named name)) (texts_of names) }
{}

/// A line that reads as an entry has the name of its operation in the member `op`.
#[tactic(auto, using(crate::proofs::SaidByName::line_says))]
pub fn lines_say_operations_by_name()
    ensures { (line : Line) (entry : Entry) → entry_at line ≡ Ok entry
        → SaysOperation line (op_name entry.op) }
{}

/// Best effort changes no record at a version that supports all rights that the records name. At an older version it
/// makes the same from what a newer one left as from the records themselves.
pub fn best_effort_by_version()
    ensures supported { (abi : Abi) (records : List Record)
        → All (λ r. IsSupported abi r.op) records
        → records_at_best_effort abi records ≡ records }
    ensures older { (older newer : Abi) (records : List Record) → number_of older ≤ number_of newer
        → records_at_best_effort older (records_at_best_effort newer records)
        ≡ records_at_best_effort older records }
{}
