//! The bytes of the two files of a run.

ghost use Rattle.std.specs.Prelude.{◌≡◌, ◌≢◌, ◌⊎◌, ◌+◌, ◌-◌, ◌^◌, ◌<◌, IfOk, IfErr};
ghost use Rattle.ll_lines.specs.declared.fault.Cause.TheVariants.{Memory as NoMemoryLeft};
ghost use Rattle.ll_lines.specs.Reading.{IsBad};
ghost use Rattle.ll_trace.specs.{Entries.trace_file, Records.IsTrace};
ghost use Rattle.ll_audit.specs.declared.fault.Fault.TheVariants.{Memory};
ghost use Rattle.ll_audit.specs.Inputs.{AreBytesOf, HasFile, HasNoFile, trace_bytes, tree_bytes};

use crate::fault::Fault;
use crate::lines::Failure;
use crate::source::{Source, SourceFault};
use crate::workers::Workers;
use ll_command::Run;
use ll_lines::ReadFault;
use ll_lines::blocks::LineBlocks;
use ll_trace::Trace;
use std::alloc::Global;
use std::thread::Threads;

/// The bytes of the two files of an audit.
#[derive(Drop)]
pub(crate) enum Inputs<'a> {
    /// Those that a caller has.
    Lent { tree: &'a [u8], trace: &'a [u8] },
    /// Those of the files that a run names, which are given back once they are read.
    Read { tree: Vec<u8>, trace: LineBlocks },
}

impl Inputs<'_> {
    /// The bytes of the tree.
    pub(crate) fn tree(&self) -> &[u8]
        ensures { result.now ≡ tree_bytes self.now }
    {
        match self {
            Inputs::Lent { tree, .. } => tree,
            Inputs::Read { tree, .. } => tree,
        }
    }

    /// The trace that the bytes read as. The bytes of both files are given back.
    pub(crate) fn into_trace<R: Threads + Sync, G>(
        self,
        workers: &Workers<'_, R, G>,
    ) -> Result<Trace, ReadFault>
        ensures good { IfOk result (IsTrace (trace_bytes self.entry)) }
        ensures bad { IfErr result (λ fault. fault.cause ≢ NoMemoryLeft
            → IsBad trace_file (trace_bytes self.entry) fault) }
    {
        let count = workers.count as usize;
        match self {
            Inputs::Lent { trace, .. } => Trace::read_by(workers.rt, workers.alloc, trace, count),
            Inputs::Read { trace, .. } => Trace::read_blocks_by(
                workers.rt,
                workers.alloc,
                trace,
                count,
            ),
        }
    }
}

/// What a source gives of the file of a name, or why a run has nothing of it.
fn named<T>(read: Result<T, SourceFault>, name: &str) -> Result<T, Failure<'_>>
    ensures read { IfOk result (λ given. read ≡ Ok given) }
    ensures failure { IfErr result (λ failure. (failure ≡ Failure.Audit Memory)
        ⊎ ((failure ≡ Failure.Unread name.entry) × (read ≡ Err SourceFault.Unread))) }
{
    match read {
        Ok(given) => Ok(given),
        Err(SourceFault::Unread) => Err(Failure::Unread(name)),
        Err(SourceFault::Memory) => Err(Failure::Audit(Fault::Memory)),
    }
}

/// The bytes of the two files. The tree is read first, and the trace only if the tree was.
pub(crate) fn inputs_of<'a, S: Source>(
    alloc: Global,
    source: &mut S,
    run: &Run<'a>,
) -> Result<Inputs<'a>, Failure<'a>>
    requires { S.failed source.old + 2 < 2 ^ 64 }
    ensures tree { IfOk result
        (λ inputs. AreBytesOf (S.files source.old) run.now.tree.now (tree_bytes inputs)) }
    ensures trace { IfOk result
        (λ inputs. AreBytesOf (S.files source.old) run.now.trace.now (trace_bytes inputs)) }
    ensures failure { IfErr result (λ failure. (failure ≡ Failure.Audit Memory)
        ⊎ (((failure ≡ Failure.Unread run.now.tree)
        × HasNoFile (S.files source.old) run.now.tree.now
        ⊎ (failure ≡ Failure.Unread run.now.trace) × HasFile (S.files source.old) run.now.tree.now
        × HasNoFile (S.files source.old) run.now.trace.now)
        × (S.failed source.old < S.failed source.new))) }
    ensures same_files { S.files source.new ≡ S.files source.old }
{
    let tree = named(source.bytes_of(alloc, run.tree), run.tree)?;
    let trace = named(source.blocks_of(alloc, run.trace), run.trace)?;
    Ok(Inputs::Read { tree, trace })
}
