//! How much there is to judge of each process with its descendants.

ghost use Rattle.std.specs.Prelude.{◌≡◌, ◌<◌, IfOk, length};
ghost use Rattle.ll_trace.specs.Processes.{process_count};

use ll_trace::{ProcessId, Trace};
use std::alloc::{AllocError, Global};

/// The number of a process's own records.
fn own_size(trace: &Trace, process: u32) -> u32
    requires { process < process_count trace.now }
{
    u32::try_from(trace.records_of(ProcessId(process)).len()).unwrap_or(u32::MAX)
}

/// Adds what there is of a process to what there is of its parent, if it has one.
fn add_to_parent(trace: &Trace, process: u32, sizes: &mut [u32])
    requires there { process < process_count trace.now }
    requires sized { length sizes.old ≡ process_count trace.now }
    ensures { length sizes.new ≡ length sizes.old }
{
    if let Some(parent) = trace.parent_of(ProcessId(process)) {
        let below = sizes[process as usize];
        let above = sizes[parent.0 as usize];
        sizes[parent.0 as usize] = above.saturating_add(below);
    }
}

/// For each process, how many records it has with its descendants. Which process is judged first rests on it, and
/// no answer.
pub(crate) fn sizes_of(alloc: Global, trace: &Trace) -> Result<Vec<u32>, AllocError> {
    let count = trace.processes();
    let mut sizes = Vec::new(alloc);
    for process in 0..count {
        sizes.push(own_size(trace, process))?;
    }
    for after in 0..count {
        add_to_parent(trace, count - after - 1, &mut sizes);
    }
    Ok(sizes)
}
