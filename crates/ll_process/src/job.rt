//! Jobs: processes that are to be judged, each with the state that it begins with.

ghost use Rattle.std.specs.Prelude.{◌≡◌, ◌<◌};
ghost use Rattle.ll_trace.specs.Processes.{process_count};
ghost use Rattle.ll_process.specs.{Cases.BeginsAs, AgreesOnce.BeginsAs-once};

use crate::case::Case;
use ll_state::OwnState;
use ll_trace::ProcessId;

/// A process to be judged, with what it has by itself when it begins: the state that it has in the
/// world after the record that starts it. It belongs to the case that it came from.
#[derive(Drop)]
pub struct Job<'c> {
    pub(crate) case: &'c Case<'c>,
    pub(crate) process: ProcessId,
    pub(crate) own: OwnState,
    pub ghost there: { process.0 < process_count case.now.records },
    pub ghost begins: { BeginsAs case.now process.0 own } by { BeginsAs-once case.now process.0 own },
}

impl<'c> Job<'c> {
    /// The process that is to be judged.
    pub fn process(&self) -> ProcessId
        ensures { result ≡ self.now.process }
    {
        self.process
    }
}
