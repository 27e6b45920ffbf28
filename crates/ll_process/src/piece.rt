//! Pieces: the answers to some processes.

ghost use Rattle.std.specs.Prelude.{◌≡◌, ◌<◌, ◌++◌, ◌∷◌, [], ℕ, Some, IfOk, length, slice_get};
ghost use Rattle.std.specs.List.{flat_map};
ghost use Rattle.ll_trace.specs.declared.op.ProcessId.{ProcessId as Process};
ghost use Rattle.ll_trace.specs.Processes.{process_count, numbers, own_records};
ghost use Rattle.ll_process.specs.Cases.{own_answers};

use crate::case::Case;
use crate::progress::Progress;
use ll_semantics::Answer;
use ll_trace::ProcessId;
use std::alloc::{AllocError, Global};

/// Some processes of a case, with the answers to their records: one process after another, each
/// record by its index in the trace, with the answer that it has in the whole trace.
#[derive(Drop)]
pub struct Piece<'c> {
    pub(crate) case: &'c Case<'c>,
    pub(crate) processes: Vec<ProcessId>,
    pub(crate) answers: Vec<(u32, Answer)>,
    pub ghost there: { (k : ℕ) (process : Process) → slice_get processes.items k ≡ Some process
        → process.0 < process_count case.now.records },
    pub ghost answered: { answers.items
        ≡ flat_map (own_answers case.now) (numbers processes.items) },
}

impl<'c> Piece<'c> {
    /// No process of a case.
    pub(crate) fn none(alloc: Global, case: &'c Case<'c>) -> Piece<'c>
        ensures case { result.case.now ≡ case.now }
        ensures processes { result.processes.items ≡ [] }
    {
        Piece {
            case,
            processes: Vec::new(alloc),
            answers: Vec::new(alloc),
        }
    }

    /// These processes and one more, which is judged.
    pub(crate) fn and(self, judged: Progress<'c>) -> Result<Piece<'c>, AllocError>
        requires its { judged.case.now ≡ self.case.now }
        requires over { judged.at
            ≡ length (own_records judged.case.now.records judged.process.0) }
        ensures case { IfOk result (λ piece. piece.case.now ≡ self.entry.case.now) }
        ensures processes { IfOk result (λ piece. piece.processes.items
            ≡ self.entry.processes.items ++ judged.entry.process ∷ []) }
    {
        let Piece {
            case,
            mut processes,
            mut answers,
        } = self;
        let Progress {
            process,
            answers: mut more,
            ..
        } = judged;
        processes.push(process)?;
        answers.append(&mut more)?;
        Ok(Piece {
            case,
            processes,
            answers,
        })
    }

    /// One process that is judged, and these after it.
    pub(crate) fn after(self, alloc: Global, judged: Progress<'c>) -> Result<Piece<'c>, AllocError>
        requires its { judged.case.now ≡ self.case.now }
        requires over { judged.at
            ≡ length (own_records judged.case.now.records judged.process.0) }
        ensures case { IfOk result (λ piece. piece.case.now ≡ self.entry.case.now) }
        ensures processes { IfOk result (λ piece. piece.processes.items
            ≡ judged.entry.process ∷ self.entry.processes.items) }
    {
        let Piece {
            case,
            processes: mut others,
            answers: mut more,
        } = self;
        let Progress {
            process,
            mut answers,
            ..
        } = judged;
        let mut processes = Vec::new(alloc);
        processes.push(process)?;
        processes.append(&mut others)?;
        answers.reserve_exact(more.len())?;
        answers.append(&mut more)?;
        Ok(Piece {
            case,
            processes,
            answers,
        })
    }

    /// The processes that were judged, the first one first.
    pub fn processes(&self) -> &[ProcessId]
        ensures { result.now ≡ self.now.processes.items }
    {
        &self.processes
    }

    /// The indices of their records, each with its answer.
    pub fn answers(&self) -> &[(u32, Answer)]
        ensures { result.now ≡ self.now.answers.items }
    {
        &self.answers
    }
}
