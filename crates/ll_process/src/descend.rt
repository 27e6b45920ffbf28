//! Judges one process, and those of its descendants that no hand keeps.

ghost use Rattle.std.specs.Prelude.{◌≡◌, ◌<◌, ◌++◌, ◌∷◌, ℕ, [], List, Some, OnOk, IfOk, length, slice_get};
ghost use Rattle.ll_trace.specs.Processes.{numbers, own_records};
ghost use Rattle.ll_process.specs.Jobs.{KeepsMore, SharesOut};
ghost use Rattle.ll_process.specs.Descending.{AreOf, ArePut, Descended, with_done, work_of};

use crate::case::Case;
use crate::hand::Hand;
use crate::job::Job;
use crate::piece::Piece;
use crate::progress::Progress;
use ll_trace::ProcessId;
use std::alloc::{AllocError, Global};

/// Puts two progresses on a stack, with the one on top of which less is left. So each of a stack has at least as much
/// left as all those above it together, and few wait at a time, however processes fork.
fn put_both<'c>(
    stack: &mut Vec<Progress<'c>>,
    one: Progress<'c>,
    other: Progress<'c>,
) -> Result<(), AllocError>
    ensures { OnOk result (ArePut stack.old.items one.entry other.entry stack.new.items) }
{
    if one.left() < other.left() {
        stack.push(other)?;
        stack.push(one)?;
    } else {
        stack.push(one)?;
        stack.push(other)?;
    }
    Ok(())
}

/// Adds a process that is judged to those that are done. The first process stands in front of the others.
fn finish<'c>(
    alloc: Global,
    first: ProcessId,
    judged: Progress<'c>,
    done: Piece<'c>,
) -> Result<Piece<'c>, AllocError>
    requires its { judged.case.now ≡ done.case.now }
    requires over { judged.at ≡ length (own_records judged.case.now.records judged.process.0) }
    ensures case { IfOk result (λ piece. piece.case.now ≡ done.entry.case.now) }
    ensures processes { IfOk result (λ piece. piece.processes.items
        ≡ with_done first done.entry.processes.items judged.entry.process) }
{
    if judged.process.0 == first.0 {
        done.after(alloc, judged)
    } else {
        done.and(judged)
    }
}

/// Judges on from a progress, until a child comes back from the hand, which is then to do like what is left of its
/// parent, or to the end of the process, which is then added to those that are done. The first process stands in front.
fn judge_on<'c, H: Hand<'c>>(
    alloc: Global,
    case: &'c Case<'c>,
    first: ProcessId,
    next: Progress<'c>,
    hand: &mut H,
    stack: &mut Vec<Progress<'c>>,
    done: Piece<'c>,
) -> Result<Piece<'c>, AllocError>
    requires suits { H.suits hand.old case.now }
    requires its { (next.case.now ≡ case.now) × (done.case.now ≡ case.now) }
    requires of_case { AreOf case.now stack.old.items }
    ensures descended { IfOk result (λ piece. (kept : List ℕ) →
        Descended case.now first done.entry kept (H.kept hand.old)
        (stack.old.items ++ next.entry ∷ [])
        → Descended case.now first piece kept (H.kept hand.new) stack.new.items) }
    ensures case { IfOk result (λ piece. piece.case.now ≡ case.now) }
    ensures of_case { IfOk result (λ piece. AreOf case.now stack.new.items) }
    ensures less { IfOk result (λ piece. work_of case.now.records stack.new.items
        < work_of case.now.records (stack.old.items ++ next.entry ∷ [])) }
    ensures keeps { KeepsMore case.now.records (H.kept hand.old) (H.kept hand.new) }
    ensures suits { H.suits hand.new case.now }
    ensures stays { (before : H) → H.stays before hand.old → H.stays before hand.new }
{
    let (progress, child) = next.go_on(hand)?;
    match child {
        Some(job) => {
            put_both(stack, progress, Progress::begin(alloc, job)?)?;
            Ok(done)
        }
        None => {
            let finished = finish(alloc, first, progress, done)?;
            Ok(finished)
        }
    }
}

/// Judges the job's process, and each descendant whose job the hand gives back. The first process of the
/// piece is the job's. The jobs that the hand kept stay kept, even if memory runs out.
pub fn judge<'c, H: Hand<'c>>(
    alloc: Global,
    job: Job<'c>,
    hand: &mut H,
) -> Result<Piece<'c>, AllocError>
    requires { H.suits hand.old job.case.now }
    ensures first { IfOk result
        (λ piece. slice_get piece.processes.items 0 ≡ Some job.entry.process) }
    ensures of_case { IfOk result (λ piece. piece.case.now ≡ job.entry.case.now) }
    ensures shares_out { IfOk result (λ piece.
        SharesOut job.entry.case.now.records job.entry.process.0 (numbers piece.processes.items)
        (H.kept hand.old) (H.kept hand.new)) }
    // Also where memory runs out.
    ensures keeps { KeepsMore job.entry.case.now.records (H.kept hand.old) (H.kept hand.new) }
    ensures suits { H.suits hand.new job.entry.case.now }
    ensures stays { (before : H) → H.stays before hand.old → H.stays before hand.new }
{
    let case = job.case;
    let first = job.process;
    let mut done = Piece::none(alloc, case);
    let mut stack = Vec::new(alloc);
    stack.push(Progress::begin(alloc, job)?)?;
    while let Some(next) = stack.pop() {
        done = judge_on(alloc, case, first, next, hand, &mut stack, done)?;
    }
    Ok(done)
}
