//! All processes of a case, judged on the caller's thread.

ghost use Rattle.std.specs.Prelude.{◌≡◌, ℕ, ◌+◌, List, [], IfOk, sum_by};
ghost use Rattle.ll_semantics.specs.Worlds.{judged};
ghost use Rattle.ll_trace.specs.Processes.{kids, roots, IsNumbered};
ghost use Rattle.ll_pool.specs.Gathered.{ArePiecesOf, processes_in};

use crate::gather::assemble;
use crate::hand::EmptyHand;
use ll_process::{Answer, Case, Piece, judge};
use std::alloc::{AllocError, Global};

/// One piece for each root, with all of its descendants.
fn pieces_of<'c>(alloc: Global, case: &'c Case<'c>) -> Result<Vec<Piece<'c>>, AllocError>
    ensures of_case { IfOk result (λ pieces. ArePiecesOf case.now pieces.items) }
    ensures numbered { IfOk result (λ pieces. IsNumbered case.now.records) }
    ensures shared { IfOk result (λ pieces. (weight : ℕ → ℕ)
        → sum_by weight (processes_in pieces.items)
        ≡ sum_by weight (roots case.now.records)
        + sum_by weight (kids case.now.records (processes_in pieces.items))) }
{
    let mut jobs = case.roots(alloc)?;
    let mut pieces = Vec::new(alloc);
    while let Some(job) = jobs.pop() {
        let piece = judge(alloc, job, &mut EmptyHand)?;
        pieces.push(piece)?;
    }
    Ok(pieces)
}

/// The answers to all records of a case, in their order, judged process by process on the caller's
/// thread.
#[tactic(auto, using(ll_trace::proofs::EachOnce::each_once_weighed))]
pub fn judge_alone<'c>(alloc: Global, case: &'c Case<'c>) -> Result<Vec<Answer>, AllocError>
    ensures { IfOk result (λ answers. answers.items
        ≡ judged case.now.tree case.now.abi case.now.records) }
{
    assemble(alloc, case, pieces_of(alloc, case)?)
}
