//! All processes of a case, in an order of the caller's own.

ghost use Rattle.std.specs.Prelude.{◌≡◌, ◌<◌, ◌+◌, ℕ, IfOk, sum_by};
ghost use Rattle.ll_trace.specs.Processes.{process_count, times};
ghost use Rattle.ll_pool.specs.Gathered.{ArePiecesOf, processes_in};

use crate::keeper::{Keeper, Wanted};
use ll_process::{Case, Piece, judge};
use std::alloc::{AllocError, Global};

/// Judges all processes of a case with a hand that keeps what is wanted. Of the roots and the jobs kept,
/// the one of the greatest process number is judged first, until none is left.
pub fn judge_greatest_first<'c>(
    alloc: Global,
    case: &'c Case<'c>,
    wanted: Wanted,
) -> Result<Vec<Piece<'c>>, AllocError>
    ensures of_case { IfOk result (λ pieces. ArePiecesOf case.now pieces.items) }
    ensures each_once { IfOk result (λ pieces. (process : ℕ)
        → process < process_count case.now.records
        → times process (processes_in pieces.items) ≡ 1) }
{
    let jobs = case.roots(alloc)?;
    let mut keeper = Keeper { wanted, jobs };
    let mut pieces = Vec::new(alloc);
    while let Some(job) = keeper.take_greatest() {
        let piece = judge(alloc, job, &mut keeper)?;
        if pieces.push(piece).is_err() {
            return Err(AllocError);
        }
    }
    Ok(pieces)
}
