//! The answers of pieces in the order of the records.

ghost use Rattle.std.specs.Prelude.{◌≡◌, ℕ, ◌<◌, IfOk, length, All, vec_len};
ghost use Rattle.ll_semantics.specs.Worlds.{judged};
ghost use Rattle.ll_trace.specs.Processes.{process_count, times};
ghost use Rattle.ll_pool.specs.Gathered.{ArePiecesOf, processes_in, put_all};

use ll_process::{Answer, Case, Piece};
use std::alloc::{AllocError, Global};

/// Puts answers at their indices.
fn put_answers(answers: &mut Vec<Answer>, parts: &[(u32, Answer)])
    requires { All (λ part. part.0 < vec_len answers.old) parts.now }
    ensures len { length answers.new.items ≡ length answers.old.items }
    ensures put { answers.new.items ≡ put_all parts.now answers.old.items }
{
    for part in parts {
        answers[part.0 as usize] = part.1;
    }
}

/// The answers to all records, in their order, if each process is in one piece.
pub fn assemble(
    alloc: Global,
    case: &Case<'_>,
    pieces: Vec<Piece<'_>>,
) -> Result<Vec<Answer>, AllocError>
    requires of_case { ArePiecesOf case.now pieces.items }
    requires each_once { (process : ℕ) → process < process_count case.now.records
        → times process (processes_in pieces.items) ≡ 1 }
    ensures { IfOk result (λ answers. answers.items
        ≡ judged case.now.tree case.now.abi case.now.records) }
{
    let mut answers = vec![in alloc; Answer::Moot; case.trace().count()]?;
    for piece in pieces {
        put_answers(&mut answers, piece.answers());
    }
    Ok(answers)
}
