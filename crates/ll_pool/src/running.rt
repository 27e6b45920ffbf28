//! Judging all processes of a case by workers.

ghost use Rattle.std.specs.Prelude.{◌≡◌, ◌≤◌, ◌<◌, ◌+◌, ◌-◌, ◌^◌, ℕ, IfOk, count_by, drop, length, min, take, List, OnOk};
ghost use Rattle.ll_trace.specs.Processes.{process_count, times};
ghost use Rattle.ll_pool.specs.declared.queue.TheConstants.{PARTS, ROOM};
ghost use Rattle.ll_pool.specs.Gathered.{ArePiecesOf, processes_in};
ghost use Rattle.crossbeam_queue.specs.Passes.{view, IsPassOf};
ghost use Rattle.ll_pool.specs.{Rule.IsBalanced, Accounts.IsAccount};

use crate::hand::{Busy, EmptyHand, Gate, Pool, QueueHand, Worked};
use crate::queue::{Naming, QueuePass, ROOM, open, pop};
use crate::workers::{PoolFault, Roots, judge_by_workers};
use ll_process::{Case, Job, Piece, judge};
use std::alloc::{AllocError, Global};
use std::marker::Brand;
use std::sync::Wait;
use std::thread::Threads;

/// Judges all processes of a case, each in one piece: by this many workers, each on a thread of
/// its own, who share a queue of 1,024 jobs. The roots go to the queue, and so does each child whose
/// number has a true entry in `cut`; a missing entry is false. Other children are judged with their
/// parent, and so is a child that finds the queue full. No more workers start than there can be jobs.
///
/// The gate is told of each job before it is judged. If a thread can't be started, the answer is
/// `NoThread`, else `Memory` if memory runs out. All workers have ended when it answers.
pub fn run<'c, R: Threads + Wait + Sync, G: Gate + Sync>(
    rt: &R,
    alloc: Global,
    case: &'c Case<'c>,
    workers: usize,
    cut: &[bool],
    gate: &G,
) -> Result<Vec<Piece<'c>>, PoolFault>
    requires { (1 ≤ workers) × (workers ≤ 64) }
    ensures of_case { IfOk result (λ pieces. ArePiecesOf case.now pieces.items) }
    ensures each_once { IfOk result
        (λ pieces. (process : ℕ) → process < process_count case.now.records
        → times process (processes_in pieces.items) ≡ 1) }
{
    run_named::<Brand, R, G>(rt, alloc, case, workers, cut, gate)
}

/// The most jobs that the queue can ever be given: the roots, and the children for which `cut` is true.
fn most_jobs(roots: usize, cut: &[bool]) -> usize
    ensures { result ≡ min (roots + count_by (λ here. here) cut.now) (2 ^ 64 - 1) }
{
    roots.saturating_add(cut.iter().filter(|&&here| here).count())
}

/// The jobs after those for which the queue has room.
fn beyond_room<'c>(jobs: &mut Vec<Job<'c>>) -> Result<Vec<Job<'c>>, AllocError>
    ensures items { IfOk result
        (λ rest. jobs.new.items ≡ take (min (length jobs.old.items) ROOM) jobs.old.items) }
    ensures tail { IfOk result
        (λ rest. rest.items ≡ drop (min (length jobs.old.items) ROOM) jobs.old.items) }
{
    jobs.split_off(jobs.len().min(ROOM))
}

/// `run` on the case that `N` names.
fn run_named<'s, 'c, N: Naming + Send + Sync, R: Threads + Wait + Sync, G: Gate + Sync>(
    rt: &'s R,
    alloc: Global,
    case: &'c Case<'c>,
    workers: usize,
    cut: &'s [bool],
    gate: &'s G,
) -> Result<Vec<Piece<'c>>, PoolFault>
    requires named { case.now ≡ N.case }
    requires workers { workers ≤ 64 }
    ensures of_case { IfOk result (λ pieces. ArePiecesOf case.now pieces.items) }
    ensures each_once { IfOk result
        (λ pieces. (process : ℕ) → process < process_count case.now.records
        → times process (processes_in pieces.items) ≡ 1) }
{
    let mut first = case.roots(alloc)?;
    let started = workers.min(most_jobs(first.len(), cut));
    let rest = beyond_room(&mut first)?;
    let (queue, pass) = open::<N>(alloc)?;
    let pool: Pool<'s, 'c, N, R, G> = Pool {
        rt,
        alloc,
        gate,
        cut,
        queue,
        busy: Busy::new(),
    };
    let me = QueueHand { pool: &pool, pass };
    let Worked {
        mut pass,
        mut pieces,
    } = judge_by_workers(me, Roots { first, rest }, started)?;
    drain(&pool, &mut pass, &mut pieces)?;
    Ok(pieces)
}

/// Judges all jobs that are left in the queue, with a hand that keeps nothing. The pass has all
/// parts, so at the end it has given exactly what it took.
fn drain<'s, 'c, N: Naming, R: Wait, G: Gate>(
    pool: &Pool<'s, 'c, N, R, G>,
    pass: &mut QueuePass<'c>,
    pieces: &mut Vec<Piece<'c>>,
) -> Result<(), AllocError>
    requires queue { IsPassOf pool.now.queue pass.old }
    requires whole { (view pass.old).parts ≡ PARTS }
    requires of_case { (view pass.old).case ≡ N.case }
    ensures account { OnOk result ((roots : List ℕ)
        → IsAccount N.case roots (view pass.old) pieces.old.items
        → IsAccount N.case roots (view pass.new) pieces.new.items) }
    ensures balanced { OnOk result (IsBalanced (view pass.new)) }
{
    for _ in pool.rt.forever() {
        let Some(job) = pop(pool.rt, &pool.queue, pass) else {
            return Ok(());
        };
        pool.gate.begun(job.process());
        let piece = judge(pool.alloc, job, &mut EmptyHand)?;
        pieces.push(piece)?;
    }
    unreachable!()
}
