//! What no clause of the pool says: that workers run at once, who judges what, and that calls succeed where memory and
//! threads are there.

ghost use Rattle.std.specs.Prelude.{◌≡◌, ◌<◌, ℕ, IfOk};
ghost use Rattle.ll_trace.specs.Processes.{process_count, times};
ghost use Rattle.ll_pool.specs.Gathered.{ArePiecesOf, processes_in};

use crate::tests::gates::Meeting;
use crate::tests::judging::worked::{
    FAMILY_ANSWERS, Forks, expect_answers, ground_of, ground_with,
};
use ll_audit::Idle;
use ll_fixtures::FAMILY;
use ll_pool::{assemble, judge_alone, run};
use ll_process::{Answer, Case, Piece};
use std::alloc::AllocGlobal;
use std::process::Abort;
use std::sync::Wait;
use std::test::Fail;
use std::thread::Threads;

/// A case, and the threads that judge it.
#[derive(Drop)]
struct Judging<'c, R> {
    rt: &'c R,
    case: &'c Case<'c>,
}

/// A case to be judged by threads.
fn by_threads<'c, R>(rt: &'c R, case: &'c Case<'c>) -> Judging<'c, R>
    ensures rt { result.rt.now ≡ rt.now }
    ensures case { result.case.now ≡ case.now }
{
    Judging { rt, case }
}

impl<'c, R: AllocGlobal + Threads + Wait + Sync> Judging<'c, R> {
    /// The pieces that workers make, of whom there are one to 64.
    fn pieces(&self, workers: usize, cut: &[bool]) -> Result<Vec<Piece<'c>>, Fail>
        ensures of_case { IfOk result (λ pieces. ArePiecesOf self.now.case.now pieces.items) }
        ensures each_once { IfOk result (λ pieces. (process : ℕ)
            → process < process_count self.now.case.now.records
            → times process (processes_in pieces.items) ≡ 1) }
    {
        let workers = workers.max(1).min(64);
        Ok(run(self.rt, self.rt.alloc(), self.case, workers, cut, &Idle)?)
    }

    /// How many they are.
    fn count(&self, workers: usize, cut: &[bool]) -> Result<usize, Fail> {
        Ok(self.pieces(workers, cut)?.len())
    }

    /// Their answers.
    fn answers(&self, workers: usize, cut: &[bool]) -> Result<Vec<Answer>, Fail> {
        let pieces = self.pieces(workers, cut)?;
        Ok(assemble(self.rt.alloc(), self.case, pieces)?)
    }

    /// How many pieces one worker makes with a cut, and how many of them have this many processes and one.
    fn pieces_with(&self, cut: &[bool], many: usize) -> Result<[usize; 3], Fail> {
        let pieces = self.pieces(1, cut)?;
        Ok([
            pieces.len(),
            pieces_of(&pieces, many),
            pieces_of(&pieces, 1),
        ])
    }

    /// The first number of pieces, of a hundred times, that is another than so many.
    fn count_unlike(&self, cut: &[bool]) -> Result<Option<usize>, Fail> {
        for _ in 0..100 {
            let count = self.count(8, cut)?;
            if count != cut.len() {
                return Ok(Some(count));
            }
        }
        Ok(None)
    }

    /// How many pieces two workers make, how many of the jobs of `first` and of the process after it begin, and how many
    /// of these wait in vain.
    fn judged_at_once(&self, first: u32) -> Result<(usize, (u64, u64)), Fail> {
        let gate = Meeting::of(first, first.saturating_add(1));
        let pieces = run(self.rt, self.rt.alloc(), self.case, 2, &[true; 3], &gate)?;
        Ok((pieces.len(), gate.counts()))
    }
}

impl<R: AllocGlobal + Threads + Wait + Sync + Abort> Judging<'_, R> {
    /// The answers of the family are the same for several numbers of workers with a cut.
    fn expect_family(&self, cut: &[bool]) -> Result<(), Fail> {
        for workers in [1, 3, 8] {
            let answers = self.answers(workers, cut)?;
            expect_answers(self.rt, &answers, FAMILY_ANSWERS);
        }
        Ok(())
    }

    /// One thread gives them too.
    fn expect_alone(&self) -> Result<(), Fail> {
        let answers = judge_alone(self.rt.alloc(), self.case)?;
        expect_answers(self.rt, &answers, FAMILY_ANSWERS);
        Ok(())
    }

    /// They are the same by one thread, and with each cut.
    fn expect_family_with_cuts(&self) -> Result<(), Fail> {
        self.expect_alone()?;
        self.expect_family(&[])?;
        self.expect_family(&EVERY)?;
        self.expect_family(&EVEN)
    }

    /// Eight workers make no piece, and collect no answer.
    fn expect_nothing(&self) -> Result<(), Fail> {
        let pieces = self.count(8, &[])?;
        let answers = self.answers(8, &[])?;
        assert!(self.rt; pieces == 0 && answers.is_empty());
        Ok(())
    }
}

/// How many of the pieces have this many processes.
fn pieces_of(pieces: &[Piece<'_>], processes: usize) -> usize {
    pieces
        .iter()
        .filter(|piece| piece.processes().len() == processes)
        .count()
}

const EVERY: [bool; 12] = [true; 12];

const EVEN: [bool; 12] = [
    true, false, true, false, true, false, true, false, true, false, true, false,
];

#[test]
fn the_answers_are_the_same_by_one_thread_and_for_every_number_of_workers_and_every_cut(
    rt: HostRuntime,
) -> Result<(), Fail> {
    let ground = ground_of(rt.alloc(), FAMILY.as_bytes())?;
    let case = ground.case();
    by_threads(&rt, &case).expect_family_with_cuts()
}

#[test]
fn one_worker_makes_one_piece_of_the_whole_family(rt: HostRuntime) -> Result<(), Fail> {
    let ground = ground_of(rt.alloc(), FAMILY.as_bytes())?;
    let pieces = by_threads(&rt, &ground.case()).pieces_with(&[], 12)?;
    assert_eq!(rt; pieces, [1, 1, 0]);
    Ok(())
}

#[test]
fn an_empty_trace_has_no_answers(rt: HostRuntime) -> Result<(), Fail> {
    let ground = ground_of(rt.alloc(), b"")?;
    let case = ground.case();
    by_threads(&rt, &case).expect_nothing()
}

/// A process forks 1,100 children, and the one worker is to cut each process off.
#[test]
fn children_that_find_the_queue_full_stay(rt: HostRuntime) -> Result<(), Fail> {
    let every = vec![in rt.alloc(); true; 1101]?;
    let ground = ground_with(rt.alloc(), Forks::TheFirst, 1101)?;
    let pieces = by_threads(&rt, &ground.case()).pieces_with(&every, 77)?;
    assert_eq!(rt; pieces, [1025, 1, 1024]);
    Ok(())
}

/// How many pieces workers make of so many processes.
fn count_of_forks<R: AllocGlobal + Threads + Wait + Sync>(
    rt: &R,
    (forks, processes): (Forks, u32),
    workers: usize,
    cut: &[bool],
) -> Result<usize, Fail> {
    let ground = ground_with(rt.alloc(), forks, processes)?;
    let case = ground.case();
    by_threads(rt, &case).count(workers, cut)
}

/// A child that is judged apart where the cut says so, more roots than the queue holds, and a long line of descendants,
/// cut at each process and not at all.
#[test]
fn all_processes_are_judged_in_so_many_pieces(rt: HostRuntime) -> Result<(), Fail> {
    let every = vec![in rt.alloc(); true; 8192]?;
    for (forks, processes, workers, cut, pieces) in [
        (Forks::TheFirst, 2, 1, [false, true].as_slice(), 2),
        (Forks::TheFirst, 2, 1, [].as_slice(), 1),
        (Forks::Nobody, 1100, 8, [].as_slice(), 1100),
        (Forks::TheOneBefore, 8192, 8, every.as_slice(), 8192),
        (Forks::TheOneBefore, 8192, 8, [].as_slice(), 1),
    ] {
        let count = count_of_forks(&rt, (forks, processes), workers, cut)?;
        assert_eq!(rt; count, pieces);
    }
    Ok(())
}

/// A tree of forks is cut at each of its 1,023 processes.
#[test]
fn a_tree_of_forks_is_cut_at_each_fork(rt: HostRuntime) -> Result<(), Fail> {
    let every = vec![in rt.alloc(); true; 1023]?;
    let ground = ground_with(rt.alloc(), Forks::TheOneAtHalf, 1023)?;
    assert_eq!(rt; by_threads(&rt, &ground.case()).count_unlike(&every)?, None);
    Ok(())
}

/// Two roots, and two children of one process, are judged at once.
#[test]
fn two_jobs_are_judged_at_once(rt: HostRuntime) -> Result<(), Fail> {
    for (forks, processes, first) in [(Forks::Nobody, 2, 0), (Forks::TheFirst, 3, 1)] {
        let ground = ground_with(rt.alloc(), forks, processes)?;
        let judged = by_threads(&rt, &ground.case()).judged_at_once(first)?;
        assert_eq!(rt; judged, (processes as usize, (2, 0)));
    }
    Ok(())
}
