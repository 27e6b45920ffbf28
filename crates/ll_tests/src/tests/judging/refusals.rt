//! Each test holds whichever one request for memory is refused: the call that it is about answers as with
//! ample memory or says that it has none, what it was lent is as it was, and a second call does what the
//! first was to do. A helper that meets the refusal tries again.

ghost use Rattle.std.specs.Prelude.{◌≡◌, ◌<◌, ℕ, IfOk};
ghost use Rattle.ll_process.specs.Jobs.{AreJobsOf};
ghost use Rattle.ll_trace.specs.Processes.{process_count, times};
ghost use Rattle.ll_pool.specs.Gathered.{ArePiecesOf, processes_in};

use crate::ground::Ground;
use crate::keeper::{Keeper, Wanted};
use crate::order::judge_greatest_first;
use crate::tests::judging::worked::{V4, expect_answers, ground_on, is_told, worked_ground};
use ll_fixtures::TREE;
use ll_pool::{assemble, judge_alone};
use ll_process::{Answer, Case, Job, Piece, judge};
use ll_trace::{ProcessId, Trace};
use ll_tree::Tree;
use std::alloc::{AllocError, Global};
use std::process::Abort;
use std::test::Fail;

/// Two processes that the trace starts with, and four that descend from the second.
const TRACE: &str = "\
{\"op\":\"start\",\"pid\":9}\n\
{\"op\":\"start\",\"pid\":1}\n\
{\"op\":\"nnp\",\"pid\":1}\n\
{\"op\":\"create\",\"pid\":1,\"rs\":3,\"fs\":[\"read_file\"]}\n\
{\"op\":\"add_path\",\"pid\":1,\"rs\":3,\"path\":\"/a\",\"fs\":[\"read_file\"]}\n\
{\"op\":\"fork\",\"pid\":1,\"child\":2}\n\
{\"op\":\"fork\",\"pid\":1,\"child\":3}\n\
{\"op\":\"restrict\",\"pid\":3,\"rs\":3}\n\
{\"op\":\"fork\",\"pid\":3,\"child\":4}\n\
{\"op\":\"fork\",\"pid\":3,\"child\":5}\n\
{\"op\":\"open\",\"pid\":4,\"path\":\"/b/g\",\"fd\":4,\"mode\":\"r\"}\n\
{\"op\":\"open\",\"pid\":5,\"path\":\"/a/f\",\"fd\":4,\"mode\":\"r\"}\n\
{\"op\":\"open\",\"pid\":2,\"path\":\"/b/g\",\"fd\":4,\"mode\":\"r\"}\n\
{\"op\":\"mount\",\"pid\":5}\n\
{\"op\":\"ftruncate\",\"pid\":9,\"fd\":4}\n";

const ANSWERS: &str = "a a a a a a a a a a E1 a a P1 m";

/// The processes that a hand with even numbers leaves to whoever judges process 1, and the indices of
/// their records.
const JUDGED: [ProcessId; 3] = [ProcessId(1), ProcessId(3), ProcessId(5)];

const INDICES: [u32; 11] = [1, 2, 3, 4, 5, 6, 7, 8, 9, 11, 13];

/// The processes that this hand holds then, where it held process 0 before.
const KEPT: [ProcessId; 3] = [ProcessId(0), ProcessId(2), ProcessId(4)];

fn tree_again(alloc: Global) -> Result<Tree, Fail> {
    match Tree::read(alloc, TREE.as_bytes()) {
        Ok(tree) => Ok(tree),
        Err(_) => Ok(Tree::read(alloc, TREE.as_bytes())?),
    }
}

fn trace_again(alloc: Global) -> Result<Trace, Fail> {
    match Trace::read(alloc, TRACE.as_bytes()) {
        Ok(trace) => Ok(trace),
        Err(_) => Ok(Trace::read(alloc, TRACE.as_bytes())?),
    }
}

/// The ground of the case of the trace at version 4. Its tree and its trace are read again where the first reading met
/// the refusal, and both where what comes after did, since they went with it.
fn ground_again(alloc: Global) -> Result<Ground, Fail> {
    let tree = tree_again(alloc)?;
    let trace = trace_again(alloc)?;
    match ground_on(alloc, tree, trace, V4) {
        Ok(ground) => Ok(ground),
        Err(AllocError) => worked_ground(alloc, TRACE.as_bytes()),
    }
}

/// Whether the jobs are those of some processes.
fn are_of(jobs: &[Job<'_>], processes: &[ProcessId]) -> bool {
    jobs.len() == processes.len()
        && jobs
            .iter()
            .zip(processes)
            .all(|(job, process)| job.process() == *process)
}

fn roots_again<'c>(alloc: Global, case: &'c Case<'c>) -> Result<Vec<Job<'c>>, Fail>
    ensures { IfOk result (λ jobs. AreJobsOf case.now jobs.items) }
{
    match case.roots(alloc) {
        Ok(jobs) => Ok(jobs),
        Err(AllocError) => Ok(case.roots(alloc)?),
    }
}

fn pieces_again<'c>(alloc: Global, case: &'c Case<'c>) -> Result<Vec<Piece<'c>>, Fail>
    ensures of_case { IfOk result (λ pieces. ArePiecesOf case.now pieces.items) }
    ensures each_once { IfOk result (λ pieces. (process : ℕ)
        → process < process_count case.now.records
        → times process (processes_in pieces.items) ≡ 1) }
{
    match judge_greatest_first(alloc, case, Wanted::Even) {
        Ok(pieces) => Ok(pieces),
        Err(AllocError) => Ok(judge_greatest_first(alloc, case, Wanted::Even)?),
    }
}

/// Whether the answer at an index is the one told.
fn is_answer(index: usize, answer: &Answer) -> bool {
    match ANSWERS.split_ascii_whitespace().nth(index) {
        Some(word) => is_told(answer, word),
        None => false,
    }
}

fn answers_again<'c>(alloc: Global, case: &'c Case<'c>) -> Result<Vec<Answer>, Fail> {
    match judge_alone(alloc, case) {
        Ok(answers) => Ok(answers),
        Err(AllocError) => Ok(judge_alone(alloc, case)?),
    }
}

/// The case is judged as it was before anything was refused.
fn expect_unchanged<'c>(rt: &impl Abort, alloc: Global, case: &'c Case<'c>) -> Result<(), Fail> {
    let answers = answers_again(alloc, case)?;
    expect_answers(rt, &answers, ANSWERS);
    Ok(())
}

#[test]
fn case_without_memory(rt: HostRuntime) -> Result<(), Fail> {
    let ground = ground_again(rt.alloc())?;
    expect_unchanged(&rt, rt.alloc(), &ground.case())
}

/// Whether the roots are the two processes that the trace starts with.
fn has_two_roots<'c>(alloc: Global, case: &'c Case<'c>) -> Result<bool, Fail> {
    let jobs = roots_again(alloc, case)?;
    Ok(are_of(&jobs, &[ProcessId(0), ProcessId(1)]))
}

/// The roots are these, and the case is judged as before.
fn expect_two_roots<'c>(rt: &impl Abort, alloc: Global, case: &'c Case<'c>) -> Result<(), Fail> {
    assert!(rt; has_two_roots(alloc, case)?);
    expect_unchanged(rt, alloc, case)
}

#[test]
fn roots_without_memory(rt: HostRuntime) -> Result<(), Fail> {
    let ground = ground_again(rt.alloc())?;
    expect_two_roots(&rt, rt.alloc(), &ground.case())
}

/// The job of process 1, and a hand with even numbers that holds the job of process 0.
#[tactic(auto, using(crate::proofs::Ordering::left_of_case))]
fn job_again<'c>(alloc: Global, case: &'c Case<'c>) -> Result<(Job<'c>, Keeper<'c>), Fail>
    ensures { IfOk result (λ both. AreJobsOf both.0.case.now both.1.jobs.items) }
{
    let mut jobs = roots_again(alloc, case)?;
    let Some(job) = jobs.pop() else {
        return Err(Fail::from("the trace starts with two processes"));
    };
    let keeper = Keeper {
        wanted: Wanted::Even,
        jobs,
    };
    Ok((job, keeper))
}

/// The answers of a piece are those told, and its first process is this one.
fn expect_piece(rt: &impl Abort, piece: &Piece<'_>, process: ProcessId) {
    assert_eq!(rt; piece.processes().first().copied(), Some(process));
    for (index, answer) in piece.answers() {
        assert!(rt; is_answer(*index as usize, answer), "{answer:?} at {index}");
    }
}

/// The job can be judged.
fn expect_job(rt: &impl Abort, alloc: Global, job: Job<'_>) -> Result<(), Fail> {
    let process = job.process();
    let mut nobody = Keeper {
        wanted: Wanted::Nothing,
        jobs: Vec::new(alloc),
    };
    let piece = judge(alloc, job, &mut nobody)?;
    expect_piece(rt, &piece, process);
    Ok(())
}

/// A hand holds the job that it held, and besides jobs of processes of the trace, which can be judged.
fn expect_kept<'c>(
    rt: &impl Abort,
    alloc: Global,
    case: &'c Case<'c>,
    keeper: Keeper<'c>,
) -> Result<(), Fail> {
    assert_eq!(rt; keeper.wanted, Wanted::Even);
    assert_eq!(rt; keeper.jobs.first().map(Job::process), Some(ProcessId(0)));
    for job in keeper.jobs {
        assert!(rt; job.process().0 < case.trace().processes());
        expect_job(rt, alloc, job)?;
    }
    Ok(())
}

/// What is judged from process 1 on, with the hand afterwards.
fn judged_again<'c>(
    rt: &impl Abort,
    alloc: Global,
    case: &'c Case<'c>,
) -> Result<(Piece<'c>, Keeper<'c>), Fail> {
    let (job, mut keeper) = job_again(alloc, case)?;
    match judge(alloc, job, &mut keeper) {
        Ok(piece) => Ok((piece, keeper)),
        Err(AllocError) => {
            expect_kept(rt, alloc, case, keeper)?;
            let (job, mut keeper) = job_again(alloc, case)?;
            let piece = judge(alloc, job, &mut keeper)?;
            Ok((piece, keeper))
        }
    }
}

/// Whether a piece has the processes that the hand leaves, and answers at the indices of their records.
fn are_judged(piece: &Piece<'_>) -> bool {
    piece.processes() == JUDGED.as_slice()
        && piece.answers().len() == INDICES.len()
        && piece
            .answers()
            .iter()
            .zip(INDICES)
            .all(|(answer, index)| answer.0 == index)
}

/// The processes are shared out between the piece and the hand as the hand wants.
fn expect_shared<'c>(rt: &impl Abort, alloc: Global, case: &'c Case<'c>) -> Result<(), Fail> {
    let (piece, keeper) = judged_again(rt, alloc, case)?;
    expect_piece(rt, &piece, ProcessId(1));
    assert!(rt; are_judged(&piece) && are_of(&keeper.jobs, &KEPT));
    Ok(())
}

fn assembled_again<'c>(alloc: Global, case: &'c Case<'c>) -> Result<Vec<Answer>, Fail> {
    let pieces = pieces_again(alloc, case)?;
    match assemble(alloc, case, pieces) {
        Ok(answers) => Ok(answers),
        Err(AllocError) => {
            let pieces = pieces_again(alloc, case)?;
            Ok(assemble(alloc, case, pieces)?)
        }
    }
}

/// The answers are put in order.
fn expect_assembled<'c>(rt: &impl Abort, alloc: Global, case: &'c Case<'c>) -> Result<(), Fail> {
    let answers = assembled_again(alloc, case)?;
    expect_answers(rt, &answers, ANSWERS);
    Ok(())
}

/// Processes are shared out so, answers are put in order, and the case is judged as before.
fn expect_judged<'c>(rt: &impl Abort, alloc: Global, case: &'c Case<'c>) -> Result<(), Fail> {
    expect_shared(rt, alloc, case)?;
    expect_assembled(rt, alloc, case)?;
    expect_unchanged(rt, alloc, case)
}

#[test]
fn judge_and_assemble_without_memory(rt: HostRuntime) -> Result<(), Fail> {
    let ground = ground_again(rt.alloc())?;
    expect_judged(&rt, rt.alloc(), &ground.case())
}
