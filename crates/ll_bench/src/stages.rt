//! The stages of an audit, measured one after another.

ghost use Rattle.std.specs.Prelude.{◌≡◌, ◌≤◌, ◌<◌, ℕ, IfOk};
ghost use Rattle.ll_trace.specs.Processes.{process_count, times};
ghost use Rattle.ll_pool.specs.Gathered.{ArePiecesOf, processes_in};

use crate::stopwatch::Stopwatch;
use anyhow::{Context, Result};
use ll_pool::{Gate, assemble, run};
use ll_process::{Case, Piece, Settled};
use ll_rights::Abi;
use ll_trace::{Effort, Kernel, Located, ProcessId, Trace};
use ll_tree::Tree;
use std::fs;
use std::rt::{Clock, Files};
use std::sync::Wait;
use std::thread::Threads;

/// What to audit: a version of the interface, and the names of the files.
#[derive(Drop)]
pub(crate) struct Run<'a> {
    pub(crate) abi: Abi,
    pub(crate) tree: &'a str,
    pub(crate) trace: &'a str,
}

/// The bytes of the two files, and the version of the interface.
#[derive(Clone, Copy)]
struct Input<'a> {
    abi: Abi,
    tree: &'a [u8],
    trace: &'a [u8],
}

/// Audits stage by stage up to the answers, and prints a line for each stage and a line on the trace.
pub(crate) fn measure<R: Clock + Files + Print + AllocGlobal + Threads + Wait + Sync>(
    rt: &R,
    run: &Run<'_>,
) -> Result<()> {
    let mut watch = Stopwatch::start(rt)?;
    let tree = fs::read(rt, run.tree)?;
    let trace = fs::read(rt, run.trace)?;
    let input = Input {
        abi: run.abi,
        tree: &tree,
        trace: &trace,
    };
    of_files(rt, &mut watch, &input)
}

/// Audits the files' bytes, once they are read.
fn of_files<R: Clock + Files + Print + AllocGlobal + Threads + Wait + Sync>(
    rt: &R,
    watch: &mut Stopwatch<'_, R>,
    input: &Input<'_>,
) -> Result<()> {
    watch.lap("read both files")?;
    by_stages(rt, watch, input)?;
    watch.lap("give the memory back")
}

/// The stages from the bytes of the files to the answers.
fn by_stages<R: Clock + Files + Print + AllocGlobal + Threads + Wait + Sync>(
    rt: &R,
    watch: &mut Stopwatch<'_, R>,
    input: &Input<'_>,
) -> Result<()> {
    let tree = Tree::read(rt.alloc(), input.tree).ok().context("the tree")?;
    watch.lap("make the tree")?;
    on_tree(rt, watch, input, tree)
}

/// The stages from the tree to the answers.
fn on_tree<R: Clock + Files + Print + AllocGlobal + Threads + Wait + Sync>(
    rt: &R,
    watch: &mut Stopwatch<'_, R>,
    input: &Input<'_>,
    tree: Tree,
) -> Result<()> {
    let trace = Trace::read(rt.alloc(), input.trace)
        .ok()
        .context("the trace")?;
    watch.lap("make the trace")?;
    let located = Located::of(rt.alloc(), tree, trace)
        .ok()
        .context("the places")?;
    watch.lap("find the places")?;
    settling(rt, watch, input, &located)
}

/// The stages from the rulebook to the answers.
fn settling<R: Clock + Files + Print + AllocGlobal + Threads + Wait + Sync>(
    rt: &R,
    watch: &mut Stopwatch<'_, R>,
    input: &Input<'_>,
    located: &Located,
) -> Result<()> {
    let kernel = Kernel {
        abi: input.abi,
        effort: Effort::AsRecorded,
    };
    let settled = Settled::of(rt.alloc(), located, kernel)
        .ok()
        .context("the rulebook")?;
    watch.lap("make the rulebook")?;
    let case = Case::of(located, &settled);
    judging(rt, watch, &case)?;
    collecting(rt, watch, &case)
}

/// The judging of a case by more and more workers.
fn judging<'c, R: Clock + Files + Print + AllocGlobal + Threads + Wait + Sync>(
    rt: &R,
    watch: &mut Stopwatch<'_, R>,
    case: &'c Case<'c>,
) -> Result<()> {
    judging_by(rt, watch, case, 1, "judge with 1 worker")?;
    judging_by(rt, watch, case, 2, "judge with 2 workers")?;
    judging_by(rt, watch, case, 4, "judge with 4 workers")
}

fn judging_by<'c, R: Clock + Files + Print + AllocGlobal + Threads + Wait + Sync>(
    rt: &R,
    watch: &mut Stopwatch<'_, R>,
    case: &'c Case<'c>,
    workers: usize,
    stage: &str,
) -> Result<()>
    requires { (1 ≤ workers) × (workers ≤ 64) }
{
    let pieces = pieces_by(rt, case, workers)?;
    watch.lap(stage)?;
    drop(pieces);
    watch.restart()
}

/// The collecting of the pieces of one worker.
fn collecting<'c, R: Clock + Files + Print + AllocGlobal + Threads + Wait + Sync>(
    rt: &R,
    watch: &mut Stopwatch<'_, R>,
    case: &'c Case<'c>,
) -> Result<()> {
    let pieces = pieces_by(rt, case, 1)?;
    watch.restart()?;
    let answers = assemble(rt.alloc(), case, pieces)
        .ok()
        .context("collecting")?;
    watch.lap("collect the pieces")?;
    let (answers, processes) = (answers.len(), case.trace().processes());
    println!(rt; "trace: {answers} records, {processes} processes")?;
    Ok(())
}

/// A gate that lets every job through at once.
struct Open;

impl Gate for Open {
    fn begun(&self, _process: ProcessId) {}
}

/// The pieces of a case, judged by this many workers, with a cut at each fork.
fn pieces_by<'c, R: AllocGlobal + Threads + Wait + Sync>(
    rt: &R,
    case: &'c Case<'c>,
    workers: usize,
) -> Result<Vec<Piece<'c>>>
    requires { (1 ≤ workers) × (workers ≤ 64) }
    ensures of_case { IfOk result (λ pieces. ArePiecesOf case.now pieces.items) }
    ensures each_once { IfOk result (λ pieces. (process : ℕ)
        → process < process_count case.now.records
        → times process (processes_in pieces.items) ≡ 1) }
{
    let cut = vec![in rt.alloc(); true; case.trace().processes() as usize]?;
    run(rt, rt.alloc(), case, workers, &cut, &Open)
        .ok()
        .context("judging")
}
