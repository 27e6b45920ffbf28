//! Workers are started and joined, and the caller hands out the roots while they run.

ghost use Rattle.std.specs.Prelude.{◌≡◌, ◌<◌, ◌+◌, ℕ, List, [], All, OnOk, IfOk, vec_len, ◌++◌, ◌∷◌};
ghost use Rattle.crossbeam_queue.specs.Passes.{view, IsPassOf};
ghost use Rattle.ll_pool.specs.{declared.queue.TheConstants.PARTS, Accounts.IsAccount};
ghost use Rattle.ll_process.specs.Jobs.{processes_of, AreJobsOf};
ghost use Rattle.ll_pool.specs.{Rule.ledger, declared.workers.PoolFault.TheVariants.Memory};

use crate::hand::{Gate, Pool, QueueHand, Worked, WorkerPromise};
use crate::queue::{Naming, QueuePass, join, split};
use ll_process::{Job, Piece};
use std::alloc::AllocError;
use std::sync::Wait;
use std::thread;
use std::thread::{PromisedHandle, Scope, Threads};
use std::vec::IntoIter;

/// Why not all processes were judged.
#[derive(Clone, Copy, Debug, PartialEq, Eq)]
pub enum PoolFault {
    /// Out of memory.
    Memory,
    /// A thread could not be started.
    NoThread,
}

impl From<AllocError> for PoolFault {
    ghost from_gives = { λ _ e. e ≡ Memory };

    fn from(_failed: AllocError) -> PoolFault {
        PoolFault::Memory
    }
}

/// A worker that was started.
type Handle<'p, 'c, N> = PromisedHandle<Result<Worked<'c>, AllocError>, WorkerPromise<'p, 'c, N>>;

/// Starts workers, each with a part of the pass.
fn start<'t, 'p, 's, 'c, N: Naming + Send + Sync, R: Wait + Sync, G: Gate + Sync>(
    scope: &Scope<'t, &'p ()>,
    pool: &'p Pool<'s, 'c, N, R, G>,
    pass: &mut QueuePass<'c>,
    workers: usize,
    handles: &mut Vec<Handle<'p, 'c, N>>,
) -> Result<(), PoolFault>
    requires queue { IsPassOf pool.now.queue pass.old }
    requires parts { workers < (view pass.old).parts }
    requires of_case { (view pass.old).case ≡ N.case }
    requires none { vec_len handles.old ≡ 0 }
    ensures queue { IsPassOf pool.now.queue pass.new }
    ensures given { (view pass.new).given ≡ (view pass.old).given }
    ensures taken { (view pass.new).taken ≡ (view pass.old).taken }
    ensures its_case { (view pass.new).case ≡ N.case }
    ensures some_part { 0 < (view pass.new).parts }
    ensures parts { OnOk result
        ((view pass.new).parts + vec_len handles.new ≡ (view pass.old).parts) }
    ensures promised { All (λ handle. handle.promise.queue.now ≡ pool.now.queue) handles.new.items }
{
    for _started in 0..workers {
        handles.reserve(1)?;
        let hand = QueueHand {
            pool,
            pass: split(&pool.queue, pass),
        };
        match scope.spawn_with(WorkerPromise { queue: &pool.queue }, move || hand.work()) {
            Ok(handle) => handles.push_reserved(handle),
            Err(_) => return Err(PoolFault::NoThread),
        }
    }
    Ok(())
}

/// Adds what a worker did to what the caller did.
fn take_in<'s, 'c, N: Naming, R, G>(
    pool: &Pool<'s, 'c, N, R, G>,
    worked: Worked<'c>,
    done: &mut Worked<'c>,
) -> Result<(), AllocError>
    requires queue { IsPassOf pool.now.queue done.old.pass }
    requires some_part { 0 < (view done.old.pass).parts }
    requires another { IsPassOf pool.now.queue worked.pass }
    requires account { IsAccount N.case [] (view worked.pass) worked.pieces.items }
    ensures queue { OnOk result (IsPassOf pool.now.queue done.new.pass) }
    ensures parts { OnOk result
        ((view done.new.pass).parts ≡ (view done.old.pass).parts + (view worked.entry.pass).parts) }
    ensures account { OnOk result ((roots : List ℕ)
        → IsAccount N.case roots (view done.old.pass) done.old.pieces.items
        → IsAccount N.case roots (view done.new.pass) done.new.pieces.items) }
{
    let Worked { pass, mut pieces } = worked;
    done.pieces.append(&mut pieces)?;
    join(&pool.queue, &mut done.pass, pass);
    Ok(())
}

/// Joins a worker.
fn join_one<'p, 's, 'c, N: Naming, R: Threads, G>(
    pool: &Pool<'s, 'c, N, R, G>,
    handle: Handle<'p, 'c, N>,
    done: &mut Worked<'c>,
) -> Result<(), AllocError>
    requires queue { IsPassOf pool.now.queue done.old.pass }
    requires some_part { 0 < (view done.old.pass).parts }
    requires promised { handle.promise.queue.now ≡ pool.now.queue }
    ensures queue { OnOk result (IsPassOf pool.now.queue done.new.pass) }
    ensures parts { OnOk result ((view done.new.pass).parts ≡ (view done.old.pass).parts + 1) }
    ensures account { OnOk result ((roots : List ℕ)
        → IsAccount N.case roots (view done.old.pass) done.old.pieces.items
        → IsAccount N.case roots (view done.new.pass) done.new.pieces.items) }
{
    let worked = handle.join(pool.rt)?;
    take_in(pool, worked, done)
}

/// Waits for workers whose work is no longer needed.
fn wait_for<'p, 'c, N: Naming, R: Threads>(rt: &R, left: IntoIter<Handle<'p, 'c, N>>) {
    for handle in left {
        let _ = handle.join(rt);
    }
}

/// Joins all workers, and adds what they did to what the caller did.
fn join_all<'p, 's, 'c, N: Naming, R: Threads, G>(
    pool: &Pool<'s, 'c, N, R, G>,
    handles: Vec<Handle<'p, 'c, N>>,
    mut done: Worked<'c>,
) -> Result<Worked<'c>, AllocError>
    requires queue { IsPassOf pool.now.queue done.pass }
    requires some_part { 0 < (view done.pass).parts }
    requires parts { (view done.pass).parts + vec_len handles ≡ PARTS }
    requires promised { All (λ handle. handle.promise.queue.now ≡ pool.now.queue) handles.items }
    ensures queue { IfOk result (λ all. IsPassOf pool.now.queue all.pass) }
    ensures parts { IfOk result (λ all. (view all.pass).parts ≡ PARTS) }
    ensures account { IfOk result (λ all. (roots : List ℕ)
        → IsAccount N.case roots (view done.entry.pass) done.entry.pieces.items
        → IsAccount N.case roots (view all.pass) all.pieces.items) }
{
    let mut left = handles.into_iter();
    while let Some(handle) = left.next() {
        match join_one(pool, handle, &mut done) {
            Ok(()) => {}
            Err(fault) => {
                wait_for(pool.rt, left);
                return Err(fault);
            }
        }
    }
    Ok(done)
}

/// The roots of a case: those that are queued before the workers start, and those that are left.
#[derive(Drop)]
pub(crate) struct Roots<'c> {
    pub(crate) first: Vec<Job<'c>>,
    pub(crate) rest: Vec<Job<'c>>,
}

/// The data with which the caller begins.
struct Caller<'p, 's, 'c, N: Naming, R, G> {
    me: QueueHand<'p, 's, 'c, N, R, G>,
    roots: Roots<'c>,
    workers: usize,
}

impl<'p, 's, 'c, N: Naming, R, G> Drop for Caller<'p, 's, 'c, N, R, G> {
    fn drop(self) {
        let Self {
            me,
            roots,
            workers: _,
        } = self;
        drop(me);
        drop(roots);
    }
}

/// Queues the first roots, starts the workers, and hands out the roots that are left.
fn begin<'t, 'p, 's, 'c, N: Naming + Send + Sync, R: Threads + Wait + Sync, G: Gate + Sync>(
    scope: &Scope<'t, &'p ()>,
    me: &mut QueueHand<'p, 's, 'c, N, R, G>,
    roots: Roots<'c>,
    workers: usize,
    handles: &mut Vec<Handle<'p, 'c, N>>,
) -> Result<Vec<Piece<'c>>, PoolFault>
    requires queue { IsPassOf me.old.pool.now.queue me.old.pass }
    requires begins { view me.old.pass ≡ ledger N.case PARTS [] [] }
    requires first { AreJobsOf N.case roots.first.items }
    requires rest { AreJobsOf N.case roots.rest.items }
    requires workers { workers < PARTS }
    requires none { vec_len handles.old ≡ 0 }
    ensures pool { me.new.pool ≡ me.old.pool }
    ensures queue { IsPassOf me.old.pool.now.queue me.new.pass }
    ensures some_part { 0 < (view me.new.pass).parts }
    ensures parts { IfOk result (λ _. (view me.new.pass).parts + vec_len handles.new ≡ PARTS) }
    ensures promised { All (λ handle. handle.promise.queue.now ≡ me.old.pool.now.queue)
        handles.new.items }
    ensures account { IfOk result
        (λ pieces. IsAccount N.case (processes_of roots.entry.first.items
        ++ processes_of roots.entry.rest.items) (view me.new.pass) pieces.items) }
{
    let Roots { first, rest } = roots;
    let mut pieces = Vec::new(me.pool.alloc);
    me.hand_out_all(first, &mut pieces)?;
    start(scope, me.pool, &mut me.pass, workers, handles)?;
    me.hand_out_all(rest, &mut pieces)?;
    Ok(pieces)
}

impl<'p, 's, 'c, N: Naming + Send + Sync, R: Threads + Wait + Sync, G: Gate + Sync> Caller<
    'p,
    's,
    'c,
    N,
    R,
    G,
> {
    /// Hands out the roots to workers that it starts, and joins the workers.
    fn run<'t>(self, scope: &Scope<'t, &'p ()>) -> Result<Worked<'c>, PoolFault>
        requires queue { IsPassOf self.me.pool.now.queue self.me.pass }
        requires begins { view self.me.pass ≡ ledger N.case PARTS [] [] }
        requires first { AreJobsOf N.case self.roots.first.items }
        requires rest { AreJobsOf N.case self.roots.rest.items }
        requires workers { self.workers < PARTS }
        ensures queue { IfOk result (λ all. IsPassOf self.entry.me.pool.now.queue all.pass) }
        ensures parts { IfOk result (λ all. (view all.pass).parts ≡ PARTS) }
        ensures account { IfOk result
            (λ all. IsAccount N.case (processes_of self.entry.roots.first.items
            ++ processes_of self.entry.roots.rest.items) (view all.pass) all.pieces.items) }
    {
        let Self {
            mut me,
            roots,
            workers,
        } = self;
        let pool = me.pool;
        let mut handles = Vec::new(pool.alloc);
        let begun = begin(scope, &mut me, roots, workers, &mut handles);
        pool.busy.lower();
        match begun {
            Ok(pieces) => {
                let pass = me.into_pass();
                Ok(join_all(pool, handles, Worked { pass, pieces })?)
            }
            Err(fault) => {
                wait_for(pool.rt, handles.into_iter());
                Err(fault)
            }
        }
    }
}

/// Judges the roots and all their descendants, by workers on threads of their own. All of them have ended
/// when it answers.
pub(crate) fn judge_by_workers<
    'p,
    's,
    'c,
    N: Naming + Send + Sync,
    R: Threads + Wait + Sync,
    G: Gate + Sync,
>(
    me: QueueHand<'p, 's, 'c, N, R, G>,
    roots: Roots<'c>,
    workers: usize,
) -> Result<Worked<'c>, PoolFault>
    requires queue { IsPassOf me.pool.now.queue me.pass }
    requires begins { view me.pass ≡ ledger N.case PARTS [] [] }
    requires first { AreJobsOf N.case roots.first.items }
    requires rest { AreJobsOf N.case roots.rest.items }
    requires workers { workers < PARTS }
    ensures queue { IfOk result (λ all. IsPassOf me.entry.pool.now.queue all.pass) }
    ensures parts { IfOk result (λ all. (view all.pass).parts ≡ PARTS) }
    ensures account { IfOk result
        (λ all. IsAccount N.case (processes_of roots.entry.first.items
        ++ processes_of roots.entry.rest.items) (view all.pass) all.pieces.items) }
{
    let rt = me.pool.rt;
    let caller = Caller { me, roots, workers };
    thread::scope(
        thread::scope_env(),
        rt,
        |scope|
            requires queue { IsPassOf caller.me.pool.now.queue caller.me.pass }
            requires begins { view caller.me.pass ≡ ledger N.case PARTS [] [] }
            requires first { AreJobsOf N.case caller.roots.first.items }
            requires rest { AreJobsOf N.case caller.roots.rest.items }
            requires workers { caller.workers < PARTS }
        { caller.run(scope) },
    )
}
