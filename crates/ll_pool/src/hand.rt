//! Those who judge jobs, the caller and its workers: what they share, and what each does.

ghost use Rattle.std.specs.Prelude.{◌≡◌, ◌<◌, ◌++◌, ◌∷◌, [], OnOk, IfSome, IfNone, IfOk};
ghost use Rattle.crossbeam_queue.specs.Passes.{view, IsPassOf};
ghost use Rattle.ll_process.specs.Jobs.{processes_of, AreJobsOf};
ghost use Rattle.ll_pool.specs.Rule.{after_giving, ledger};
ghost use Rattle.ll_pool.specs.Accounts.{OnlyGave, SeenTo, IsAccount};

use crate::queue::{Naming, Queue, QueuePass, pop, push};
use ll_process::{Hand, Job, Piece, judge};
use ll_trace::ProcessId;
use std::alloc::{AllocError, Global};
use std::sync::Wait;
use std::sync::atomic::{AtomicUsize, Ordering};
use std::thread;
use std::thread::Promise;

/// Whoever is told of each job before it is judged, on the thread that judges it. It may block that
/// thread.
pub trait Gate {
    /// The job of this process is about to be judged.
    fn begun(&self, process: ProcessId);
}

/// The number of jobs that are queued or being judged; the caller's handing out of roots counts as one.
/// No claim rests on it.
#[derive(Drop)]
pub(crate) struct Busy {
    jobs: AtomicUsize,
}

impl Busy {
    /// The caller hands out roots.
    pub(crate) fn new() -> Busy {
        Busy {
            jobs: AtomicUsize::new(1),
        }
    }

    /// One more job will be queued.
    pub(crate) fn raise(&self) {
        self.jobs.fetch_add(1, Ordering::SeqCst);
    }

    /// One job was judged, or is no longer queued.
    pub(crate) fn lower(&self) {
        self.jobs.fetch_sub(1, Ordering::SeqCst);
    }

    /// Nothing is queued or being judged.
    pub(crate) fn is_over(&self) -> bool {
        self.jobs.load(Ordering::SeqCst) == 0
    }
}

/// What the caller and its workers share.
#[derive(Drop)]
pub(crate) struct Pool<'s, 'c, N: Naming, R, G> {
    pub(crate) rt: &'s R,
    pub(crate) alloc: Global,
    pub(crate) gate: &'s G,
    pub(crate) cut: &'s [bool],
    pub(crate) queue: Queue<'c, N>,
    pub(crate) busy: Busy,
}

impl<'s, 'c, N: Naming, R, G> Pool<'s, 'c, N, R, G> {
    /// The job of this process goes to the queue when its parent forks it.
    fn is_cut(&self, process: ProcessId) -> bool {
        let index = process.0 as usize;
        index < self.cut.len() && self.cut[index]
    }
}

/// A hand that keeps nothing.
#[derive(Drop)]
pub(crate) struct EmptyHand;

impl<'c> Hand<'c> for EmptyHand {
    ghost use Rattle.std.specs.Prelude.{[]};

    ghost kept = { λ _. [] };

    ghost suits = { λ _ _. Unit {0} };

    ghost stays = { λ _ _. Unit {0} };

    fn give(&mut self, job: Job<'c>) -> Option<Job<'c>> {
        Some(job)
    }
}

/// A judge of jobs: the caller, or a worker. As a hand it gives the jobs of children to the queue.
pub(crate) struct QueueHand<'p, 's, 'c, N: Naming, R, G> {
    pub(crate) pool: &'p Pool<'s, 'c, N, R, G>,
    pub(crate) pass: QueuePass<'c>,
}

impl<'p, 's, 'c, N: Naming, R, G> QueueHand<'p, 's, 'c, N, R, G> {
    /// The pass of this hand.
    pub(crate) fn into_pass(self) -> QueuePass<'c>
        ensures { result ≡ self.entry.pass }
    {
        let Self { pool: _, pass } = self;
        pass
    }
}

impl<'p, 's, 'c, N: Naming, R, G> Drop for QueueHand<'p, 's, 'c, N, R, G> {
    fn drop(self) {
        let Self { pool: _, pass } = self;
        drop(pass);
    }
}

impl<'p, 's, 'c, N: Naming, R: Wait, G> Hand<'c> for QueueHand<'p, 's, 'c, N, R, G> {
    ghost use Rattle.std.specs.Prelude.{◌≡◌, ◌<◌};
    ghost use Rattle.crossbeam_queue.specs.Passes.{view, IsPassOf};
    ghost use Rattle.ll_pool.specs.Accounts.{OnlyGave};

    ghost kept = { λ hand. (view hand.pass).given };

    ghost suits = { λ hand case. (case ≡ N.case)
        × (IsPassOf hand.pool.now.queue hand.pass × (0 < (view hand.pass).parts)) };

    ghost stays = { λ before after. (after.pool ≡ before.pool)
        × OnlyGave (view before.pass) (view after.pass) };

    fn give(&mut self, job: Job<'c>) -> Option<Job<'c>> {
        if self.pool.is_cut(job.process()) {
            self.enqueue(job)
        } else {
            Some(job)
        }
    }
}

impl<'p, 's, 'c, N: Naming, R: Wait, G> QueueHand<'p, 's, 'c, N, R, G> {
    /// Gives a job to the queue. It comes back if the queue is full.
    fn enqueue(&mut self, job: Job<'c>) -> Option<Job<'c>>
        requires queue { IsPassOf self.old.pool.now.queue self.old.pass }
        requires parts { 0 < (view self.old.pass).parts }
        requires of_case { job.case.now ≡ N.case }
        ensures pool { self.new.pool ≡ self.old.pool }
        ensures queue { IsPassOf self.new.pool.now.queue self.new.pass }
        ensures gives { IfNone result
            (view self.new.pass ≡ after_giving (view self.old.pass) job.entry.process.0) }
        ensures full { IfSome result (λ back. (back ≡ job.entry)
            × (view self.new.pass ≡ view self.old.pass)) }
    {
        let pool = self.pool;
        pool.busy.raise();
        let back = push(pool.rt, &pool.queue, &mut self.pass, job);
        if back.is_some() {
            pool.busy.lower();
        }
        back
    }
}

impl<'p, 's, 'c, N: Naming, R: Wait, G: Gate> QueueHand<'p, 's, 'c, N, R, G> {
    /// Judges a job, and adds its piece at the end.
    fn see_to(&mut self, job: Job<'c>, pieces: &mut Vec<Piece<'c>>) -> Result<(), AllocError>
        requires queue { IsPassOf self.old.pool.now.queue self.old.pass }
        requires parts { 0 < (view self.old.pass).parts }
        requires of_case { job.case.now ≡ N.case }
        ensures pool { self.new.pool ≡ self.old.pool }
        ensures queue { IsPassOf self.new.pool.now.queue self.new.pass }
        ensures gave { OnlyGave (view self.old.pass) (view self.new.pass) }
        ensures seen { OnOk result
            (SeenTo N.case (job.entry.process.0 ∷ [])
            (record { given = (view self.old.pass).given; pieces = pieces.old.items })
            (record { given = (view self.new.pass).given; pieces = pieces.new.items })) }
    {
        let pool = self.pool;
        pool.gate.begun(job.process());
        let piece = judge(pool.alloc, job, self)?;
        pieces.push(piece)?;
        Ok(())
    }

    /// Gives a root to the queue, or judges it if the queue is full.
    fn hand_out(&mut self, root: Job<'c>, pieces: &mut Vec<Piece<'c>>) -> Result<(), AllocError>
        requires queue { IsPassOf self.old.pool.now.queue self.old.pass }
        requires parts { 0 < (view self.old.pass).parts }
        requires of_case { root.case.now ≡ N.case }
        ensures pool { self.new.pool ≡ self.old.pool }
        ensures queue { IsPassOf self.new.pool.now.queue self.new.pass }
        ensures gave { OnlyGave (view self.old.pass) (view self.new.pass) }
        ensures seen { OnOk result
            (SeenTo N.case (root.entry.process.0 ∷ [])
            (record { given = (view self.old.pass).given; pieces = pieces.old.items })
            (record { given = (view self.new.pass).given; pieces = pieces.new.items })) }
    {
        match self.enqueue(root) {
            None => Ok(()),
            Some(back) => self.see_to(back, pieces),
        }
    }

    /// Gives each root to the queue, or judges it if the queue is full.
    pub(crate) fn hand_out_all(
        &mut self,
        roots: Vec<Job<'c>>,
        pieces: &mut Vec<Piece<'c>>,
    ) -> Result<(), AllocError>
        requires queue { IsPassOf self.old.pool.now.queue self.old.pass }
        requires parts { 0 < (view self.old.pass).parts }
        requires of_case { AreJobsOf N.case roots.items }
        ensures pool { self.new.pool ≡ self.old.pool }
        ensures queue { IsPassOf self.new.pool.now.queue self.new.pass }
        ensures gave { OnlyGave (view self.old.pass) (view self.new.pass) }
        ensures seen { OnOk result
            (SeenTo N.case (processes_of roots.entry.items)
            (record { given = (view self.old.pass).given; pieces = pieces.old.items })
            (record { given = (view self.new.pass).given; pieces = pieces.new.items })) }
    {
        for root in roots {
            self.hand_out(root, pieces)?;
        }
        Ok(())
    }
}

/// A worker ends after it has found the queue empty this many times in a row.
const LOOKS: u64 = 1_000_000_000;

/// What a worker hands back: its pass, and the pieces that it made.
#[derive(Drop)]
pub(crate) struct Worked<'c> {
    pub(crate) pass: QueuePass<'c>,
    pub(crate) pieces: Vec<Piece<'c>>,
}

/// What a worker promises when it is started on this queue: it judges each job that it takes.
#[derive(Drop)]
pub(crate) struct WorkerPromise<'p, 'c, N: Naming> {
    pub(crate) queue: &'p Queue<'c, N>,
}

impl<'p, 'c, N: Naming> Promise<Result<Worked<'c>, AllocError>> for WorkerPromise<'p, 'c, N> {
    ghost use Rattle.std.specs.Prelude.{◌≡◌, [], IfOk};
    ghost use Rattle.crossbeam_queue.specs.Passes.{view, IsPassOf};
    ghost use Rattle.ll_pool.specs.Accounts.{IsAccount};

    ghost kept_by = { λ kept worked. IfOk worked (λ done. IsPassOf kept.queue.now done.pass
        × ((view done.pass).parts ≡ 1) × IsAccount N.case [] (view done.pass) done.pieces.items) };
}

impl<'p, 's, 'c, N: Naming, R: Wait, G: Gate> QueueHand<'p, 's, 'c, N, R, G> {
    /// Judges jobs from the queue, until it finds the queue empty while nothing is queued or being
    /// judged, or has found it empty very often in a row.
    pub(crate) fn work(mut self) -> Result<Worked<'c>, AllocError>
        requires queue { IsPassOf self.pool.now.queue self.pass }
        requires begins { view self.pass ≡ ledger N.case 1 [] [] }
        ensures queue { IfOk result (λ done. IsPassOf self.entry.pool.now.queue done.pass) }
        ensures parts { IfOk result (λ done. (view done.pass).parts ≡ 1) }
        ensures account { IfOk result
            (λ done. IsAccount N.case [] (view done.pass) done.pieces.items) }
    {
        let pool = self.pool;
        let mut pieces = Vec::new(pool.alloc);
        let mut looks = 0;
        for _ in pool.rt.forever() {
            match pop(pool.rt, &pool.queue, &mut self.pass) {
                Some(job) => {
                    looks = 0;
                    let seen = self.see_to(job, &mut pieces);
                    pool.busy.lower();
                    seen?;
                }
                None => {
                    looks += 1;
                    if looks >= LOOKS || pool.busy.is_over() {
                        break;
                    }
                    thread::yield_now();
                }
            }
        }
        Ok(Worked {
            pass: self.into_pass(),
            pieces,
        })
    }
}
