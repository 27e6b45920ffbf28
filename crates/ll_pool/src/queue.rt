//! The queue of a case's jobs: what a pass to it knows, its rule (no job is lost and none comes out twice), and the
//! steps of a pass.

ghost use Rattle.std.specs.Prelude.{[], ◌≡◌, ◌<◌, ◌-◌, ◌+◌, ◌++◌, IfOk, IfSome, IfNone, MatchOption};
ghost use Rattle.ll_process.specs.Cases.{CaseValue};
ghost use Rattle.crossbeam_queue.specs.Passes.{view, IsPassOf};
ghost use Rattle.ll_pool.specs.declared.queue.TheConstants.{PARTS};
ghost use Rattle.ll_pool.specs.Rule.{ledger, after_giving, after_taking, IsBalanced};

use crossbeam_queue::protocol::{Join, Lesson, Outcome, Protocol, Split};
use crossbeam_queue::{Pass, RuledArrayQueue};
use ll_process::{Case, Job};
use std::alloc::{AllocError, Global};
use std::collections::LinkedList;
use std::marker::{Brand, PhantomData};
use std::sync::Wait;

// The case whose jobs go through the queue, the pass's parts of the right to know the whole, and the
// processes whose jobs it has given to the queue and taken from it. No value of it is made.
pub struct Ledger {
    pub case: Case<'static>,
    pub parts: u64,
    pub given: LinkedList<u32>,
    pub taken: LinkedList<u32>,
}

/// The number of parts of the right to know the whole: the caller begins with all, and hands one to each
/// worker.
pub const PARTS: usize = 1024;

/// Names the case whose jobs go through a queue.
pub trait Naming {
    ghost case: { CaseValue };
}

impl Naming for Brand {
    ghost use Rattle.ll_pool.specs.Rule.{no_case};

    ghost case = { no_case };
}

/// What was given is what was taken together with what is queued.
pub struct Fair<N> {
    naming: PhantomData<N>,
}

impl<'c, N: Naming> Protocol<Job<'c>, Ledger> for Fair<N> {
    ghost use Rattle.std.specs.Prelude.{[]};
    ghost use Rattle.ll_pool.specs.declared.queue.TheConstants.{PARTS};
    ghost use Rattle.ll_pool.specs.Rule.{IsFair, ledger};

    ghost holds = { λ jobs views. IsFair N.case jobs views };

    ghost first = { ledger N.case PARTS [] [] };
}

/// A pass and another of which it keeps or gets a part.
pub struct Splits<N> {
    naming: PhantomData<N>,
}

impl<N: Naming> Split<Ledger> for Splits<N> {
    ghost use Rattle.std.specs.Prelude.{◌-◌, []};
    ghost use Rattle.ll_pool.specs.Rule.{ledger};

    ghost left = { λ v. ledger v.case (v.parts - 1) v.given v.taken };

    ghost right = { λ v. ledger v.case 1 [] [] };
}

impl<N: Naming> Join<Ledger> for Splits<N> {
    ghost use Rattle.std.specs.Prelude.{◌+◌, ◌++◌, []};
    ghost use Rattle.ll_pool.specs.Rule.{ledger};

    ghost both = { λ v w.
        ledger v.case (v.parts + w.parts) (v.given ++ w.given) (v.taken ++ w.taken) };

    ghost spent = { ledger N.case 0 [] [] };
}

/// A push that gives the job to the queue.
pub struct Gives;

impl<'c> Outcome<Job<'c>, Ledger> for Gives {
    ghost use Rattle.ll_pool.specs.Rule.{after_giving};
    ghost use Rattle.std.specs.Prelude.{◌≡◌};

    ghost then = { λ v job w. w ≡ after_giving v job.process.0 };
}

impl<'c> Lesson<Job<'c>, Ledger> for Gives {
    ghost fact = { λ _ _. Unit {0} };
}

/// A pop that takes a job, or finds the queue empty.
pub struct Takes;

impl<'c> Outcome<Job<'c>, Ledger> for Takes {
    ghost use Rattle.ll_pool.specs.Rule.{after_taking};
    ghost use Rattle.std.specs.Prelude.{◌≡◌};

    ghost then = { λ v job w. (job.case.now ≡ v.case) × (w ≡ after_taking v job.process.0) };
}

impl<'c> Lesson<Job<'c>, Ledger> for Takes {
    ghost use Rattle.ll_pool.specs.Rule.{KnowsAll};

    ghost fact = { KnowsAll };
}

/// The most jobs that the queue holds. It equals the number of parts (`PARTS`) by chance.
pub(crate) const ROOM: usize = 1024;

/// The queue of one case's jobs.
pub(crate) type Queue<'c, N> = RuledArrayQueue<Job<'c>, Ledger, Fair<N>>;

/// A pass to the queue.
pub(crate) type QueuePass<'c> = Pass<Job<'c>, Ledger>;

/// An empty queue, and the first pass to it.
#[tactic(auto, using(crate::proofs::RuleSteps::begins))]
pub(crate) fn open<'c, N: Naming>(
    alloc: Global,
) -> Result<(Queue<'c, N>, QueuePass<'c>), AllocError>
    ensures queue { IfOk result (λ made. IsPassOf made.0 made.1) }
    ensures knows { IfOk result (λ made. view made.1 ≡ ledger N.case PARTS [] []) }
{
    Queue::ruled(alloc, ROOM)
}

/// Another pass, which gets one part of this pass.
pub(crate) fn split<'c, N: Naming>(queue: &Queue<'c, N>, pass: &mut QueuePass<'c>) -> QueuePass<'c>
    requires queue { IsPassOf queue.now pass.old }
    requires parts { 1 < (view pass.old).parts }
    ensures queue { IsPassOf queue.now pass.new }
    ensures another { IsPassOf queue.now result }
    ensures knows { view pass.new ≡ ledger (view pass.old).case ((view pass.old).parts - 1)
        (view pass.old).given (view pass.old).taken }
    ensures begins { view result ≡ ledger (view pass.old).case 1 [] [] }
{
    queue.another::<Splits<N>>(pass)
}

/// Joins two passes: the result knows what both knew.
pub(crate) fn join<'c, N: Naming>(
    queue: &Queue<'c, N>,
    pass: &mut QueuePass<'c>,
    other: QueuePass<'c>,
)
    requires queue { IsPassOf queue.now pass.old }
    requires another { IsPassOf queue.now other }
    requires parts { 0 < (view pass.old).parts }
    ensures queue { IsPassOf queue.now pass.new }
    ensures knows { view pass.new
        ≡ ledger (view pass.old).case ((view pass.old).parts + (view other.entry).parts)
        ((view pass.old).given ++ (view other.entry).given)
        ((view pass.old).taken ++ (view other.entry).taken) }
{
    queue.absorb::<Splits<N>>(pass, other)
}

/// Gives a job to the queue. It comes back if the queue is full.
pub(crate) fn push<'c, N: Naming, R: Wait>(
    rt: &R,
    queue: &Queue<'c, N>,
    pass: &mut QueuePass<'c>,
    job: Job<'c>,
) -> Option<Job<'c>>
    requires queue { IsPassOf queue.now pass.old }
    requires parts { 0 < (view pass.old).parts }
    requires of_case { job.case.now ≡ N.case }
    ensures queue { IsPassOf queue.now pass.new }
    ensures gives { IfNone result
        (view pass.new ≡ after_giving (view pass.old) job.entry.process.0) }
    ensures full { IfSome result (λ back. (back ≡ job.entry) × (view pass.new ≡ view pass.old)) }
{
    match queue.push_as::<Gives, R>(rt, pass, job) {
        Ok(()) => None,
        Err(back) => Some(back),
    }
}

/// Takes a job from the queue, if it finds one. A pass with all parts that finds none knows that
/// nothing is left.
pub(crate) fn pop<'c, N: Naming, R: Wait>(
    rt: &R,
    queue: &Queue<'c, N>,
    pass: &mut QueuePass<'c>,
) -> Option<Job<'c>>
    requires queue { IsPassOf queue.now pass.old }
    requires parts { 0 < (view pass.old).parts }
    ensures queue { IsPassOf queue.now pass.new }
    ensures takes { IfSome result (λ job. (job.case.now ≡ (view pass.old).case)
        × (view pass.new ≡ after_taking (view pass.old) job.process.0)) }
    ensures same { IfNone result (view pass.new ≡ view pass.old) }
    ensures balanced { IfNone result ((view pass.old).parts ≡ PARTS → IsBalanced (view pass.old)) }
{
    queue.pop_as::<Takes, R>(rt, pass)
}
