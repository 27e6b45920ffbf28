//! A hand that keeps jobs for its caller.

ghost use Rattle.std.specs.Prelude.{◌≡◌, ◌<◌, ◌≤◌, ◌%◌, ◌==◌, [], ◌∷◌, true, false, All, IfNone, IfSome, length, slice_index_or};
ghost use Rattle.std.specs.List.Sorted.{IsPermutation};
ghost use Rattle.ll_tests.specs.declared.keeper.Wanted.TheVariants.{Nothing, Every, Even};
ghost use Rattle.ll_process.specs.declared.job.Job.{Job as OneJob};

use ll_process::{Hand, Job};
use ll_trace::ProcessId;

/// Which jobs a caller wants.
#[derive(Clone, Copy, Debug, PartialEq, Eq)]
pub enum Wanted {
    /// None.
    Nothing,
    /// Those of all processes.
    Every,
    /// Those of processes with even numbers.
    Even,
}

impl Wanted {
    /// Whether the job of a process is wanted.
    pub fn includes(self, process: ProcessId) -> bool
        ensures nothing { self ≡ Nothing → result ≡ false }
        ensures every { self ≡ Every → result ≡ true }
        ensures even { self ≡ Even → result ≡ (process.0 % 2 == 0) }
    {
        match self {
            Wanted::Nothing => false,
            Wanted::Every => true,
            Wanted::Even => process.0 % 2 == 0,
        }
    }
}

/// A hand that keeps the jobs which its caller wants. It gives a job back that isn't wanted, or that
/// it is out of memory for.
#[derive(Drop)]
pub struct Keeper<'c> {
    /// Which jobs its caller wants. It keeps no others.
    pub wanted: Wanted,
    /// The jobs that it keeps, and those that its caller gave it.
    pub jobs: Vec<Job<'c>>,
}

impl<'c> Hand<'c> for Keeper<'c> {
    ghost use Rattle.ll_process.specs.Jobs.{processes_of, AreJobsOf};

    ghost kept = { λ keeper. processes_of keeper.jobs.items };

    ghost suits = { λ keeper case. AreJobsOf case keeper.jobs.items };

    ghost stays = { λ before after. after.wanted ≡ before.wanted };

    fn give(&mut self, job: Job<'c>) -> Option<Job<'c>> {
        if !self.wanted.includes(job.process()) || self.jobs.reserve(1).is_err() {
            return Some(job);
        }
        self.jobs.push_reserved(job);
        None
    }
}

/// The index of the job of the greatest process number.
fn greatest(jobs: &[Job<'_>]) -> Option<usize>
    ensures none { IfNone result (jobs.now ≡ []) }
    ensures there { IfSome result (λ index. index < length jobs.now) }
    ensures greatest { IfSome result (λ index. (none : OneJob)
        → All (λ other. other.process.0
        ≤ (slice_index_or jobs.now index none).process.0) jobs.now) }
{
    if jobs.is_empty() {
        return None;
    }
    let mut best = 0;
    for index in 0..jobs.len() {
        if jobs[best].process().0 < jobs[index].process().0 {
            best = index;
        }
    }
    Some(best)
}

impl<'c> Keeper<'c> {
    /// Takes out the job of the greatest process number.
    pub fn take_greatest(&mut self) -> Option<Job<'c>>
        ensures none { IfNone result (self.old.jobs.items ≡ []) }
        ensures taken { IfSome result
            (λ job. IsPermutation self.old.jobs.items (job ∷ self.new.jobs.items)) }
        ensures greatest { IfSome result
            (λ job. All (λ other. other.process.0 ≤ job.process.0) self.old.jobs.items) }
        ensures wanted { self.new.wanted ≡ self.old.wanted }
    {
        let index = greatest(&self.jobs)?;
        Some(self.jobs.swap_remove(index))
    }
}
