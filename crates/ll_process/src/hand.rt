//! Hands: they may take over the children of a process that is being judged.

use crate::job::Job;

/// Whoever is offered the job of each child. A hand keeps a job, to be judged elsewhere, or gives the
/// same job back.
///
/// `kept` is the list of the processes whose jobs it kept. `suits` is what it requires of the case whose
/// jobs it is offered. `stays` says for two moments of a hand that everything else that contracts know of
/// it is the same in both.
pub trait Hand<'c> {
    ghost use Rattle.std.specs.Prelude.{◌≡◌, List, ℕ, [], ◌∷◌, ◌++◌, IfSome, IfNone};
    ghost use Rattle.ll_process.specs.Cases.{CaseValue};

    ghost kept: { Self → List ℕ };

    ghost suits: { Self → CaseValue → Type 0 };

    ghost stays: { Self → Self → Type 0 };

    /// Keeps the job, or gives it back.
    fn give(&mut self, job: Job<'c>) -> Option<Job<'c>>
        requires suits { suits self.old job.case.now }
        ensures keeps { IfNone result (kept self.new ≡ kept self.old ++ job.entry.process.0 ∷ []) }
        ensures back { IfSome result (λ back. back ≡ job.entry) }
        ensures same { IfSome result (λ back. kept self.new ≡ kept self.old) }
        ensures suits { suits self.new job.entry.case.now }
        ensures stays { (before : Self) → stays before self.old → stays before self.new };
}
