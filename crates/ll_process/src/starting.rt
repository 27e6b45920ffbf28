//! The processes that a trace begins with.

ghost use Rattle.std.specs.Prelude.{◌≡◌, ◌<◌, IfOk, IfSome, length, slice_get};
ghost use Rattle.std.specs.Option.{option_map};
ghost use Rattle.ll_trace.specs.Processes.{root_at, roots, IsNumbered};
ghost use Rattle.ll_process.specs.Jobs.{processes_of, AreJobsOf};

use crate::case::Case;
use crate::job::Job;
use ll_state::OwnState;
use std::alloc::{AllocError, Global};

/// The job of the process that a `start` record begins; other records begin none.
fn root_job<'c>(alloc: Global, case: &'c Case<'c>, index: usize) -> Option<Job<'c>>
    requires { index < length case.now.records }
    ensures root { option_map (λ job. job.process.0) result ≡ root_at case.now.records index }
    ensures of_case { IfSome result (λ job. job.case.now ≡ case.now) }
{
    match case.trace().start(index) {
        Some((nnp, admin)) => Some(Job {
            case,
            process: case.record(index).process,
            own: OwnState::fresh(alloc, nnp, admin),
        }),
        None => None,
    }
}

impl<'t> Case<'t> {
    /// One job for each `start` record, in the order of the trace, whose processes are numbered.
    pub fn roots(&'t self, alloc: Global) -> Result<Vec<Job<'t>>, AllocError>
        ensures roots { IfOk result (λ jobs. processes_of jobs.items ≡ roots self.now.records) }
        ensures of_case { IfOk result (λ jobs. AreJobsOf self.now jobs.items) }
        ensures numbered { IfOk result (λ jobs. IsNumbered self.now.records) }
    {
        let mut jobs = Vec::new(alloc);
        for index in 0..self.trace().count() {
            if let Some(job) = root_job(alloc, self, index) {
                jobs.push(job)?;
            }
        }
        Ok(jobs)
    }
}
