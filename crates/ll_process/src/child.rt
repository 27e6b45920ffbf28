//! Children: the state with which they begin, and who gets their jobs.

ghost use Rattle.std.specs.Prelude.{◌≡◌, [], false, IfOk, IfSome, None, option_to_list};
ghost use Rattle.std.specs.Option.{option_map};
ghost use Rattle.ll_trace.specs.Processes.{forked_at};
ghost use Rattle.ll_process.specs.Own.{IsOwn, Leaves};
ghost use Rattle.ll_process.specs.Jobs.{HandedOut, KeepsMore};

use crate::case::Case;
use crate::hand::Hand;
use crate::job::Job;
use ll_state::OwnState;
use ll_trace::ProcessId;
use std::alloc::AllocError;

/// The job of the child that a process's own record forks, if it forks one. The child begins with what
/// its parent has after that record. A record that is known to fork none isn't looked at.
pub(crate) fn child_job<'c>(
    case: &'c Case<'c>,
    process: ProcessId,
    index: u32,
    may_fork: bool,
    own: &OwnState,
) -> Result<Option<Job<'c>>, AllocError>
    requires own { IsOwn case.now index process.0 }
    requires known { may_fork ≡ false → forked_at case.now.records index ≡ None }
    requires leaves { Leaves case.now index process.0 own.now }
    ensures child { IfOk result
        (λ job. option_map (λ child. child.process.0) job ≡ forked_at case.now.records index) }
    ensures of_case { IfOk result (λ job. IfSome job (λ child. child.case.now ≡ case.now)) }
{
    if !may_fork {
        return Ok(None);
    }
    let Some(child) = case.child_at(index) else {
        return Ok(None);
    };
    let own = own.forked()?;
    Ok(Some(Job {
        case,
        process: child,
        own,
    }))
}

/// Offers the job of a child of a case, if there is one, to the hand, which may give it back.
pub(crate) fn offer<'c, H: Hand<'c>>(
    case: &'c Case<'c>,
    child: Option<Job<'c>>,
    hand: &mut H,
) -> Option<Job<'c>>
    requires its { IfSome child (λ job. job.case.now ≡ case.now) }
    requires suits { H.suits hand.old case.now }
    ensures handed { HandedOut (option_to_list (option_map (λ job. job.process.0) child.entry))
        (record { kept = H.kept hand.old; todo = [] })
        (record {
          kept = H.kept hand.new;
          todo = option_to_list (option_map (λ job. job.process.0) result);
        }) }
    ensures of_case { IfSome result (λ job. job.case.now ≡ case.now) }
    ensures keeps { KeepsMore case.now.records (H.kept hand.old) (H.kept hand.new) }
    ensures suits { H.suits hand.new case.now }
    ensures stays { (before : H) → H.stays before hand.old → H.stays before hand.new }
{
    match child {
        None => None,
        Some(job) => hand.give(job),
    }
}
