//! How far a process is judged.

ghost use Rattle.std.specs.Prelude.{◌≡◌, ◌≤◌, ◌<◌, ◌+◌, ◌++◌, ◌∷◌, ℕ, [], false, None, Some, IfOk, IfSome, length, option_to_list, sum_by};
ghost use Rattle.std.specs.Option.{option_map};
ghost use Rattle.ll_trace.specs.Processes.{process_count, own_records, forked_at};
ghost use Rattle.ll_process.specs.{Cases.IsCase, Cases.own_answers, Judging.answer_at, AgreesOnce.MeetsFrom-once};
ghost use Rattle.ll_process.specs.Own.{IsFirstPlace, IsOwn, Meets, Leaves};
ghost use Rattle.ll_process.specs.Progresses.{answers_from, children_from, MeetsFrom};
ghost use Rattle.ll_process.specs.Jobs.{HandedOut, KeepsMore};

use crate::ahead::Ahead;
use crate::case::Case;
use crate::child::{child_job, offer};
use crate::hand::Hand;
use crate::job::Job;
use crate::walk::answer_own;
use ll_semantics::Answer;
use ll_state::OwnState;
use ll_trace::ProcessId;
use ll_tree::Place;
use std::alloc::{AllocError, Global};

/// A process of which some records are judged: what it has by itself, and the answers so far.
#[derive(Drop)]
pub(crate) struct Progress<'c> {
    pub(crate) case: &'c Case<'c>,
    pub(crate) process: ProcessId,
    pub(crate) own: OwnState,
    pub(crate) ahead: Ahead<'c>,
    pub(crate) at: usize,
    pub(crate) answers: Vec<(u32, Answer)>,
    /// How many records its descendants have that it has yet to fork.
    pub(crate) below: u32,
    pub ghost there: { process.0 < process_count case.now.records },
    pub ghost ahead_of: { ahead.case.now ≡ case.now },
    pub ghost indices: { ahead.indices.now ≡ own_records case.now.records process.0 },
    pub ghost within: { at ≤ length (own_records case.now.records process.0) },
    pub ghost meets: { MeetsFrom case.now process.0 at own } by { MeetsFrom-once case.now process.0 at own },
    pub ghost answered: { answers.items ++ answers_from case.now process.0 at
        ≡ own_answers case.now process.0 },
}

/// Judges one of a process's own records, and adds it with its answer at the end. The child that it forks is offered to
/// the hand, and may come back.
fn judge_record<'c, H: Hand<'c>>(
    case: &'c Case<'c>,
    process: ProcessId,
    index: u32,
    place: Place,
    may_fork: bool,
    own: &mut OwnState,
    hand: &mut H,
    answers: &mut Vec<(u32, Answer)>,
    below: &mut u32,
) -> Result<Option<Job<'c>>, AllocError>
    requires own { IsOwn case.now index process.0 }
    requires place { IsFirstPlace case.now index place }
    requires meets { Meets case.now index process.0 own.old }
    requires known { may_fork ≡ false → forked_at case.now.records index ≡ None }
    requires suits { H.suits hand.old case.now }
    ensures answered { IfOk result (λ back. answers.new.items ≡ answers.old.items
        ++ (index, answer_at case.now.tree case.now.abi case.now.records index) ∷ []) }
    ensures leaves { IfOk result (λ back. Leaves case.now index process.0 own.new) }
    ensures handed { IfOk result (λ back.
        HandedOut (option_to_list (forked_at case.now.records index))
        (record { kept = H.kept hand.old; todo = [] })
        (record {
          kept = H.kept hand.new;
          todo = option_to_list (option_map (λ job. job.process.0) back);
        })) }
    ensures of_case { IfOk result (λ back. IfSome back (λ job. job.case.now ≡ case.now)) }
    ensures keeps { KeepsMore case.now.records (H.kept hand.old) (H.kept hand.new) }
    ensures suits { H.suits hand.new case.now }
    ensures stays { (before : H) → H.stays before hand.old → H.stays before hand.new }
{
    let answer = answer_own(case, process, index, place, own)?;
    answers.push((index, answer))?;
    let child = child_job(case, process, index, may_fork, own)?;
    take_off(case, &child, below);
    Ok(offer(case, child, hand))
}

/// Takes what a child and its descendants have off what is left below its parent.
fn take_off<'c>(case: &'c Case<'c>, child: &Option<Job<'c>>, below: &mut u32) {
    if let Some(job) = child {
        *below = below.saturating_sub(case.size_of(job.process));
    }
}

impl<'c> Progress<'c> {
    /// No record of the job's process is judged.
    pub(crate) fn begin(alloc: Global, job: Job<'c>) -> Result<Progress<'c>, AllocError>
        ensures case { IfOk result (λ begun. begun.case.now ≡ job.entry.case.now) }
        ensures process { IfOk result (λ begun. begun.process ≡ job.entry.process) }
        ensures at { IfOk result (λ begun. begun.at ≡ 0) }
        ensures is_case { IsCase job.entry.case.now }
    {
        let Job {
            case,
            process,
            own,
            ..
        } = job;
        let indices = case.own_records(process);
        let own_size = u32::try_from(indices.len()).unwrap_or(u32::MAX);
        Ok(Progress {
            case,
            process,
            own,
            ahead: Ahead::new(case, indices),
            at: 0,
            answers: Vec::with_capacity(alloc, indices.len())?,
            below: case.size_of(process).saturating_sub(own_size),
        })
    }

    /// About how many records are left to judge of the process and its descendants. No answer rests on it.
    pub(crate) fn left(&self) -> usize {
        (self.ahead.indices.len().saturating_sub(self.at)).saturating_add(self.below as usize)
    }

    /// Judges the next records, up to one that forks a child that the hand gives back, or up to the last one.
    pub(crate) fn go_on<H: Hand<'c>>(
        self,
        hand: &mut H,
    ) -> Result<(Progress<'c>, Option<Job<'c>>), AllocError>
        requires suits { H.suits hand.old self.case.now }
        ensures case { IfOk result (λ both. both.0.case.now ≡ self.entry.case.now) }
        ensures process { IfOk result (λ both. both.0.process ≡ self.entry.process) }
        ensures handed { IfOk result (λ both. HandedOut
            (children_from self.entry.case.now.records self.entry.process.0 self.entry.at)
            (record { kept = H.kept hand.old; todo = [] })
            (record {
              kept = H.kept hand.new;
              todo = option_to_list (option_map (λ job. job.process.0) both.1)
                  ++ children_from self.entry.case.now.records self.entry.process.0 both.0.at;
            })) }
        ensures of_case { IfOk result
            (λ both. IfSome both.1 (λ job. job.case.now ≡ self.entry.case.now)) }
        ensures over { IfOk result (λ both. both.1 ≡ None
            → both.0.at ≡ length (own_records self.entry.case.now.records self.entry.process.0)) }
        ensures keeps { KeepsMore self.entry.case.now.records (H.kept hand.old) (H.kept hand.new) }
        ensures suits { H.suits hand.new self.entry.case.now }
        ensures stays { (before : H) → H.stays before hand.old → H.stays before hand.new }
    {
        let Progress {
            case,
            process,
            mut own,
            mut ahead,
            at,
            mut answers,
            mut below,
        } = self;
        let indices = case.own_records(process);
        let places = case.own_places(process);
        for next in at..indices.len() {
            let index = indices[next];
            let forks = ahead.may_fork(next);
            let back = judge_record(
                case,
                process,
                index,
                places[next].place(),
                forks,
                &mut own,
                hand,
                &mut answers,
                &mut below,
            )?;
            if back.is_some() {
                let at = next + 1;
                let progress = Progress {
                    case,
                    process,
                    own,
                    ahead,
                    at,
                    answers,
                    below,
                };
                return Ok((progress, back));
            }
        }
        let at = indices.len();
        let progress = Progress {
            case,
            process,
            own,
            ahead,
            at,
            answers,
            below,
        };
        Ok((progress, None))
    }
}
