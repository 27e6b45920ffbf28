//! The explanation of a record of a case.

ghost use Rattle.std.specs.Prelude.{◌≡◌, ◌≢◌, [], IfOk};
ghost use Rattle.ll_semantics.specs.declared.answer.Answer.TheVariants.{Allowed, Moot, Refused};
ghost use Rattle.ll_process.specs.Cases.{IsCase};
ghost use Rattle.ll_origins.specs.CaseTrails.{AreTrailsAt, IsAnswerAt};
ghost use Rattle.ll_explanations.specs.Explained.{Explains, IsFoundAt, is_silent};

use crate::call::objections_to;
use crate::condition::{Condition, condition_of};
use crate::confinement::Confinement;
use crate::mootness::reason_of;
use crate::objection::LayerObjections;
use crate::why::Reason;
use ll_origins::{ProcessOrigins, TraceOrigins, domain_of};
use ll_process::Case;
use ll_rules::{Errno, LayerSet};
use ll_semantics::Answer;
use ll_trace::Seen;
use std::alloc::{AllocError, Global};

/// Why a record is refused or moot. Its paths are those that the record's call names, its nodes are of the case's tree,
/// and other records are told by their indices in the trace.
#[derive(Drop)]
pub enum Explanation {
    /// The record is allowed.
    Nothing,
    /// What the layers that refuse it object to.
    Objections(LayerObjections),
    /// Why it fails by no layer.
    Failure(Condition),
    /// Why the policy isn't asked.
    Mootness(Option<Reason>),
}

impl Explanation {
    /// Whether there is nothing to explain.
    pub fn is_silent(&self) -> bool
        ensures { result ≡ is_silent self.now }
    {
        match self {
            Explanation::Nothing | Explanation::Mootness(None) => true,
            Explanation::Objections(_) | Explanation::Failure(_) | Explanation::Mootness(Some(_)) =>
                false,
        }
    }
}

/// The call of the record at an index, and the origins of its process; the record isn't the process's first.
fn found_at<'c, 't>(
    case: &Case<'c>,
    trails: &'t TraceOrigins,
    index: usize,
    answer: Answer,
) -> (Seen<'c>, &'t ProcessOrigins)
    requires answer { IsAnswerAt case.now index answer }
    requires known { answer ≢ Allowed }
    requires trails { AreTrailsAt case.now index trails.now }
    ensures case { IsCase case.now }
    ensures found { IsFoundAt case.now index result.0 result.1.now }
{
    let (seen, process) = case.call(index);
    (seen, trails.of(process))
}

/// Why a moot record isn't asked about.
fn moot(case: &Case<'_>, trails: &TraceOrigins, index: usize) -> Explanation
    requires answer { IsAnswerAt case.now index Moot }
    requires trails { AreTrailsAt case.now index trails.now }
    ensures { Explains case.now index Moot result }
{
    let (seen, trail) = found_at(case, trails, index, Answer::Moot);
    let spot = case.first_place(index);
    Explanation::Mootness(reason_of(case.tree(), trail, &seen, spot))
}

/// Why a record is refused by no layer.
fn failed(case: &Case<'_>, trails: &TraceOrigins, index: usize, error: Errno) -> Explanation
    requires answer { IsAnswerAt case.now index (Refused error []) }
    requires trails { AreTrailsAt case.now index trails.now }
    ensures { Explains case.now index (Refused error []) result }
{
    let answer = Answer::Refused(error, LayerSet::new());
    let (seen, trail) = found_at(case, trails, index, answer);
    Explanation::Failure(condition_of(case, trail, case.abi(), &seen, error))
}

/// What the layers that refuse a record object to.
fn refused(
    alloc: Global,
    case: &Case<'_>,
    trails: &TraceOrigins,
    index: usize,
    error: Errno,
    numbers: LayerSet,
) -> Result<Explanation, AllocError>
    requires answer { IsAnswerAt case.now index (Refused error numbers) }
    requires some { numbers ≢ [] }
    requires trails { AreTrailsAt case.now index trails.now }
    ensures { IfOk result (Explains case.now index (Refused error numbers)) }
{
    let (seen, trail) = found_at(case, trails, index, Answer::Refused(error, numbers));
    let domain = domain_of(alloc, case, trail)?;
    let ctx = Confinement {
        trail,
        tree: case.tree(),
        layers: case.layers(),
        grants: case.grants(),
        domain: &domain,
    };
    let spot = case.first_place(index);
    let all = objections_to(alloc, &ctx, &seen, error, numbers, spot)?;
    Ok(Explanation::Objections(LayerObjections { all }))
}

/// The explanation of the record at an index of a case, by its answer and the origins of its process.
/// An error says that memory ran out.
pub fn explain(
    alloc: Global,
    case: &Case<'_>,
    trails: &TraceOrigins,
    index: usize,
    answer: Answer,
) -> Result<Explanation, AllocError>
    requires answer { IsAnswerAt case.now index answer }
    requires trails { AreTrailsAt case.now index trails.now }
    ensures { IfOk result (Explains case.now index answer) }
{
    match answer {
        Answer::Allowed => Ok(Explanation::Nothing),
        Answer::Moot => Ok(moot(case, trails, index)),
        Answer::Refused(error, numbers) => {
            if numbers.is_empty() {
                Ok(failed(case, trails, index, error))
            } else {
                refused(alloc, case, trails, index, error, numbers)
            }
        }
    }
}
