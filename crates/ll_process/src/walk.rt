//! One process's own records, one after another.

ghost use Rattle.std.specs.Prelude.{◌≡◌, ◌<◌, false, Some, IfOk, OnOk, length, slice_get};
ghost use Rattle.ll_trace.specs.Borrowed.{is_of_rights};
ghost use Rattle.ll_semantics.specs.declared.answer.RulesetOutcome.{RulesetOutcome as OneOutcome};
ghost use Rattle.ll_semantics.specs.CallContexts.{CallContext};
ghost use Rattle.ll_semantics.specs.RulesetOutcomes.{OutcomeFits};
ghost use Rattle.ll_process.specs.Judging.{answer_at};
ghost use Rattle.ll_process.specs.Own.{IsFirstPlace, IsOwn, Meets, Leaves, context_at};

use crate::case::Case;
use ll_semantics::{Answer, RulesetOutcome};
use ll_state::{OwnState, SeenCall};
use ll_trace::{Call, Op, ProcessId, Seen};
use ll_tree::Place;
use std::alloc::AllocError;

/// What the rulebook says of the call of the record at an index. It says nothing of most calls, for which it isn't
/// asked.
#[tactic(auto, unfolding(ll_semantics::specs::RulesetOutcomes::fitting, ll_trace::specs::Borrowed::meant))]
fn outcome_at(case: &Case<'_>, index: u32, seen: &Seen<'_>) -> RulesetOutcome
    requires { index < length case.now.records }
    ensures { (ctx : CallContext) → ((outcome : OneOutcome) →
        slice_get case.now.outcomes index ≡ Some outcome → OutcomeFits ctx seen.now outcome)
        → OutcomeFits ctx seen.now result }
{
    match seen.call() {
        Call::Create { .. }
        | Call::CreateEmpty { .. }
        | Call::AddPath { .. }
        | Call::AddPort { .. } => *case.outcome(index as usize),
        Call::LeaveOutPath { .. } | Call::LeaveOutPort => RulesetOutcome::ByState,
        Call::Other(op) => outcome_of_other(case, index, op),
    }
}

/// The same of a call that no kernel changes.
#[tactic(auto, unfolding(ll_semantics::specs::RulesetOutcomes::fitting, ll_trace::specs::Borrowed::is_of_rights))]
fn outcome_of_other(case: &Case<'_>, index: u32, op: &Op) -> RulesetOutcome
    requires other { is_of_rights op.now ≡ false }
    requires index { index < length case.now.records }
    ensures { (ctx : CallContext) → ((outcome : OneOutcome) →
        slice_get case.now.outcomes index ≡ Some outcome → OutcomeFits ctx op.now outcome)
        → OutcomeFits ctx op.now result }
{
    match op {
        Op::CloseRs { .. } | Op::Restrict { .. } => *case.outcome(index as usize),
        _ => RulesetOutcome::ByState,
    }
}

/// The answer to one of a process's own records. A start took effect when its process began.
pub(crate) fn answer_own(
    case: &Case<'_>,
    process: ProcessId,
    index: u32,
    place: Place,
    own: &mut OwnState,
) -> Result<Answer, AllocError>
    ghost ctx: { CallContext }
    requires ctx { ctx ≡ context_at case.now index process.0 }
    requires own { IsOwn case.now index process.0 }
    requires place { IsFirstPlace case.now index place }
    requires meets { Meets case.now index process.0 own.old }
    ensures answer { IfOk result
        (λ given. given ≡ answer_at case.now.tree case.now.abi case.now.records index) }
    ensures leaves { OnOk result (Leaves case.now index process.0 own.new) }
{
    match case.trace().start(index as usize) {
        Some(_) => Ok(Answer::Allowed),
        None => {
            let record = case.record(index as usize);
            let outcome = outcome_at(case, index, &record.op);
            let call = SeenCall {
                seen: &record.op,
                tree: case.tree(),
                layers: case.layers(),
                grants: case.grants(),
                place,
            };
            own.answer_call(&call, &outcome)
        }
    }
}
