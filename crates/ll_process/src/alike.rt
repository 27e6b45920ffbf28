//! The answers under one kernel by those under another, where the records of a trace change the same under both.

ghost use Rattle.std.specs.Prelude.{◌≡◌, ◌<◌, true, Decides, IfOk, IfSome, Some, length};
ghost use Rattle.ll_rights.specs.Supported.{supported_fs, supported_net};
ghost use Rattle.ll_semantics.specs.declared.answer.Answer.TheVariants.{Allowed};
ghost use Rattle.ll_semantics.specs.Worlds.{judged};
ghost use Rattle.ll_trace.specs.BestEffort.{at_best_effort};
ghost use Rattle.ll_trace.specs.Taken.{taken};
ghost use Rattle.ll_process.specs.Alike.{StaysAlike, answer_told};
ghost use Rattle.ll_process.specs.Cases.{IsCase, case_of};
ghost use Rattle.ll_process.specs.Judging.{answer_at};

use crate::settled::Settled;
use ll_rights::{Abi, Fs, Net, RightSet};
use ll_semantics::{Answer, RulesetOutcome};
use ll_trace::{Effort, Kernel, Located, Op};
use std::alloc::{AllocError, Global};

/// Whether two versions support the same of some rights on files.
fn support_same_files(fs: Fs, one: Abi, other: Abi) -> bool
    ensures { result ≡ true → supported_fs one fs ≡ supported_fs other fs }
{
    fs.supported(one) == fs.supported(other)
}

/// Whether two versions support the same of some rights on ports.
fn support_same_ports(net: Net, one: Abi, other: Abi) -> bool
    ensures { result ≡ true → supported_net one net ≡ supported_net other net }
{
    net.supported(one) == net.supported(other)
}

/// Whether a program at best effort makes the same call under two versions: both support the same of its rights.
#[tactic(auto, using(crate::proofs::TwoKernels::created_alike), unfolding(ll_trace::specs::BestEffort::at_best_effort))]
fn is_supported_alike(op: &Op, one: Abi, other: Abi) -> bool
    ensures { result ≡ true → at_best_effort one op.now ≡ at_best_effort other op.now }
{
    match op {
        Op::Create { fs, net, .. } => {
            support_same_files(*fs, one, other) && support_same_ports(*net, one, other)
        }
        Op::AddPath { fs, .. } => support_same_files(*fs, one, other),
        Op::AddPort { net, .. } => support_same_ports(*net, one, other),
        _ => true,
    }
}

/// Whether a program makes the same call under two kernels.
#[tactic(auto, unfolding(ll_trace::specs::Taken::by_effort))]
fn is_taken_alike(op: &Op, one: Kernel, other: Kernel) -> bool
    ensures { result ≡ true → taken one op.now ≡ taken other op.now }
{
    match (one.effort, other.effort) {
        (Effort::AsRecorded, Effort::AsRecorded) => true,
        (Effort::Best, Effort::Best) => is_supported_alike(op, one.abi, other.abi),
        _ => false,
    }
}

/// The answer that an outcome has, if it has one.
#[tactic(auto, unfolding(crate::specs::Alike::answer_told))]
fn answer_told(outcome: &RulesetOutcome) -> Option<Answer>
    ensures { result ≡ answer_told outcome.now }
{
    match outcome {
        RulesetOutcome::Answered(answer) => Some(*answer),
        RulesetOutcome::Frozen(_) | RulesetOutcome::ByState => None,
    }
}

/// Whether there is an answer, and it allows the call.
fn is_allowed(told: Option<Answer>) -> bool
    ensures { Decides result (told ≡ Some Allowed) }
{
    matches!(told, Some(Answer::Allowed))
}

/// The answer to the record at an index under another kernel, if it follows from the answer under one; none if the
/// record may change something else there. A call that both rulebooks leave to the processes changes the same, and so
/// does a call on rulesets that is the same and allowed under both. One that neither allows changes nothing.
fn answer_alike(
    located: &Located,
    one: &Settled,
    other: &Settled,
    index: usize,
    answer: Answer,
) -> Option<Answer>
    requires one { IsCase (case_of located.now one.now) }
    requires other { IsCase (case_of located.now other.now) }
    requires within { index < length located.now.trace }
    requires answer { answer ≡ answer_at located.now.tree one.now.kernel.abi
        (case_of located.now one.now).records index }
    ensures { IfSome result
        (StaysAlike (case_of located.now one.now) (case_of located.now other.now) index) }
{
    let told = answer_told(&one.outcomes[index]);
    let told_there = answer_told(&other.outcomes[index]);
    if told.is_none() && told_there.is_none() {
        return Some(answer);
    }
    if !is_allowed(told) && !is_allowed(told_there) {
        return Some(told_there.unwrap_or(Answer::Moot));
    }
    let record = &located.trace.records()[index];
    if is_allowed(told)
        && is_allowed(told_there)
        && is_taken_alike(&record.op, one.kernel, other.kernel)
    {
        return Some(Answer::Allowed);
    }
    None
}

/// The answers to a trace under another kernel, if they follow from the answers under one: no record changes anything
/// else there, so that the processes need not be judged again. None if some record may change something else.
pub fn answers_alike(
    alloc: Global,
    located: &Located,
    one: &Settled,
    answers: &[Answer],
    other: &Settled,
) -> Result<Option<Vec<Answer>>, AllocError>
    requires one { IsCase (case_of located.now one.now) }
    requires other { IsCase (case_of located.now other.now) }
    requires answers { answers.now ≡ judged located.now.tree one.now.kernel.abi
        (case_of located.now one.now).records }
    ensures { IfOk result (λ alike. IfSome alike (λ others. others.items
        ≡ judged located.now.tree other.now.kernel.abi (case_of located.now other.now).records)) }
{
    let mut others = Vec::new(alloc);
    for (index, answer) in answers.iter().enumerate() {
        let Some(given) = answer_alike(located, one, other, index, *answer) else {
            return Ok(None);
        };
        others.push(given)?;
    }
    Ok(Some(others))
}
