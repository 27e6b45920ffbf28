//! What a version says of a record: the members of its answer, with its explanation, if one is kept.
#![tactic(auto, unfolding(crate::specs::Writing::writing))]

ghost use Rattle.std.specs.Prelude.{◌≡◌, ◌∷◌, ◌++◌, [], IfSome, option_map};
ghost use Rattle.json.specs.Token as token;
ghost use Rattle.ll_explanations.specs.InTree.{IsExplanationIn};
ghost use Rattle.ll_findings.specs.Findings.{answer_in, kept_at, said_in};
ghost use Rattle.ll_json.specs.Rows.{members_tokens, said_of, said_tokens};
ghost use Rattle.ll_json.specs.Writing.{writing};

use crate::answers::{write_answer_members, write_plain_members};
use crate::json_text::JsonText;
use ll_explain::TextBuffer;
use ll_explanations::Explanation;
use ll_report::{FindingAt, Printer};
use ll_semantics::Answer;
use ll_trace::Op;

/// Writes the members of an answer, with the explanation of the call, if there is one.
fn write_members(
    out: &mut JsonText,
    here: &FindingAt<'_>,
    answer: Answer,
    said: Option<(&Op, &Explanation)>,
)
    requires { IfSome said (λ said. IsExplanationIn here.now.tree.now said.1.now) }
    ensures { out.new ≡ writing out.old (members_tokens here.now.tree.now
        here.now.records.now answer (option_map (λ said. (said.0.now, said.1.now)) said.entry)) }
{
    match said {
        Some((op, explanation)) => write_answer_members(out, here, op, answer, explanation),
        None => write_plain_members(out, answer),
    }
}

/// The call of the record and its explanation, if one is kept.
#[tactic(auto, using(ll_findings::proofs::NodesOfTree::said_inside))]
fn explained<'f>(here: &FindingAt<'f>) -> Option<(&'f Op, &'f Explanation)>
    ensures said { option_map (λ said. (said.0.now, said.1.now)) result
        ≡ said_in here.now.records.now here.now.finding.now here.now.index }
    ensures inside { IfSome result (λ said. IsExplanationIn here.now.tree.now said.1.now) }
{
    here.finding.explained(here.records, here.index)
}

/// Writes what a version says of the record, to the end of the object.
fn write_said(out: &mut JsonText, here: &FindingAt<'_>)
    ensures { out.new ≡ writing out.old (said_tokens here.now.tree.now
        here.now.records.now here.now.index (answer_in here.now.finding.now here.now.index)
        (kept_at here.now.finding.now here.now.index)) }
{
    let said = explained(here);
    let answer = here.finding.answer(here.index);
    write_members(out, here, answer, said);
    out.end_object();
}

/// The members of answers, with the explanations that are kept.
pub(crate) struct Members;

impl Printer for Members {
    ghost printed = { said_of };

    #[tactic(auto, using(crate::proofs::Printed::printed), unfolding(crate::specs::Rows::said_of))]
    fn print(text: &mut TextBuffer, here: &FindingAt<'_>) {
        let mut out = JsonText::behind(text.take());
        write_said(&mut out, here);
        *text = out.into_text();
    }
}
