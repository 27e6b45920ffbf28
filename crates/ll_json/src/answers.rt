//! How a record is answered, and why.
#![tactic(auto, unfolding(crate::specs::Writing::writing))]

ghost use Rattle.std.specs.Prelude.{◌≡◌, ◌∷◌, [], List, codes, map};
ghost use Rattle.json.specs.Json.{string};
ghost use Rattle.json.specs.Token as token;
ghost use Rattle.json.specs.Tree.{json_tokens};
ghost use Rattle.ll_semantics.specs.declared.answer.Answer.TheVariants.{Refused};
ghost use Rattle.ll_tree.specs.Trees.{Entry};
ghost use Rattle.ll_explanations.specs.InTree.{IsExplanationIn};
ghost use Rattle.ll_explanations.specs.Meanings.{explanation_in};
ghost use Rattle.ll_report.specs.Lines as spec;
ghost use Rattle.ll_report.specs.Versions.{answered};
ghost use Rattle.ll_json.specs.Parts.{array_of, named_tokens, values_tokens};
ghost use Rattle.ll_json.specs.Records.{bare_layer, why_members};
ghost use Rattle.ll_json.specs.Values.{among_tokens, answer_tokens, layers_tokens, plain_members};
ghost use Rattle.ll_json.specs.Writing.{writing};

use crate::conditions::write_condition;
use crate::json_text::JsonText;
use crate::objections::write_layers;
use crate::reasons::write_reason;
use crate::words::{write_number, write_text};
use ll_explanations::Explanation;
use ll_report::{FindingAt, error_name};
use ll_rules::{Errno, LayerSet, MOST_LAYERS};
use ll_semantics::Answer;
use ll_trace::Op;

/// Writes a layer by its number alone.
fn write_bare_layer(out: &mut JsonText, number: u32)
    ensures { out.new ≡ writing out.old (json_tokens (bare_layer number)) }
{
    out.begin_object();
    write_number(out, "layer", u64::from(number));
    out.end_object();
}

/// Writes a layer by its number alone, where it is in a set.
#[tactic(auto, unfolding(crate::specs::Writing::writing, crate::specs::Values::among_tokens))]
fn write_if_among(out: &mut JsonText, numbers: LayerSet, number: u32)
    ensures { out.new ≡ writing out.old (among_tokens numbers number) }
{
    if numbers.has(number) {
        write_bare_layer(out, number);
    }
}

/// Writes the layers of a set, each by its number alone.
fn write_numbers(out: &mut JsonText, numbers: LayerSet)
    ensures { out.new ≡ writing out.old (values_tokens (map bare_layer numbers)) }
{
    if numbers.is_empty() {
        return;
    }
    for number in 1..MOST_LAYERS as u32 + 1 {
        write_if_among(out, numbers, number);
    }
}

/// Writes an array of the layers of a set, each by its number alone.
#[tactic(auto, using(crate::proofs::Writing::writing_both, crate::proofs::Enclosing::values_end))]
fn write_bare_layers(out: &mut JsonText, numbers: LayerSet)
    ensures { out.new ≡ writing out.old (json_tokens (array_of (map bare_layer numbers))) }
{
    out.begin_array();
    write_numbers(out, numbers);
    out.end_array();
}

/// Writes the layers that refuse, with all that they object to where this is explained.
#[tactic(auto, unfolding(crate::specs::Writing::writing, crate::specs::Values::layers_tokens))]
fn write_layers_of(
    out: &mut JsonText,
    here: &FindingAt<'_>,
    numbers: LayerSet,
    explanation: &Explanation,
)
    requires { IsExplanationIn here.now.tree.now explanation.now }
    ensures { out.new ≡ writing out.old
        (layers_tokens here.now.tree.now here.now.records.now numbers explanation.now) }
{
    match explanation {
        Explanation::Objections(all) => write_layers(out, here, all.as_slice()),
        Explanation::Nothing | Explanation::Failure(_) | Explanation::Mootness(_) => {
            write_bare_layers(out, numbers)
        }
    }
}

/// Writes why a call fails by no layer, or why the policy isn't asked, where this is explained.
#[tactic(auto, unfolding(crate::specs::Writing::writing, crate::specs::Records::why_members, ll_explanations::specs::Meanings::explanation_in))]
fn write_why(out: &mut JsonText, op: &Op, explanation: &Explanation)
    ensures { (tree : List Entry) → out.new ≡ writing out.old
        (named_tokens (why_members (explanation_in tree op.now explanation.now))) }
{
    match explanation {
        Explanation::Nothing | Explanation::Objections(_) | Explanation::Mootness(None) => {}
        Explanation::Failure(condition) => {
            out.write_key("why");
            write_condition(out, op, condition);
        }
        Explanation::Mootness(Some(reason)) => {
            out.write_key("why");
            write_reason(out, op, reason);
        }
    }
}

/// Writes that a record is refused, and the error.
fn write_refusal(out: &mut JsonText, error: Errno)
    ensures { out.new ≡ writing out.old (token.key (codes "answer") ∷ token.string (codes "refused")
        ∷ token.key (codes "error") ∷ token.string (spec.error_name error) ∷ []) }
{
    write_text(out, "answer", "refused");
    write_text(out, "error", error_name(error));
}

/// Writes how a refused record is answered, and why.
fn write_refused(
    out: &mut JsonText,
    here: &FindingAt<'_>,
    op: &Op,
    error: Errno,
    numbers: LayerSet,
    explanation: &Explanation,
)
    requires { IsExplanationIn here.now.tree.now explanation.now }
    ensures { out.new ≡ writing out.old (answer_tokens here.now.tree.now
        here.now.records.now op.now (Refused error numbers) explanation.now) }
{
    write_refusal(out, error);
    out.write_key("layers");
    write_layers_of(out, here, numbers, explanation);
    write_why(out, op, explanation);
}

/// Writes how a record is answered, and why.
#[tactic(auto, unfolding(crate::specs::Writing::writing, crate::specs::Values::answer_tokens))]
pub(crate) fn write_answer_members(
    out: &mut JsonText,
    here: &FindingAt<'_>,
    op: &Op,
    answer: Answer,
    explanation: &Explanation,
)
    requires { IsExplanationIn here.now.tree.now explanation.now }
    ensures { out.new ≡ writing out.old (answer_tokens here.now.tree.now
        here.now.records.now op.now answer explanation.now) }
{
    match answer {
        Answer::Allowed => write_text(out, "answer", "allowed"),
        Answer::Moot => {
            write_text(out, "answer", "moot");
            write_why(out, op, explanation);
        }
        Answer::Refused(error, numbers) => {
            write_refused(out, here, op, error, numbers, explanation)
        }
    }
}

/// Writes how a record is answered.
pub(crate) fn write_plain_members(out: &mut JsonText, answer: Answer)
    ensures { out.new ≡ writing out.old (named_tokens (plain_members answer)) }
{
    match answer {
        Answer::Allowed => write_text(out, "answer", "allowed"),
        Answer::Moot => write_text(out, "answer", "moot"),
        Answer::Refused(error, numbers) => {
            write_refusal(out, error);
            out.write_key("layers");
            write_bare_layers(out, numbers);
        }
    }
}
