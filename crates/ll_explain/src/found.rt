//! The text of explanations as values, and of what is found.

ghost use Rattle.std.specs.Prelude.{◌≡◌};
ghost use Rattle.ll_explanations.specs.{InTree.IsExplanationIn, Meanings.condition_in};
ghost use Rattle.ll_findings.specs.{Findings.kept_at, InTree.IsKeptIn};
ghost use Rattle.ll_explanations.specs.Meant.{reason_in};
ghost use Rattle.ll_explain.specs.Buffers.{adding};
ghost use Rattle.ll_explain.specs.Told.{text_told, value_text};
ghost use Rattle.ll_explain.specs.Words.{alone, condition_text, reason_text};

use crate::buffer::TextBuffer;
use crate::conditions::push_condition;
use crate::objections::push_lines;
use crate::reasons::push_reason;
use crate::words::push_words;
use ll_explanations::{Condition, Explanation, Reason};
use ll_findings::Finding;
use ll_trace::{Op, Record};
use ll_tree::Tree;

/// Adds the line of a condition.
#[tactic(auto, using(crate::proofs::Buffering::adding_both))]
fn push_failure(text: &mut TextBuffer, op: &Op, condition: &Condition)
    ensures { text.new
        ≡ adding text.old (alone (condition_text (condition_in op.now condition.now))) }
{
    push_words(text, "    ");
    push_condition(text, op, condition);
    push_words(text, "\n");
}

/// Adds the line of a reason.
#[tactic(auto, using(crate::proofs::Buffering::adding_both))]
fn push_mootness(text: &mut TextBuffer, op: &Op, reason: &Reason)
    ensures { text.new ≡ adding text.old (alone (reason_text (reason_in op.now reason.now))) }
{
    push_words(text, "    ");
    push_reason(text, op, reason);
    push_words(text, "\n");
}

/// Adds what a value says of a call: nothing where it is allowed, else lines that begin with four spaces. The records
/// are those of the case that was explained, or as an older version takes them.
#[tactic(auto, using(crate::proofs::Buffering::adding_nothing), unfolding(crate::specs::Told::value_text))]
pub fn push_value(
    text: &mut TextBuffer,
    tree: &Tree,
    records: &[Record],
    op: &Op,
    explanation: &Explanation,
)
    requires { IsExplanationIn tree.now explanation.now }
    ensures { text.new
        ≡ adding text.old (value_text tree.now records.now op.now explanation.now) }
{
    match explanation {
        Explanation::Nothing | Explanation::Mootness(None) => {}
        Explanation::Objections(all) => {
            push_lines(text, tree, records, all.as_slice());
        }
        Explanation::Failure(condition) => push_failure(text, op, condition),
        Explanation::Mootness(Some(reason)) => push_mootness(text, op, reason),
    }
}

/// Adds the explanation of the record at an index under a version, if there is one. The records are those of the case,
/// or as an older version takes them.
#[tactic(auto, using(crate::proofs::Buffering::adding_nothing, ll_findings::proofs::NodesOfTree::said_inside))]
pub fn push_found(
    text: &mut TextBuffer,
    tree: &Tree,
    records: &[Record],
    finding: &Finding,
    index: usize,
)
    requires { IsKeptIn tree.now (kept_at finding.now index) }
    ensures { text.new ≡ adding text.old (text_told tree.now records.now finding.now index) }
{
    match finding.explained(records, index) {
        Some((op, explanation)) => push_value(text, tree, records, op, explanation),
        None => {}
    }
}
