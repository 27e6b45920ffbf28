//! The text of the report.
#![tactic(auto, using(ll_explain::proofs::Buffering::adding_both))]

ghost use Rattle.std.specs.Prelude.{◌≡◌, ◌++◌, ◌∷◌, [], codes, count_by, decimal, length, if◌then◌else◌};
ghost use Rattle.ll_explain.specs.Buffers.{adding};
ghost use Rattle.ll_report.specs.Lines.{verdict_of};
ghost use Rattle.ll_report.specs.Report as words;
ghost use Rattle.ll_report.specs.Report.{counts_text, layers_text, next_layer_text, record_text, refused, report_status, verdict_text};
ghost use Rattle.ll_report.specs.Rows.{abi_text};
ghost use Rattle.ll_report.specs.Lines as spec;

use crate::names::error_name;
use ll_explain::{TextBuffer, push_number, push_words};
use ll_findings::Finding;
use ll_process::Answer;
use ll_rules::{Errno, LayerSet, MOST_LAYERS};

/// The report of an audit.
#[derive(Debug, Drop)]
pub struct Report {
    /// The text: a line for each record, and the totals.
    pub bytes: Vec<u8>,
    /// How many records are refused, under some version if there are several.
    pub refused: u64,
}

impl Report {
    /// The program's status with the report: 0 where no record is refused, else 1.
    pub fn status(&self) -> u8
        ensures { result ≡ report_status self.now.refused }
    {
        if self.refused == 0 { 0 } else { 1 }
    }
}

/// Adds which record a line is about.
pub(crate) fn push_record(text: &mut TextBuffer, line: u64, pid: u64, op: &str)
    ensures { text.new ≡ adding text.old (record_text line pid op.now) }
{
    push_number(text, line);
    push_words(text, " ");
    push_number(text, pid);
    push_words(text, " ");
    push_words(text, op);
}

/// Adds the numbers of layers, separated by commas, or a hyphen where there are none.
fn push_layers(text: &mut TextBuffer, layers: LayerSet)
    ensures { text.new ≡ adding text.old (layers_text layers) }
{
    if layers.is_empty() {
        push_words(text, "-");
        return;
    }
    let mut is_first = true;
    for number in 1..MOST_LAYERS as u32 + 1 {
        if layers.has(number) {
            push_layer(text, number, is_first);
            is_first = false;
        }
    }
}

/// Adds a refusal, with its error and its layers.
fn push_refusal(text: &mut TextBuffer, error: Errno, layers: LayerSet)
    ensures { text.new ≡ adding text.old (verdict_text (refused (spec.error_name error) layers)) }
{
    push_words(text, "refused ");
    push_words(text, error_name(error));
    push_words(text, " ");
    push_layers(text, layers);
}

/// Adds the number of a layer, behind a comma if it isn't the first.
fn push_layer(text: &mut TextBuffer, number: u32, is_first: bool)
    ensures { text.new
        ≡ adding text.old (if is_first then decimal number else next_layer_text number) }
{
    if is_first {
        push_number(text, u64::from(number));
    } else {
        push_words(text, ",");
        push_number(text, u64::from(number));
    }
}

/// Adds how many records are answered in each way.
fn push_counts(text: &mut TextBuffer, allowed: u64, refused: u64, moot: u64)
    ensures { text.new ≡ adding text.old (counts_text allowed refused moot) }
{
    push_words(text, " allowed ");
    push_number(text, allowed);
    push_words(text, " refused ");
    push_number(text, refused);
    push_words(text, " moot ");
    push_number(text, moot);
    push_words(text, "\n");
}

/// Adds the number of a version, if there are several.
#[tactic(auto, using(ll_explain::proofs::Buffering::adding_both, ll_explain::proofs::Buffering::adding_nothing))]
fn push_abi(text: &mut TextBuffer, is_one_of_several: bool, abi: u64)
    ensures { text.new ≡ adding text.old (abi_text is_one_of_several abi) }
{
    if is_one_of_several {
        push_words(text, " abi ");
        push_number(text, abi);
    }
}

/// Adds how a record was answered.
pub(crate) fn push_verdict(text: &mut TextBuffer, answer: &Answer)
    ensures { text.new ≡ adding text.old (verdict_text (verdict_of answer.now)) }
{
    match answer {
        Answer::Allowed => push_words(text, "allowed"),
        Answer::Moot => push_words(text, "moot"),
        Answer::Refused(error, layers) => push_refusal(text, *error, *layers),
    }
}

fn is_allowed(answer: &Answer) -> bool
    ensures { result ≡ words.is_allowed (verdict_of answer.now) }
{
    matches!(answer, Answer::Allowed)
}

pub(crate) fn is_refused(answer: &Answer) -> bool
    ensures { result ≡ words.is_refused (verdict_of answer.now) }
{
    matches!(answer, Answer::Refused(_, _))
}

fn is_moot(answer: &Answer) -> bool
    ensures { result ≡ words.is_moot (verdict_of answer.now) }
{
    matches!(answer, Answer::Moot)
}

/// One for an answer that passes a test, and none for another one.
fn one_if(passes: bool) -> u64
    ensures { result ≡ if passes then 1 else 0 }
{
    if passes { 1 } else { 0 }
}

/// How many answers there are of each kind.
#[derive(Clone, Copy, Debug)]
pub struct Totals {
    /// All answers.
    pub all: u64,
    /// The records that are allowed.
    pub allowed: u64,
    /// The records that are refused.
    pub refused: u64,
    /// The records about which the policy isn't asked.
    pub moot: u64,
}

impl Totals {
    /// How many of the answers of a version there are of each kind.
    pub fn of(finding: &Finding) -> Totals
        ensures all { result.all ≡ length finding.now.answers }
        ensures allowed { result.allowed
            ≡ count_by (λ answer. words.is_allowed (verdict_of answer)) finding.now.answers }
        ensures refused { result.refused
            ≡ count_by (λ answer. words.is_refused (verdict_of answer)) finding.now.answers }
        ensures moot { result.moot
            ≡ count_by (λ answer. words.is_moot (verdict_of answer)) finding.now.answers }
    {
        let mut totals = Totals {
            all: 0,
            allowed: 0,
            refused: 0,
            moot: 0,
        };
        for index in 0..finding.count() {
            let answer = finding.answer(index);
            totals.all += 1;
            totals.allowed += one_if(is_allowed(&answer));
            totals.refused += one_if(is_refused(&answer));
            totals.moot += one_if(is_moot(&answer));
        }
        totals
    }

    /// Adds the last line of a version, with its number if it is one of several.
    pub(crate) fn push_to(&self, text: &mut TextBuffer, is_one_of_several: bool, abi: u64)
        ensures { text.new ≡ adding text.old
            (codes "total " ++ decimal self.now.all ++ abi_text is_one_of_several abi
            ++ counts_text self.now.allowed self.now.refused self.now.moot) }
    {
        push_words(text, "total ");
        push_number(text, self.all);
        push_abi(text, is_one_of_several, abi);
        push_counts(text, self.allowed, self.refused, self.moot);
    }
}
