//! The last line: the totals of each version.
#![tactic(auto, unfolding(crate::specs::Writing::writing))]

ghost use Rattle.std.specs.Prelude.{◌≡◌, ◌+◌, ◌∷◌, ◌++◌, ◌<◌, ◌^◌, [], codes, decimal, length, map};
ghost use Rattle.json.specs.Token as token;
ghost use Rattle.json.specs.Tree.{json_tokens};
ghost use Rattle.ll_explain.specs.Buffers.{adding};
ghost use Rattle.ll_report.specs.Versions.{answered, answers_in};
ghost use Rattle.ll_json.specs.{Parts.array_of, Parts.line_text, Parts.values_tokens, Writing.writing};
ghost use Rattle.ll_json.specs.Reports.{total_json, total_with, totals_from, totals_json};

use crate::json_text::JsonText;
use crate::words::{write_number, write_text};
use ll_explain::{TextBuffer, push_words};
use ll_findings::Finding;
use ll_report::Totals;

/// Begins the totals of a version by its number and how many answers there are.
fn write_head(out: &mut JsonText, abi: u64, totals: &Totals)
    ensures { out.new ≡ writing out.old (token.begin_object
        ∷ token.key (codes "abi") ∷ token.number (decimal abi)
        ∷ token.key (codes "records") ∷ token.number (decimal totals.now.all) ∷ []) }
{
    out.begin_object();
    write_number(out, "abi", abi);
    write_number(out, "records", totals.all);
}

/// Writes members that are how many answers there are of each kind.
fn write_kinds(out: &mut JsonText, totals: &Totals)
    ensures { out.new ≡ writing out.old
        (token.key (codes "allowed") ∷ token.number (decimal totals.now.allowed)
        ∷ token.key (codes "refused") ∷ token.number (decimal totals.now.refused)
        ∷ token.key (codes "moot") ∷ token.number (decimal totals.now.moot) ∷ []) }
{
    write_number(out, "allowed", totals.allowed);
    write_number(out, "refused", totals.refused);
    write_number(out, "moot", totals.moot);
}

/// Writes how many answers of a version there are of each kind.
fn write_counts(out: &mut JsonText, abi: u64, totals: &Totals)
    ensures { out.new ≡ writing out.old (json_tokens (total_with abi
        totals.now.all totals.now.allowed totals.now.refused totals.now.moot)) }
{
    write_head(out, abi, totals);
    write_kinds(out, totals);
    out.end_object();
}

/// Writes the totals of a version.
fn write_total(out: &mut JsonText, abi: u64, finding: &Finding)
    ensures { out.new ≡ writing out.old (json_tokens (total_json abi (answered finding.now))) }
{
    let totals = Totals::of(finding);
    write_counts(out, abi, &totals);
}

/// Writes the totals of versions, of which the oldest has this number.
#[tactic(auto, unfolding(crate::specs::Writing::writing, crate::specs::Reports::totals_from))]
fn write_totals_from(out: &mut JsonText, oldest: u64, findings: &[Finding])
    requires { oldest + length findings.now < 2 ^ 64 }
    ensures { out.new ≡ writing out.old
        (values_tokens (totals_from oldest (answers_in findings.now))) }
{
    let mut abi = oldest;
    for finding in findings {
        write_total(out, abi, finding);
        abi += 1;
    }
}

/// Writes a member that is the totals of all versions.
#[tactic(auto, using(crate::proofs::Writing::writing_both, crate::proofs::Enclosing::values_end))]
fn write_totals(out: &mut JsonText, oldest: u64, findings: &[Finding])
    requires { oldest + length findings.now < 2 ^ 64 }
    ensures { out.new ≡ writing out.old
        (token.key (codes "totals")
        ∷ json_tokens (array_of (totals_from oldest (answers_in findings.now)))) }
{
    out.write_key("totals");
    out.begin_array();
    write_totals_from(out, oldest, findings);
    out.end_array();
}

/// Writes the totals of all versions, and the version of the program.
fn write_last(out: &mut JsonText, oldest: u64, findings: &[Finding], program: &str)
    requires { oldest + length findings.now < 2 ^ 64 }
    ensures { out.new ≡ writing out.old
        (json_tokens (totals_json (totals_from oldest (answers_in findings.now)) program.now)) }
{
    out.begin_object();
    write_totals(out, oldest, findings);
    write_text(out, "version", program);
    out.end_object();
}

/// Adds the last line.
#[tactic(auto, using(crate::proofs::Printed::printed, ll_explain::proofs::Buffering::adding_both))]
pub(crate) fn push_last(text: &mut TextBuffer, oldest: u64, findings: &[Finding], program: &str)
    requires { oldest + length findings.now < 2 ^ 64 }
    ensures { text.new ≡ adding text.old
        (line_text (totals_json (totals_from oldest (answers_in findings.now)) program.now)) }
{
    let mut out = JsonText::behind(text.take());
    write_last(&mut out, oldest, findings, program);
    *text = out.into_text();
    push_words(text, "\n");
}
