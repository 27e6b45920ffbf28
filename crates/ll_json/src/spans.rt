//! The answers of neighbouring versions to a record.
#![tactic(auto, unfolding(crate::specs::Writing::writing))]

ghost use Rattle.std.specs.Prelude.{◌≡◌, ◌+◌, ◌++◌, ◌<◌, ◌≤◌, ◌^◌, OnOk, [], codes, false, if◌then◌else◌, length, nat_lt};
ghost use Rattle.json.specs.Print.{print};
ghost use Rattle.ll_explain.specs.Buffers.{adding};
ghost use Rattle.ll_report.specs.Printed.{texts_of};
ghost use Rattle.ll_report.specs.Spans.{span_at, spans_of};
ghost use Rattle.ll_json.specs.Rows.{said_of, separated, span_text, versions_tokens};
ghost use Rattle.ll_json.specs.{Writing.writing};

use crate::json_text::JsonText;
use crate::said::Members;
use ll_explain::{TextBuffer, push_words};
use ll_report::{FindingsAt, Pages, TooLong};

/// Begins an answer, which says which versions give it.
fn write_versions(out: &mut JsonText, first: u64, last: u64)
    ensures { out.new ≡ writing out.old (versions_tokens first last) }
{
    out.begin_object();
    out.write_key("abi");
    out.begin_array();
    out.write_whole(first);
    out.write_whole(last);
    out.end_array();
}

/// Adds the beginning of an answer, behind another one or the first of all, to the comma before its members.
#[tactic(auto, using(crate::proofs::Printed::printed, ll_explain::proofs::Buffering::adding_both))]
fn push_range(text: &mut TextBuffer, behind: bool, first: u64, last: u64)
    ensures { text.new ≡ adding text.old ((if behind then codes "," else [])
        ++ (print (versions_tokens first last) ++ codes ",")) }
{
    push_words(text, if behind { "," } else { "" });
    let mut out = JsonText::behind(text.take());
    write_versions(&mut out, first, last);
    *text = out.into_text();
    push_words(text, ",");
}

/// Adds the answer of a span, which goes from a version to one before another. The oldest version has this number, and a
/// comma comes before each answer but its own.
fn push_span(text: &mut TextBuffer, row: &FindingsAt<'_>, oldest: u64, from: usize, end: usize)
    requires few { oldest + length row.now.findings.now < 2 ^ 64 }
    requires from { from < end }
    requires end { end ≤ length row.now.findings.now }
    ensures { text.new ≡ adding text.old ((if nat_lt 0 from then codes "," else [])
        ++ span_text (span_at oldest (texts_of said_of row.now) from end)) }
{
    let first = oldest + from as u64;
    let last = oldest + (end as u64 - 1);
    push_range(text, from > 0, first, last);
    row.print::<Members>(text, from);
}

/// Adds the answers of neighbouring versions, span after span. The oldest has this number.
pub(crate) fn push_answers(
    text: &mut TextBuffer,
    pages: &mut Pages,
    row: &FindingsAt<'_>,
    oldest: u64,
) -> Result<(), TooLong>
    requires { oldest + length row.now.findings.now < 2 ^ 64 }
    ensures { OnOk result (text.new
        ≡ adding text.old (separated false (spans_of oldest (texts_of said_of row.now)))) }
{
    let count = row.versions();
    let mut from = 0;
    while from < count {
        let end = row.span_end::<Members>(pages, from)?;
        push_span(text, row, oldest, from, end);
        from = end;
    }
    Ok(())
}
