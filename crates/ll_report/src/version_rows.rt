//! The report as text.

ghost use Rattle.std.specs.Prelude.{◌≡◌, ◌+◌, ◌<◌, ◌^◌, IfOk, length};
ghost use Rattle.ll_explain.specs.Buffers.{adding};
ghost use Rattle.ll_report.specs.Rows.{kind_head, refused_under_some, rows_text, told_as, total_under_text, totals_from, totals_text};
ghost use Rattle.ll_report.specs.Versions.{answered, answers_in, founds_in, row_in_words};

use crate::audited::Audited;
use crate::calls::push_call;
use crate::formed::{RowForm, report_in};
use crate::grouped::Grouped;
use crate::options::Shown;
use crate::pages::{Pages, TooLong};
use crate::printer::{InWords, Verdicts};
use crate::report::{Totals, push_record};
use crate::row_report::RowReport;
use crate::rows::Row;
use crate::spans::Form;
use ll_explain::{TextBuffer, push_number, push_words};
use ll_findings::Finding;
use ll_trace::Record;
use std::alloc::{AllocError, Global};

/// Adds how the report tells of a record: alone, or of its call where kinds are shown.
fn push_told(text: &mut TextBuffer, kinds: bool, record: &Record)
    ensures { text.new ≡ adding text.old (told_as kinds «record».now) }
{
    if kinds {
        push_call(text, &record.op);
    } else {
        push_record(text, record.line, record.pid, record.op.name());
    }
}

/// Adds the last line of a version, with its number if it is one of several.
fn push_total(text: &mut TextBuffer, is_one_of_several: bool, abi: u64, finding: &Finding)
    ensures { text.new ≡ adding text.old
        (total_under_text is_one_of_several abi (answered finding.now)) }
{
    Totals::of(finding).push_to(text, is_one_of_several, abi);
}

/// Adds the last lines of versions, of which the first has this number, with their numbers if they are some of several.
fn push_totals_from(text: &mut TextBuffer, are_of_several: bool, oldest: u64, findings: &[Finding])
    requires { oldest + length findings.now < 2 ^ 64 }
    ensures { text.new
        ≡ adding text.old (totals_from are_of_several oldest (answers_in findings.now)) }
{
    let mut abi = oldest;
    for finding in findings {
        push_total(text, are_of_several, abi, finding);
        abi += 1;
    }
}

/// The report as text.
#[derive(Drop)]
pub struct VersionRows;

impl RowForm for VersionRows {
    ghost told = { row_in_words };

    ghost head = { kind_head };

    ghost last = { λ form oldest findings. totals_text oldest (answers_in findings) };

    /// Adds a record's line, and the explanations if these are shown.
    fn push_row(text: &mut TextBuffer, pages: &mut Pages, row: &Row<'_>) -> Result<(), TooLong> {
        push_told(text, row.shown.kinds, row.record);
        row.found
            .push_versions::<Verdicts>(text, pages, Form::Answers, row.oldest)?;
        push_words(text, "\n");
        if !row.shown.explanations {
            return Ok(());
        }
        row.found
            .push_versions::<InWords>(text, pages, Form::Explanations, row.oldest)?;
        Ok(())
    }

    fn push_head(text: &mut TextBuffer, records: u64, line: u64) {
        push_number(text, records);
        push_words(text, " ");
        push_number(text, line);
        push_words(text, " ");
    }

    fn push_last(&self, text: &mut TextBuffer, oldest: u64, findings: &[Finding]) {
        push_totals_from(text, findings.len() > 1, oldest, findings);
    }
}

/// The report over versions of which the oldest has this number, by what was found under each, as much as is shown of
/// it.
pub fn report_over(
    alloc: Global,
    audited: Audited,
    shown: Shown,
    oldest: u64,
) -> Result<RowReport<Grouped<VersionRows>>, AllocError>
    requires { oldest + length audited.findings < 2 ^ 64 }
    ensures text { IfOk result (λ report. report.text ≡ rows_text shown oldest (founds_in
        shown.explanations audited.located.tree audited.located.trace audited.findings)
        audited.located.trace) }
    ensures refused { IfOk result (λ report. report.refused ≡ refused_under_some (founds_in
        shown.explanations audited.located.tree audited.located.trace audited.findings)
        audited.located.trace) }
{
    let report = report_in(alloc, VersionRows, audited, shown, oldest)?;
    Ok(report)
}
