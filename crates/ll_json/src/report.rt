//! The report as JSON: a line for each record that is shown or for each kind of these, and one with the totals of each version.
#![tactic(auto, unfolding(crate::specs::Writing::writing))]

ghost use Rattle.std.specs.Prelude.{◌≡◌, ◌+◌, ◌<◌, ◌^◌, IfOk, List, OnOk, length};
ghost use Rattle.ll_explain.specs.Buffers.{adding};
ghost use Rattle.ll_report.specs.Versions.{row_told};
ghost use Rattle.ll_json.specs.Reports.{AreFound, IsJsonReport};
ghost use Rattle.ll_json.specs.Rows.{kind_head, last_line, row_text};
ghost use Rattle.ll_json.specs.Records.{Version};

use crate::json_text::JsonText;
use crate::rows::{push_opening, write_kind};
use crate::spans::push_answers;
use crate::totals::push_last;
use ll_explain::{TextBuffer, push_words};
use ll_findings::Finding;
use ll_report::{Audited, Grouped, Pages, Row, RowForm, RowReport, Shown, TooLong, report_in};
use std::alloc::{AllocError, Global};

/// The report as JSON, which says by which version of the program it is written.
#[derive(Drop)]
pub struct JsonRows<'p> {
    program: &'p str,
}

impl<'p> RowForm for JsonRows<'p> {
    ghost told = { row_text };

    ghost head = { kind_head };

    ghost last = { λ form oldest findings. last_line form.program.now oldest findings };

    /// Adds a record's line, or its end from the call on where kinds are shown.
    #[tactic(auto, using(ll_explain::proofs::Buffering::adding_both))]
    fn push_row(text: &mut TextBuffer, pages: &mut Pages, row: &Row<'_>) -> Result<(), TooLong>
        requires { row.now.oldest + length row.now.found.findings.now < 2 ^ 64 }
        ensures { OnOk result (text.new ≡ adding text.old (row_told row_text row.now)) }
    {
        push_opening(text, row.shown.kinds, row.record);
        push_answers(text, pages, &row.found, row.oldest)?;
        push_words(text, "]}\n");
        Ok(())
    }

    #[tactic(auto, using(crate::proofs::Printed::printed, ll_explain::proofs::Buffering::adding_both))]
    fn push_head(text: &mut TextBuffer, records: u64, line: u64)
        ensures { text.new ≡ adding text.old (kind_head records line) }
    {
        let mut out = JsonText::behind(text.take());
        write_kind(&mut out, records, line);
        *text = out.into_text();
        push_words(text, ",");
    }

    fn push_last(&self, text: &mut TextBuffer, oldest: u64, findings: &[Finding]) {
        push_last(text, oldest, findings, self.program);
    }
}

/// The report as JSON over versions of which the oldest has this number, by what is found under each, as much as is
/// shown of it, with the version of the program that writes it.
pub fn json_report<'p>(
    alloc: Global,
    audited: Audited,
    shown: Shown,
    oldest: u64,
    program: &'p str,
) -> Result<RowReport<Grouped<JsonRows<'p>>>, AllocError>
    requires { oldest + length audited.findings < 2 ^ 64 }
    ensures { IfOk result (λ report. (versions : List Version)
        → AreFound shown.explanations audited.located.tree audited.located.trace versions
        audited.findings
        → IsJsonReport shown audited.located.tree oldest versions audited.located.trace
        program.now report) }
{
    report_in(alloc, JsonRows { program }, audited, shown, oldest)
}
