//! The report in a form, as rows.

ghost use Rattle.std.specs.Prelude.{◌≡◌, ◌+◌, ◌<◌, ◌^◌, IfOk, OnOk, count_by, get_or, length};
ghost use Rattle.std.specs.List.{range_with_len};
ghost use Rattle.ll_explain.specs.Buffers.{adding};
ghost use Rattle.ll_report.specs.Counted.{grouped};
ghost use Rattle.ll_report.specs.Made.{text_of};
ghost use Rattle.ll_report.specs.Versions.{if_shown, made_in, row_told, some_refuses};

use crate::audited::Audited;
use crate::findings_at::FindingsAt;
use crate::grouped::Grouped;
use crate::made::Rows;
use crate::options::Shown;
use crate::pages::{Pages, TooLong};
use crate::row_report::RowReport;
use crate::rows::{Row, is_left_out, refused_under_some};
use ll_explain::TextBuffer;
use ll_findings::Finding;
use std::alloc::{AllocError, Global};
use std::marker::Model;

/// A form of the report: how it tells of records, of kinds and of the totals.
pub trait RowForm {
    ghost use Rattle.std.specs.Prelude.{List, ℕ};
    ghost use Rattle.ll_findings.specs.Findings.{FindingValue};
    ghost use Rattle.ll_report.specs.Versions.{Telling};

    // What is told of a record: all, or its call and what is behind it where kinds are shown.
    ghost told: { Telling };

    // What is before that in a kind's row: how many records are of the kind, and the line of the first.
    ghost head: { ℕ → ℕ → List ℕ };

    // The last lines, by what was found under versions of which the oldest has this number.
    ghost last: { Self → ℕ → List FindingValue → List ℕ };

    /// Adds what is told of a record.
    fn push_row(text: &mut TextBuffer, pages: &mut Pages, row: &Row<'_>) -> Result<(), TooLong>
        requires { row.now.oldest + length row.now.found.findings.now < 2 ^ 64 }
        ensures { OnOk result (text.new ≡ adding text.old (row_told told row.now)) };

    /// Adds what is before that in a kind's row.
    fn push_head(text: &mut TextBuffer, records: u64, line: u64)
        ensures { text.new ≡ adding text.old (head records line) };

    /// Adds the last lines.
    fn push_last(&self, text: &mut TextBuffer, oldest: u64, findings: &[Finding])
        requires { oldest + length findings.now < 2 ^ 64 }
        ensures { text.new ≡ adding text.old (last self.now oldest findings.now) };
}

/// Adds what a form tells of a record, unless that is left out.
#[tactic(auto, using(ll_explain::proofs::Buffering::adding_nothing))]
fn push_if_shown<F: RowForm>(
    text: &mut TextBuffer,
    pages: &mut Pages,
    row: &Row<'_>,
) -> Result<(), TooLong>
    requires { row.now.oldest + length row.now.found.findings.now < 2 ^ 64 }
    ensures { OnOk result (text.new ≡ adding text.old (row_told (if_shown F.told) row.now)) }
{
    let out = is_left_out(row.shown, &row.found, pages)?;
    if out {
        return Ok(());
    }
    F::push_row(text, pages, row)?;
    Ok(())
}

/// What is shown or, where kinds are shown, said of the records of a trace over versions of which the oldest has this
/// number, by what was found under each. All memory for the rows is there already.
#[derive(Drop)]
pub struct FormedRows<F: RowForm> {
    form: F,
    audited: Audited,
    shown: Shown,
    oldest: u64,
    pages: Pages,
}

impl<F: RowForm> Model for FormedRows<F> {
    ghost use Rattle.std.specs.Prelude.{◌+◌, ◌<◌, ◌^◌, length};
    ghost use Rattle.ll_report.specs.Made.{Made};
    ghost use Rattle.ll_report.specs.Versions.{made_in};

    ghost Value = { Made };

    ghost view = { λ rows. made_in F.told (F.last rows.form) rows.shown rows.oldest
        rows.audited.located.tree rows.audited.located.trace rows.audited.findings };

    ghost invariant = { λ rows. rows.oldest + length rows.audited.findings < 2 ^ 64 };
}

impl<F: RowForm> FormedRows<F> {
    /// The line of the record at an index.
    pub(crate) fn line(&self, index: usize) -> u64
        requires { index < length self.now.shown }
        ensures { result ≡ get_or self.now.lines index 0 }
    {
        self.audited.line(index)
    }
}

impl<F: RowForm> Rows for FormedRows<F> {
    ghost made_of = { λ made. made };

    fn count(&self) -> usize {
        self.audited.count()
    }

    fn push_row(&mut self, text: &mut TextBuffer, index: usize) -> Result<(), TooLong> {
        let Audited { located, findings } = &self.audited;
        let records = located.trace.records();
        if let Some(record) = records.get(index) {
            let row = Row {
                shown: self.shown,
                oldest: self.oldest,
                record,
                found: FindingsAt {
                    tree: &located.tree,
                    records,
                    findings,
                    index,
                },
            };
            push_if_shown::<F>(text, &mut self.pages, &row)?;
        }
        Ok(())
    }

    fn push_last(&mut self, text: &mut TextBuffer) {
        let audited = &self.audited;
        self.form
            .push_last(text, self.oldest, audited.findings.as_slice());
    }
}

/// The report in a form, over versions of which the oldest has this number, by what was found under each, as much as is
/// shown of it.
pub fn report_in<F: RowForm + Drop>(
    alloc: Global,
    form: F,
    audited: Audited,
    shown: Shown,
    oldest: u64,
) -> Result<RowReport<Grouped<F>>, AllocError>
    requires { oldest + length audited.findings < 2 ^ 64 }
    ensures { IfOk result (λ report. report ≡ record {
      text = text_of (grouped F.head shown.kinds (made_in F.told (F.last form) shown oldest
          audited.located.tree audited.located.trace audited.findings));
      refused = count_by (some_refuses audited.findings)
          (range_with_len 0 (length audited.located.trace));
    }) }
{
    let refused = refused_under_some(&audited.findings, audited.count());
    let rows = FormedRows {
        form,
        audited,
        shown,
        oldest,
        pages: Pages::new(alloc)?,
    };
    let rows = Grouped::of(alloc, rows, shown.kinds)?;
    RowReport::of(alloc, rows, refused)
}
