//! A report that is ready to be written.

ghost use Rattle.std.specs.Prelude.{◌≡◌, IfOk, OnOk};
ghost use Rattle.std.specs.Io.KnownBytes.{Appends};
ghost use Rattle.ll_report.specs.{Made.told_by, Report.report_status, Writing.AppendsBeginning};
ghost use Rattle.ll_audit.specs.ShownReports.{told_in};

use ll_json::JsonRows;
use ll_report::{Grouped, Report, RowReport, VersionRows};
use std::alloc::{AllocError, Global};
use std::io;
use std::io::Write;

/// A report that is ready to be written, row after row, without any memory more.
#[derive(Drop)]
pub enum ReportText {
    /// As text.
    Text(RowReport<Grouped<VersionRows>>),
    /// As JSON.
    Json(RowReport<Grouped<JsonRows<'static>>>),
}

impl ReportText {
    /// The program's status with the report: 0 where no record is refused, else 1.
    pub fn status(&self) -> u8
        ensures { result ≡ report_status (told_in self.now).refused }
    {
        match self {
            ReportText::Text(report) => report.status(),
            ReportText::Json(report) => report.status(),
        }
    }

    /// The report with all its bytes.
    pub fn into_report(self, alloc: Global) -> Result<Report, AllocError>
        ensures { IfOk result (λ report. told_by report ≡ told_in self) }
    {
        match self {
            ReportText::Text(report) => report.into_report(alloc),
            ReportText::Json(report) => report.into_report(alloc),
        }
    }

    /// Writes the report, row after row. Where that fails a beginning was written.
    pub fn write_to<O: Write>(self, out: &mut O) -> io::Result<()>
        ensures whole { OnOk result
            (Appends (O.contents out.old) (O.contents out.new) (told_in self).text) }
        ensures beginning { AppendsBeginning (O.contents out.old) (O.contents out.new)
            (told_in self).text }
    {
        match self {
            ReportText::Text(report) => report.write_to(out),
            ReportText::Json(report) => report.write_to(out),
        }
    }
}
