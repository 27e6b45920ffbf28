//! Reports that are ready to be written.

ghost use Rattle.std.specs.Prelude.{◌≡◌, IfOk, OnOk};
ghost use Rattle.std.specs.Io.KnownBytes.{Appends};
ghost use Rattle.ll_report.specs.{Made.text_of, Made.told_by, Report.report_status};
ghost use Rattle.ll_report.specs.Writing.{AppendsBeginning};

use crate::made::Rows;
use crate::paged::Paged;
use crate::report::Report;
use std::alloc::{AllocError, Global};
use std::io;
use std::io::Write;
use std::marker::Model;

/// A report that is ready to be written, row after row, without any memory more.
#[derive(Drop)]
pub struct RowReport<R: Rows> {
    paged: Paged<R>,
    refused: u64,
}

impl<R: Rows> Model for RowReport<R> {
    ghost use Rattle.ll_report.specs.Made.{Told, text_of};

    ghost Value = { Told };

    ghost view = { λ report. record { text = text_of report.paged; refused = report.refused } };
}

impl<R: Rows + Drop> RowReport<R> {
    /// The report of these rows, of which so many are of refused records.
    pub fn of(alloc: Global, rows: R, refused: u64) -> Result<RowReport<R>, AllocError>
        ensures { IfOk result (λ report. report
            ≡ record { text = text_of (R.made_of rows); refused = refused }) }
    {
        Ok(RowReport {
            paged: Paged::of(alloc, rows)?,
            refused,
        })
    }

    /// The program's status with the report: 0 where no record is refused, else 1.
    pub fn status(&self) -> u8
        ensures { result ≡ report_status self.now.refused }
    {
        if self.refused == 0 { 0 } else { 1 }
    }

    /// The report with all its bytes.
    pub fn into_report(self, alloc: Global) -> Result<Report, AllocError>
        ensures { IfOk result (λ report. told_by report ≡ self) }
    {
        let RowReport { paged, refused } = self;
        let bytes = paged.into_bytes(alloc)?;
        Ok(Report { bytes, refused })
    }

    /// Writes the report, row after row. Where that fails a beginning was written.
    pub fn write_to<O: Write>(self, out: &mut O) -> io::Result<()>
        ensures whole { OnOk result (Appends (O.contents out.old) (O.contents out.new) self.text) }
        ensures beginning { AppendsBeginning (O.contents out.old) (O.contents out.new) self.text }
    {
        let RowReport { paged, refused: _ } = self;
        paged.write_to(out)
    }
}
