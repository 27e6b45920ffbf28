//! What is shown of each record.

ghost use Rattle.std.specs.Prelude.{◌≡◌, ◌&&◌, IfOk, count_by, not};
ghost use Rattle.std.specs.List.{range_with_len};
ghost use Rattle.ll_report.specs.Rows.{is_row_left_out};
ghost use Rattle.ll_report.specs.Versions.{answers_in, some_refuses};

use crate::findings_at::FindingsAt;
use crate::options::Shown;
use crate::pages::{Pages, TooLong};
use crate::printer::Verdicts;
use crate::report::is_refused;
use ll_findings::{Finding, Findings};
use ll_trace::Record;

/// Whether some version refuses the record at an index.
fn some_refuses(findings: &[Finding], index: usize) -> bool
    ensures { result ≡ some_refuses findings.now index }
{
    findings
        .iter()
        .any(|finding| is_refused(&finding.answer(index)))
}

/// Whether some version refuses the record at an index. If all find the same, the newest one is asked, because it keeps
/// all that it finds in one list.
fn is_refused_under_some(findings: &Findings, index: usize) -> bool
    ensures { result ≡ some_refuses findings.now index }
{
    if findings.is_apart(index) {
        return some_refuses(findings.as_slice(), index);
    }
    match findings.as_slice().split_last() {
        Some((newest, _)) => is_refused(&newest.answer(index)),
        None => false,
    }
}

/// How many records some version refuses, of this many.
pub(crate) fn refused_under_some(findings: &Findings, records: usize) -> u64
    ensures { result ≡ count_by (some_refuses findings.now) (range_with_len 0 records) }
{
    (0..records)
        .filter(|index| is_refused_under_some(findings, *index))
        .count() as u64
}

/// Whether refused records alone are shown, and no version refuses this one.
fn is_passed_over(shown: Shown, findings: &Findings, index: usize) -> bool
    ensures { result ≡ (shown.refused_alone && not (some_refuses findings.now index)) }
{
    shown.refused_alone && !is_refused_under_some(findings, index)
}

/// Whether a record is left out of what is shown, by what is answered to it under each version.
pub fn is_left_out(shown: Shown, row: &FindingsAt<'_>, pages: &mut Pages) -> Result<bool, TooLong>
    ensures { IfOk result (λ out. out
        ≡ is_row_left_out shown (answers_in row.now.findings.now) row.now.index) }
{
    if is_passed_over(shown, row.findings, row.index) {
        return Ok(true);
    }
    if !shown.differing_alone {
        return Ok(false);
    }
    let agree = row.agree::<Verdicts>(pages)?;
    Ok(agree)
}

/// A record, what versions found of it, and what is shown. The oldest version has this number.
#[derive(Clone, Copy)]
pub struct Row<'f> {
    pub shown: Shown,
    pub oldest: u64,
    pub record: &'f Record,
    pub found: FindingsAt<'f>,
}
