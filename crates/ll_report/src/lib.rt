//! The report: of each record or each kind of records its line and its explanation, and the totals of each version.
#![tactic(auto)]

mod audited;
mod calls;
mod findings_at;
mod formed;
mod grouped;
mod kinds;
mod laws;
mod made;
mod names;
mod options;
mod paged;
mod pages;
mod printer;
mod report;
mod row_report;
mod rows;
mod spans;
mod version_rows;
mod writing;

pub use audited::Audited;
pub use calls::Named;
pub use findings_at::FindingsAt;
pub use formed::{RowForm, report_in};
pub use grouped::Grouped;
pub use laws::{
    empty_report, findings_say_what_is_found, kinds_part_the_records,
    spans_give_back_what_was_said, worked_kinds,
};
pub use made::Rows;
pub use names::error_name;
pub use options::{ALL_LINES, Format, Options, Shown};
pub use paged::Paged;
pub use pages::{Pages, TooLong};
pub use printer::{FindingAt, InWords, Printer, Verdicts};
pub use report::{Report, Totals};
pub use row_report::RowReport;
pub use rows::{Row, is_left_out};
pub use spans::Form;
pub use version_rows::{VersionRows, report_over};
pub use writing::{write_texts, write_whole};
