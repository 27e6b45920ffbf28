//! The audit as a whole: the report that two files come to, and the program over its words, files and outputs.
#![tactic(auto)]

mod auditing;
mod cut;
mod fault;
mod files;
mod inputs;
mod judged;
mod laws;
mod lines;
mod outcome;
mod program;
mod ranging;
mod report_text;
mod source;
mod workers;

pub use auditing::{audit, audit_with};
pub use cut::Cut;
pub use fault::Fault;
pub use files::FileSource;
pub use laws::{
    limits_of_reading, plain_options_ask_for_the_report, reports_have_a_total_for_each_version,
    the_report_has_the_words_of_the_trace, the_same_bytes_have_one_report,
};
pub use ll_command::{command_lines, words_without_a_fault_name_a_run};
pub use ll_report::{ALL_LINES, Format, Options, Report, Shown, empty_report};
pub use ll_rights::AbiRange;
pub use ll_trace::Effort;
pub use outcome::Ending;
pub use program::{Resources, front};
pub use source::{LARGEST_FILE, MemorySource, Source, SourceFault};
pub use workers::Idle;
