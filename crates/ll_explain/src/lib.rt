//! Says why calls are refused or not asked, record after record of a trace that was judged.
#![tactic(auto)]

mod buffer;
mod conditions;
mod found;
mod laws;
mod objections;
mod reasons;
mod rights;
mod words;

pub use buffer::TextBuffer;
pub use found::{push_found, push_value};
pub use laws::{findings_say_what_is_judged, worked_words};
pub use objections::{line_at, line_made, path_opened};
pub use rights::{WordedSet, word_for};
pub use words::{push_escaped, push_number, push_words};
