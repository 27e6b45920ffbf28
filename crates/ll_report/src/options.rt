//! Which report is asked for.

use ll_rights::AbiRange;
use ll_trace::Effort;

/// What of a report is shown. The totals are always shown, and they are those of all records.
#[derive(Clone, Copy, Debug, PartialEq, Eq)]
pub struct Shown {
    /// Whether the explanation of a record that is refused or moot is behind its line.
    pub explanations: bool,
    /// Whether the lines of records alone are shown that some version refuses.
    pub refused_alone: bool,
    /// Whether the lines of records alone are shown whose answer isn't the same under all versions.
    pub differing_alone: bool,
    /// Whether records of which the same is said are one line.
    pub kinds: bool,
}

/// All records are shown, one by one, without explanations.
pub const ALL_LINES: Shown = Shown {
    explanations: false,
    refused_alone: false,
    differing_alone: false,
    kinds: false,
};

/// In which form a report is written. Both forms say the same of the same records.
#[derive(Clone, Copy, Debug, PartialEq, Eq)]
pub enum Format {
    /// Lines of words.
    Text,
    /// JSON Lines: an object for each record that is shown, and one with the totals.
    Json,
}

/// The options of an audit: the versions of Landlock's interface that answer, how rulesets are taken,
/// how much of the report is shown, and in which form it is written.
#[derive(Clone, Copy, Debug, PartialEq, Eq)]
pub struct Options {
    pub abis: AbiRange,
    pub effort: Effort,
    pub shown: Shown,
    pub format: Format,
}
