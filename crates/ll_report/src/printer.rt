//! How what is found of a record under one version is printed.

ghost use Rattle.std.specs.Prelude.{◌≡◌};
ghost use Rattle.ll_explain.specs.Buffers.{adding};
ghost use Rattle.ll_findings.specs.{Findings.kept_at, InTree.IsKeptIn};
ghost use Rattle.ll_report.specs.InTreeOnce.{IsKeptIn-once};
ghost use Rattle.ll_report.specs.Printed.{printed_of, text_printed, verdict_printed};

use crate::report::push_verdict;
use ll_explain::{TextBuffer, push_found};
use ll_findings::Finding;
use ll_trace::Record;
use ll_tree::Tree;

/// What a version found of the record at an index, with what it takes to print it. An explanation names nodes of this tree.
#[derive(Clone, Copy)]
pub struct FindingAt<'f> {
    pub tree: &'f Tree,
    pub records: &'f [Record],
    pub finding: &'f Finding,
    pub index: usize,
    pub ghost inside: { IsKeptIn tree.now (kept_at finding.now index) } by { IsKeptIn-once tree.now (kept_at finding.now index) },
}

/// A way to print what is found of a record under a version.
pub trait Printer {
    ghost use Rattle.ll_report.specs.Printed.{Printing};

    ghost printed: { Printing };

    /// Adds what is found of the record.
    fn print(text: &mut TextBuffer, here: &FindingAt<'_>)
        ensures { text.new ≡ adding text.old (printed_of printed here.now.tree.now
            here.now.records.now here.now.index here.now.finding.now) };
}

/// Answers, as they stand behind records.
pub struct Verdicts;

impl Printer for Verdicts {
    ghost printed = { verdict_printed };

    fn print(text: &mut TextBuffer, here: &FindingAt<'_>) {
        push_verdict(text, &here.finding.answer(here.index));
    }
}

/// Explanations, as the lines behind those of records.
pub struct InWords;

impl Printer for InWords {
    ghost printed = { text_printed };

    fn print(text: &mut TextBuffer, here: &FindingAt<'_>) {
        push_found(text, here.tree, here.records, here.finding, here.index);
    }
}
