//! What versions found of a record.

ghost use Rattle.std.specs.Prelude.{◌≡◌, ◌<◌, [], get_or, length, true};
ghost use Rattle.ll_explain.specs.Buffers.{adding};
ghost use Rattle.ll_findings.specs.InTree.{AreFindingsIn, IsFindingIn};
ghost use Rattle.ll_report.specs.InTreeOnce.{AreFindingsIn-once};

use crate::printer::{FindingAt, Printer};
use ll_explain::TextBuffer;
use ll_findings::{Finding, Findings};
use ll_trace::Record;
use ll_tree::Tree;

/// What versions found of the record at an index, the oldest first, with what it takes to print it. Explanations name
/// nodes of this tree.
#[derive(Clone, Copy)]
pub struct FindingsAt<'f> {
    pub findings: &'f Findings,
    pub index: usize,
    pub tree: &'f Tree,
    pub records: &'f [Record],
    pub ghost inside: { AreFindingsIn tree.now findings.now } by { AreFindingsIn-once tree.now findings.now },
}

impl<'f> FindingsAt<'f> {
    ghost use Rattle.ll_report.specs.Printed.{printed_of, texts_of};

    /// How many versions there are.
    pub fn versions(&self) -> usize
        ensures { result ≡ length self.now.findings.now }
    {
        self.findings.as_slice().len()
    }

    /// Adds what a version found.
    pub fn print<P: Printer>(&self, text: &mut TextBuffer, version: usize)
        requires { version < length self.now.findings.now }
        ensures { text.new ≡ adding text.old (get_or (texts_of P.printed self.now) version []) }
    {
        self.print_of::<P>(text, &self.findings.as_slice()[version]);
    }

    /// Adds what a finding has of the record.
    fn print_of<P: Printer>(&self, text: &mut TextBuffer, finding: &'f Finding)
        requires { IsFindingIn self.now.tree.now finding.now }
        ensures { text.new ≡ adding text.old (printed_of P.printed self.now.tree.now
            self.now.records.now self.now.index finding.now) }
    {
        let here = FindingAt {
            tree: self.tree,
            records: self.records,
            finding,
            index: self.index,
        };
        P::print(text, &here);
    }

    /// Whether two versions answer and explain the record by the same values, so that the same is printed.
    pub(crate) fn find_alike<P: Printer>(&self, one: usize, other: usize) -> bool
        requires one { one < length self.now.findings.now }
        requires other { other < length self.now.findings.now }
        ensures { result ≡ true → get_or (texts_of P.printed self.now) one []
            ≡ get_or (texts_of P.printed self.now) other [] }
    {
        let first = &self.findings.as_slice()[one];
        let second = &self.findings.as_slice()[other];
        first.answer(self.index) == second.answer(self.index)
            && first.explains_as(second, self.index)
    }
}
