//! What an audit found, with the tree and the trace.

ghost use Rattle.std.specs.Prelude.{◌≡◌, ◌<◌, get_or, length};
ghost use Rattle.ll_findings.specs.InTree.{AreFindingsIn};
ghost use Rattle.ll_report.specs.InTreeOnce.{AreFindingsIn-once};
ghost use Rattle.ll_report.specs.Made.{line_numbers};

use ll_findings::Findings;
use ll_trace::Located;

/// A tree and a trace, and what was found of them under some versions: explanations name nodes of this tree. Where the
/// trace's paths lead is looked up once for all versions.
#[derive(Drop)]
pub struct Audited {
    pub located: Located,
    pub findings: Findings,
    pub ghost inside: { AreFindingsIn located.tree findings } by { AreFindingsIn-once located.tree findings },
}

impl Audited {
    /// How many records there are.
    pub fn count(&self) -> usize
        ensures { result ≡ length self.now.located.trace }
    {
        self.located.trace.records().len()
    }

    /// The line of the record at an index.
    pub fn line(&self, index: usize) -> u64
        requires { index < length self.now.located.trace }
        ensures { result ≡ get_or (line_numbers self.now.located.trace) index 0 }
    {
        self.located.trace.records()[index].line
    }
}
