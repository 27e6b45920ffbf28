//! What a report is made of.

ghost use Rattle.std.specs.Prelude.{◌≡◌, ◌<◌, OnOk, length};
ghost use Rattle.ll_explain.specs.Buffers.{adding};
ghost use Rattle.ll_report.specs.Made.{row_at};

use crate::pages::TooLong;
use ll_explain::TextBuffer;

/// What a report is made of: a row of each record, which may be empty, one after another, and the last lines.
pub trait Rows {
    ghost use Rattle.ll_report.specs.Made.{Made};

    // The rows and the last lines.
    ghost made_of: { Self → Made };

    /// How many rows there are.
    fn count(&self) -> usize
        ensures { result ≡ length (made_of self.now).shown };

    /// Adds the row at an index.
    fn push_row(&mut self, text: &mut TextBuffer, index: usize) -> Result<(), TooLong>
        requires { index < length (made_of self.old).shown }
        ensures row { OnOk result (text.new ≡ adding text.old (row_at (made_of self.old) index)) }
        ensures made { made_of self.new ≡ made_of self.old };

    /// Adds the last lines.
    fn push_last(&mut self, text: &mut TextBuffer)
        ensures last { text.new ≡ adding text.old (made_of self.old).last }
        ensures made { made_of self.new ≡ made_of self.old };
}
