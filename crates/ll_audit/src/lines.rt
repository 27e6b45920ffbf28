//! The lines on standard error.

ghost use Rattle.std.specs.Prelude.{◌≡◌, ◌++◌, codes};
ghost use Rattle.ll_audit.specs.declared.lines.Failure.TheVariants.{Audit};
ghost use Rattle.ll_audit.specs.FaultLines.{WritesLine, cause_name, error_line, failure_line, failure_status, fault_line, read_fault_text};

use crate::fault::Fault;
use itoa::Buffer;
use ll_lines::{Cause, ReadFault};
use ll_report::write_texts;
use std::io;
use std::io::Write;

/// Why a run ends without a report.
#[derive(Clone, Copy, Debug)]
pub enum Failure<'a> {
    /// The audit gives no report.
    Audit(Fault),
    /// The file of this name can't be read.
    Unread(&'a str),
    /// The output can't be written.
    Unwritten,
}

impl From<Fault> for Failure<'_> {
    ghost from_gives = { λ fault failure. failure ≡ Audit fault };

    fn from(fault: Fault) -> Self {
        Failure::Audit(fault)
    }
}

impl Failure<'_> {
    /// The program's status.
    pub fn status(&self) -> u8
        ensures { result ≡ failure_status self.now }
    {
        match self {
            Failure::Audit(Fault::Tree(_) | Fault::Trace(_)) | Failure::Unread(_) => 3,
            Failure::Audit(Fault::Workers | Fault::Memory | Fault::NoThread) | Failure::Unwritten =>
                4,
        }
    }

    /// Writes the line for standard error. Where that fails a beginning of it was written.
    pub fn write_to<W: Write>(&self, err: &mut W) -> io::Result<()>
        ensures { WritesLine result (W.contents err.old) (W.contents err.new)
            (failure_line self.now) }
    {
        match self {
            Failure::Audit(fault) => write_fault(err, fault),
            Failure::Unread(name) => write_unread(err, name),
            Failure::Unwritten => write_line(err, "cannot write"),
        }
    }
}

/// Writes the line of an audit that gives no report.
fn write_fault<W: Write>(err: &mut W, fault: &Fault) -> io::Result<()>
    ensures { WritesLine result (W.contents err.old) (W.contents err.new)
        (fault_line fault.now) }
{
    match fault {
        Fault::Tree(bad) => write_read_fault(err, "tree", bad),
        Fault::Trace(bad) => write_read_fault(err, "trace", bad),
        Fault::Workers => write_line(err, "no such number of workers"),
        Fault::Memory => write_line(err, "no memory"),
        Fault::NoThread => write_line(err, "no thread"),
    }
}

/// Writes a line of one text behind the program's name.
#[tactic(auto, unfolding(crate::specs::FaultLines::error_line, crate::specs::FaultLines::WritesLine))]
fn write_line<W: Write>(err: &mut W, text: &str) -> io::Result<()>
    ensures { WritesLine result (W.contents err.old) (W.contents err.new)
        (error_line text.now) }
{
    write_texts(err, &["landaudit: ", text, "\n"])
}

/// Writes the line on a file of this name that can't be read.
#[tactic(auto, unfolding(crate::specs::FaultLines::error_line, crate::specs::FaultLines::WritesLine))]
fn write_unread<W: Write>(err: &mut W, name: &str) -> io::Result<()>
    ensures { WritesLine result (W.contents err.old) (W.contents err.new)
        (failure_line (Failure.Unread name.entry)) }
{
    write_texts(err, &["landaudit: ", "cannot read ", name, "\n"])
}

/// Writes the line that says which line of a file is wrong, and why.
fn write_read_fault<W: Write>(err: &mut W, file: &str, fault: &ReadFault) -> io::Result<()>
    ensures { WritesLine result (W.contents err.old) (W.contents err.new)
        (error_line (read_fault_text file.now fault.now)) }
{
    let mut buffer = Buffer::new();
    let line = buffer.format(fault.line);
    write_words(err, file, line, name_of(fault.cause))
}

/// Writes the line on this line of a file, which has this cause.
fn write_words<'t, W: Write>(
    err: &mut W,
    file: &'t str,
    line: &'t str,
    cause: &'t str,
) -> io::Result<()>
    ensures { WritesLine result (W.contents err.old) (W.contents err.new)
        (error_line (file.now ++ codes " line " ++ line.now ++ codes ": " ++ cause.now)) }
{
    write_texts(
        err,
        &["landaudit: ", file, " line ", line, ": ", cause, "\n"],
    )
}

fn name_of(cause: Cause) -> &'static str
    ensures { result.now ≡ cause_name cause }
{
    match cause {
        Cause::Json => "Json",
        Cause::Field => "Field",
        Cause::BadPath => "BadPath",
        Cause::NoParent => "NoParent",
        Cause::Twice => "Twice",
        Cause::TooMany => "TooMany",
        Cause::UnknownProcess => "UnknownProcess",
        Cause::Memory => "Memory",
    }
}
