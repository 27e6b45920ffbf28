//! What a run comes to, and how it ends.

ghost use Rattle.std.specs.Prelude.{◌≡◌};
ghost use Rattle.ll_audit.specs.Outcomes.{Complains, EndsWith};

use crate::lines::Failure;
use crate::report_text::ReportText;
use ll_command::{Message, Misuse};
use std::io;
use std::io::Write;

/// What a run comes to, before anything is written.
#[derive(Drop)]
pub enum Outcome<'a> {
    /// A report.
    Report(ReportText),
    /// Help or the version was asked for.
    Text(Message),
    /// The command line is at fault, as the message says.
    Usage(Message),
    /// The command line is at fault, though each word is as its rule has it.
    Misuse(Misuse),
    /// No report.
    Failure(Failure<'a>),
}

/// How a run ended.
#[derive(Clone, Copy, Debug, PartialEq, Eq)]
pub struct Ending {
    /// The program's status.
    pub status: u8,
    /// Whether all that there was to say on the error output could be written.
    pub told: bool,
}

impl Outcome<'_> {
    /// Writes the report, the help or the version to `out`, or what is wrong to `err`, and gives the status.
    pub fn write_to<O: Write, E: Write>(self, out: &mut O, err: &mut E) -> Ending
        ensures { EndsWith (record { contents = O.contents; old = out.old; new = out.new })
            (record { contents = E.contents; old = err.old; new = err.new }) self.entry result }
    {
        match self {
            Outcome::Report(report) => {
                let status = report.status();
                match report.write_to(out) {
                    Ok(()) => Ending { status, told: true },
                    Err(_) => complain(&Failure::Unwritten, err),
                }
            }
            Outcome::Text(text) => match write_text(out, &text) {
                Ok(()) => Ending {
                    status: 0,
                    told: true,
                },
                Err(_) => complain(&Failure::Unwritten, err),
            },
            Outcome::Usage(message) => wrong_words(write!(err, "{message}").is_ok()),
            Outcome::Misuse(why) => { wrong_words(writeln!(err, "landaudit: {why}").is_ok()) }
            Outcome::Failure(failure) => complain(&failure, err),
        }
    }
}

/// How a run ends whose words are wrong.
fn wrong_words(told: bool) -> Ending
    ensures { result ≡ record { status = 2; told = told } }
{
    Ending { status: 2, told }
}

fn write_text<O: Write>(out: &mut O, text: &Message) -> io::Result<()> {
    write!(out, "{text}")?;
    out.flush()
}

/// Writes the line of a failure, if that can be done, and gives the status.
#[tactic(auto, unfolding(crate::specs::FaultLines::WritesLine))]
fn complain<E: Write>(failure: &Failure<'_>, err: &mut E) -> Ending
    ensures { Complains failure.now result (E.contents err.old) (E.contents err.new) }
{
    let told = failure.write_to(err).is_ok();
    Ending {
        status: failure.status(),
        told,
    }
}
