//! The answers to the comparisons on the lines of a file.

ghost use Rattle.std.specs.Prelude.{◌≡◌, ◌≢◌, ◌++◌, ℕ, List, IfOk, IfErr, OnOk};
ghost use Rattle.ll_lines.specs.declared.fault.Cause.TheVariants.{Memory as NoMemoryLeft};
ghost use Rattle.ll_lines.specs.{LineByLine.line_view, Readers.Fails, Reading.IsBad};
ghost use Rattle.ll_values.specs.Texts.{line_of};
ghost use Rattle.ll_comparison.specs.Answers.{AreAnswers, IsAnswer, comparison_format};
ghost use Rattle.ll_comparison.specs.{Comparisons.comparison_on, Texts.found_json};

use crate::comparison::Comparison;
use crate::found::{Found, compare};
use crate::told::Told;
use json::Writer;
use ll_lines::lines::{FileLine, FilledLines};
use ll_lines::{Cause, ReadFault};
use std::alloc::{AllocError, Global};

/// What is found, as a line of JSON.
fn line_of(alloc: Global, found: &Found) -> Result<Vec<u8>, AllocError>
    ensures { IfOk result (λ line. line.items ≡ line_of (found_json found.now)) }
{
    let mut out = Writer::new(Vec::new(alloc));
    found.write(&mut out)?;
    let mut line = out.into_inner();
    line.push(b'\n')?;
    Ok(line)
}

/// The answer to the comparison on a line.
fn answer(alloc: Global, line: &FileLine<'_>) -> Result<Vec<u8>, Cause>
    ensures answer { IfOk result (λ text. IsAnswer (line_view line.now) text.items) }
    ensures fault { IfErr result (λ cause. Fails cause (comparison_on line.now.bytes.now)) }
{
    let comparison = Comparison::read(alloc, line.bytes)?;
    let found = compare(alloc, &comparison)?;
    Ok(line_of(alloc, &found)?)
}

/// Puts the answer to the comparison on a line behind those before it.
fn take_answer(alloc: Global, line: &FileLine<'_>, text: &mut Vec<u8>) -> Result<(), Cause>
    ensures answer { OnOk result
        ((own : List ℕ) × (text.new.items ≡ text.old.items ++ own)
        × IsAnswer (line_view line.now) own) }
    ensures fault { IfErr result (λ cause. Fails cause (comparison_on line.now.bytes.now)) }
{
    let own = answer(alloc, line)?;
    text.extend_from_slice(&own)?;
    Ok(())
}

/// Compares the two policies on each line that isn't blank, and answers each with a line. A file with a line that does
/// not read gets no answers, but the number of the first such line and its first fault. If memory runs out, the line
/// is the one that was at hand.
#[tactic(auto, using(crate::proofs::Answered::answered_all))]
pub fn compare_lines(alloc: Global, bytes: &[u8]) -> Result<Vec<u8>, ReadFault>
    ensures answers { IfOk result (λ text. AreAnswers bytes.now text.items) }
    ensures fault { IfErr result (λ fault. fault.cause ≢ NoMemoryLeft
        → IsBad comparison_format bytes.now fault) }
{
    let mut text = Vec::new(alloc);
    for line in FilledLines::new(bytes) {
        if let Err(cause) = take_answer(alloc, &line, &mut text) {
            return Err(line.fault(cause));
        }
    }
    Ok(text)
}
