//! The records of a case, cut into chunks, each of which a thread explains.

ghost use Rattle.std.specs.Prelude.{◌≡◌, ◌<◌, ◌≤◌, IfOk, OnOk, length};
ghost use Rattle.ll_semantics.specs.Worlds.{judged};
ghost use Rattle.ll_origins.specs.CaseTrails.{AreTrailsAt, IsAnswerAt};
ghost use Rattle.ll_findings.specs.Chunks.{AreChunks};

use crate::chunk::Chunk;
use ll_origins::TraceOrigins;
use ll_process::Case;
use ll_semantics::Answer;
use std::alloc::{AllocError, Global};

/// The most chunks into which a trace is cut.
const MOST_CHUNKS: usize = 4;

/// How many records each process has in a chunk at least, on average.
const RECORDS_EACH: usize = 8;

/// The answer to the record at an index of a case.
pub(crate) fn answer_at(case: &Case<'_>, answers: &[Answer], index: usize) -> Answer
    requires judged { answers.now ≡ judged case.now.tree case.now.abi case.now.records }
    requires within { index < length answers.now }
    ensures answer { IsAnswerAt case.now index result }
    ensures index { index < length case.now.records }
{
    answers[index]
}

/// Follows the records of a case from an index on, up to another.
fn follow_to(
    alloc: Global,
    case: &Case<'_>,
    answers: &[Answer],
    trails: &mut TraceOrigins,
    from: usize,
    end: usize,
) -> Result<(), AllocError>
    requires judged { answers.now ≡ judged case.now.tree case.now.abi case.now.records }
    requires rises { from ≤ end }
    requires within { end ≤ length answers.now }
    requires begins { AreTrailsAt case.now from trails.old }
    ensures { OnOk result (AreTrailsAt case.now end trails.new) }
{
    for index in from..end {
        trails.follow(alloc, case, index, answer_at(case, answers, index))?;
    }
    Ok(())
}

impl<'a> Chunk<'a> {
    /// Splits this chunk into one of its first records, of which there are so many, and one of the others.
    fn cut(self, alloc: Global, size: usize) -> Result<(Chunk<'a>, Chunk<'a>), AllocError>
        ensures cases { IfOk result (λ both. (both.0.case.now ≡ self.entry.case.now)
            × (both.1.case.now ≡ self.entry.case.now)) }
        ensures from { IfOk result (λ both. both.0.from ≡ self.entry.from) }
        ensures middle { IfOk result (λ both. both.1.from ≡ both.0.end) }
        ensures end { IfOk result (λ both. both.1.end ≡ self.entry.end) }
    {
        let middle = self.from + size.min(self.end - self.from);
        let mut later = self.trails.again()?;
        follow_to(
            alloc,
            self.case,
            self.answers,
            &mut later,
            self.from,
            middle,
        )?;
        let others = Chunk {
            case: self.case,
            answers: self.answers,
            newer: self.newer,
            trails: later,
            from: middle,
            end: self.end,
        };
        let first = Chunk {
            case: self.case,
            answers: self.answers,
            newer: self.newer,
            trails: self.trails,
            from: self.from,
            end: middle,
        };
        Ok((first, others))
    }
}

/// Cuts a chunk into so many chunks of about one size; 0 counts as one.
pub(crate) fn cut_all<'a>(
    alloc: Global,
    whole: Chunk<'a>,
    count: usize,
) -> Result<Vec<Chunk<'a>>, AllocError>
    ensures { IfOk result (λ chunks. AreChunks whole.entry.case.now whole.entry.from
        whole.entry.end chunks.items) }
{
    let size = (whole.end - whole.from) / count.max(1) + 1;
    let mut chunks = Vec::new(alloc);
    let mut rest = whole;
    for _ in 1..count {
        let (first, others) = rest.cut(alloc, size)?;
        chunks.reserve(1)?;
        chunks.push_reserved(first);
        rest = others;
    }
    chunks.reserve(1)?;
    chunks.push_reserved(rest);
    Ok(chunks)
}

/// The number of chunks in which the records of a case are explained. Each takes a copy of what is known of all
/// processes.
pub(crate) fn chunks_of(case: &Case<'_>, workers: usize) -> usize {
    let processes = case.processes().max(1) as usize;
    let worth = case.count() / processes / RECORDS_EACH;
    workers.min(MOST_CHUNKS).min(worth.max(1))
}
