//! What is found of the records of a case otherwise than in a base: several threads work it out, each for a chunk of
//! the records.

ghost use Rattle.std.specs.Prelude.{◌≡◌, ℕ, IfOk, List, length};
ghost use Rattle.std.specs.List.{AllZip};
ghost use Rattle.ll_semantics.specs.Worlds.{judged};
ghost use Rattle.ll_process.specs.Cases.{CaseValue};
ghost use Rattle.ll_findings.specs.Findings.{AreKept, FindingValue};
ghost use Rattle.ll_findings.specs.Chunks.{AreChunks, Covers, IsCompared};
ghost use Rattle.ll_findings.specs.declared.chunk.Chunk.{Chunk as OneChunk};

use crate::changes::Changes;
use crate::chunk::Chunk;
use crate::chunks::{answer_at, chunks_of, cut_all};
use crate::explained::SharedExplanation;
use crate::finding::Finding;
use crate::found::Found;
use ll_explanations::explain;
use ll_process::Case;
use ll_semantics::Answer;
use rayon::prelude::*;
use std::alloc::{AllocError, Global};
use std::thread::Threads;

/// What is found of consecutive records otherwise than in a base, or that memory ran out.
type Comparing = Result<Changes, AllocError>;

impl<'a> Chunk<'a> {
    /// What is found of its records otherwise than in a base.
    fn compared(self, alloc: Global, base: &Found) -> Comparing
        ensures { IsCompared base.now self.entry result }
    {
        let mut trails = self.trails;
        let mut changes = Changes::none(alloc);
        // A case has few records, as the contract of its trace's count says.
        let _count = self.case.trace().count();
        for index in self.from..self.end {
            let answer = answer_at(self.case, self.answers, index);
            let explanation = explain(alloc, self.case, &trails, index, answer)?;
            let answer = answer_at(self.case, self.answers, index);
            changes.note(alloc, base, self.newer, index, answer, explanation)?;
            let answer = answer_at(self.case, self.answers, index);
            trails.follow(alloc, self.case, index, answer)?;
        }
        Ok(changes)
    }
}

/// What is found of the records of chunks otherwise than in a base, each worked out by a thread of its own.
fn compare_each<'a, R: Threads + Sync>(
    rt: &R,
    alloc: Global,
    chunks: Vec<Chunk<'a>>,
    base: &Found,
) -> Result<Vec<Comparing>, AllocError>
    ensures { IfOk result
        (λ parts. AllZip (IsCompared base.now) chunks.entry.items parts.items) }
{
    chunks
        .into_par_iter()
        .map(
            move |chunk: Chunk| -> Comparing
                ensures { IsCompared base.entry.now chunk.entry result }
            { chunk.compared(alloc, base) },
        )
        .with_min_len(1)
        .collect(rt, alloc)
}

/// Appends what is found of the records of one chunk after the other.
fn join_changes(alloc: Global, parts: Vec<Comparing>) -> Comparing
    ensures { IfOk result (λ all. (case : CaseValue) (base : FindingValue)
        (chunks : List OneChunk) (end : ℕ) → AllZip (IsCompared base) chunks parts.items
        → AreChunks case 0 end chunks → Covers case base 0 end all) }
{
    let mut all = Changes::none(alloc);
    for part in parts {
        let own = part?;
        all.append(own)?;
    }
    Ok(all)
}

/// What is found of all records of a case otherwise than in a base, worked out by at most this many threads. An
/// explanation shares the memory of a like one that was found under a newer version.
pub(crate) fn compare_all<R: Threads + Sync>(
    rt: &R,
    alloc: Global,
    case: &Case<'_>,
    answers: &[Answer],
    newer: Option<&Finding>,
    base: &Found,
    workers: usize,
) -> Comparing
    requires { answers.now ≡ judged case.now.tree case.now.abi case.now.records }
    ensures { IfOk result (Covers case.now base.now 0 (length case.now.records)) }
{
    let whole = Chunk::whole(alloc, case, answers, newer);
    let chunks = cut_all(alloc, whole, chunks_of(case, workers))?;
    let parts = compare_each(rt, alloc, chunks, base)?;
    join_changes(alloc, parts)
}

/// What is kept of the explanations of all records of a case, worked out by at most this many threads: all that is found
/// of them, where nothing was found before.
pub(crate) fn explain_all<R: Threads + Sync>(
    rt: &R,
    alloc: Global,
    case: &Case<'_>,
    answers: &[Answer],
    workers: usize,
) -> Result<Vec<SharedExplanation>, AllocError>
    requires { answers.now ≡ judged case.now.tree case.now.abi case.now.records }
    ensures as_many { IfOk result (λ all. length all.items ≡ length case.now.records) }
    ensures each { IfOk result
        (λ all. AreKept case.now.tree case.now.abi case.now.records all.items) }
{
    let nothing = Found::nothing(alloc);
    let changes = compare_all(rt, alloc, case, answers, None, &nothing, workers)?;
    Ok(changes.into_explanations())
}
