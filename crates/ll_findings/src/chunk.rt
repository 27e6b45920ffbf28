//! Consecutive records of a case.

ghost use Rattle.std.specs.Prelude.{◌≡◌, ◌≤◌, length};
ghost use Rattle.ll_semantics.specs.Worlds.{judged};
ghost use Rattle.ll_origins.specs.CaseTrails.{AreTrailsAt};

use crate::finding::Finding;
use ll_origins::TraceOrigins;
use ll_process::Case;
use ll_semantics::Answer;
use std::alloc::Global;

/// Consecutive records of a case, with the answers to all records of the case, and the origins of everything that its
/// processes have before the first of these records.
#[derive(Drop)]
pub(crate) struct Chunk<'a> {
    pub(crate) case: &'a Case<'a>,
    pub(crate) answers: &'a [Answer],
    pub(crate) newer: Option<&'a Finding>,
    pub(crate) trails: TraceOrigins,
    pub(crate) from: usize,
    pub(crate) end: usize,
    ghost judged: { answers.now ≡ judged case.now.tree case.now.abi case.now.records },
    ghost rises: { from ≤ end },
    ghost within: { end ≤ length answers.now },
    ghost begins: { AreTrailsAt case.now from trails },
}

impl<'a> Chunk<'a> {
    /// All records of a case.
    pub(crate) fn whole(
        alloc: Global,
        case: &'a Case<'a>,
        answers: &'a [Answer],
        newer: Option<&'a Finding>,
    ) -> Chunk<'a>
        requires { answers.now ≡ judged case.now.tree case.now.abi case.now.records }
        ensures case { result.case.now ≡ case.now }
        ensures from { result.from ≡ 0 }
        ensures end { result.end ≡ length answers.now }
    {
        Chunk {
            case,
            answers,
            newer,
            trails: TraceOrigins::new(alloc),
            from: 0,
            end: answers.len(),
        }
    }
}
