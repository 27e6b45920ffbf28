//! What is found of some records otherwise than in a base.

ghost use Rattle.std.specs.Prelude.{◌≡◌, ◌<◌, ◌^◌, [], IfOk, OnOk};
ghost use Rattle.ll_findings.specs.Findings.{Notes, both_changed, changed_once};
ghost use Rattle.ll_findings.specs.Kept.{kept_of};

use crate::explained::SharedExplanation;
use crate::finding::Finding;
use crate::found::Found;
use ll_explanations::Explanation;
use ll_semantics::Answer;
use std::alloc::{AllocError, Global};
use std::marker::Model;

/// The indices of records of which something else is found than in a base, in rising order, and what is found of each.
#[derive(Drop)]
pub(crate) struct Changes {
    pub(crate) indices: Vec<u32>,
    pub(crate) found: Found,
}

impl Model for Changes {
    ghost use Rattle.ll_findings.specs.Findings.{ChangesValue};

    ghost Value = { ChangesValue };

    ghost view = { λ changes.
        record { indices = changes.indices.items; found = changes.found } };
}

/// What is kept of an explanation of the record at an index. It shares the memory of what is kept under a newer version,
/// where that is like it.
fn keep(
    alloc: Global,
    newer: Option<&Finding>,
    index: usize,
    explanation: Explanation,
) -> Result<SharedExplanation, AllocError>
    ensures { IfOk result (λ kept. kept ≡ kept_of explanation) }
{
    let newer = match newer {
        Some(newer) => newer.kept(index),
        None => None,
    };
    SharedExplanation::new(alloc, explanation, newer)
}

impl Changes {
    /// No change.
    pub(crate) fn none(alloc: Global) -> Changes
        ensures { result
            ≡ record { indices = []; found = record { answers = []; explanations = [] } } }
    {
        Changes {
            indices: Vec::new(alloc),
            found: Found::nothing(alloc),
        }
    }

    /// Adds what is found of the record at an index.
    fn push(
        &mut self,
        index: u32,
        answer: Answer,
        kept: SharedExplanation,
    ) -> Result<(), AllocError>
        ensures { OnOk result
            (self.new ≡ both_changed self.old (changed_once index answer kept)) }
    {
        self.indices.push(index)?;
        self.found.push(answer, kept)
    }

    /// Adds what is found of the record at an index, unless the base has the same.
    pub(crate) fn note(
        &mut self,
        alloc: Global,
        base: &Found,
        newer: Option<&Finding>,
        index: usize,
        answer: Answer,
        explanation: Explanation,
    ) -> Result<(), AllocError>
        requires { index < 2 ^ 32 }
        ensures { OnOk result
            (Notes base.now index answer (kept_of explanation) self.old self.new) }
    {
        if base.has(index, answer, &explanation) {
            return Ok(());
        }
        self.push(
            index as u32,
            answer,
            keep(alloc, newer, index, explanation)?,
        )
    }

    /// Adds changes about records behind those of these.
    pub(crate) fn append(&mut self, others: Changes) -> Result<(), AllocError>
        ensures { OnOk result (self.new ≡ both_changed self.old others) }
    {
        let Changes { mut indices, found } = others;
        self.indices.append(&mut indices)?;
        self.found.append(found)
    }

    /// What is kept of the explanations.
    pub(crate) fn into_explanations(self) -> Vec<SharedExplanation>
        ensures { result.items ≡ self.found.explanations }
    {
        let Changes { found, .. } = self;
        let Found { explanations, .. } = found;
        explanations
    }
}
