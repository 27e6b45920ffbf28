//! What is found under one version: the answers to the records of a case, and their explanations as values.

ghost use Rattle.std.specs.Prelude.{◌≡◌, Decides, IfOk, length, option_map, slice_get};
ghost use Rattle.std.specs.Bool.{OnTrue};
ghost use Rattle.ll_semantics.specs.Worlds.{judged};
ghost use Rattle.ll_findings.specs.Alike.{FindsAs, MarksUnless};
ghost use Rattle.ll_findings.specs.Findings.{Finds, answer_in, kept_at, said_in, with_changes};
ghost use Rattle.ll_findings.specs.Overlays.{Rise};

use crate::changes::Changes;
use crate::comparing::{compare_all, explain_all};
use crate::explained::SharedExplanation;
use crate::found::Found;
use crate::indices::Indices;
use crate::marks::{mark_all, mark_differing};
use crate::overlay::overlaid;
use ll_explanations::Explanation;
use ll_process::Case;
use ll_semantics::Answer;
use ll_trace::{Op, Record};
use std::alloc::{AllocError, Global};
use std::marker::Model;
use std::sync::Arc;
use std::thread::Threads;

/// What is found under a version: the answers to all records, and their explanations, if these are kept. An older
/// version may share its base with a newer one: then it keeps only what it finds otherwise, and of which records. A
/// version without changes finds what its base has.
#[derive(Drop)]
pub struct Finding {
    base: Arc<Found>,
    indices: Indices,
    changes: Found,
}

impl Model for Finding {
    ghost use Rattle.ll_findings.specs.Findings.{FindingValue, with_changes};

    ghost Value = { FindingValue };

    ghost view = { λ finding.
        with_changes finding.base.value finding.indices finding.changes };
}

impl Finding {
    /// What is found of the records of a case, by the answers to them. At most this many threads work the explanations
    /// out.
    pub fn of<R: Threads + Sync>(
        rt: &R,
        alloc: Global,
        case: &Case<'_>,
        answers: Vec<Answer>,
        explains: bool,
        workers: usize,
    ) -> Result<Finding, AllocError>
        requires { answers.items ≡ judged case.now.tree case.now.abi case.now.records }
        ensures { IfOk result (Finds explains case.now.tree case.now.abi case.now.records) }
    {
        if !explains {
            return Ok(Finding::whole(alloc, answers, Vec::new(alloc))?);
        }
        let explanations = explain_all(rt, alloc, case, &answers, workers)?;
        Ok(Finding::whole(alloc, answers, explanations)?)
    }

    /// What is found under an older version, by the answers to its records. Marks the records of which the two versions
    /// find different things. An explanation shares the memory of the newer version's one if both are the same.
    pub(crate) fn older<R: Threads + Sync>(
        &self,
        rt: &R,
        alloc: Global,
        case: &Case<'_>,
        answers: Vec<Answer>,
        explains: bool,
        marks: &mut Vec<bool>,
        workers: usize,
    ) -> Result<Finding, AllocError>
        requires { answers.items ≡ judged case.now.tree case.now.abi case.now.records }
        ensures finds { IfOk result (Finds explains case.now.tree case.now.abi case.now.records) }
        ensures marks { IfOk result (λ finding. MarksUnless (λ at. FindsAs finding at self.now)
            marks.old.items marks.new.items) }
    {
        if explains && self.base.is_about_all(answers.len()) {
            let changes = compare_all(rt, alloc, case, &answers, Some(self), &self.base, workers)?;
            mark_all(marks, &changes.indices);
            mark_all(marks, self.indices.as_slice());
            return Ok(Finding::over(alloc, &self.base, changes)?);
        }
        let finding = Finding::of(rt, alloc, case, answers, explains, workers)?;
        mark_differing(marks, &finding, self);
        Ok(finding)
    }

    /// What was found, all of which is kept.
    #[tactic(auto, using(crate::proofs::Overlaying::all_stays))]
    fn whole(
        alloc: Global,
        answers: Vec<Answer>,
        explanations: Vec<SharedExplanation>,
    ) -> Result<Finding, AllocError>
        ensures { IfOk result (λ finding. finding
            ≡ record { answers = answers.items; explanations = explanations.items }) }
    {
        let found = Found {
            answers,
            explanations,
        };
        Ok(Finding {
            base: Arc::new(alloc, found)?,
            indices: Indices::none(alloc),
            changes: Found::nothing(alloc),
        })
    }

    /// What is found, of which only the changes to a base are kept.
    fn over(alloc: Global, base: &Arc<Found>, changes: Changes) -> Result<Finding, AllocError>
        requires { Rise 0 changes.indices }
        ensures { IfOk result (λ finding. finding
            ≡ with_changes base.now.value changes.indices changes.found) }
    {
        let Changes { indices, found } = changes;
        Ok(Finding {
            base: Arc::try_clone(base)?,
            indices: Indices::of(alloc, indices)?,
            changes: found,
        })
    }

    /// How many records are answered.
    #[tactic(auto, using(crate::proofs::Overlaying::as_many_overlaid))]
    pub fn count(&self) -> usize
        ensures { result ≡ length self.now.answers }
    {
        self.base.count()
    }

    /// The answer to the record at an index.
    pub fn answer(&self, index: usize) -> Answer
        ensures { result ≡ answer_in self.now index }
    {
        match overlaid(
            &self.base.answers,
            &self.indices,
            &self.changes.answers,
            index,
        ) {
            Some(answer) => *answer,
            None => Answer::Moot,
        }
    }

    /// What is kept of the explanation of the record at an index.
    pub(crate) fn kept(&self, index: usize) -> Option<&SharedExplanation>
        ensures { option_map (λ kept. kept.now) result ≡ slice_get self.now.explanations index }
    {
        overlaid(
            &self.base.explanations,
            &self.indices,
            &self.changes.explanations,
            index,
        )
    }

    /// The explanation that is kept of the record at an index; none if there is nothing to explain.
    fn explained_at(&self, index: usize) -> Option<&Explanation>
        ensures { option_map (λ e. e.now) result ≡ kept_at self.now index }
    {
        self.kept(index)?.get()
    }

    /// The call and the explanation of the record at an index; none if there is nothing to explain. The records are
    /// those of the case, or as an older version takes them.
    pub fn explained<'a>(
        &'a self,
        records: &'a [Record],
        index: usize,
    ) -> Option<(&'a Op, &'a Explanation)>
        ensures { option_map (λ said. (said.0.now, said.1.now)) result
            ≡ said_in records.now self.now index }
    {
        let record = records.get(index)?;
        let explanation = self.explained_at(index)?;
        Some((&record.op, explanation))
    }

    /// Whether another finding explains the record at an index by the same value, or neither explains it.
    pub fn explains_as(&self, other: &Finding, index: usize) -> bool
        ensures { Decides result (kept_at self.now index ≡ kept_at other.now index) }
    {
        if self.base.explains_nothing() && other.base.explains_nothing() {
            return true;
        }
        match (self.explained_at(index), other.explained_at(index)) {
            (Some(explained), Some(others)) => explained.is_same(others),
            (None, None) => true,
            _ => false,
        }
    }

    /// Whether this finding and another one find the same of the record at an index.
    pub(crate) fn finds_as(&self, one: &Finding, index: usize) -> bool
        ensures { OnTrue result (FindsAs one.now index self.now) }
    {
        self.answer(index) == one.answer(index) && self.explains_as(one, index)
    }
}
