//! Answers to records, and what is kept of their explanations.

ghost use Rattle.std.specs.Prelude.{◌≡◌, [], OnOk, Some, length, slice_get, true};
ghost use Rattle.std.specs.Bool.{OnTrue};
ghost use Rattle.ll_findings.specs.Findings.{IsAboutAll, both_found, found_once};
ghost use Rattle.ll_findings.specs.Kept.{kept_of};

use crate::explained::SharedExplanation;
use ll_explanations::Explanation;
use ll_semantics::Answer;
use std::alloc::{AllocError, Global};
use std::marker::Model;

/// The answers to records, and what is kept of their explanations, if explanations are kept.
#[derive(Drop)]
pub(crate) struct Found {
    pub(crate) answers: Vec<Answer>,
    pub(crate) explanations: Vec<SharedExplanation>,
}

impl Model for Found {
    ghost use Rattle.ll_findings.specs.Findings.{FindingValue};

    ghost Value = { FindingValue };

    ghost view = { λ found.
        record { answers = found.answers.items; explanations = found.explanations.items } };
}

/// Whether two answers are the same.
fn is_equal(one: Answer, other: Answer) -> bool
    ensures { result ≡ true → one ≡ other }
{
    one == other
}

impl Found {
    /// Nothing of any record.
    pub(crate) fn nothing(alloc: Global) -> Found
        ensures { result ≡ record { answers = []; explanations = [] } }
    {
        Found {
            answers: Vec::new(alloc),
            explanations: Vec::new(alloc),
        }
    }

    /// How many answers there are.
    pub(crate) fn count(&self) -> usize
        ensures { result ≡ length self.now.answers }
    {
        self.answers.len()
    }

    /// Whether no explanations are kept.
    pub(crate) fn explains_nothing(&self) -> bool
        ensures { OnTrue result (self.now.explanations ≡ []) }
    {
        self.explanations.as_slice().is_empty()
    }

    /// Whether this many records are answered and explained.
    pub(crate) fn is_about_all(&self, count: usize) -> bool
        ensures { OnTrue result (IsAboutAll count self.now) }
    {
        self.answers.len() == count && self.explanations.len() == count
    }

    /// Whether the record at an index is answered so.
    fn answers_so(&self, index: usize, answer: Answer) -> bool
        ensures { result ≡ true → slice_get self.now.answers index ≡ Some answer }
    {
        match self.answers.get(index) {
            Some(there) => is_equal(*there, answer),
            None => false,
        }
    }

    /// Whether this is kept of an explanation of the record at an index.
    fn explains_so(&self, index: usize, explanation: &Explanation) -> bool
        ensures { result ≡ true
            → slice_get self.now.explanations index ≡ Some (kept_of explanation.now) }
    {
        match self.explanations.get(index) {
            Some(there) => there.is_kept_of(explanation),
            None => false,
        }
    }

    /// Whether the record at an index is answered and explained so.
    pub(crate) fn has(&self, index: usize, answer: Answer, explanation: &Explanation) -> bool
        ensures answer { result ≡ true → slice_get self.now.answers index ≡ Some answer }
        ensures kept { result ≡ true
            → slice_get self.now.explanations index ≡ Some (kept_of explanation.now) }
    {
        self.answers_so(index, answer) && self.explains_so(index, explanation)
    }

    /// Adds what is found of one record.
    pub(crate) fn push(&mut self, answer: Answer, kept: SharedExplanation) -> Result<(), AllocError>
        ensures { OnOk result (self.new ≡ both_found self.old (found_once answer kept)) }
    {
        self.answers.push(answer)?;
        self.explanations.push(kept)?;
        Ok(())
    }

    /// Adds what is found of other records.
    pub(crate) fn append(&mut self, others: Found) -> Result<(), AllocError>
        ensures { OnOk result (self.new ≡ both_found self.old others) }
    {
        let Found {
            mut answers,
            mut explanations,
        } = others;
        self.answers.append(&mut answers)?;
        self.explanations.append(&mut explanations)?;
        Ok(())
    }
}
