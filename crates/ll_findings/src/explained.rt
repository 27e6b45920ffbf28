//! What is kept of the explanations of records, shared among versions that explain a record alike.

ghost use Rattle.std.specs.Prelude.{◌≡◌, Decides, IfOk, None, Some, option_map};
ghost use Rattle.ll_findings.specs.Kept.{kept_of};

use ll_explanations::Explanation;
use std::alloc::{AllocError, Global};
use std::marker::Model;
use std::sync::Arc;

/// What is kept of the explanation of a record, which like ones share; nothing where there is nothing to explain.
#[derive(Drop)]
pub(crate) struct SharedExplanation {
    explained: Option<Arc<Explanation>>,
}

impl Model for SharedExplanation {
    ghost use Rattle.std.specs.Prelude.{Option, option_map};
    ghost use Rattle.ll_explanations.specs.declared.explanation.Explanation.{Explanation as OneExplanation};

    ghost Value = { Option OneExplanation };

    ghost view = { λ shared. option_map (λ one. one.value) shared.explained };
}

impl SharedExplanation {
    /// What is kept where there is nothing to explain.
    pub(crate) fn nothing() -> SharedExplanation
        ensures { result ≡ None }
    {
        SharedExplanation { explained: None }
    }

    /// What is kept of an explanation. It shares the memory of what is kept under a newer version, where that is like
    /// it.
    pub(crate) fn new(
        alloc: Global,
        explanation: Explanation,
        newer: Option<&SharedExplanation>,
    ) -> Result<SharedExplanation, AllocError>
        ensures { IfOk result (λ shared. shared ≡ kept_of explanation) }
    {
        if explanation.is_silent() {
            return Ok(SharedExplanation::nothing());
        }
        match newer {
            Some(newer) if newer.is_like(&explanation) => newer.again(),
            _ => SharedExplanation::alone(alloc, explanation),
        }
    }

    /// What is kept of an explanation that no other is like.
    fn alone(alloc: Global, explanation: Explanation) -> Result<SharedExplanation, AllocError>
        ensures { IfOk result (λ shared. shared ≡ Some explanation) }
    {
        let explained = Arc::new(alloc, explanation)?;
        Ok(SharedExplanation {
            explained: Some(explained),
        })
    }

    /// The same once more; both share it.
    pub(crate) fn again(&self) -> Result<SharedExplanation, AllocError>
        ensures { IfOk result (λ again. again ≡ self.now) }
    {
        let explained = match &self.explained {
            Some(explained) => Some(Arc::try_clone(explained)?),
            None => None,
        };
        Ok(SharedExplanation { explained })
    }

    /// Whether something is kept that is the same as this.
    fn is_like(&self, other: &Explanation) -> bool
        ensures { Decides result (self.now ≡ Some other.now) }
    {
        match self.get() {
            Some(explanation) => explanation.is_same(other),
            None => false,
        }
    }

    /// What is kept.
    pub(crate) fn get(&self) -> Option<&Explanation>
        ensures { option_map (λ one. one.now) result ≡ self.now }
    {
        match &self.explained {
            Some(explained) => Some(explained),
            None => None,
        }
    }

    /// Whether this is what is kept of an explanation.
    pub(crate) fn is_kept_of(&self, explanation: &Explanation) -> bool
        ensures { Decides result (self.now ≡ kept_of explanation.now) }
    {
        if explanation.is_silent() {
            self.explained.is_none()
        } else {
            self.is_like(explanation)
        }
    }
}
