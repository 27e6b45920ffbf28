//! The rulebook of a trace.

ghost use Rattle.std.specs.Prelude.{IfOk};
ghost use Rattle.ll_rulebook.specs.Settled.{IsSettled};

use crate::pass::Pass;
use ll_rights::Abi;
use ll_rules::Layer;
use ll_semantics::RulesetOutcome;
use ll_trace::TakenTrace;
use ll_tree::Tree;
use std::alloc::{AllocError, Global};

/// What the records of a trace do to the rulesets. A ruleset that several processes hold is one ruleset,
/// so this takes the records of all processes in the order of the trace
/// (the kernel's userspace document on Landlock, "Inheritance").
#[derive(Drop)]
pub struct Rulebook {
    /// What is known of each record, in the order of the records.
    pub outcomes: Vec<RulesetOutcome>,
    /// The layers that rulesets were frozen to, each as its ruleset was at that record.
    pub layers: Vec<Layer>,
}

impl Rulebook {
    /// The rulebook of a trace on a tree: the answer to each record that creates, changes or closes a
    /// ruleset, and the layer of each record that restricts its process by a ruleset it holds.
    pub fn of(
        alloc: Global,
        tree: &Tree,
        trace: &TakenTrace<'_>,
        abi: Abi,
    ) -> Result<Rulebook, AllocError>
        ensures { IfOk result
            (λ book. IsSettled tree.now abi trace.now book.layers.items book.outcomes.items) }
    {
        let mut pass = Pass::new(alloc, tree, abi);
        let outcomes = pass.settle_all(alloc, trace)?;
        let layers = pass.into_layers();
        Ok(Rulebook { outcomes, layers })
    }
}
