//! What follows from the rulesets of a whole trace.

ghost use Rattle.std.specs.Prelude.{◌≡◌, All, IfOk};
ghost use Rattle.ll_rules.specs.{Grants.AreGrants, InTree.AreInTree};
ghost use Rattle.ll_process.specs.Cases.{IsCase, case_of};

use crate::sizes::sizes_of;
use ll_rulebook::Rulebook;
use ll_rules::{Grants, Layer, grants_of};
use ll_semantics::RulesetOutcome;
use ll_trace::{Kernel, Located, TakenTrace};
use ll_tree::Tree;
use std::alloc::{AllocError, Global};

/// What follows from the rulesets of a whole trace under a kernel: for each record what the rulebook says, the layers
/// that processes enforce, and what these grant, if that is known.
#[derive(Drop)]
pub struct Settled {
    pub(crate) kernel: Kernel,
    pub(crate) outcomes: Vec<RulesetOutcome>,
    pub(crate) layers: Vec<Layer>,
    pub(crate) grants: Vec<Grants>,
    pub(crate) sizes: Vec<u32>,
}

/// How many sets of rights of a table there are for each record at most.
const SETS_EACH: usize = 2;

/// What each layer grants on each node of a tree, unless that is much more than the trace has records: then the table
/// would cost more than it saves, and nothing is known.
fn grants_if_few(
    alloc: Global,
    tree: &Tree,
    layers: &[Layer],
    records: usize,
) -> Result<Vec<Grants>, AllocError>
    requires { All (AreInTree tree.now) layers.now }
    ensures { IfOk result (λ all. AreGrants tree.now layers.now all.items) }
{
    let sets = layers.len().saturating_mul(tree.nodes() as usize);
    if sets > records.saturating_mul(SETS_EACH) {
        return Ok(Vec::new(alloc));
    }
    grants_of(alloc, tree, layers)
}

impl Settled {
    /// Makes the rulebook: one pass over the records in the order of the trace.
    pub fn of(alloc: Global, located: &Located, kernel: Kernel) -> Result<Settled, AllocError>
        ensures kernel { IfOk result (λ settled. settled.kernel ≡ kernel) }
        ensures case { IfOk result (λ settled. IsCase (case_of located.now settled)) }
    {
        let trace = TakenTrace::of(&located.trace, kernel);
        let _count = trace.count();
        let book = Rulebook::of(alloc, &located.tree, &trace, kernel.abi)?;
        let grants = grants_if_few(alloc, &located.tree, &book.layers, trace.count())?;
        let sizes = sizes_of(alloc, &located.trace)?;
        Ok(Settled {
            kernel,
            outcomes: book.outcomes,
            layers: book.layers,
            grants,
            sizes,
        })
    }
}
