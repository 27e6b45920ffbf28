//! The rulesets that each process holds.

ghost use Rattle.std.specs.Prelude.{◌≡◌, ◌<◌, ◌+◌, [], Some, None, length, OnOk};
ghost use Rattle.ll_rulebook.specs.Stores.{held_by, HoldsUnder, BeginsHolding};

use ll_shared::SharedMap;
use std::alloc::{AllocError, Global};

/// For each process the indices of the rulesets that it holds, by the numbers that it gives them.
#[derive(Drop)]
pub(crate) struct Tables {
    pub(crate) held: Vec<SharedMap<usize>>,
}

impl Tables {
    /// No process.
    pub(crate) fn new(alloc: Global) -> Tables
        ensures { result.held.items ≡ [] }
    {
        Tables {
            held: Vec::new(alloc),
        }
    }

    /// The index of the ruleset that a process holds under a number.
    #[tactic(auto, using(crate::proofs::Frozen::index_is))]
    pub(crate) fn held_by(&self, process: usize, number: u64) -> Option<usize>
        requires { process < length self.now.held.items }
        ensures { result ≡ held_by self.now.held.items process number }
    {
        self.held[process].get(number).copied()
    }

    /// Lets a process hold the ruleset at an index under a number, or none.
    pub(crate) fn hold(
        &mut self,
        process: usize,
        number: u64,
        index: Option<usize>,
    ) -> Result<(), AllocError>
        requires { process < length self.old.held.items }
        ensures { OnOk result
            (HoldsUnder self.old.held.items self.new.held.items process number index) }
    {
        let held = &mut self.held[process];
        match index {
            Some(index) => held.insert(number, index)?,
            None => held.remove(number)?,
        };
        Ok(())
    }

    /// One process more, which holds nothing.
    #[tactic(auto, using(crate::proofs::Frozen::start_after))]
    pub(crate) fn start(&mut self, alloc: Global) -> Result<(), AllocError>
        ensures { OnOk result (BeginsHolding self.old.held.items self.new.held.items (λ _. None)) }
    {
        self.held.push(SharedMap::new(alloc))?;
        Ok(())
    }

    /// One process more, which holds what its parent holds.
    pub(crate) fn fork(&mut self, parent: usize) -> Result<(), AllocError>
        requires { parent < length self.old.held.items }
        ensures { OnOk result
            (BeginsHolding self.old.held.items self.new.held.items
            (held_by self.old.held.items parent)) }
    {
        let held = self.held[parent].clone()?;
        self.held.push(held)?;
        Ok(())
    }
}
