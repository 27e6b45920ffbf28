//! Indices in rising order, among which one is found in a few steps.

ghost use Rattle.std.specs.Prelude.{◌≡◌, ◌<◌, ◌≤◌, ℕ, IfOk, [], get_or, length};
ghost use Rattle.std.specs.Bool.{OnTrue};
ghost use Rattle.ll_findings.specs.Overlays.{Rise, where_in};

use std::alloc::{AllocError, Global};
use std::marker::Model;

/// How many indices, present or not, share one hint.
const BLOCK: usize = 16;

/// Indices in rising order. For each block of indices there is a hint: the position at which the search for an index of
/// the block begins. A wrong hint costs time alone.
#[derive(Drop)]
pub(crate) struct Indices {
    indices: Vec<u32>,
    hints: Vec<u32>,
}

impl Model for Indices {
    ghost use Rattle.std.specs.Prelude.{ℕ, List};
    ghost use Rattle.ll_findings.specs.Overlays.{Rise};

    ghost Value = { List ℕ };

    ghost view = { λ all. all.indices.items };

    ghost invariant = { λ all. Rise 0 all.indices.items };
}

/// Hints for these indices: for each block, the position of the first index that is in the block or after it.
fn hints_for(alloc: Global, indices: &[u32]) -> Result<Vec<u32>, AllocError> {
    let mut hints = Vec::new(alloc);
    for (position, index) in indices.iter().enumerate() {
        let block = *index as usize / BLOCK;
        if hints.len() <= block {
            hints.resize(block + 1, position.min(u32::MAX as usize) as u32)?;
        }
    }
    Ok(hints)
}

impl Indices {
    /// No index.
    #[tactic(auto, unfolding(crate::specs::Overlays::Rise))]
    pub(crate) fn none(alloc: Global) -> Indices
        ensures { result ≡ [] }
    {
        Indices {
            indices: Vec::new(alloc),
            hints: Vec::new(alloc),
        }
    }

    /// These indices, which are in rising order.
    pub(crate) fn of(alloc: Global, indices: Vec<u32>) -> Result<Indices, AllocError>
        requires { Rise 0 indices.items }
        ensures { IfOk result (λ all. all ≡ indices.items) }
    {
        let hints = hints_for(alloc, &indices)?;
        Ok(Indices { indices, hints })
    }

    /// All indices.
    pub(crate) fn as_slice(&self) -> &[u32]
        ensures { result.now ≡ self.now }
    {
        &self.indices
    }

    /// Whether all indices before a position are below an index.
    fn is_behind(&self, position: usize, index: usize) -> bool
        ensures { OnTrue result ((at : ℕ) → at < position → get_or self.now at 0 < index) }
    {
        match position.checked_sub(1) {
            Some(last) => match self.indices.get(last) {
                Some(before) => (*before as usize) < index,
                None => false,
            },
            None => true,
        }
    }

    /// A position before which all indices are below this one.
    fn start(&self, index: usize) -> usize
        ensures within { result ≤ length self.now }
        ensures behind { (at : ℕ) → at < result → get_or self.now at 0 < index }
    {
        let hint = match self.hints.get(index / BLOCK) {
            Some(hint) => *hint as usize,
            None => self.indices.len(),
        };
        if hint <= self.indices.len() && self.is_behind(hint, index) {
            hint
        } else {
            0
        }
    }

    /// The position of an index among these.
    pub(crate) fn find(&self, index: usize) -> Option<usize>
        ensures { result ≡ where_in index self.now }
    {
        if self.as_slice().is_empty() {
            return None;
        }
        for position in self.start(index)..self.indices.len() {
            let at = self.indices[position] as usize;
            if at == index {
                return Some(position);
            }
            if at > index {
                return None;
            }
        }
        None
    }
}
