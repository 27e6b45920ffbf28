//! A small filter before the rules on nodes.

ghost use Rattle.std.specs.Prelude.{◌≡◌, ℕ, ◌%◌, ◌==◌, true, false, IfOk, OnOk};
ghost use Rattle.std.specs.Int.{bit_at};
ghost use Rattle.ll_rules.specs.Filters.{is_marked, has_mark};

use std::alloc::{AllocError, Global};
use std::sync::Arc;

/// 4,096 bits that mark numbers: a number that isn't marked has no rule. Numbers whose difference is a multiple
/// of 4,096 share a mark.
#[derive(Clone, Copy)]
pub(crate) struct Filter {
    words: [u64; 64],
}

impl Filter {
    /// No mark.
    #[tactic(auto, using(crate::proofs::Marks::none_marked), unfolding(crate::specs::Filters::is_marked))]
    pub(crate) fn new() -> Filter
        ensures { (number : ℕ) → is_marked result.words number ≡ false }
    {
        Filter { words: [0; 64] }
    }

    /// Whether a number is marked.
    #[tactic(auto, unfolding(crate::specs::Filters::is_marked))]
    pub(crate) fn has(&self, number: u32) -> bool
        ensures { result ≡ is_marked self.now.words number }
    {
        let word = self.words[(number / 64 % 64) as usize];
        word >> (number % 64) & 1 == 1
    }

    /// The 64-bit word that holds the mark of a number, at bit `number % 64`.
    #[tactic(auto, unfolding(crate::specs::Filters::is_marked))]
    fn beside(&self, number: u32) -> u64
        ensures { (bit_at result (number % 64) == 1) ≡ is_marked self.now.words number }
    {
        self.words[(number / 64 % 64) as usize]
    }

    /// Marks a number.
    pub(crate) fn mark(&mut self, number: u32)
        ensures marked { is_marked self.new.words number ≡ true }
        ensures kept { (other : ℕ) → is_marked self.old.words other ≡ true
            → is_marked self.new.words other ≡ true }
    {
        let index = (number / 64 % 64) as usize;
        self.words[index] |= 1 << (number % 64);
    }
}

/// The marks of a ruleset. There is no filter before the first mark. A ruleset shares its filter with the layers that
/// were frozen from it, until it gets a further mark.
#[derive(Drop)]
pub(crate) struct Marks {
    alloc: Global,
    filter: Option<Arc<Filter>>,
}

impl Marks {
    /// No mark. It takes no memory.
    pub(crate) fn new(alloc: Global) -> Marks
        ensures { (number : ℕ) → has_mark result number ≡ false }
    {
        Marks {
            alloc,
            filter: None,
        }
    }

    /// Whether a number is marked.
    pub(crate) fn has(&self, number: u32) -> bool
        ensures { result ≡ has_mark self.now number }
    {
        match &self.filter {
            Some(filter) => filter.has(number),
            None => false,
        }
    }

    /// The 64-bit word that holds the mark of a number, at bit `number % 64`.
    pub(crate) fn beside(&self, number: u32) -> u64
        ensures { (bit_at result (number % 64) == 1) ≡ has_mark self.now number }
    {
        match &self.filter {
            Some(filter) => filter.beside(number),
            None => 0,
        }
    }

    /// Marks a number. A filter that others share is copied first; if memory runs out, no mark is lost.
    pub(crate) fn mark(&mut self, number: u32) -> Result<(), AllocError>
        ensures marked { OnOk result (has_mark self.new number ≡ true) }
        ensures kept { (other : ℕ) → has_mark self.old other ≡ true
            → has_mark self.new other ≡ true }
    {
        match &mut self.filter {
            Some(filter) => Arc::make_mut(filter)?.mark(number),
            None => {
                let mut filter = Filter::new();
                filter.mark(number);
                self.filter = Some(Arc::new(self.alloc, filter)?);
            }
        }
        Ok(())
    }

    /// The same marks again; both share the filter.
    pub(crate) fn again(&self) -> Result<Marks, AllocError>
        ensures { IfOk result (λ again. (number : ℕ)
            → has_mark again number ≡ has_mark self.now number) }
    {
        let filter = match &self.filter {
            Some(filter) => Some(Arc::try_clone(filter)?),
            None => None,
        };
        Ok(Marks {
            alloc: self.alloc,
            filter,
        })
    }
}
