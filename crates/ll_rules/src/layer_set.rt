//! Sets of the layers of a domain.
#![tactic(auto, using(crate::proofs::LayerNumbers::mask_kept))]

ghost use Rattle.std.specs.Prelude.{◌≡◌, ◌++◌, ◌∷◌, [], ◌≤◌, ◌<◌, ◌==◌, length, All, if◌then◌else◌};
ghost use Rattle.ll_rules.specs.declared.domain.TheConstants.{MOST_LAYERS};
ghost use Rattle.ll_rules.specs.LayerNumbers.{is_among, is_at_bit, numbers_passing, united_numbers};

use crate::domain::MOST_LAYERS;
use std::marker::Model;

/// A set of layers of one domain, by their numbers from 1, the oldest, to 16.
#[derive(Clone, Copy, Debug, PartialEq, Eq)]
pub struct LayerSet {
    mask: u16,
}

impl Model for LayerSet {
    ghost use Rattle.std.specs.Prelude.{List, ℕ, ◌<◌, ◌^◌};

    ghost Value = { List ℕ };

    ghost use Rattle.ll_rules.specs.LayerNumbers.{numbers_of, mask_of, kept_again};

    ghost view = { numbers_of };

    ghost invariant = { λ s. s.mask < 2 ^ 16 };

    ghost inverse = { λ numbers. record { mask = mask_of numbers } };

    ghost inverse_ok = { kept_again };
}

impl LayerSet {
    /// No layer.
    #[tactic(auto, unfolding(crate::specs::LayerNumbers::passing_upto, crate::specs::LayerNumbers::is_at_bit))]
    pub fn new() -> LayerSet
        ensures { result ≡ [] }
    {
        LayerSet { mask: 0 }
    }

    /// Whether there is no layer in the set.
    #[tactic(auto, using(crate::proofs::LayerNumbers::empty_kept, crate::proofs::LayerNumbers::numbers_again))]
    pub fn is_empty(self) -> bool
        ensures empty { result ≡ (length self == 0) }
        // The list of its numbers is the rising one.
        ensures rising { numbers_passing (λ number. is_among number self) ≡ self }
    {
        self.mask == 0
    }

    /// Whether the layer of a number, from 1 to 16, is in the set.
    pub fn has(self, number: u32) -> bool
        ensures { result ≡ is_among number self }
    {
        let mask = self.mask;
        if number == 0 || number > MOST_LAYERS as u32 {
            return false;
        }
        mask >> (number - 1) & 1 == 1
    }

    /// The layers that are in either set.
    #[tactic(auto, using(crate::proofs::LayerNumbers::union_kept))]
    pub fn union(self, other: LayerSet) -> LayerSet
        ensures { result ≡ united_numbers self other }
    {
        LayerSet {
            mask: self.mask | other.mask,
        }
    }

    /// The layers whose bits are ones: bit 0 stands for the oldest.
    pub(crate) fn of_mask(mask: u16) -> LayerSet
        ensures { result ≡ numbers_passing (is_at_bit mask) }
    {
        LayerSet { mask }
    }

    /// The set with the layer of a number above all others added, if that layer `refuses`.
    #[tactic(auto, using(crate::proofs::LayerNumbers::noted_by_shift))]
    pub(crate) fn noted(self, number: u32, refuses: bool) -> LayerSet
        requires within { number ≤ MOST_LAYERS }
        requires positive { 0 < number }
        requires above { All (λ other. other < number) self }
        ensures { result ≡ self ++ (if refuses then number ∷ [] else []) }
    {
        if !refuses {
            return self;
        }
        LayerSet {
            mask: self.mask | 1 << (number - 1),
        }
    }
}
