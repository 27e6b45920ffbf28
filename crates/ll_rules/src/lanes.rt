//! Sixteen sets of rights side by side, one for each layer of a domain.

ghost use Rattle.std.specs.Prelude.{◌≡◌, ℕ, ◌<◌, ◌==◌, ◌&&◌, ◌||◌, not, false, true};
ghost use Rattle.std.specs.Int.{bit_at};
ghost use Rattle.ll_rights.specs.Rights.{FsRight, has, is_empty, other, bit_of};
ghost use Rattle.ll_rules.specs.{declared.domain.TheConstants.MOST_LAYERS, LayerNumbers.numbers_passing};
ghost use Rattle.ll_rules.specs.Lanes.{named_bits as named, set_of, lane, is_filled};

use crate::LayerSet;
use bitflags::Flags;
use ll_rights::Fs;
use std::simd::prelude::*;

/// The bits of the rights that have a name.
fn named_bits() -> u32
    ensures { result ≡ named }
{
    Fs::OTHER.bits() - 1
}

/// A set of rights as a lane, which keeps the rights that have a name.
#[tactic(auto, using(crate::proofs::LaneSets::named_of))]
pub(crate) fn bits_of(rights: Fs) -> u32
    ensures { (right : FsRight) → bit_of right < bit_of other
        → has (set_of result) right ≡ has rights right }
{
    rights.bits()
}

/// A lane without the rights that are granted.
pub(crate) fn without_granted(lane: u32, granted: Fs) -> u32
    ensures { (right : FsRight) → has (set_of result) right
        ≡ (has (set_of lane) right && not (has granted right)) }
{
    lane & !bits_of(granted)
}

/// No right in any lane.
pub(crate) fn no_rights() -> u32x16
    ensures { (index : ℕ) (right : FsRight) → has (lane result index) right ≡ false }
{
    u32x16::splat(0)
}

/// Each lane without what is granted in it.
#[tactic(auto, using(crate::proofs::LaneSets::lanes_without))]
pub(crate) fn without(lanes: u32x16, granted: u32x16) -> u32x16
    ensures { (index : ℕ) (right : FsRight) → has (lane result index) right
        ≡ (has (lane lanes index) right && not (has (lane granted index) right)) }
{
    lanes & !granted
}

/// The rights that are in either of two lanes.
#[tactic(auto, using(crate::proofs::LaneSets::lanes_either))]
pub(crate) fn either(first: u32x16, second: u32x16) -> u32x16
    ensures { (index : ℕ) (right : FsRight) → has (lane result index) right
        ≡ (has (lane first index) right || has (lane second index) right) }
{
    first | second
}

/// The rights of each lane that are in one set.
pub(crate) fn within(lanes: u32x16, rights: Fs) -> u32x16
    ensures { (index : ℕ) (right : FsRight)
        → has (lane result index) right ≡ (has (lane lanes index) right && has rights right) }
{
    lanes & u32x16::splat(bits_of(rights))
}

/// The indices of the lanes that hold a right, as bits.
fn filled_mask(lanes: u32x16) -> u16
    ensures { (index : ℕ) → index < MOST_LAYERS
        → (bit_at result index == 1) ≡ not (is_empty (lane lanes index)) }
{
    let named = lanes & u32x16::splat(named_bits());
    named.simd_ne(u32x16::splat(0)).to_bitmask() as u16
}

/// The layers whose lanes hold a right.
#[tactic(auto, using(crate::proofs::LaneSets::filled_by_mask))]
pub(crate) fn filled(lanes: u32x16) -> LayerSet
    ensures { result ≡ numbers_passing (is_filled lanes) }
{
    LayerSet::of_mask(filled_mask(lanes))
}
