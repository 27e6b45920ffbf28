//! The chains of nodes whose texts share a slot.

ghost use Rattle.std.specs.Prelude.{◌≡◌, ◌≤◌, ◌<◌, ℕ, ◌≢◌, slice_index_or, length};
ghost use Rattle.ll_tree.specs.Chains.{mixed, text_hash, text_mark, slot_in, head_in};
ghost use Rattle.ll_tree.specs.declared.chains.TheConstants.{CROWDED};

use std::alloc::{AllocError, Global};

/// The number of slots: two for each node of the largest tree, so that few texts share a slot.
const SLOTS: usize = 131_072;

/// An odd number whose bits are spread, by which a hash is multiplied for each word of a text.
pub(crate) const SPREAD: u64 = 0x9e37_79b9_7f4a_7c15;

/// The most nodes of a chain. A slot with more is crowded, and its texts are looked up in the map.
pub(crate) const LONGEST_CHAIN: u8 = 16;

/// The head of a slot that has too many nodes for a chain.
pub(crate) const CROWDED: u32 = u32::MAX;

/// Heads of empty chains.
pub(crate) fn no_heads(alloc: Global) -> Result<Vec<u32>, AllocError> {
    vec![in alloc; 0; SLOTS]
}

/// A number that is above each node of a slot.
pub(crate) fn head(heads: &[u32], slot: usize) -> u32
    ensures { result ≡ head_in heads.now slot }
{
    heads.get(slot).copied().unwrap_or(CROWDED)
}

/// Gives a slot this head.
pub(crate) fn set_head(heads: &mut Vec<u32>, slot: usize, head: u32)
    ensures this { head ≤ head_in heads.new.items slot }
    ensures others { (other : ℕ) → other ≢ slot
        → head_in heads.new.items other ≡ head_in heads.old.items other }
{
    if slot < heads.len() {
        heads[slot] = head;
    }
}

/// The head of a slot whose last node is this one, if its chain has so many others.
pub(crate) fn head_over(number: u32, behind: u8) -> u32
    requires { number < CROWDED }
    ensures { number < result }
{
    if behind < LONGEST_CHAIN {
        number + 1
    } else {
        CROWDED
    }
}

/// What comes after a node in its chain, if its slot had this head before.
pub(crate) fn next_of(number: u32, head: u32) -> u32
    ensures falls { result ≤ number }
    ensures ahead { (node : ℕ) → node < number → node < head → node < result }
{
    if head < number { head } else { number }
}

/// The slot of a mark: its upper 17 bits.
#[tactic(auto, unfolding(crate::specs::Chains::slot_in))]
pub(crate) fn slot_of(mark: u32) -> usize
    ensures { result ≡ slot_in mark }
{
    (mark >> 15) as usize
}

/// The mark of a text: the upper 32 bits of its hash.
#[tactic(auto, unfolding(crate::specs::Chains::text_mark))]
pub(crate) fn mark_of(text: &str) -> u32
    ensures { result ≡ text_mark text.now }
{
    (hash_of(text) >> 32) as u32
}

/// A hash of a text, from its words of eight bytes and the remaining bytes.
#[tactic(auto, unfolding(crate::specs::Chains::text_hash))]
fn hash_of(text: &str) -> u64
    ensures { result ≡ text_hash text.now }
{
    let (words, rest) = text.as_bytes().as_chunks::<8>();
    let hash = words.iter().fold(text.len() as u64, |hash, word| {
        with_word(hash, u64::from_le_bytes(*word))
    });
    rest.iter()
        .fold(hash, |hash, byte| with_word(hash, u64::from(*byte)))
}

/// A hash with one further word.
#[tactic(auto, unfolding(crate::specs::Chains::mixed))]
fn with_word(hash: u64, word: u64) -> u64
    ensures { result ≡ mixed hash word }
{
    (hash.rotate_left(23) ^ word).wrapping_mul(SPREAD)
}
