//! The map.

ghost use Rattle.std.specs.Prelude.{◌≡◌, ◌==◌, ℕ, Some, None, IfOk, OnOk, OnErr, if◌then◌else◌};
ghost use Rattle.std.specs.{Option.option_copied, Ordering.nat_cmp};
ghost use Rattle.std.specs.FinMap as finite;
ghost use Rattle.std.specs.Coded.{coded_ℕ};

use crate::node::Node;
use std::alloc::{AllocError, Global};
use std::marker::Model;

/// A map from numbers to values whose clones share what they have in common.
///
/// It is a tree over the bits of the keys, two bits a level from the lowest on. A fork has room for four entries (104
/// bytes where a value has eight) and skips the levels in which all its keys agree: so n entries have at most n - 1
/// forks, whatever the keys. Where n keys are dense or random, the way to each has about half as many forks as n has
/// bits. No way has more than 32: so calls, and the dropping of a map, nest 33 levels deep at most.
///
/// Whoever chooses the keys can make a way have a fork for each two bits of a key, each of which has an entry of its
/// own; a change of a shared map then copies so many. The bits of keys aren't mixed first: a mixing that is known can
/// be undone, and dense keys would lie further apart.
///
/// A map takes memory by the entries that it has and not by those that it had: a fork goes when only one of its four is
/// left.
///
/// ```
/// let mut map = SharedMap::new(rt.alloc());
/// map.insert(3, 10)?;
/// let copy = map.clone()?;
/// map.insert(3, 11)?;
/// assert_eq!(rt; (map.get(3), copy.get(3)), (Some(&11), Some(&10)));
/// ```
#[derive(Drop)]
pub struct SharedMap<V> {
    alloc: Global,
    root: Node<V>,
}

impl<V> Model for SharedMap<V> {
    ghost use Rattle.std.specs.Ordering.{nat_cmp};
    ghost use Rattle.std.specs.FinMap as finite;
    ghost use Rattle.std.specs.Coded.{coded_ℕ};

    ghost Value = { finite.FinMap nat_cmp V };

    ghost coded = { finite.code coded_ℕ V.code };

    ghost use Rattle.ll_shared.specs.Nodes.{entries};

    ghost view = { λ a. finite.from_entries (entries a.root) };
}

impl<V: Copy> SharedMap<V> {
    /// No entry. It takes no memory.
    pub fn new(alloc: Global) -> SharedMap<V>
        ensures { result ≡ finite.empty }
    {
        SharedMap {
            alloc,
            root: Node::Empty,
        }
    }

    /// The value of a key, one step for each fork on the way.
    #[tactic(auto, using(crate::proofs::Entries::get_found))]
    pub fn get(&self, key: u64) -> Option<&V>
        ensures { option_copied result ≡ finite.get self.now key }
    {
        self.root.get(key)
    }

    /// Gives a key a value, and answers the one that it had. Forks on the way that other maps have too are copied, all
    /// others are changed where they are; a new key takes one fork more at most. Without memory the map stays as it
    /// was.
    pub fn insert(&mut self, key: u64, value: V) -> Result<Option<V>, AllocError>
        ensures old { IfOk result (λ old. old ≡ finite.get self.old key) }
        ensures ok { OnOk result (self.new ≡ finite.insert self.old key value) }
        ensures each { OnOk result ((q : ℕ)
            → finite.get self.new q ≡ (if key == q then Some value else finite.get self.old q)) }
        ensures err { OnErr result (self.new ≡ self.old) }
    {
        self.root.put(self.alloc, key, Some(value))
    }

    /// Takes a key's value away, and answers it. Only forks on the way that other maps have too are copied, and none
    /// where the key has no value. Without memory the map stays as it was.
    pub fn remove(&mut self, key: u64) -> Result<Option<V>, AllocError>
        ensures old { IfOk result (λ old. old ≡ finite.get self.old key) }
        ensures ok { OnOk result (self.new ≡ finite.remove self.old key) }
        ensures each { OnOk result ((q : ℕ)
            → finite.get self.new q ≡ (if key == q then None else finite.get self.old q)) }
        ensures err { OnErr result (self.new ≡ self.old) }
    {
        if self.root.get(key).is_none() {
            return Ok(None);
        }
        self.root.put(self.alloc, key, None)
    }
}

impl<V: Copy> Clone for SharedMap<V> {
    ghost is_clone = { λ map copy. copy ≡ map };

    /// The same map once more. It takes no memory and the same time for every map; it fails only where a fork has as
    /// many owners as can be counted.
    fn clone(&self) -> Result<SharedMap<V>, AllocError> {
        Ok(SharedMap {
            alloc: self.alloc,
            root: self.root.again()?,
        })
    }
}
