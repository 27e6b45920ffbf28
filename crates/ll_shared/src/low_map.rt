//! The map whose low keys are found by their index.

ghost use Rattle.std.specs.Prelude.{◌≡◌, ◌==◌, ◌+◌, ◌<◌, ◌≤◌, ℕ, Some, None, OnOk, OnErr, IfOk, if◌then◌else◌, get_or, length};
ghost use Rattle.ll_shared.specs.LowMaps.{value_of};

use crate::leaf::{Leaf, WIDTH, put_in};
use crate::map::SharedMap;
use std::alloc::{AllocError, Global};
use std::sync::Arc;

/// How many of the lowest keys are in leaves.
const LOW: u64 = 512;

/// A map from numbers to values of which low numbers are common, as those of open descriptors, and whose clones share
/// what they have in common.
///
/// The lowest 512 keys are in leaves of sixteen, which are found by their index, and all others in a [`SharedMap`]. A
/// clone takes the memory of a list of at most 32 leaves. A leaf with other owners is copied before it is changed.
///
/// There are leaves for all keys up to the highest low one that ever had a value, of which those without an entry are
/// one and the same at first. They stay when their entries go.
pub type LowMap<V> = LeafMap<Leaf<V>, V>;

/// What a [`LowMap`] is kept as. Its leaves are a parameter, so that the size of a leaf is seen to be one that a type
/// may have where the type of the map is named.
#[derive(Drop)]
pub struct LeafMap<L, V> {
    low: Vec<Arc<L>>,
    high: SharedMap<V>,
}

impl<V: Copy> LowMap<V> {
    /// No entry. It takes no memory.
    pub fn new(alloc: Global) -> LowMap<V>
        ensures { (key : ℕ) → value_of result key ≡ None }
    {
        LeafMap {
            low: Vec::new(alloc),
            high: SharedMap::new(alloc),
        }
    }

    /// The value of a key.
    pub fn get(&self, key: u64) -> Option<V>
        ensures { result ≡ value_of self.now key }
    {
        if key >= LOW {
            return self.high.get(key).copied();
        }
        match self.low.get(key as usize / WIDTH) {
            Some(leaf) => leaf.values[key as usize % WIDTH],
            None => None,
        }
    }

    /// Adds a leaf without an entry.
    fn push_leaf(&mut self, leaf: Arc<Leaf<V>>) -> Result<(), AllocError>
        requires { (index : ℕ) → get_or leaf.value.values index None ≡ None }
        ensures same { (key : ℕ) → value_of self.new key ≡ value_of self.old key }
        ensures more { OnOk result (length self.new.low.items ≡ length self.old.low.items + 1) }
    {
        self.low.push(leaf)?;
        Ok(())
    }

    /// Adds leaves until there is one at an index.
    fn widen(&mut self, index: usize) -> Result<(), AllocError>
        ensures same { (key : ℕ) → value_of self.new key ≡ value_of self.old key }
        ensures there { OnOk result (index < length self.new.low.items) }
    {
        if index < self.low.len() {
            return Ok(());
        }
        let bare = Arc::new(*self.low.allocator(), Leaf::new())?;
        while self.low.len() <= index {
            self.push_leaf(Arc::try_clone(&bare)?)?;
        }
        Ok(())
    }

    /// Gives a low key a value, or takes its value away.
    fn put_low(&mut self, key: u64, value: Option<V>) -> Result<(), AllocError>
        requires { key < 512 }
        ensures ok { OnOk result ((q : ℕ)
            → value_of self.new q ≡ (if key == q then value else value_of self.old q)) }
        ensures err { OnErr result ((q : ℕ) → value_of self.new q ≡ value_of self.old q) }
    {
        let index = key as usize / WIDTH;
        self.widen(index)?;
        put_in(&mut self.low[index], key as usize % WIDTH, value)
    }

    /// Gives a high key a value, or takes its value away.
    fn put_high(&mut self, key: u64, value: Option<V>) -> Result<(), AllocError>
        requires { 512 ≤ key }
        ensures ok { OnOk result ((q : ℕ)
            → value_of self.new q ≡ (if key == q then value else value_of self.old q)) }
        ensures err { OnErr result ((q : ℕ) → value_of self.new q ≡ value_of self.old q) }
    {
        match value {
            Some(value) => self.high.insert(key, value)?,
            None => self.high.remove(key)?,
        };
        Ok(())
    }

    /// Gives a key a value, or takes its value away.
    fn put(&mut self, key: u64, value: Option<V>) -> Result<(), AllocError>
        ensures ok { OnOk result ((q : ℕ)
            → value_of self.new q ≡ (if key == q then value else value_of self.old q)) }
        ensures err { OnErr result ((q : ℕ) → value_of self.new q ≡ value_of self.old q) }
    {
        if key < LOW {
            self.put_low(key, value)
        } else {
            self.put_high(key, value)
        }
    }

    /// Gives a key a value, in place of the one that it had. Without memory every key has what it had.
    pub fn insert(&mut self, key: u64, value: V) -> Result<(), AllocError>
        ensures ok { OnOk result ((q : ℕ)
            → value_of self.new q ≡ (if key == q then Some value else value_of self.old q)) }
        ensures err { OnErr result ((q : ℕ) → value_of self.new q ≡ value_of self.old q) }
    {
        self.put(key, Some(value))
    }

    /// Takes a key's value away, and answers it. Nothing is copied, and no leaf added, where the key has no value.
    /// Without memory every key has what it had.
    pub fn remove(&mut self, key: u64) -> Result<Option<V>, AllocError>
        ensures old { IfOk result (λ old. old ≡ value_of self.old key) }
        ensures ok { OnOk result ((q : ℕ)
            → value_of self.new q ≡ (if key == q then None else value_of self.old q)) }
        ensures err { OnErr result ((q : ℕ) → value_of self.new q ≡ value_of self.old q) }
    {
        let old = self.get(key);
        if old.is_some() {
            self.put(key, None)?;
        }
        Ok(old)
    }
}

impl<V: Copy> Clone for LowMap<V> {
    ghost is_clone = { λ map copy. (key : ℕ) → value_of copy key ≡ value_of map key };

    /// The same map once more, which shares all leaves and the whole tree with this one.
    fn clone(&self) -> Result<LowMap<V>, AllocError> {
        Ok(LeafMap {
            low: self.low.clone()?,
            high: self.high.clone()?,
        })
    }
}
