//! The tree that a map is kept as.

ghost use Rattle.std.specs.Prelude.{◌≡◌, ◌≢◌, ◌<◌, ◌/◌, ◌%◌, ◌^◌, ◌==◌, ℕ, false, Option, Some, None, if◌then◌else◌, OnOk, OnErr, IfOk, IfSome, IsTrue};
ghost use Rattle.std.specs.Option.{option_copied};
ghost use Rattle.ll_shared.specs.declared.node.Node.TheVariants.{Empty};
ghost use Rattle.ll_shared.specs.Levels.{agree};
ghost use Rattle.ll_shared.specs.Nodes.{behind, found, found_in, steps, steps_in, SameNode, SameFour};

use crate::levels::Levels;
use std::alloc::{AllocError, Global};
use std::sync::Arc;

/// Entries by the bits of their keys, from the lowest on. A fork skips levels of two bits, in which its keys have the
/// bits of the key that it names; the two bits above them say in which of the four an entry is, and the four see the
/// key without all these bits.
#[cycle(node)]
#[derive(Drop)]
pub(crate) enum Node<V> {
    Empty,
    Leaf(u64, V),
    Fork(Levels, u64, Arc<Four<V>>),
}

/// What is under two lowest bits of 0, 1, 2 and 3.
#[cycle(node)]
#[derive(Drop)]
pub(crate) struct Four<V> {
    zero: Node<V>,
    one: Node<V>,
    two: Node<V>,
    three: Node<V>,
}

impl<V: Copy> Node<V> {
    /// The entry of a key, or none.
    fn entry(key: u64, value: Option<V>) -> Node<V>
        ensures { (q : ℕ) → found result q ≡ (if q == key then value else None) }
    {
        match value {
            Some(value) => Node::Leaf(key, value),
            None => Node::Empty,
        }
    }

    /// The value of a key.
    pub(crate) fn get(&self, key: u64) -> Option<&V>
        ensures { option_copied result ≡ found self.now key }
    {
        match self {
            Node::Empty => None,
            Node::Leaf(known, value) => { if key == *known { Some(value) } else { None } }
            Node::Fork(levels, low, four) => {
                let rest = levels.behind(*low, key)?;
                four.pick(rest % 4).get(rest / 4)
            }
        }
    }

    /// The same entries once more. A fork gets one owner more, and isn't copied.
    pub(crate) fn again(&self) -> Result<Node<V>, AllocError>
        ensures { IfOk result (λ again. SameNode self.now again) }
    {
        match self {
            Node::Empty => Ok(Node::Empty),
            Node::Leaf(key, value) => Ok(Node::Leaf(*key, *value)),
            Node::Fork(levels, low, four) => Ok(Node::Fork(*levels, *low, Arc::try_clone(four)?)),
        }
    }

    /// A fork behind the levels in which a node's key and the key of a new entry agree.
    fn forked(
        alloc: Global,
        levels: Levels,
        node: Node<V>,
        low: u64,
        key: u64,
        value: V,
    ) -> Result<Node<V>, AllocError>
        requires agree { low % 4 ^ levels.count ≡ key % 4 ^ levels.count }
        requires differ { low / 4 ^ levels.count % 4 ≢ key / 4 ^ levels.count % 4 }
        ensures { IfOk result (λ fork. (q : ℕ) → found fork q ≡ (if q == key then Some value
            else behind levels.count low (λ rest. if rest % 4 == low / 4 ^ levels.count % 4
            then found node (rest / 4) else None) q)) }
    {
        let (old, new) = (levels.above(low), levels.above(key));
        let mut four = Four::empty();
        four.set(old % 4, node);
        four.set(new % 4, Node::Leaf(new / 4, value));
        Ok(Node::Fork(levels, low, Arc::new(alloc, four)?))
    }

    /// A fork of two entries.
    fn two(alloc: Global, known: u64, old: V, key: u64, value: V) -> Result<Node<V>, AllocError>
        requires { known ≢ key }
        ensures { IfOk result (λ fork. (q : ℕ) → found fork q
            ≡ (if q == key then Some value else if q == known then Some old else None)) }
    {
        let levels = Levels::common(known, key);
        let node = Node::Leaf(levels.above(known) / 4, old);
        Node::forked(alloc, levels, node, known, key, value)
    }

    /// A fork of an entry and of a fork that skips levels in which the entry's key has other bits.
    fn split(
        alloc: Global,
        skipped: Levels,
        low: u64,
        four: &Arc<Four<V>>,
        key: u64,
        value: V,
    ) -> Result<Node<V>, AllocError>
        requires { agree skipped.count key low ≡ false }
        ensures { IfOk result (λ fork. (q : ℕ) → found fork q
            ≡ (if q == key then Some value
            else behind skipped.count low (found_in four.now.value) q)) }
    {
        let levels = Levels::common(low, key);
        let fork = Node::Fork(
            skipped.less(levels),
            levels.above(low) / 4,
            Arc::try_clone(four)?,
        );
        Node::forked(alloc, levels, fork, low, key, value)
    }

    /// The same entries in a fork behind levels, under two bits above them, of which this node sees the rest.
    fn whole(&self, levels: Levels, low: u64, bits: u64) -> Option<Node<V>>
        requires { bits < 4 }
        ensures { IfSome result (λ whole. (q : ℕ) → found whole q
            ≡ behind levels.count low (λ rest. if rest % 4 == bits
            then found self.now (rest / 4) else None) q) }
    {
        match self {
            Node::Empty => Some(Node::Empty),
            Node::Leaf(rest, value) => Some(Node::Leaf(levels.whole(low, bits, *rest)?, *value)),
            Node::Fork(more, rest, four) => {
                let Ok(four) = Arc::try_clone(four) else {
                    return None;
                };
                let rest = levels.whole(low, bits, *rest)?;
                Some(Node::Fork(levels.more(*more)?, rest, four))
            }
        }
    }

    /// What is left of a fork with one node.
    fn shorter(&self) -> Option<Node<V>>
        ensures { IfSome result (λ shorter. (q : ℕ) → found shorter q ≡ found self.now q) }
    {
        let Node::Fork(levels, low, four) = self else {
            return None;
        };
        let bits = four.only()?;
        four.pick(bits).whole(*levels, *low, bits)
    }

    /// A fork with one node goes.
    fn prune(&mut self)
        ensures { (q : ℕ) → found self.new q ≡ found self.old q }
    {
        if let Some(shorter) = self.shorter() {
            *self = shorter;
        }
    }

    /// Gives a key a value, or takes its value away, and answers the one that it had. Forks with other owners are
    /// copied on the way down; the others are changed where they are. A fork that has one node left goes.
    #[cycle(put)]
    pub(crate) fn put(
        &mut self,
        alloc: Global,
        key: u64,
        value: Option<V>,
    ) -> Result<Option<V>, AllocError>
        ensures old { IfOk result (λ old. old ≡ found self.old key) }
        ensures ok { OnOk result ((q : ℕ)
            → found self.new q ≡ (if q == key then value else found self.old q)) }
        ensures err { OnErr result ((q : ℕ) → found self.new q ≡ found self.old q) }
    {
        match self {
            Node::Empty => {
                *self = Node::entry(key, value);
                Ok(None)
            }
            Node::Leaf(known, old) => {
                let (known, old) = (*known, *old);
                if known == key {
                    *self = Node::entry(key, value);
                    return Ok(Some(old));
                }
                let Some(value) = value else {
                    return Ok(None);
                };
                *self = Node::two(alloc, known, old, key, value)?;
                Ok(None)
            }
            Node::Fork(levels, low, four) => {
                let (levels, low) = (*levels, *low);
                let Some(rest) = levels.behind(low, key) else {
                    let Some(value) = value else {
                        return Ok(None);
                    };
                    *self = Node::split(alloc, levels, low, four, key, value)?;
                    return Ok(None);
                };
                let old = Arc::make_mut(four)?.put(alloc, rest, value)?;
                self.prune();
                Ok(old)
            }
        }
    }
}

impl<V> Node<V> {
    /// Whether there is nothing here.
    fn is_empty(&self) -> bool
        ensures { IsTrue result → self.now ≡ Empty }
    {
        matches!(self, Node::Empty)
    }
}

impl<V> Four<V> {
    /// The two bits of the only node, if there is at most one.
    fn only(&self) -> Option<u64>
        ensures within { IfSome result (λ bits. bits < 4) }
        ensures others { IfSome result
            (λ bits. (q : ℕ) → q % 4 ≢ bits → found_in self.now q ≡ None) }
    {
        match (
            self.zero.is_empty(),
            self.one.is_empty(),
            self.two.is_empty(),
            self.three.is_empty(),
        ) {
            (_, true, true, true) => Some(0),
            (true, _, true, true) => Some(1),
            (true, true, _, true) => Some(2),
            (true, true, true, _) => Some(3),
            _ => None,
        }
    }

    /// The one of the four under two lowest bits. The choices only pick a reference, so they are made without jumps.
    fn pick(&self, bits: u64) -> &Node<V>
        ensures found { (key : ℕ) → bits ≡ key % 4
            → found result.now (key / 4) ≡ found_in self.now key }
        ensures steps { steps result.now < steps_in self.now }
    {
        let low = if bits == 0 { &self.zero } else { &self.one };
        let high = if bits == 2 { &self.two } else { &self.three };
        if bits < 2 { low } else { high }
    }
}

impl<V: Copy> Four<V> {
    /// No entry.
    fn empty() -> Four<V>
        ensures { (q : ℕ) → found_in result q ≡ None }
    {
        Four {
            zero: Node::Empty,
            one: Node::Empty,
            two: Node::Empty,
            three: Node::Empty,
        }
    }

    /// Puts a node under two lowest bits.
    fn set(&mut self, bits: u64, node: Node<V>)
        requires { bits < 4 }
        ensures { (q : ℕ) → found_in self.new q
            ≡ (if q % 4 == bits then found node (q / 4) else found_in self.old q) }
    {
        match bits {
            0 => self.zero = node,
            1 => self.one = node,
            2 => self.two = node,
            _ => self.three = node,
        }
    }

    /// Gives a key a value, or takes its value away, and answers the one that it had.
    #[cycle(put)]
    fn put(&mut self, alloc: Global, key: u64, value: Option<V>) -> Result<Option<V>, AllocError>
        ensures old { IfOk result (λ old. old ≡ found_in self.old key) }
        ensures ok { OnOk result ((q : ℕ)
            → found_in self.new q ≡ (if q == key then value else found_in self.old q)) }
        ensures err { OnErr result ((q : ℕ) → found_in self.new q ≡ found_in self.old q) }
    {
        let rest = key / 4;
        match key % 4 {
            0 => self.zero.put(alloc, rest, value),
            1 => self.one.put(alloc, rest, value),
            2 => self.two.put(alloc, rest, value),
            _ => self.three.put(alloc, rest, value),
        }
    }
}

impl<V: Copy> Clone for Four<V> {
    ghost is_clone = { λ four again. SameFour four again };

    fn clone(&self) -> Result<Four<V>, AllocError> {
        Ok(Four {
            zero: self.zero.again()?,
            one: self.one.again()?,
            two: self.two.again()?,
            three: self.three.again()?,
        })
    }
}
