//! Sixteen keys that follow each other.

ghost use Rattle.std.specs.Prelude.{◌≡◌, ◌==◌, ◌<◌, ℕ, None, OnOk, OnErr, if◌then◌else◌, get_or, length};

use std::alloc::AllocError;
use std::sync::Arc;

/// How many keys one leaf has.
pub(crate) const WIDTH: usize = 16;

/// The values of sixteen keys that follow each other, of those that have one.
#[derive(Drop)]
pub struct Leaf<V> {
    pub(crate) values: [Option<V>; WIDTH],
    ghost sized: { length values ≡ 16 },
}

impl<V: Copy> Leaf<V> {
    /// No key has a value.
    pub(crate) fn new() -> Leaf<V>
        ensures { (index : ℕ) → get_or result.values index None ≡ None }
    {
        Leaf {
            values: [None; WIDTH],
        }
    }
}

impl<V: Copy> Clone for Leaf<V> {
    ghost is_clone = { λ leaf again. again ≡ leaf };

    fn clone(&self) -> Result<Leaf<V>, AllocError> {
        let mut again = Leaf::new();
        again.values.copy_from_slice(&self.values);
        Ok(again)
    }
}

/// Gives the key at an index of a leaf a value, or takes its value away. A leaf with other owners is copied first.
pub(crate) fn put_in<V: Copy>(
    leaf: &mut Arc<Leaf<V>>,
    index: usize,
    value: Option<V>,
) -> Result<(), AllocError>
    requires { index < 16 }
    ensures ok { OnOk result ((i : ℕ) → get_or leaf.new.value.values i None
        ≡ (if i == index then value else get_or leaf.old.value.values i None)) }
    ensures err { OnErr result ((i : ℕ) → get_or leaf.new.value.values i None
        ≡ get_or leaf.old.value.values i None) }
{
    Arc::make_mut(leaf)?.values[index] = value;
    Ok(())
}
