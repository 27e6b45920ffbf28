//! Nodes of a tree, and the places that texts name.

ghost use Rattle.std.specs.Prelude.{◌≡◌, ◌==◌};
ghost use Rattle.ll_tree.specs.SmallPlaces.{IsSmall};

use std::marker::Model;

/// A node of a tree. Its number is its index in the list of the tree's objects; the root has the number 0.
#[derive(Clone, Copy, PartialEq, Eq, PartialOrd, Ord, Debug)]
pub struct NodeId(pub(crate) u32);

impl NodeId {
    /// The node's number in its tree.
    pub fn index(self) -> u32
        ensures { result ≡ self.0 }
    {
        self.0
    }

    /// Whether the node is the root.
    pub fn is_root(self) -> bool
        ensures { result ≡ (self.0 == 0) }
    {
        self.index() == 0
    }
}

/// What a text names in a tree.
#[derive(Clone, Copy, PartialEq, Eq, Debug)]
pub enum Place {
    /// An object of the tree.
    Node(NodeId),
    /// A name that is missing in this directory.
    Gap(NodeId),
    /// Neither: the text is not a path, or a path whose last name is in no directory.
    Nowhere,
}

/// From this number on a small place is a gap. A tree has far fewer nodes.
const FIRST_GAP: u32 = 0x8000_0000;

/// A place in four bytes, as a table of many places keeps it: the number of a node, or of a directory in which a name is
/// missing behind all numbers of nodes. Contracts see the place.
#[derive(Drop)]
pub struct SmallPlace {
    bits: u32,
}

impl Model for SmallPlace {
    ghost use Rattle.ll_tree.specs.declared.place.Place.{Place};
    ghost use Rattle.ll_tree.specs.SmallPlaces.{place_in};

    ghost Value = { Place };

    ghost view = { λ small. place_in small.bits };
}

impl SmallPlace {
    /// A place of a tree.
    pub(crate) fn of(place: Place) -> SmallPlace
        requires { IsSmall place }
        ensures { result ≡ place }
    {
        let bits = match place {
            Place::Node(node) => node.0,
            Place::Gap(directory) => FIRST_GAP + directory.0,
            Place::Nowhere => u32::MAX,
        };
        SmallPlace { bits }
    }

    /// The same once more.
    pub fn again(&self) -> SmallPlace
        ensures { result ≡ self.now }
    {
        SmallPlace { bits: self.bits }
    }

    /// The place.
    pub fn place(&self) -> Place
        ensures { result ≡ self.now }
    {
        if self.bits == u32::MAX {
            return Place::Nowhere;
        }
        if self.bits < FIRST_GAP {
            Place::Node(NodeId(self.bits))
        } else {
            Place::Gap(NodeId(self.bits - FIRST_GAP))
        }
    }
}
