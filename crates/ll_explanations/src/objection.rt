//! What a layer objects to, as a value.

ghost use Rattle.std.specs.Prelude.{◌≡◌};

use ll_rights::{Fs, FsRight, Net};
use ll_tree::NodeId;
use std::alloc::AllocError;
use std::marker::Model;

/// What a layer objects to in a call. Each variant stands for the objection of the same name in the definitions.
#[derive(Clone, Copy, PartialEq, Eq)]
pub enum Objection {
    /// Rights are missing on a node.
    Missing {
        rights: Fs,
        node: NodeId,
    },
    /// Rights are missing on a port.
    Closed {
        rights: Net,
        port: u16,
    },
    /// An object would gain rights in a directory.
    Gained {
        object: NodeId,
        rights: Fs,
        directory: NodeId,
    },
    /// What is mounted stays as it is, since rights for files are handled.
    Mounting,
    /// A right was missing on the file when the record at an index of the trace opened it.
    Kept {
        right: FsRight,
        opened: u32,
    },
}

/// One objection of one layer.
#[derive(Clone, Copy, PartialEq, Eq)]
pub struct LayerObjection {
    /// The layer's number, from 1 on.
    pub layer: u64,
    /// The index in the trace of the record that made the layer.
    pub made: Option<u32>,
    /// What it objects to.
    pub objection: Objection,
}

/// Objections that are noted one by one.
pub(crate) type Noted = Vec<LayerObjection>;

/// That an objection was noted, or that memory ran out.
pub(crate) type Noting = Result<(), AllocError>;

/// What the layers that refuse a record object to: the objections of one layer stand side by side, and the layers rise.
/// Contracts see the list.
#[derive(Drop)]
pub struct LayerObjections {
    pub(crate) all: Noted,
}

impl Model for LayerObjections {
    ghost use Rattle.std.specs.Prelude.{List};
    ghost use Rattle.ll_explanations.specs.declared.objection.LayerObjection.{LayerObjection as OneObjection};

    ghost Value = { List OneObjection };

    ghost view = { λ objections. objections.all.items };
}

impl LayerObjections {
    /// All of them.
    pub fn as_slice(&self) -> &[LayerObjection]
        ensures { result.now ≡ self.now }
    {
        &self.all
    }
}
