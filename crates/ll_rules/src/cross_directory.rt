//! What the layers of a domain lack on the two directories of a move, and why they refuse the move.

ghost use Rattle.std.specs.Prelude.{◌≡◌, ℕ, ◌+◌, ◌*◌, ◌^◌, ◌≤◌, ◌&&◌, ◌||◌, not, length};
ghost use Rattle.std.proofs.Props.{props};
ghost use Rattle.ll_rights.specs.Rights.{FsRight, has, is_file_right, some_right};
ghost use Rattle.ll_tree.specs.Trees.{IsNode, path_at, kind_at, is_dir};
ghost use Rattle.ll_tree.specs.TreeFacts.{IsTree, depth_at};
ghost use Rattle.ll_rules.specs.InTree.{in_tree, all_in_tree, IsTargetIn, IsTargetIn-once};
ghost use Rattle.ll_rules.specs.{Checks.numbers_where, KeptLayers.granted_on_node};
ghost use Rattle.ll_rules.specs.Moves.{source_of, destination_of, other_gains, holds_back};
ghost use Rattle.ll_rules.specs.Lanes.{lane, AreLacking, layers_of, stacked};

use crate::domain::{MOST_LAYERS, Stack};
use crate::lanes::{either, filled, no_rights, within, without};
use crate::ruleset::is_directory;
use crate::{Asked, How, LayerSet, Move, Target};
use ll_rights::{Fs, Kind};
use ll_tree::NodeId;
use std::simd::prelude::*;

/// What the layers of a domain lack on the two directories of a move, in lanes.
#[derive(Clone, Copy)]
pub(crate) struct Lacking {
    source: [u32; MOST_LAYERS],
    destination: [u32; MOST_LAYERS],
}

impl Lacking {
    /// The rights that a move asks on the two directories and that each layer denies.
    pub(crate) fn denied(&self, from: Asked, to: Asked) -> u32x16
        ensures { (index : ℕ) (right : FsRight) → has (lane result index) right
            ≡ ((has (lane self.now.source index) right && has from.rights right)
            || (has (lane self.now.destination index) right && has to.rights right)) }
    {
        let at_source = within(u32x16::from_array(self.source), from.rights);
        let at_destination = within(u32x16::from_array(self.destination), to.rights);
        either(at_source, at_destination)
    }
}

/// The rights of some lanes that count for an object of a kind.
fn counting_for(kind: Kind, lanes: u32x16) -> u32x16
    ensures { (index : ℕ) (right : FsRight) → has (lane result index) right
        ≡ (has (lane lanes index) right && (is_dir kind || is_file_right right)) }
{
    if is_directory(kind) {
        lanes
    } else {
        within(lanes, Fs::FILE)
    }
}

impl<'a> Stack<'a> {
    /// The rights that the layers handle and don't grant on a directory, in lanes, and the number of look-ups.
    fn lacking_on(&self, directory: NodeId) -> ([u32; MOST_LAYERS], u64)
        requires { IsNode self.now.tree.now directory }
        ensures lacking { AreLacking self.now.tree.now (layers_of self.now)
            (path_at self.now.tree.now directory) result.0 }
        ensures count { result.1
            ≤ length self.now.ids.now * (depth_at self.now.tree.now directory + 1) }
        ensures little { result.1 ≤ 2 ^ 40 }
    {
        let mut lacking = self.handled_in();
        let look_ups = self.climb(directory, &mut lacking);
        (lacking, look_ups)
    }

    /// What the layers lack on the directory that a move leaves and on the one that it goes to, and the number of
    /// look-ups.
    pub(crate) fn lacking_of(&self, source: NodeId, destination: NodeId) -> (Lacking, u64)
        requires source { IsNode self.now.tree.now source }
        requires destination { IsNode self.now.tree.now destination }
        ensures source { AreLacking self.now.tree.now (layers_of self.now)
            (path_at self.now.tree.now source) result.0.source }
        ensures destination { AreLacking self.now.tree.now (layers_of self.now)
            (path_at self.now.tree.now destination) result.0.destination }
        ensures count { result.1
            ≤ length self.now.ids.now * (depth_at self.now.tree.now source + 1
            + (depth_at self.now.tree.now destination + 1)) }
        ensures little { result.1 ≤ 2 ^ 41 }
    {
        let (at_source, first) = self.lacking_on(source);
        let (at_destination, second) = if destination == source {
            (at_source, 0)
        } else {
            self.lacking_on(destination)
        };
        let lacking = Lacking {
            source: at_source,
            destination: at_destination,
        };
        (lacking, first + second)
    }

    /// What an object gains under each layer by going from its directory to another one, if the layers lack `here` on
    /// its directory and `there` on the other, and the number of look-ups. A layer is asked for its rule on the object
    /// itself if there is a right to gain.
    fn gained(&self, object: NodeId, here: u32x16, there: u32x16) -> (u32x16, u64)
        requires { IsNode self.now.tree.now object }
        ensures gained { (index : ℕ) (right : FsRight) → has (lane result.0 index) right
            ≡ (((has (lane here index) right && not (has (lane there index) right))
            && (is_dir (kind_at self.now.tree.now object) || is_file_right right))
            && not (granted_on_node (stacked self.now index) object right)) }
        ensures count { result.1 ≤ length self.now.ids.now }
    {
        let granted_there = without(here, there);
        let counted = counting_for(self.tree.kind(object), granted_there);
        let mut left = counted.to_array();
        let (_, look_ups) = self.ask_on(object, &mut left);
        (u32x16::from_array(left), look_ups)
    }
}

/// A move between two directories, with what the layers of a domain lack on them.
#[derive(Clone, Copy)]
pub(crate) struct CrossDirectoryMove<'a> {
    pub(crate) stack: Stack<'a>,
    pub(crate) attempt: Move,
    pub(crate) lacking: Lacking,
    ghost tree: { IsTree stack.tree.now } by { Prim.hlevel props },
    ghost moved: { IsNode stack.tree.now attempt.moved },
    ghost target: { IsTargetIn stack.tree.now attempt.target } by { IsTargetIn-once
        stack.tree.now attempt.target },
    ghost at_source: { AreLacking stack.tree.now (layers_of stack)
        (source_of stack.tree.now attempt) lacking.source } by { Prim.hlevel props },
    ghost at_destination: { AreLacking stack.tree.now (layers_of stack)
        (destination_of stack.tree.now attempt.target)
        lacking.destination } by { Prim.hlevel props },
}

impl<'a> CrossDirectoryMove<'a> {
    /// What the object that is there already gains in an exchange, under each layer; nothing in other moves. And how
    /// many look-ups it took to tell.
    fn other_gained(&self) -> (u32x16, u64)
        ensures gained { (index : ℕ) → some_right (has (lane result.0 index))
            ≡ other_gains self.now.stack.tree.now self.now.attempt
            (in_tree self.now.stack.tree.now (stacked self.now.stack index)) self.now.attempt.how
            self.now.attempt.target }
        ensures count { result.1 ≤ length self.now.stack.ids.now }
    {
        let source = u32x16::from_array(self.lacking.source);
        let destination = u32x16::from_array(self.lacking.destination);
        match self.attempt.how {
            How::Exchange => match self.attempt.target {
                Target::Over(there) => self.stack.gained(there, destination, source),
                Target::New(_) => (no_rights(), 0),
            },
            How::Rename | How::Link => (no_rights(), 0),
        }
    }

    /// The layers that refuse to let the object leave its directory: those that don't grant the right to move files
    /// between directories, or under which an object would gain a right. And the number of look-ups.
    pub(crate) fn held_back(&self) -> (LayerSet, u64)
        ensures held { result.0
            ≡ numbers_where (holds_back self.now.stack.tree.now self.now.attempt)
            (all_in_tree self.now.stack.tree.now (layers_of self.now.stack)) }
        ensures count { result.1 ≤ length self.now.stack.ids.now * 2 }
    {
        let source = u32x16::from_array(self.lacking.source);
        let destination = u32x16::from_array(self.lacking.destination);
        let kept = within(either(source, destination), Fs::REFER);
        let (own, first) = self.stack.gained(self.attempt.moved, source, destination);
        let (other, second) = self.other_gained();
        (filled(either(kept, either(own, other))), first + second)
    }
}
