//! What plain layers answer to moves, by a table of what each call asks.

ghost use Rattle.ll_tree.specs.Trees.{IsNode};

use crate::layer::{PlainLayer, Refuses, Refusing};
use ll_rights::{Fs, Kind, RightSet};
use ll_rules::{Errno, MOST_LAYERS};
use ll_tree::{NodeId, Tree};

/// A call that moves an object.
#[derive(Clone, Copy, Debug, PartialEq, Eq)]
pub enum Call {
    /// A rename to a name that is missing in a directory.
    RenameToMissing,
    /// A rename onto an object.
    RenameOnto,
    /// An exchange with an object.
    Exchange,
    /// A link under a name that is missing in a directory.
    Link,
}

/// A right that a call asks: to make or to remove what is moved, or what is there already.
#[derive(Clone, Copy)]
enum Asks {
    MakeMoved,
    RemoveMoved,
    MakeThere,
    RemoveThere,
}

/// A row of the table: what a call asks on the directory of the object, and on that of the new name.
#[derive(Clone, Copy)]
struct Row {
    call: Call,
    on_source: &'static [Asks],
    on_destination: &'static [Asks],
}

/// The table of docs/SEMANTICS.md, "Moving and linking".
const TABLE: &[Row] = &[
    Row {
        call: Call::RenameToMissing,
        on_source: &[Asks::RemoveMoved],
        on_destination: &[Asks::MakeMoved],
    },
    Row {
        call: Call::RenameOnto,
        on_source: &[Asks::RemoveMoved],
        on_destination: &[Asks::MakeMoved, Asks::RemoveThere],
    },
    Row {
        call: Call::Exchange,
        on_source: &[Asks::RemoveMoved, Asks::MakeThere],
        on_destination: &[Asks::MakeMoved, Asks::RemoveThere],
    },
    Row {
        call: Call::Link,
        on_source: &[],
        on_destination: &[Asks::MakeMoved],
    },
];

/// A move: the call, the object, and the directory of the new name or the object that is there.
#[derive(Clone, Copy)]
pub struct Attempt {
    /// Which call it is.
    pub call: Call,
    /// The object.
    pub moved: NodeId,
    /// For a rename onto an object and an exchange that object, else the directory of the new name.
    pub onto: NodeId,
}

/// The directory that an object is in; the root is in itself.
fn directory_of(tree: &Tree, object: NodeId) -> NodeId
    requires { IsNode tree.now object }
    ensures { IsNode tree.now result }
{
    match tree.parent(object) {
        Some(directory) => directory,
        None => object,
    }
}

/// The directory of the object.
pub(crate) fn source_of(tree: &Tree, attempt: &Attempt) -> NodeId
    requires { IsNode tree.now attempt.now.moved }
    ensures { IsNode tree.now result }
{
    directory_of(tree, attempt.moved)
}

/// The directory of the new name.
pub(crate) fn destination_of(tree: &Tree, attempt: &Attempt) -> NodeId
    requires { IsNode tree.now attempt.now.onto }
    ensures { IsNode tree.now result }
{
    match attempt.call {
        Call::RenameToMissing | Call::Link => attempt.onto,
        Call::RenameOnto | Call::Exchange => directory_of(tree, attempt.onto),
    }
}

/// The rights that are asked on a directory, where objects of these kinds are moved and there.
fn rights_of(asks: &[Asks], moved: Kind, there: Kind) -> Fs {
    let mut rights = Fs::NONE;
    for ask in asks {
        let right = match ask {
            Asks::MakeMoved => moved.make_right(),
            Asks::RemoveMoved => moved.remove_right(),
            Asks::MakeThere => there.make_right(),
            Asks::RemoveThere => there.remove_right(),
        };
        rights = rights.union(right);
    }
    rights
}

/// Whether a layer denies what a move asks of the two directories.
fn denies(tree: &Tree, layer: &PlainLayer, attempt: &Attempt) -> bool
    requires moved { IsNode tree.now attempt.now.moved }
    requires onto { IsNode tree.now attempt.now.onto }
{
    let moved = tree.kind(attempt.moved);
    let there = tree.kind(attempt.onto);
    let source = source_of(tree, attempt);
    let destination = destination_of(tree, attempt);
    for row in TABLE {
        if row.call == attempt.call {
            if layer.refuses(tree, source, rights_of(row.on_source, moved, there)) {
                return true;
            }
            if layer.refuses(
                tree,
                destination,
                rights_of(row.on_destination, moved, there),
            ) {
                return true;
            }
        }
    }
    false
}

/// Whether a layer keeps a move from leaving the directory.
fn holds_back(tree: &Tree, layer: &PlainLayer, attempt: &Attempt) -> bool
    requires moved { IsNode tree.now attempt.now.moved }
    requires onto { IsNode tree.now attempt.now.onto }
{
    let source = source_of(tree, attempt);
    let destination = destination_of(tree, attempt);
    if layer.refuses(tree, source, Fs::REFER) {
        return true;
    }
    if layer.refuses(tree, destination, Fs::REFER) {
        return true;
    }
    if layer.gains(tree, attempt.moved, destination) {
        return true;
    }
    if attempt.call == Call::Exchange {
        return layer.gains(tree, attempt.onto, source);
    }
    false
}

/// Which of the first sixteen layers refuse a rename or a link, and with which error; nothing where it passes.
pub fn answer(tree: &Tree, layers: &[PlainLayer], attempt: &Attempt) -> Option<(Errno, Refusing)>
    requires moved { IsNode tree.now attempt.now.moved }
    requires onto { IsNode tree.now attempt.now.onto }
{
    let mut denied = [false; MOST_LAYERS];
    for (mark, layer) in denied.iter_mut().zip(layers) {
        *mark = denies(tree, layer, attempt);
    }
    if denied.contains(&true) {
        return Some((Errno::Acces, denied));
    }
    if source_of(tree, attempt) == destination_of(tree, attempt) {
        return None;
    }
    let mut held_back = [false; MOST_LAYERS];
    for (mark, layer) in held_back.iter_mut().zip(layers) {
        *mark = holds_back(tree, layer, attempt);
    }
    if held_back.contains(&true) {
        return Some((Errno::XDev, held_back));
    }
    None
}
