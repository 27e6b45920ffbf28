//! What one layer objects to in a rename or a link.

ghost use Rattle.std.specs.Prelude.{◌≡◌, ◌++◌, IfSome, OnOk, option_map, option_to_list};
ghost use Rattle.ll_rights.specs.Rights.{has};
ghost use Rattle.ll_tree.specs.Trees.{path_at};
ghost use Rattle.ll_semantics.specs.Fits.{IsFitMove};
ghost use Rattle.ll_reasons.specs.Objections.{on_crossing, on_directories, on_other_gain, on_path};
ghost use Rattle.ll_explanations.specs.{Adding.AddsOf, Asking.IsMoveRequest, Confined.rules_of};
ghost use Rattle.ll_explanations.specs.{InTree.IsObjectionIn, Meanings.objection_in};

use crate::asked::{gained, missing, push_any};
use crate::confinement::OneLayer;
use crate::objection::{Noted, Noting, Objection};
use ll_rights::{Fs, RightSet};
use ll_rules::{How, Move, Target, entering, leaving};
use ll_tree::{NodeId, Tree};

/// A move, with its two directories and what it asks of them.
#[derive(Clone, Copy)]
pub(crate) struct MoveRequest {
    /// The move.
    pub(crate) attempt: Move,
    /// The directory that the object is in.
    pub(crate) source: NodeId,
    /// The rights that are asked there.
    pub(crate) leaving: Fs,
    /// The directory that it goes to.
    pub(crate) destination: NodeId,
    /// The rights that are asked there.
    pub(crate) entering: Fs,
}

/// A move with what it asks of which directory.
pub(crate) fn move_request(tree: &Tree, attempt: Move) -> MoveRequest
    requires { IsFitMove tree.now attempt }
    ensures request { IsMoveRequest tree.now result }
    ensures attempt { result.attempt ≡ attempt }
{
    let source = leaving(tree, &attempt);
    let destination = entering(tree, &attempt);
    MoveRequest {
        attempt,
        source: source.directory,
        leaving: source.rights,
        destination: destination.directory,
        entering: destination.rights,
    }
}

/// What the object that is there already would gain in an exchange; nothing in other moves.
fn gained_other(layer: &OneLayer, request: &MoveRequest) -> Option<Objection>
    requires { IsMoveRequest layer.now.ctx.tree.now request.now }
    ensures said { option_to_list (option_map (objection_in layer.now.ctx.tree.now) result)
        ≡ on_other_gain layer.now.ctx.tree.now request.now.attempt request.now.attempt.how
        request.now.attempt.target (rules_of layer.now) }
    ensures inside { IfSome result (IsObjectionIn layer.now.ctx.tree.now) }
{
    match request.attempt.how {
        How::Exchange => match request.attempt.target {
            Target::Over(there) => gained(layer, there, request.source),
            Target::New(_) => None,
        },
        How::Rename | How::Link => None,
    }
}

/// Adds what a layer lacks of these rights on the directory that a move leaves, and of those on the directory that it
/// enters.
#[tactic(auto, using(crate::proofs::Adding::adds_two))]
fn push_missing(
    all: &mut Noted,
    layer: &OneLayer,
    request: &MoveRequest,
    on_source: Fs,
    on_destination: Fs,
) -> Noting
    requires { IsMoveRequest layer.now.ctx.tree.now request.now }
    ensures { OnOk result (AddsOf layer.now all.old.items all.new.items
        (on_path (path_at layer.now.ctx.tree.now request.now.source)
        (has on_source) (rules_of layer.now)
        ++ on_path (path_at layer.now.ctx.tree.now request.now.destination)
        (has on_destination) (rules_of layer.now))) }
{
    push_any(all, layer, missing(layer, request.source, on_source))?;
    push_any(
        all,
        layer,
        missing(layer, request.destination, on_destination),
    )?;
    Ok(())
}

/// Adds what a layer lacks of what a move asks of its two directories, in one objection if they are one.
pub(crate) fn push_denied(all: &mut Noted, layer: &OneLayer, request: &MoveRequest) -> Noting
    requires { IsMoveRequest layer.now.ctx.tree.now request.now }
    ensures { OnOk result (AddsOf layer.now all.old.items all.new.items
        (on_directories layer.now.ctx.tree.now request.now.attempt (rules_of layer.now))) }
{
    if request.destination == request.source {
        let asked = request.leaving.union(request.entering);
        push_any(all, layer, missing(layer, request.source, asked))?;
        return Ok(());
    }
    push_missing(all, layer, request, request.leaving, request.entering)?;
    Ok(())
}

/// Adds what keeps a move from leaving its directory under a layer: where `refer` is missing, and what objects would
/// gain.
pub(crate) fn push_held_back(all: &mut Noted, layer: &OneLayer, request: &MoveRequest) -> Noting
    requires { IsMoveRequest layer.now.ctx.tree.now request.now }
    ensures { OnOk result (AddsOf layer.now all.old.items all.new.items
        (on_crossing layer.now.ctx.tree.now request.now.attempt (rules_of layer.now))) }
{
    push_missing(all, layer, request, Fs::REFER, Fs::REFER)?;
    push_any(
        all,
        layer,
        gained(layer, request.attempt.moved, request.destination),
    )?;
    push_any(all, layer, gained_other(layer, request))?;
    Ok(())
}
