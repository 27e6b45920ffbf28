//! What each layer of a process objects to.

ghost use Rattle.std.specs.Prelude.{◌≡◌, ◌∷◌, [], IfOk, IfSome, OnOk, option_map, option_to_list};
ghost use Rattle.ll_rights.specs.Rights as files;
ghost use Rattle.ll_tree.specs.Trees.{IsNode, path_at, kind_at};
ghost use Rattle.ll_reasons.specs.Objections.{objecting, on_gain, on_mount, on_path, on_port};
ghost use Rattle.ll_explanations.specs.Adding.{AddsOf, AreObjections};
ghost use Rattle.ll_explanations.specs.Asking.{IsAsked, objected};
ghost use Rattle.ll_explanations.specs.Confined.{rules_of, stacked};
ghost use Rattle.ll_explanations.specs.InTree.{IsObjectionIn};
ghost use Rattle.ll_explanations.specs.Meanings.{IsOne, objection_in};

use crate::confinement::{Confinement, OneLayer, made_by};
use crate::missing::{Test, passing};
use crate::moved::{MoveRequest, push_denied, push_held_back};
use crate::objection::{LayerObjection, Noted, Noting, Objection};
use crate::ports::{handles_files, lacks_on_port};
use ll_rights::{Fs, Net, RightSet};
use ll_rules::Errno;
use ll_tree::NodeId;
use std::alloc::{AllocError, Global};

/// What each layer of a process is asked.
#[derive(Clone, Copy)]
pub(crate) enum Asked {
    /// Rights on a node.
    OnNode(NodeId, Fs),
    /// One right on a port.
    OnPort(u16, Net),
    /// To let what is mounted be changed.
    Mounting,
    /// To let an object be moved, which is refused with this error.
    Moving(MoveRequest, Errno),
}

/// What a layer lacks of rights on a node.
pub(crate) fn missing(layer: &OneLayer, node: NodeId, asked: Fs) -> Option<Objection>
    requires { IsNode layer.now.ctx.tree.now node }
    ensures said { option_to_list (option_map (objection_in layer.now.ctx.tree.now) result)
        ≡ on_path (path_at layer.now.ctx.tree.now node) (files.has asked) (rules_of layer.now) }
    ensures inside { IfSome result (IsObjectionIn layer.now.ctx.tree.now) }
{
    let rights = passing(Test::Lacking { layer, node, asked });
    if rights.is_empty() {
        return None;
    }
    Some(Objection::Missing { rights, node })
}

/// What an object would gain in a directory under a layer.
pub(crate) fn gained(layer: &OneLayer, object: NodeId, directory: NodeId) -> Option<Objection>
    requires object { IsNode layer.now.ctx.tree.now object }
    requires directory { IsNode layer.now.ctx.tree.now directory }
    ensures said { option_to_list (option_map (objection_in layer.now.ctx.tree.now) result)
        ≡ on_gain (kind_at layer.now.ctx.tree.now object)
        (path_at layer.now.ctx.tree.now object) (path_at layer.now.ctx.tree.now directory)
        (rules_of layer.now) }
    ensures inside { IfSome result (IsObjectionIn layer.now.ctx.tree.now) }
{
    let rights = passing(Test::Gaining {
        layer,
        object,
        directory,
    });
    if rights.is_empty() {
        return None;
    }
    Some(Objection::Gained {
        object,
        rights,
        directory,
    })
}

/// What a layer lacks of one right on a port.
fn closed(layer: &OneLayer, port: u16, right: Net) -> Option<Objection>
    requires { IsOne right }
    ensures said { option_to_list (option_map (objection_in layer.now.ctx.tree.now) result)
        ≡ on_port port right (rules_of layer.now) }
    ensures inside { IfSome result (IsObjectionIn layer.now.ctx.tree.now) }
{
    if !lacks_on_port(layer, port, right) {
        return None;
    }
    Some(Objection::Closed {
        rights: right,
        port,
    })
}

/// Whether a layer keeps what is mounted as it is.
fn mounting(layer: &OneLayer) -> Option<Objection>
    ensures said { option_to_list (option_map (objection_in layer.now.ctx.tree.now) result)
        ≡ on_mount (rules_of layer.now) }
    ensures inside { IfSome result (IsObjectionIn layer.now.ctx.tree.now) }
{
    if handles_files(layer) {
        Some(Objection::Mounting)
    } else {
        None
    }
}

/// Adds an objection of a layer.
#[tactic(auto, using(crate::proofs::Adding::adds_one))]
fn push_one(all: &mut Noted, layer: &OneLayer, objection: Objection) -> Noting
    requires { IsObjectionIn layer.now.ctx.tree.now objection }
    ensures { OnOk result (AddsOf layer.now all.old.items all.new.items
        (objection_in layer.now.ctx.tree.now objection ∷ [])) }
{
    all.push(LayerObjection {
        layer: layer.number,
        made: made_by(layer.ctx.trail, layer.number as usize - 1),
        objection,
    })?;
    Ok(())
}

/// Adds an objection of a layer, if there is one.
#[tactic(auto, using(crate::proofs::Adding::adds_none))]
pub(crate) fn push_any(all: &mut Noted, layer: &OneLayer, objection: Option<Objection>) -> Noting
    requires { IfSome objection (IsObjectionIn layer.now.ctx.tree.now) }
    ensures { OnOk result (AddsOf layer.now all.old.items all.new.items
        (option_to_list (option_map (objection_in layer.now.ctx.tree.now) objection))) }
{
    match objection {
        None => Ok(()),
        Some(objection) => push_one(all, layer, objection),
    }
}

/// Adds what a layer objects to in what is asked.
#[tactic(auto, unfolding(crate::specs::Asking::objected))]
fn push_objections(all: &mut Noted, layer: &OneLayer, asked: &Asked) -> Noting
    requires { IsAsked layer.now.ctx.tree.now asked.now }
    ensures { OnOk result (AddsOf layer.now all.old.items all.new.items
        (objected layer.now.ctx.tree.now asked.now (rules_of layer.now))) }
{
    match asked {
        Asked::OnNode(node, rights) => push_any(all, layer, missing(layer, *node, *rights)),
        Asked::OnPort(port, right) => push_any(all, layer, closed(layer, *port, *right)),
        Asked::Mounting => push_any(all, layer, mounting(layer)),
        Asked::Moving(request, Errno::XDev) => push_held_back(all, layer, request),
        Asked::Moving(request, _) => push_denied(all, layer, request),
    }
}

/// What the layers of a process object to in what is asked, layer after layer.
pub(crate) fn objections_of(
    alloc: Global,
    ctx: &Confinement,
    asked: &Asked,
) -> Result<Noted, AllocError>
    requires { IsAsked ctx.now.tree.now asked.now }
    ensures { IfOk result (AreObjections ctx.now
        (objecting (objected ctx.now.tree.now asked.now) (stacked ctx.now))) }
{
    // Most refusals have one objection, and explanations are kept until the report is written.
    let mut all = Vec::with_capacity(alloc, 1)?;
    for (index, id) in ctx.domain.iter().enumerate() {
        let layer = OneLayer {
            ctx: *ctx,
            number: index as u64 + 1,
            id: *id,
        };
        push_objections(&mut all, &layer, asked)?;
    }
    Ok(all)
}
