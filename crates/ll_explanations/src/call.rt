//! What the layers of a process that refuse a call object to.

ghost use Rattle.std.specs.Prelude.{◌≡◌, IfOk, IfSome};
ghost use Rattle.ll_trace.specs.FirstPlaces.{first_place};
ghost use Rattle.ll_semantics.specs.Fits.{IsFitMove};
ghost use Rattle.ll_semantics.specs.Requests.{request, wanted};
ghost use Rattle.ll_reasons.specs.Explanations.{objections_to};
ghost use Rattle.ll_reasons.specs.Objections.{to_move, to_request};
ghost use Rattle.ll_explanations.specs.{Adding.AreObjections, Confined.followed, Confined.stacked};

use crate::asked::{Asked, objections_of};
use crate::confinement::Confinement;
use crate::kept::kept_by_descriptor;
use crate::moved::move_request;
use crate::objection::Noted;
use ll_rights::{FsRight, Net};
use ll_rules::{Errno, LayerSet, Move};
use ll_semantics::wanted;
use ll_state::{asks, link_move, rename_move};
use ll_trace::{Call, Op, Seen};
use ll_tree::Place;
use std::alloc::{AllocError, Global};

/// What layers object to, layer after layer, or that memory ran out.
pub(crate) type Objected = Result<Noted, AllocError>;

/// What layers object to in a call that may want something at its first path, which leads to this spot.
#[tactic(auto, using(ll_trace::proofs::Places::first_place_inside), unfolding(crate::specs::Asking::requesting))]
fn to_request(alloc: Global, ctx: &Confinement, op: &Op, spot: Place) -> Objected
    requires { spot ≡ first_place ctx.now.tree.now op.now }
    ensures { IfOk result (AreObjections ctx.now
        (to_request ctx.now.tree.now (stacked ctx.now)
        (request ctx.now.tree.now (wanted op.now)))) }
{
    let Some((_, wanted)) = wanted(op) else {
        return Ok(Vec::new(alloc));
    };
    match asks(ctx.tree, spot, wanted) {
        None => Ok(Vec::new(alloc)),
        Some(request) => { objections_of(alloc, ctx, &Asked::OnNode(request.node, request.rights)) }
    }
}

/// What layers object to in a move, if one is asked, by the error that it is refused with.
#[tactic(auto, unfolding(ll_reasons::specs::Objections::to_move, crate::specs::Asking::objected, crate::specs::Meanings::by_layer))]
fn to_move(alloc: Global, ctx: &Confinement, asked: Option<Move>, error: Errno) -> Objected
    requires { IfSome asked (IsFitMove ctx.now.tree.now) }
    ensures { IfOk result (AreObjections ctx.now
        (to_move ctx.now.tree.now (stacked ctx.now) error asked)) }
{
    let Some(attempt) = asked else {
        return Ok(Vec::new(alloc));
    };
    let request = move_request(ctx.tree, attempt);
    objections_of(alloc, ctx, &Asked::Moving(request, error))
}

/// What the layers of a process that refuse a call object to. The call's error says what is looked at for a move, and
/// the numbers of the layers for a call on a descriptor. Its first path leads to this spot. They refuse no call that
/// makes a ruleset.
#[tactic(auto, using(ll_trace::proofs::Places::first_place_inside), unfolding(crate::specs::Asking::objecting, ll_trace::specs::Borrowed::meant))]
pub(crate) fn objections_to(
    alloc: Global,
    ctx: &Confinement,
    seen: &Seen<'_>,
    error: Errno,
    numbers: LayerSet,
    spot: Place,
) -> Objected
    requires { spot ≡ first_place ctx.now.tree.now seen.now }
    ensures { IfOk result (AreObjections ctx.now
        (objections_to ctx.now.tree.now (stacked ctx.now)
        (followed ctx.now.trail.now) seen.now error numbers)) }
{
    let Call::Other(op) = seen.call() else {
        return Ok(Vec::new(alloc));
    };
    match op {
        Op::Ftruncate { fd } => { kept_by_descriptor(alloc, ctx, FsRight::Truncate, numbers, *fd) }
        Op::Ioctl { fd, .. } => kept_by_descriptor(alloc, ctx, FsRight::IoctlDev, numbers, *fd),
        Op::Rename { to, exchange, .. } => {
            let target = ctx.tree.place_of(to.path().as_str());
            let asked = rename_move(ctx.tree, spot, target, *exchange);
            to_move(alloc, ctx, asked, error)
        }
        Op::Link { to, .. } => {
            let target = ctx.tree.place_of(to.path().as_str());
            to_move(alloc, ctx, link_move(ctx.tree, spot, target), error)
        }
        Op::Mount => objections_of(alloc, ctx, &Asked::Mounting),
        Op::Bind { port } => objections_of(alloc, ctx, &Asked::OnPort(*port, Net::BIND_TCP)),
        Op::Connect { port } => {
            objections_of(alloc, ctx, &Asked::OnPort(*port, Net::CONNECT_TCP))
        }
        _ => to_request(alloc, ctx, op, spot),
    }
}
