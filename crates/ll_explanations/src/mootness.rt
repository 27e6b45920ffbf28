//! Why a call is moot.

ghost use Rattle.std.specs.Prelude.{◌≡◌, false, if◌then◌else◌, is_some, option_map};
ghost use Rattle.ll_tree.specs.Trees.{place};
ghost use Rattle.ll_trace.specs.{declared.op.Op.Op, FirstPlaces.first_place, Borrowed.is_of_rights};
ghost use Rattle.ll_semantics.specs.Requests.{wanted};
ghost use Rattle.ll_explanations.specs.declared.why.Which.TheVariants.{First};
ghost use Rattle.ll_explanations.specs.Meant.{path_named, reason_in, text_named};
ghost use Rattle.ll_reasons.specs.Origins.{Origins};
ghost use Rattle.ll_reasons.specs.Reasons.{no_object, not_for_writing, open_already, reason, spelt, unmet, unopened};
ghost use Rattle.ll_origins.specs.TraceOrigins.{Follows, opened};

use crate::moves::{unlinked, unrenamed};
use crate::objects::{no_object, unmet};
use crate::paths::text_of;
use crate::why::{Reason, Which};
use ll_origins::ProcessOrigins;
use ll_semantics::wanted;
use ll_trace::{Call, Op, Seen, wants_at_a_path};
use ll_tree::{Place, Tree};

/// Whether a number of the process is open.
fn is_open(trail: &ProcessOrigins, fd: u64) -> bool
    ensures { result ≡ is_some (opened trail.now.openings fd) }
{
    trail.openings.get(fd).is_some()
}

/// Why nothing is opened at the first path of a call, which leads to this spot.
#[tactic(auto, unfolding(crate::specs::Meant::reason_in))]
fn not_opened(tree: &Tree, trail: &ProcessOrigins, op: &Op, fd: u64, spot: Place) -> Reason
    requires { spot ≡ place tree.now (text_named op.now First) }
    ensures { reason_in op.now result
        ≡ (if is_some (opened trail.now.openings fd) then open_already fd
        else no_object tree.now (path_named op.now First)
        (place tree.now (text_named op.now First))) }
{
    if is_open(trail, fd) {
        return Reason::OpenAlready(fd);
    }
    no_object(tree, text_of(op, Which::First), spot)
}

/// Why a descriptor's file isn't truncated.
#[tactic(auto, unfolding(crate::specs::Meant::reason_in))]
fn not_truncated(trail: &ProcessOrigins, fd: u64) -> Reason
    ensures { (op : Op) → reason_in op result
        ≡ (if is_some (opened trail.now.openings fd) then not_for_writing fd else unopened fd) }
{
    if is_open(trail, fd) {
        return Reason::NotForWriting(fd);
    }
    Reason::Unopened(fd)
}

/// Why what is at the first path of a call, which leads to this spot, isn't what it wants there, if it wants something
/// at one.
#[tactic(auto, using(crate::proofs::Wanting::unmet_wanted))]
fn reason_at_path(tree: &Tree, op: &Op, spot: Place) -> Option<Reason>
    requires { spot ≡ first_place tree.now op.now }
    ensures { option_map (reason_in op.now) result ≡ option_map
        (λ want. unmet tree.now (spelt want.0) (place tree.now want.0) want.1) (wanted op.now) }
{
    let (_, wanted) = wanted(op)?;
    Some(unmet(tree, op, wanted, spot))
}

/// Why a call is moot that no kernel changes, and None for a call that never is. Its first path leads to this spot.
#[tactic(auto, unfolding(crate::specs::Meanings::mooting, ll_trace::specs::Borrowed::is_of_rights))]
fn reason_of_other(tree: &Tree, trail: &ProcessOrigins, op: &Op, spot: Place) -> Option<Reason>
    requires other { is_of_rights op.now ≡ false }
    requires spot { spot ≡ first_place tree.now op.now }
    ensures { (o : Origins) → Follows trail.now o
        → option_map (reason_in op.now) result ≡ reason tree.now o op.now }
{
    match op {
        Op::Restrict { .. } => Some(Reason::Unenforced),
        Op::CloseRs { rs } => Some(Reason::Unheld(*rs)),
        Op::OpenFile { fd, .. } => Some(not_opened(tree, trail, op, *fd, spot)),
        Op::Adopt { fd, .. } => Some(Reason::OpenAlready(*fd)),
        Op::Dup { fd, .. } | Op::Close { fd } | Op::Ioctl { fd, .. } => Some(Reason::Unopened(*fd)),
        Op::Ftruncate { fd } => Some(not_truncated(trail, *fd)),
        Op::Rename { exchange, .. } => Some(unrenamed(tree, op, *exchange, spot)),
        Op::Link { .. } => Some(unlinked(tree, op, spot)),
        wants_at_a_path!()
        | Op::Start { .. }
        | Op::Fork { .. }
        | Op::Exit
        | Op::Nnp
        | Op::Mount
        | Op::Bind { .. }
        | Op::Connect { .. } => reason_at_path(tree, op, spot),
        Op::Create { .. }
        | Op::CreateEmpty { .. }
        | Op::AddPath { .. }
        | Op::AddPort { .. }
        | Op::LeaveOutPath { .. }
        | Op::LeaveOutPort => unreachable!(),
    }
}

/// Why a call is moot, and None for a call that never is. Its first path leads to this spot.
#[tactic(auto, unfolding(crate::specs::Meanings::mooting, ll_trace::specs::Borrowed::meant, ll_semantics::specs::Requests::wanted))]
pub(crate) fn reason_of(
    tree: &Tree,
    trail: &ProcessOrigins,
    seen: &Seen<'_>,
    spot: Place,
) -> Option<Reason>
    requires { spot ≡ first_place tree.now seen.now }
    ensures { (o : Origins) → Follows trail.now o
        → option_map (reason_in seen.now) result ≡ reason tree.now o seen.now }
{
    match seen.call() {
        Call::Create { rs, .. } => Some(Reason::HeldAlready(rs)),
        Call::CreateEmpty { rs } => Some(Reason::HeldAlready(rs)),
        Call::AddPath { path, .. } => Some(no_object(tree, path.as_str(), spot)),
        Call::AddPort { .. } => None,
        Call::LeaveOutPath { .. } => Some(Reason::Unsupported),
        Call::LeaveOutPort => Some(Reason::Unsupported),
        Call::Other(op) => reason_of_other(tree, trail, op, spot),
    }
}
