//! Why an object isn't renamed or linked.

ghost use Rattle.std.specs.Prelude.{◌≡◌};
ghost use Rattle.ll_tree.specs.Trees.{IsNode, place};
ghost use Rattle.ll_explanations.specs.declared.why.Which.TheVariants.{First, Second};
ghost use Rattle.ll_explanations.specs.Meant.{path_named, reason_in, text_named};
ghost use Rattle.ll_reasons.specs.Reasons.{linked_to, moved_to, onto, unlinked, unrenamed};

use crate::objects::nowhere;
use crate::paths::text_of;
use crate::why::{NamedPath, Reason, Which};
use ll_trace::Op;
use ll_tree::{NodeId, Place, Tree};

/// Why an object doesn't take the place of another.
#[tactic(auto, unfolding(crate::specs::Meant::reason_in, crate::specs::Meant::path_in, crate::specs::Meant::above_by, ll_reasons::specs::Reasons::onto))]
fn onto(tree: &Tree, op: &Op, moved: NodeId, there: NodeId) -> Reason
    requires moved_is_node { IsNode tree.now moved }
    requires there_is_node { IsNode tree.now there }
    ensures { reason_in op.now result
        ≡ onto tree.now (path_named op.now First) moved (path_named op.now Second) there }
{
    if there.is_root() {
        return Reason::Root;
    }
    if moved == there {
        return Reason::Unmoved;
    }
    if tree.is_above(moved, there) {
        return Reason::BeneathItself;
    }
    if tree.is_above(there, moved) {
        return Reason::OverItself;
    }
    Reason::Mixed
}

/// Why an object that isn't the root isn't renamed to a path, or exchanged with what is there.
#[tactic(auto, unfolding(crate::specs::Meant::reason_in, crate::specs::Meant::path_in, crate::specs::Meant::above_by, ll_reasons::specs::Reasons::moved_to))]
fn moved_to(tree: &Tree, op: &Op, moved: NodeId, exchange: bool) -> Reason
    requires { IsNode tree.now moved }
    ensures { reason_in op.now result ≡ moved_to tree.now (path_named op.now First) moved
        (path_named op.now Second) (place tree.now (text_named op.now Second)) exchange }
{
    let which = Which::Second;
    match tree.place_of(text_of(op, which)) {
        Place::Node(there) => onto(tree, op, moved, there),
        Place::Gap(_) if exchange => Reason::Absent(NamedPath { which, above: 0 }),
        Place::Gap(_) => Reason::BeneathItself,
        Place::Nowhere => nowhere(tree, op, which),
    }
}

/// Why the object of a call's first path, which leads to this spot, isn't renamed to its second, or the two aren't
/// exchanged.
#[tactic(auto, using(crate::proofs::Wanting::node_there), unfolding(crate::specs::Meant::meaning_unmoved))]
pub(crate) fn unrenamed(tree: &Tree, op: &Op, exchange: bool, spot: Place) -> Reason
    requires { spot ≡ place tree.now (text_named op.now First) }
    ensures { reason_in op.now result ≡ unrenamed tree.now (path_named op.now First)
        (place tree.now (text_named op.now First)) (path_named op.now Second)
        (place tree.now (text_named op.now Second)) exchange }
{
    let which = Which::First;
    match spot {
        Place::Node(moved) if moved.is_root() => Reason::Root,
        Place::Node(moved) => moved_to(tree, op, moved, exchange),
        Place::Gap(_) => Reason::Absent(NamedPath { which, above: 0 }),
        Place::Nowhere => nowhere(tree, op, which),
    }
}

/// Why an object that isn't the root gets no further name.
#[tactic(auto, unfolding(crate::specs::Meant::reason_in, crate::specs::Meant::path_in, crate::specs::Meant::above_by, ll_reasons::specs::Reasons::linked_to))]
fn linked_to(tree: &Tree, op: &Op, linked: NodeId) -> Reason
    requires { IsNode tree.now linked }
    ensures { reason_in op.now result ≡ linked_to tree.now (path_named op.now First) linked
        (path_named op.now Second) (place tree.now (text_named op.now Second)) }
{
    let which = Which::Second;
    match tree.place_of(text_of(op, which)) {
        Place::Node(_) => Reason::Present(which),
        Place::Gap(_) => Reason::OfKind(tree.kind(linked)),
        Place::Nowhere => nowhere(tree, op, which),
    }
}

/// Why the object of a call's first path, which leads to this spot, gets no further name, the second.
#[tactic(auto, using(crate::proofs::Wanting::node_there), unfolding(crate::specs::Meant::meaning_unmoved))]
pub(crate) fn unlinked(tree: &Tree, op: &Op, spot: Place) -> Reason
    requires { spot ≡ place tree.now (text_named op.now First) }
    ensures { reason_in op.now result ≡ unlinked tree.now (path_named op.now First)
        (place tree.now (text_named op.now First)) (path_named op.now Second)
        (place tree.now (text_named op.now Second)) }
{
    let which = Which::First;
    match spot {
        Place::Node(linked) if linked.is_root() => Reason::Root,
        Place::Node(linked) => linked_to(tree, op, linked),
        Place::Gap(_) => Reason::Absent(NamedPath { which, above: 0 }),
        Place::Nowhere => nowhere(tree, op, which),
    }
}
