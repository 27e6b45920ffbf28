//! Why what is at a path isn't what a call wants there.

ghost use Rattle.std.specs.Prelude.{◌≡◌, IsTrue, is_some};
ghost use Rattle.ll_lines.specs.Paths.{path_of};
ghost use Rattle.ll_tree.specs.Trees.{place};
ghost use Rattle.ll_explanations.specs.declared.why.Which.TheVariants.{First};
ghost use Rattle.ll_explanations.specs.Meant.{path_named, reason_in, text_named};
ghost use Rattle.ll_reasons.specs.Reasons.{no_object, nowhere, spelt, unmet};
ghost use Rattle.ll_trace.specs.declared.op.Op.{Op as Operation};

use crate::paths::{SpeltPath, text_of};
use crate::why::{NamedPath, Reason, Which};
use ll_semantics::Wanted;
use ll_trace::Op;
use ll_tree::{Place, Tree};

/// Where the tree ends on the way to a path of a call that isn't there, by its text: at the first path, going up, whose
/// directory is there.
#[tactic(auto, unfolding(crate::specs::Meant::reason_in, crate::specs::Meant::path_in))]
fn nowhere_from(tree: &Tree, text: &str, which: Which) -> Reason
    requires { IsTrue (is_some (path_of text.now)) }
    ensures { (op : Operation) → text_named op which ≡ text.now
        → reason_in op result ≡ nowhere tree.now (spelt text.now) }
{
    let mut missing = SpeltPath::spelling(text);
    let mut above = 0;
    while let Some(up) = missing.front() {
        if let Some(node) = up.node(tree) {
            if tree.is_directory(node) {
                return Reason::Absent(NamedPath { which, above });
            }
            let above = above + 1;
            return Reason::NoDirectory(NamedPath { which, above });
        }
        missing = up;
        above += 1;
    }
    Reason::Absent(NamedPath { which, above })
}

/// The same of a path that a call names.
pub(crate) fn nowhere(tree: &Tree, op: &Op, which: Which) -> Reason
    ensures { reason_in op.now result ≡ nowhere tree.now (path_named op.now which) }
{
    nowhere_from(tree, text_of(op, which), which)
}

/// Why the first path of a call, with this text, isn't that of an object which the call takes.
#[tactic(auto, using(crate::proofs::Wanting::node_there), unfolding(crate::specs::Meant::no_meaning))]
pub(crate) fn no_object(tree: &Tree, text: &str, spot: Place) -> Reason
    requires shape { IsTrue (is_some (path_of text.now)) }
    requires spot { spot ≡ place tree.now text.now }
    ensures { (op : Operation) → text_named op First ≡ text.now → reason_in op result
        ≡ no_object tree.now (path_named op First) (place tree.now (text_named op First)) }
{
    let which = Which::First;
    match spot {
        Place::Node(node) => Reason::OfKind(tree.kind(node)),
        Place::Gap(_) => Reason::Absent(NamedPath { which, above: 0 }),
        Place::Nowhere => nowhere_from(tree, text, which),
    }
}

/// Why what is at the first path of a call, which leads to this spot, isn't what it wants there.
#[tactic(auto, using(crate::proofs::Wanting::node_there), unfolding(crate::specs::Meant::meaning_unmet))]
pub(crate) fn unmet(tree: &Tree, op: &Op, wanted: Wanted, spot: Place) -> Reason
    requires { spot ≡ place tree.now (text_named op.now First) }
    ensures { reason_in op.now result ≡ unmet tree.now (path_named op.now First)
        (place tree.now (text_named op.now First)) wanted }
{
    let which = Which::First;
    let node = match spot {
        Place::Node(node) => node,
        Place::Gap(_) => return Reason::Absent(NamedPath { which, above: 0 }),
        Place::Nowhere => return nowhere(tree, op, which),
    };
    match wanted {
        Wanted::Make(_) => Reason::Present(which),
        Wanted::Unlink | Wanted::Rmdir if node.is_root() => Reason::Root,
        _ => Reason::OfKind(tree.kind(node)),
    }
}
