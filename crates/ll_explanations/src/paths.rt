//! The texts of the paths that calls name.

ghost use Rattle.std.specs.Prelude.{◌≡◌, ◌≢◌, [], IfNone, IfSome, IsTrue, is_some};
ghost use Rattle.ll_lines.specs.Paths.{front, path_of};
ghost use Rattle.ll_tree.specs.Trees.{IsNode, node_at};
ghost use Rattle.ll_explanations.specs.declared.why.Which.TheVariants.{First, Second};
ghost use Rattle.ll_explanations.specs.Meant.{path_in, path_named, text_named};
ghost use Rattle.ll_reasons.specs.Reasons.{spelt};

use crate::why::{NamedPath, Which};
use ll_trace::{Op, changes_without_names, still_without_a_path, wants_at_a_path};
use ll_tree::{NodeId, Tree, front_text};
use std::marker::Model;

/// A text that spells a path. Contracts see the path.
#[derive(Drop)]
pub(crate) struct SpeltPath<'t> {
    text: &'t str,
}

impl<'t> Model for SpeltPath<'t> {
    ghost use Rattle.std.specs.Prelude.{IsTrue, is_some};
    ghost use Rattle.ll_lines.specs.Paths.{Path, path_of};
    ghost use Rattle.ll_reasons.specs.Reasons.{spelt};

    ghost Value = { Path };

    ghost view = { λ path. spelt path.text.now };

    ghost invariant = { λ path. IsTrue (is_some (path_of path.text.now)) };
}

impl<'t> SpeltPath<'t> {
    /// A path that a call names.
    pub(crate) fn of(op: &'t Op, which: Which) -> SpeltPath<'t>
        ensures { result ≡ path_named op.now which }
    {
        SpeltPath {
            text: text_of(op, which),
        }
    }

    /// The path that a text spells.
    pub(crate) fn spelling(text: &'t str) -> SpeltPath<'t>
        requires { IsTrue (is_some (path_of text.now)) }
        ensures { result ≡ spelt text.now }
    {
        SpeltPath { text }
    }

    /// The text.
    pub(crate) fn as_str(&self) -> &'t str
        ensures path { spelt result.now ≡ self.now }
        ensures shape { IsTrue (is_some (path_of result.now)) }
    {
        self.text
    }

    /// The path without its last name, and None for the root.
    pub(crate) fn front(&self) -> Option<SpeltPath<'t>>
        ensures some { IfSome result (λ above. (above ≡ front self.now) × (self.now ≢ [])) }
        ensures none { IfNone result (self.now ≡ []) }
    {
        let text = self.as_str();
        if text.len() <= 1 {
            return None;
        }
        Some(SpeltPath {
            text: front_text(text),
        })
    }

    /// The node of the path, where the tree has it.
    pub(crate) fn node(&self, tree: &Tree) -> Option<NodeId>
        ensures exact { result ≡ node_at tree.now self.now }
        ensures node { IfSome result (IsNode tree.now) }
    {
        tree.node_of(self.as_str())
    }
}

/// The text of the only path that a call names or of the first of two, and `/` where it names none.
#[tactic(auto, using(crate::proofs::SpeltTexts::root_shape), unfolding(crate::specs::Meant::text_named))]
fn first_text(op: &Op) -> &str
    ensures text { result.now ≡ text_named op.now First }
    ensures shape { IsTrue (is_some (path_of result.now)) }
{
    match op.first_path() {
        Some(path) => path.as_str(),
        None => "/",
    }
}

/// The text of the second of two paths that a call names, and `/` where it names none.
#[tactic(auto, using(crate::proofs::SpeltTexts::root_shape), unfolding(crate::specs::Meant::text_named, ll_trace::specs::Operations::paths_of))]
fn second_text(op: &Op) -> &str
    ensures text { result.now ≡ text_named op.now Second }
    ensures shape { IsTrue (is_some (path_of result.now)) }
{
    match op {
        Op::Rename { to, .. } | Op::Link { to, .. } => to.path().as_str(),
        wants_at_a_path!()
        | still_without_a_path!()
        | Op::AddPath { .. }
        | Op::LeaveOutPath { .. }
        | Op::OpenFile { .. }
        | changes_without_names!()
        | Op::Create { .. }
        | Op::AddPort { .. } => "/",
    }
}

/// The text of a path that a call names, and `/` where it doesn't name it.
pub fn text_of(op: &Op, which: Which) -> &str
    ensures text { result.now ≡ text_named op.now which }
    ensures shape { IsTrue (is_some (path_of result.now)) }
{
    match which {
        Which::First => first_text(op),
        Which::Second => second_text(op),
    }
}

/// The text of a path that a call names, or of one above it.
#[tactic(auto, unfolding(crate::specs::Meant::path_in))]
pub fn text_above(op: &Op, named: NamedPath) -> &str
    ensures path { spelt result.now ≡ path_in op.now named }
    ensures shape { IsTrue (is_some (path_of result.now)) }
{
    let mut path = SpeltPath::of(op, named.which);
    for _ in 0..named.above {
        if let Some(up) = path.front() {
            path = up;
        }
    }
    path.as_str()
}
