//! What layers object to.
#![tactic(auto, unfolding(crate::specs::Writing::writing))]

ghost use Rattle.std.specs.Prelude.{◌≡◌, ◌∷◌, ◌++◌, [], true, codes, decimal, option_and_then, slice_get};
ghost use Rattle.json.specs.Json.{boolean, string};
ghost use Rattle.json.specs.Token as token;
ghost use Rattle.json.specs.Tree.{json_tokens};
ghost use Rattle.ll_rights.specs.CodeRights.{fs_right};
ghost use Rattle.ll_tree.specs.Trees.{IsNode, path_at};
ghost use Rattle.ll_explain.specs.Words as spec;
ghost use Rattle.ll_explain.specs.Words.{line_of};
ghost use Rattle.ll_explanations.specs.InTree.{AreObjectionsIn, IsObjectionIn};
ghost use Rattle.ll_explanations.specs.Meanings.{objection_in, port_rights_in, rights_in};
ghost use Rattle.ll_json.specs.Layering.{ending, head_of, next_tokens, objections_from, opening};
ghost use Rattle.ll_json.specs.Parts.{object_of, whole};
ghost use Rattle.ll_json.specs.Writing.{writing};
ghost use Rattle.ll_json.specs.Why.{objection_json, path_json, port_rights_json, rights_json};

use crate::json_text::JsonText;
use crate::rights::write_rights_as;
use crate::words::{write_number, write_text};
use ll_explain::{line_at, line_made, path_opened, word_for};
use ll_explanations::{LayerObjection, Objection};
use ll_report::FindingAt;
use ll_rights::{Fs, FsRight, Net};
use ll_trace::Record;
use ll_tree::{NodeId, Tree};

/// Writes which rights are missing on a node.
fn write_missing(out: &mut JsonText, tree: &Tree, rights: Fs, node: NodeId)
    requires { IsNode tree.now node }
    ensures { out.new ≡ writing out.old (json_tokens (object_of
        ((codes "missing", rights_json (rights_in rights))
        ∷ (codes "on", path_json (path_at tree.now node)) ∷ []))) }
{
    out.begin_object();
    write_rights_as(out, "missing", rights);
    write_text(out, "on", tree.text(node));
    out.end_object();
}

/// Writes which rights are missing on a port.
fn write_closed(out: &mut JsonText, rights: Net, port: u16)
    ensures { out.new ≡ writing out.old (json_tokens (object_of
        ((codes "closed", port_rights_json (port_rights_in rights))
        ∷ (codes "port", whole port) ∷ []))) }
{
    out.begin_object();
    write_rights_as(out, "closed", rights);
    write_number(out, "port", port as u64);
    out.end_object();
}

/// Writes which rights an object would gain in a directory.
fn write_gained(out: &mut JsonText, tree: &Tree, object: NodeId, rights: Fs, directory: NodeId)
    requires object { IsNode tree.now object }
    requires directory { IsNode tree.now directory }
    ensures { out.new ≡ writing out.old (json_tokens (object_of
        ((codes "gains", rights_json (rights_in rights))
        ∷ (codes "object", path_json (path_at tree.now object))
        ∷ (codes "in", path_json (path_at tree.now directory)) ∷ []))) }
{
    out.begin_object();
    write_rights_as(out, "gains", rights);
    write_text(out, "object", tree.text(object));
    write_text(out, "in", tree.text(directory));
    out.end_object();
}

/// Writes that what is mounted stays as it is.
fn write_mounting(out: &mut JsonText)
    ensures { out.new ≡ writing out.old
        (json_tokens (object_of ((codes "mounting", boolean true) ∷ []))) }
{
    out.begin_object();
    out.write_key("mounting");
    out.write_true();
    out.end_object();
}

/// Writes a member that is the word for one right.
fn write_right_as(out: &mut JsonText, name: &str, right: FsRight)
    ensures { out.new ≡ writing out.old
        (token.key name.now ∷ json_tokens (rights_json (fs_right right ∷ []))) }
{
    out.write_key(name);
    out.begin_array();
    out.write_string(word_for(right.name()));
    out.end_array();
}

/// Writes members that are the path that the record at an index opens, and its line.
fn write_opened(out: &mut JsonText, records: &[Record], opened: u32)
    ensures { out.new ≡ writing out.old
        (token.key (codes "on") ∷ token.string (spec.path_opened (slice_get records.now opened))
        ∷ token.key (codes "opened")
        ∷ token.number (decimal (line_of (slice_get records.now opened))) ∷ []) }
{
    write_text(out, "on", path_opened(records, opened));
    write_number(out, "opened", line_at(records, opened));
}

/// Writes which right was missing on which path, and the line of the record that opened it.
fn write_kept(out: &mut JsonText, records: &[Record], right: FsRight, opened: u32)
    ensures { out.new ≡ writing out.old (json_tokens (object_of
        ((codes "missing", rights_json (fs_right right ∷ []))
        ∷ (codes "on", string (spec.path_opened (slice_get records.now opened)))
        ∷ (codes "opened", whole (line_of (slice_get records.now opened))) ∷ []))) }
{
    out.begin_object();
    write_right_as(out, "missing", right);
    write_opened(out, records, opened);
    out.end_object();
}

/// Writes what is objected to.
#[tactic(auto, unfolding(crate::specs::Writing::writing, crate::specs::Why::objection_json))]
fn write_objection(out: &mut JsonText, here: &FindingAt<'_>, objection: &Objection)
    requires { IsObjectionIn here.now.tree.now objection.now }
    ensures { out.new ≡ writing out.old (json_tokens (objection_json here.now.records.now
        (objection_in here.now.tree.now objection.now))) }
{
    match objection {
        Objection::Missing { rights, node } => write_missing(out, here.tree, *rights, *node),
        Objection::Closed { rights, port } => write_closed(out, *rights, *port),
        Objection::Gained {
            object,
            rights,
            directory,
        } => write_gained(out, here.tree, *object, *rights, *directory),
        Objection::Mounting => write_mounting(out),
        Objection::Kept { right, opened } => write_kept(out, here.records, *right, *opened),
    }
}

/// Begins a layer, which says where it comes from.
#[tactic(auto, unfolding(crate::specs::Layering::head_of))]
fn write_head(out: &mut JsonText, records: &[Record], layer: u64, made: Option<u32>)
    ensures { out.new ≡ writing out.old (head_of records.now layer made) }
{
    out.begin_object();
    write_number(out, "layer", layer);
    write_number(out, "line", line_made(records, made));
    out.write_key("objections");
    out.begin_array();
}

/// Ends the layer before, if there is one.
#[tactic(auto, unfolding(crate::specs::Writing::writing, crate::specs::Layering::ending))]
fn write_ending(out: &mut JsonText, before: u64)
    ensures { out.new ≡ writing out.old (ending before) }
{
    if before == 0 {
        return;
    }
    out.end_array();
    out.end_object();
}

/// Goes on behind an objection of the same layer, or begins the next layer.
#[tactic(auto, unfolding(crate::specs::Writing::writing, crate::specs::Layering::opening))]
fn write_opening(out: &mut JsonText, records: &[Record], before: u64, one: &LayerObjection)
    ensures { out.new ≡ writing out.old (opening records.now before one.now) }
{
    if one.layer == before {
        return;
    }
    write_ending(out, before);
    write_head(out, records, one.layer, one.made);
}

/// Writes one objection behind those before it.
#[tactic(auto, unfolding(crate::specs::Writing::writing, crate::specs::Layering::next_tokens))]
fn write_next(out: &mut JsonText, here: &FindingAt<'_>, before: u64, one: &LayerObjection)
    requires { IsObjectionIn here.now.tree.now one.now.objection }
    ensures { out.new ≡ writing out.old
        (next_tokens here.now.tree.now here.now.records.now before one.now) }
{
    write_opening(out, here.records, before, one);
    write_objection(out, here, &one.objection);
}

/// Writes all layers that object.
#[tactic(auto, unfolding(crate::specs::Writing::writing, crate::specs::Layering::objections_from))]
fn write_each(out: &mut JsonText, here: &FindingAt<'_>, all: &[LayerObjection])
    requires { AreObjectionsIn here.now.tree.now all.now }
    ensures { out.new ≡ writing out.old
        (objections_from here.now.tree.now here.now.records.now 0 all.now) }
{
    let mut before = 0;
    for one in all {
        write_next(out, here, before, one);
        before = one.layer;
    }
    write_ending(out, before);
}

/// Writes an array of all layers that object.
pub(crate) fn write_layers(out: &mut JsonText, here: &FindingAt<'_>, all: &[LayerObjection])
    requires { AreObjectionsIn here.now.tree.now all.now }
    ensures { out.new ≡ writing out.old (token.begin_array
        ∷ (objections_from here.now.tree.now here.now.records.now 0 all.now
        ++ token.end_array ∷ [])) }
{
    out.begin_array();
    write_each(out, here, all);
    out.end_array();
}
