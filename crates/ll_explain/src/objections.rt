//! The lines on what layers object to.

ghost use Rattle.std.specs.Prelude.{◌≡◌, ◌++◌, codes, decimal, option_and_then, slice_get};
ghost use Rattle.json.specs.Print.{escape};
ghost use Rattle.ll_rights.specs.{CodeRights.fs_right, Rights.name_of};
ghost use Rattle.ll_tree.specs.Trees.{IsNode, path_at};
ghost use Rattle.ll_explanations.specs.InTree.{AreObjectionsIn, IsObjectionIn};
ghost use Rattle.ll_explanations.specs.Meanings.{objection_in, port_rights_in, rights_in};
ghost use Rattle.ll_explain.specs.Buffers.{adding};
ghost use Rattle.ll_explain.specs.Lines.{ending, head_of, lines_from, opening};
ghost use Rattle.ll_explain.specs.Words.{line_of, objection_text, path_opened, path_text, port_rights_text, rights_text, word_for};

use crate::buffer::TextBuffer;
use crate::rights::{push_port_rights, push_rights, word_for};
use crate::words::{push_escaped, push_number, push_numbered, push_words};
use ll_explanations::{LayerObjection, Objection};
use ll_rights::{Fs, FsRight, Net};
use ll_trace::{Op, Record};
use ll_tree::{NodeId, Tree};

/// Adds the path of a node.
#[tactic(auto, unfolding(crate::specs::Words::path_text))]
fn push_node(text: &mut TextBuffer, tree: &Tree, node: NodeId)
    requires { IsNode tree.now node }
    ensures { text.new ≡ adding text.old (path_text (path_at tree.now node)) }
{
    push_escaped(text, tree.text(node))
}

/// Adds names of rights, and the node on which they are missing.
#[tactic(auto, using(crate::proofs::Appending::appended_3))]
fn push_missing(text: &mut TextBuffer, tree: &Tree, rights: Fs, node: NodeId)
    requires { IsNode tree.now node }
    ensures { text.new ≡ adding text.old
        (rights_text (rights_in rights) ++ codes " on " ++ path_text (path_at tree.now node)) }
{
    push_rights(text, rights);
    push_words(text, " on ");
    push_node(text, tree, node);
}

/// Adds names of rights, and the port on which they are missing.
#[tactic(auto, using(crate::proofs::Appending::appended_3))]
fn push_closed(text: &mut TextBuffer, rights: Net, port: u16)
    ensures { text.new ≡ adding text.old
        (port_rights_text (port_rights_in rights) ++ codes " on port " ++ decimal port) }
{
    push_port_rights(text, rights);
    push_words(text, " on port ");
    push_number(text, port as u64);
}

/// Says which rights an object would gain in a directory.
fn push_gained(text: &mut TextBuffer, tree: &Tree, object: NodeId, rights: Fs, directory: NodeId)
    requires object { IsNode tree.now object }
    requires directory { IsNode tree.now directory }
    ensures { text.new ≡ adding text.old (path_text (path_at tree.now object) ++ codes " would gain "
        ++ rights_text (rights_in rights) ++ codes " in " ++ path_text (path_at tree.now directory)) }
{
    push_node(text, tree, object);
    push_words(text, " would gain ");
    push_rights(text, rights);
    push_words(text, " in ");
    push_node(text, tree, directory);
}

/// The path that the record at an index opens, which is empty if it opens none.
#[tactic(auto, unfolding(crate::specs::Words::path_opened))]
pub fn path_opened(records: &[Record], index: u32) -> &str
    ensures { result.now ≡ path_opened (slice_get records.now index) }
{
    match records.get(index as usize) {
        None => "",
        Some(record) => match &record.op {
            Op::OpenFile { path, .. } => path.as_str(),
            _ => "",
        },
    }
}

/// The line of the record at an index, or 0 where there is none.
pub fn line_at(records: &[Record], index: u32) -> u64
    ensures { result ≡ line_of (slice_get records.now index) }
{
    match records.get(index as usize) {
        None => 0,
        Some(record) => record.line,
    }
}

/// Says which right was missing on which path, and where it was opened.
fn push_kept(text: &mut TextBuffer, records: &[Record], right: FsRight, opened: u32)
    ensures { text.new ≡ adding text.old (word_for (name_of (fs_right right)) ++ codes " on "
        ++ escape (path_opened (slice_get records.now opened)) ++ codes ", opened at line "
        ++ decimal (line_of (slice_get records.now opened))) }
{
    push_words(text, word_for(right.name()));
    push_words(text, " on ");
    push_escaped(text, path_opened(records, opened));
    push_words(text, ", opened at line ");
    push_number(text, line_at(records, opened));
}

/// Says what is objected to.
#[tactic(auto, unfolding(crate::specs::Words::objection_text))]
fn push_objection(text: &mut TextBuffer, tree: &Tree, records: &[Record], objection: &Objection)
    requires { IsObjectionIn tree.now objection.now }
    ensures { text.new
        ≡ adding text.old (objection_text records.now (objection_in tree.now objection.now)) }
{
    match objection {
        Objection::Missing { rights, node } => push_missing(text, tree, *rights, *node),
        Objection::Closed { rights, port } => push_closed(text, *rights, *port),
        Objection::Gained {
            object,
            rights,
            directory,
        } => push_gained(text, tree, *object, *rights, *directory),
        Objection::Mounting => push_words(text, "it handles rights for files"),
        Objection::Kept { right, opened } => push_kept(text, records, *right, *opened),
    }
}

/// The line of the record that made a layer, or 0 where there is none.
pub fn line_made(records: &[Record], made: Option<u32>) -> u64
    ensures { result ≡ line_of (option_and_then (slice_get records.now) made) }
{
    match made {
        None => 0,
        Some(index) => line_at(records, index),
    }
}

/// Begins the line of a layer, which says where the layer comes from.
fn push_head(text: &mut TextBuffer, records: &[Record], layer: u64, made: Option<u32>)
    ensures { text.new ≡ adding text.old (head_of records.now layer made) }
{
    push_numbered(text, "    layer ", layer, " (line ");
    push_number(text, line_made(records, made));
    push_words(text, "): ");
}

/// Ends the line of the layer before, if there is one.
#[tactic(auto, using(crate::proofs::Buffering::adding_nothing), unfolding(crate::specs::Lines::ending))]
fn push_ending(text: &mut TextBuffer, before: u64)
    ensures { text.new ≡ adding text.old (ending before) }
{
    if before > 0 {
        push_words(text, "\n");
    }
}

/// Goes on behind an objection of the same layer, or begins the line of the next layer.
#[tactic(auto, using(crate::proofs::Appending::appended_2), unfolding(crate::specs::Lines::opening))]
fn push_opening(text: &mut TextBuffer, records: &[Record], before: u64, one: &LayerObjection)
    ensures { text.new ≡ adding text.old (opening records.now before one.now) }
{
    if one.layer == before {
        push_words(text, "; ");
    } else {
        push_ending(text, before);
        push_head(text, records, one.layer, one.made);
    }
}

/// Adds the lines of all layers that object.
pub(crate) fn push_lines(
    text: &mut TextBuffer,
    tree: &Tree,
    records: &[Record],
    all: &[LayerObjection],
)
    requires { AreObjectionsIn tree.now all.now }
    ensures { text.new ≡ adding text.old (lines_from tree.now records.now 0 all.now) }
{
    let mut before = 0;
    for one in all {
        push_opening(text, records, before, one);
        push_objection(text, tree, records, &one.objection);
        before = one.layer;
    }
    push_ending(text, before);
}
