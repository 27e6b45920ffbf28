//! The names of the rights of a set, for files and for ports alike.

ghost use Rattle.std.specs.Prelude.{◌≡◌, ◌++◌, ℕ, List, codes, filter, if◌then◌else◌};
ghost use Rattle.ll_rights.specs.Rights as files;
ghost use Rattle.ll_rights.specs.NetRights as network;
ghost use Rattle.ll_explanations.specs.Meanings.{port_rights_in, rights_in};
ghost use Rattle.ll_explain.specs.{Buffers.adding, Tables.file_words, Tables.port_words};
ghost use Rattle.ll_explain.specs.Words.{behind, joined, port_rights_text, rights_text, word_for, words_of};

use crate::buffer::TextBuffer;
use crate::words::push_words;
use ll_rights::{Fs, Net, RightSet};

/// A set of access rights that have words.
pub trait WordedSet: RightSet {
    // The words for its rights, in the order of the table.
    ghost words: { Self → List (List ℕ) };

    ghost worded: { (set : Self)
        → words_of (λ right. (Self.family.row right).name)
        (filter (Self.family.has set) Self.family.all_rights) ≡ words set };
}

impl WordedSet for Fs {
    ghost words = { λ set. words_of files.name_of (rights_in set) };

    ghost worded = { file_words };
}

impl WordedSet for Net {
    ghost words = { λ set. words_of network.name_of (port_rights_in set) };

    ghost worded = { port_words };
}

/// The word for a right by its name, which may be empty.
pub fn word_for(name: &str) -> &str
    ensures { result.now ≡ word_for name.now }
{
    if name.is_empty() {
        "a right of another name"
    } else {
        name
    }
}

/// Adds a name, behind a comma if it isn't the first.
#[tactic(auto, using(crate::proofs::Buffering::adding_both), unfolding(crate::specs::Words::behind))]
fn push_name(text: &mut TextBuffer, name: &str, is_first: bool)
    ensures { text.new
        ≡ adding text.old (if is_first then name.now else behind (codes ", ") name.now) }
{
    if is_first {
        push_words(text, name);
    } else {
        push_words(text, ", ");
        push_words(text, name);
    }
}

/// Adds the names of the rights of a set, in the order of the table.
fn push_names<S: WordedSet>(text: &mut TextBuffer, rights: S)
    ensures { text.new ≡ adding text.old (joined (codes ", ") (S.words rights)) }
{
    let mut is_first = true;
    for right in S::all() {
        if rights.has(*right) {
            push_name(text, word_for(S::name(*right)), is_first);
            is_first = false;
        }
    }
}

/// Adds the names of the rights for files of a set.
#[tactic(auto, unfolding(crate::specs::Words::listed))]
pub(crate) fn push_rights(text: &mut TextBuffer, rights: Fs)
    ensures { text.new ≡ adding text.old (rights_text (rights_in rights)) }
{
    push_names(text, rights)
}

/// Adds the names of the rights for ports of a set.
#[tactic(auto, unfolding(crate::specs::Words::listed))]
pub(crate) fn push_port_rights(text: &mut TextBuffer, rights: Net)
    ensures { text.new ≡ adding text.old (port_rights_text (port_rights_in rights)) }
{
    push_names(text, rights)
}
