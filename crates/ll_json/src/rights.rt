//! The words for the rights of a set.
#![tactic(auto, unfolding(crate::specs::Writing::writing))]

ghost use Rattle.std.specs.Prelude.{◌≡◌, ◌∷◌, map};
ghost use Rattle.std.specs.List.{flat_map};
ghost use Rattle.json.specs.{Json.string, Tree.json_tokens};
ghost use Rattle.json.specs.Token as token;
ghost use Rattle.ll_json.specs.{Parts.values_tokens, Values.word_if, Why.words_json, Writing.writing};

use crate::json_text::JsonText;
use ll_explain::{WordedSet, word_for};
use ll_rights::RightSet;

/// Writes the word for a right of this name, where it is in a set.
#[tactic(auto, unfolding(crate::specs::Writing::writing, crate::specs::Values::word_if))]
fn write_word_if(out: &mut JsonText, is_in: bool, name: &str)
    ensures { out.new ≡ writing out.old (word_if is_in name.now) }
{
    if is_in {
        out.write_string(word_for(name));
    }
}

/// Writes the words for those of these rights that a set has.
fn write_names<S: RightSet>(out: &mut JsonText, all: &[S::Right], rights: S)
    ensures { out.new ≡ writing out.old
        (flat_map (λ right. word_if (S.family.has rights (S.named right))
        (S.family.row (S.named right)).name) all.now) }
{
    for right in all {
        write_word_if(out, rights.has(*right), S::name(*right));
    }
}

/// Writes the words for the rights of a set.
fn write_words<S: WordedSet>(out: &mut JsonText, rights: S)
    ensures { out.new ≡ writing out.old (values_tokens (map string (S.words rights))) }
{
    write_names::<S>(out, S::all(), rights);
}

/// Writes a member that is the words for the rights of a set.
#[tactic(auto, using(crate::proofs::Writing::writing_both, crate::proofs::Enclosing::values_end))]
pub(crate) fn write_rights_as<S: WordedSet>(out: &mut JsonText, name: &str, rights: S)
    ensures { out.new ≡ writing out.old
        (token.key name.now ∷ json_tokens (words_json (S.words rights))) }
{
    out.write_key(name);
    out.begin_array();
    write_words(out, rights);
    out.end_array();
}
