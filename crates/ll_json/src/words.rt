//! Members that are texts and numbers, and objects of a fixed word.
#![tactic(auto, unfolding(crate::specs::Why::by_word, crate::specs::Writing::writing))]

ghost use Rattle.std.specs.Prelude.{◌≡◌, ◌∷◌, [], decimal};
ghost use Rattle.json.specs.Token as token;
ghost use Rattle.json.specs.Tree.{json_tokens};
ghost use Rattle.ll_json.specs.{Parts.whole, Why.by_word};
ghost use Rattle.ll_json.specs.Writing.{writing};

use crate::json_text::JsonText;

/// Writes a member that is a text.
pub(crate) fn write_text(out: &mut JsonText, name: &str, text: &str)
    ensures { out.new ≡ writing out.old (token.key name.now ∷ token.string text.now ∷ []) }
{
    out.write_key(name);
    out.write_string(text);
}

/// Writes a member that is a number.
pub(crate) fn write_number(out: &mut JsonText, name: &str, number: u64)
    ensures { out.new ≡ writing out.old (token.key name.now ∷ token.number (decimal number) ∷ []) }
{
    out.write_key(name);
    out.write_whole(number);
}

/// Begins an object by a fixed word, which is the value of its first member.
pub(crate) fn begin_by(out: &mut JsonText, name: &str, word: &str)
    ensures { out.new ≡ writing out.old
        (token.begin_object ∷ token.key name.now ∷ token.string word.now ∷ []) }
{
    out.begin_object();
    write_text(out, name, word);
}

/// Writes an object of a fixed word alone.
pub(crate) fn write_alone(out: &mut JsonText, name: &str, word: &str)
    ensures { out.new ≡ writing out.old
        (json_tokens (by_word name.now word.now [])) }
{
    begin_by(out, name, word);
    out.end_object();
}

/// Writes an object of a fixed word and a number.
pub(crate) fn write_numbered(out: &mut JsonText, name: &str, word: &str, what: &str, number: u64)
    ensures { out.new ≡ writing out.old
        (json_tokens (by_word name.now word.now ((what.now, whole number) ∷ []))) }
{
    begin_by(out, name, word);
    write_number(out, what, number);
    out.end_object();
}
