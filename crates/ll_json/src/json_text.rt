//! JSON, put token by token into a buffer of fixed size.
#![tactic(auto, unfolding(crate::specs::Writing::writing))]

ghost use Rattle.std.specs.Prelude.{◌≡◌, ◌∷◌, ◌++◌, [], codes, decimal, true};
ghost use Rattle.json.specs.Print.{quoted};
ghost use Rattle.json.specs.Token as token;
ghost use Rattle.ll_explain.specs.Buffers.{adding};
ghost use Rattle.ll_json.specs.Writing.{begun, comma_behind, writing};

use ll_explain::{TextBuffer, push_escaped, push_number, push_words};
use std::marker::Model;

/// JSON that is put into a buffer, token by token. It places the commas and the colons, and leaves it to its caller
/// which tokens follow one another.
#[derive(Drop)]
pub(crate) struct JsonText {
    text: TextBuffer,
    after_value: bool,
}

impl Model for JsonText {
    ghost use Rattle.ll_json.specs.Writing.{Written};

    ghost Value = { Written };

    ghost view = { λ out. record { text = out.text; after_value = out.after_value } };
}

/// Adds a text between quotes, as JSON writes it.
#[tactic(auto, using(ll_explain::proofs::Buffering::adding_both))]
fn push_quoted(text: &mut TextBuffer, words: &str)
    ensures { text.new ≡ adding text.old (quoted words.now) }
{
    push_words(text, "\"");
    push_escaped(text, words);
    push_words(text, "\"");
}

/// Adds the name of a member, with its colon.
#[tactic(auto, using(ll_explain::proofs::Buffering::adding_both))]
fn push_name(text: &mut TextBuffer, name: &str)
    ensures { text.new ≡ adding text.old (quoted name.now ++ codes ":") }
{
    push_quoted(text, name);
    push_words(text, ":");
}

#[tactic(auto, using(ll_explain::proofs::Buffering::adding_both), unfolding(crate::specs::Writing::with_token, crate::specs::Writing::writing))]
impl JsonText {
    /// JSON behind what a buffer contains.
    pub(crate) fn behind(text: TextBuffer) -> JsonText
        ensures { result ≡ begun text }
    {
        JsonText {
            text,
            after_value: false,
        }
    }

    /// The buffer.
    pub(crate) fn into_text(self) -> TextBuffer
        ensures { result ≡ self.text }
    {
        let JsonText { text, .. } = self;
        text
    }

    /// Puts a comma if a value is before it.
    #[tactic(auto, using(ll_explain::proofs::Buffering::adding_nothing))]
    fn put_comma(&mut self)
        ensures { self.new ≡ record {
          text = adding self.old.text (comma_behind self.old.after_value);
          after_value = self.old.after_value;
        } }
    {
        if self.after_value {
            push_words(&mut self.text, ",");
        }
    }

    /// Puts a token of fixed words, which begins a value or a member.
    fn put(&mut self, words: &str, ends: bool)
        ensures { self.new ≡ record {
          text = adding self.old.text (comma_behind self.old.after_value ++ words.now);
          after_value = ends;
        } }
    {
        self.put_comma();
        push_words(&mut self.text, words);
        self.after_value = ends;
    }

    /// Puts a bracket, which ends a value.
    fn end(&mut self, bracket: &str)
        ensures { self.new ≡ record {
          text = adding self.old.text bracket.now;
          after_value = true;
        } }
    {
        push_words(&mut self.text, bracket);
        self.after_value = true;
    }

    /// Begins an object.
    pub(crate) fn begin_object(&mut self)
        ensures { self.new ≡ writing self.old (token.begin_object ∷ []) }
    {
        self.put("{", false);
    }

    /// Begins an array.
    pub(crate) fn begin_array(&mut self)
        ensures { self.new ≡ writing self.old (token.begin_array ∷ []) }
    {
        self.put("[", false);
    }

    /// Ends an object.
    pub(crate) fn end_object(&mut self)
        ensures { self.new ≡ writing self.old (token.end_object ∷ []) }
    {
        self.end("}");
    }

    /// Ends an array.
    pub(crate) fn end_array(&mut self)
        ensures { self.new ≡ writing self.old (token.end_array ∷ []) }
    {
        self.end("]");
    }

    /// Writes the name of a member.
    pub(crate) fn write_key(&mut self, name: &str)
        ensures { self.new ≡ writing self.old (token.key name.now ∷ []) }
    {
        self.put_comma();
        push_name(&mut self.text, name);
        self.after_value = false;
    }

    /// Writes a text.
    pub(crate) fn write_string(&mut self, words: &str)
        ensures { self.new ≡ writing self.old (token.string words.now ∷ []) }
    {
        self.put_comma();
        push_quoted(&mut self.text, words);
        self.after_value = true;
    }

    /// Writes a number.
    pub(crate) fn write_whole(&mut self, number: u64)
        ensures { self.new ≡ writing self.old (token.number (decimal number) ∷ []) }
    {
        self.put_comma();
        push_number(&mut self.text, number);
        self.after_value = true;
    }

    /// Writes `true`.
    pub(crate) fn write_true(&mut self)
        ensures { self.new ≡ writing self.old (token.boolean true ∷ []) }
    {
        self.put("true", true);
    }
}
