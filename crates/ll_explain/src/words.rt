//! The words of explanations.

ghost use Rattle.std.specs.Prelude.{◌≡◌, ◌++◌, ◌<◌, decimal};
ghost use Rattle.json.specs.Print.{escape, escape_byte, escape_letter};
ghost use Rattle.std.specs.{Char.digit_char, List.list_all};
ghost use Rattle.ll_explain.specs.{Buffers.adding, Words.is_plain};

use crate::buffer::TextBuffer;
use itoa::Buffer;

/// Adds words.
pub fn push_words(text: &mut TextBuffer, words: &str)
    ensures { text.new ≡ adding text.old words.now }
{
    text.put(words.as_bytes());
}

/// Adds a number in decimal digits.
pub fn push_number(text: &mut TextBuffer, number: u64)
    ensures { text.new ≡ adding text.old (decimal number) }
{
    let mut buffer = Buffer::new();
    text.put(buffer.format(number).as_bytes());
}

/// The letter of the short escape of a byte, or 0 where it has none.
fn escape_letter(byte: u8) -> u8
    ensures { result ≡ escape_letter byte }
{
    match byte {
        b'"' | b'\\' => byte,
        8 => b'b',
        12 => b'f',
        b'\n' => b'n',
        b'\r' => b'r',
        b'\t' => b't',
        _ => 0,
    }
}

/// The hexadecimal digit of a number below 16.
fn digit(number: u8) -> u8
    requires { number < 16 }
    ensures { result ≡ digit_char number }
{
    if number < 10 {
        b'0' + number
    } else {
        b'a' + (number - 10)
    }
}

/// Adds a byte as it is in a JSON text.
#[tactic(auto, unfolding(json::specs::Print::escape_byte))]
fn push_escaped_byte(text: &mut TextBuffer, byte: u8)
    ensures { text.new ≡ adding text.old (escape_byte byte) }
{
    let letter = escape_letter(byte);
    if letter > 0 {
        text.put(&[b'\\', letter]);
    } else if byte < 32 {
        text.put(&[b'\\', b'u', b'0', b'0', digit(byte / 16), digit(byte % 16)]);
    } else {
        text.put(&[byte]);
    }
}

/// Whether a byte is in a JSON text as it is.
fn is_plain(byte: u8) -> bool
    ensures { result ≡ is_plain byte }
{
    escape_letter(byte) == 0 && byte >= 32
}

/// Whether a text is in a JSON text as it is.
fn are_plain(bytes: &[u8]) -> bool
    ensures { result ≡ list_all is_plain bytes.now }
{
    bytes.iter().all(|byte| is_plain(*byte))
}

/// Adds a path byte after byte, escaped as JSON escapes texts.
fn push_each_escaped(text: &mut TextBuffer, path: &str)
    ensures { text.new ≡ adding text.old (escape path.now) }
{
    for byte in path.bytes() {
        push_escaped_byte(text, byte);
    }
}

/// Adds a text, escaped as JSON escapes texts: at once where no byte of it is escaped, as in most paths.
#[tactic(auto, using(crate::proofs::PlainTexts::escape_plain))]
pub fn push_escaped(text: &mut TextBuffer, path: &str)
    ensures { text.new ≡ adding text.old (escape path.now) }
{
    if are_plain(path.as_bytes()) {
        push_words(text, path);
    } else {
        push_each_escaped(text, path);
    }
}

/// Adds a number between two texts.
#[tactic(auto, using(crate::proofs::Appending::appended_3))]
pub(crate) fn push_numbered(text: &mut TextBuffer, before: &str, number: u64, after: &str)
    ensures { text.new ≡ adding text.old (before.now ++ decimal number ++ after.now) }
{
    text.put(before.as_bytes());
    push_number(text, number);
    text.put(after.as_bytes());
}
