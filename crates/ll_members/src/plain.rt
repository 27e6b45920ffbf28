//! The scan of a line that is spelt plainly, as a printer of JSON writes it: one object without white space, whose
//! values are texts, whole numbers, true, false, and lists of texts, and whose texts have no escapes.

ghost use Rattle.std.specs.Prelude.{◌≡◌, ◌∷◌, ◌++◌, ◌<◌, ◌≤◌, length, slice_index, IfSome, IsTrue};
ghost use Rattle.std.specs.List.{list_all, prefix_len};
ghost use Rattle.std.specs.Char.{is_ascii_digit};
ghost use Rattle.json.specs.{Print.quoted};
ghost use Rattle.ll_members.specs.Plain.{is_unescaped, IsUnescaped, BeginsWithNumber, BeginsWithTexts, BeginsWithValue, BeginsWithMember, IsObject};
ghost use Rattle.ll_members.specs.Slots.{AreMissing};

use crate::rights::Rights;
use crate::row::{Members, Slot};
use ll_lines::numbers::whole_number;
use memchr::memchr;

/// Whether no byte of a line is a control character or a backslash, so that only a quote can end a text.
fn is_unescaped(line: &[u8]) -> bool
    ensures { result ≡ list_all is_unescaped line.now }
{
    let mut unescaped = true;
    for byte in line {
        unescaped &= *byte >= b' ' && *byte != b'\\';
    }
    unescaped
}

/// How many digits stand at the front.
fn digit_count(bytes: &[u8]) -> usize
    ensures { result ≡ prefix_len is_ascii_digit bytes.now }
{
    bytes
        .iter()
        .take_while(|byte| byte.is_ascii_digit())
        .count()
}

/// What stands behind a character.
#[tactic(auto, using(std::proofs::lemmas::Str::Pattern::strip_prefix_char))]
fn behind(line: &str, mark: char) -> Option<&str>
    requires { mark < 128 }
    ensures { IfSome result (λ rest. line.now ≡ mark ∷ rest.now) }
{
    line.strip_prefix(mark)
}

/// What stands behind a word.
fn behind_word<'l>(line: &'l str, word: &str) -> Option<&'l str>
    ensures { IfSome result (λ rest. line.now ≡ word.now ++ rest.now) }
{
    line.strip_prefix(word)
}

/// A text in quotes, and what stands behind it.
#[inline(always)]
fn scan_text(line: &str) -> Option<(&str, &str)>
    requires { IsUnescaped line.now }
    ensures { IfSome result (λ scan. line.now ≡ quoted scan.0.now ++ scan.1.now) }
{
    let inside = behind(line, '"')?;
    let end = memchr(b'"', inside.as_bytes())?;
    let (text, rest) = inside.split_at_checked(end)?;
    Some((text, behind(rest, '"')?))
}

/// Whether digits are a number: there are some, and no zero stands in front of another.
fn are_number(digits: &[u8]) -> bool
    ensures some { IsTrue result → 0 < length digits.now }
    ensures zero { IsTrue result → slice_index digits.now 0 ≡ 48 → length digits.now ≤ 1 }
{
    !matches!(digits, [] | [b'0', _, ..])
}

/// A whole number, and what stands behind it.
fn scan_number(line: &str) -> Option<(u64, &str)>
    ensures { IfSome result (λ scan. BeginsWithNumber line.now scan.0 scan.1.now) }
{
    let (text, rest) = line.split_at_checked(digit_count(line.as_bytes()))?;
    if !are_number(text.as_bytes()) {
        return None;
    }
    Some((whole_number(text)?, rest))
}

/// What the texts of a list stand for as names of rights, and what stands behind the list.
fn scan_rights(line: &str) -> Option<(Rights, &str)>
    requires { IsUnescaped line.now }
    ensures { IfSome result (λ scan. BeginsWithTexts line.now scan.0 scan.1.now) }
{
    if let Some(rest) = behind(line, ']') {
        return Some((Rights::none(), rest));
    }
    let (name, mut rest) = scan_text(line)?;
    let mut rights = Rights::none().with(name);
    while let Some(others) = behind(rest, ',') {
        let (name, after) = scan_text(others)?;
        rights = rights.with(name);
        rest = after;
    }
    Some((rights, behind(rest, ']')?))
}

/// A value as a slot, and what stands behind it.
fn scan_value<'l>(line: &'l str) -> Option<(Slot<'l>, &'l str)>
    requires { IsUnescaped line.now }
    ensures { IfSome result (λ scan. BeginsWithValue line.now scan.0 scan.1.now) }
{
    match line.as_bytes().first()? {
        b'"' => {
            let (text, rest) = scan_text(line)?;
            Some((Slot::Text(text), rest))
        }
        b'[' => {
            let (rights, rest) = scan_rights(behind(line, '[')?)?;
            Some((Slot::Names(Some(rights)), rest))
        }
        b't' => Some((Slot::Truth(true), behind_word(line, "true")?)),
        b'f' => Some((Slot::Truth(false), behind_word(line, "false")?)),
        _ => {
            let (number, rest) = scan_number(line)?;
            Some((Slot::Number(Some(number)), rest))
        }
    }
}

/// Takes in a member, and answers what stands behind it.
#[tactic(auto, using(crate::proofs::PlainLemmas::member_scanned))]
fn scan_member<'l>(line: &'l str, members: &mut Members<'l>) -> Option<&'l str>
    requires { IsUnescaped line.now }
    ensures { IfSome result (λ rest. BeginsWithMember line.now members.old members.new rest.now) }
{
    let (key, after) = scan_text(line)?;
    let (slot, rest) = scan_value(behind(after, ':')?)?;
    members.keep(key, slot);
    Some(rest)
}

/// Takes in the members of a line that is spelt plainly. Of any other line it says nothing, and some members may be
/// in their slots.
pub(crate) fn scan_line<'l>(line: &'l str, members: &mut Members<'l>) -> Option<()>
    requires { AreMissing members.old }
    ensures { IfSome result (λ _. IsObject line.now members.new) }
{
    if !is_unescaped(line.as_bytes()) {
        return None;
    }
    let mut rest = scan_member(behind(line, '{')?, members)?;
    while let Some(others) = behind(rest, ',') {
        rest = scan_member(others, members)?;
    }
    if rest == "}" { Some(()) } else { None }
}
