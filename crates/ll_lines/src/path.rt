//! Paths as text.

ghost use Rattle.std.specs.Prelude.{◌≡◌, ◌<◌, ◌≤◌, ◌∷◌, ℕ, List, Some, false, true, is_some, length, slice_index, IsTrue, MatchOption};
ghost use Rattle.std.specs.List.{list_all, slice_split};
ghost use Rattle.ll_lines.specs.Paths.{Path, is_slash, is_name_byte, is_name, path_of, front, is_path, text_of};

/// The longest path, in bytes.
pub const LONGEST_PATH: usize = 4096;

/// Whether a byte may stand in a name: it is neither a slash nor the character of number 0.
fn may_be_in_a_name(byte: u8) -> bool
    ensures { result ≡ is_name_byte byte }
{
    byte != b'/' && byte != 0
}

/// Whether bytes hold neither a slash nor the character of number 0.
fn has_name_bytes(name: &[u8]) -> bool
    ensures { result ≡ list_all is_name_byte name.now }
{
    name.iter().all(|byte| may_be_in_a_name(*byte))
}

/// Whether bytes that may stand in a name are the name of an object in its directory.
#[tactic(auto, unfolding(crate::specs::Paths::is_name))]
fn is_proper(name: &[u8]) -> bool
    requires { list_all is_name_byte name.now ≡ true }
    ensures { result ≡ is_name name.now }
{
    !name.is_empty() && name != b".".as_slice() && name != b"..".as_slice()
}

/// Whether bytes are the name of an object in its directory.
#[tactic(auto, unfolding(crate::specs::Paths::is_name))]
fn name_ok(name: &[u8]) -> bool
    ensures { result ≡ is_name name.now }
{
    has_name_bytes(name) && is_proper(name)
}

/// How many of the first bytes may stand in a name.
fn name_len(bytes: &[u8]) -> usize
    ensures within { result ≤ length bytes.now }
    ensures name { (k : ℕ) → k < result → is_name_byte (slice_index bytes.now k) ≡ true }
    ensures end { result < length bytes.now
        → is_name_byte (slice_index bytes.now result) ≡ false }
{
    let mut len = 0;
    while len < bytes.len() && may_be_in_a_name(bytes[len]) {
        len += 1;
    }
    len
}

/// The bytes in front of the first slash, and those behind it, if all in front may stand in a name.
fn cut_name(bytes: &[u8]) -> Option<(&[u8], &[u8])>
    ensures { MatchOption result
        (list_all is_name (slice_split is_slash bytes.now) ≡ is_name bytes.now)
        (λ cut. (slice_split is_slash bytes.now ≡ cut.0.now ∷ slice_split is_slash cut.1.now)
        × (list_all is_name_byte cut.0.now ≡ true) × (length cut.1.now < length bytes.now)) }
{
    let end = name_len(bytes);
    if end == bytes.len() || bytes[end] == 0 {
        return None;
    }
    Some((&bytes[..end], &bytes[end + 1..]))
}

/// Whether bytes are names with a slash between each two of them.
fn are_names(bytes: &[u8]) -> bool
    ensures { result ≡ list_all is_name (slice_split is_slash bytes.now) }
{
    let mut rest = bytes;
    while let Some((name, others)) = cut_name(rest) {
        if !is_proper(name) {
            return false;
        }
        rest = others;
    }
    name_ok(rest)
}

/// Whether a text has the shape of a path: `/` alone, or one or more names, each after one `/`, in at most
/// 4,096 bytes. A name isn't empty, isn't `.` or `..`, and holds neither `/` nor the character of number 0.
#[tactic(auto, unfolding(crate::specs::Paths::path_of, crate::specs::Paths::names_in))]
pub fn path_ok(text: &str) -> bool
    ensures { result ≡ is_some (path_of text.now) }
{
    if text.len() > LONGEST_PATH {
        return false;
    }
    match text.strip_prefix('/') {
        None => false,
        Some("") => true,
        Some(names) => are_names(names.as_bytes()),
    }
}

/// The text of the path without its last name.
pub fn front_text(text: &str) -> &str
    ensures { (path : Path) → path_of text.now ≡ Some path
        → path_of result.now ≡ Some (front path) }
{
    match text.rfind('/') {
        Some(end) if end > 0 => &text[..end],
        _ => "/",
    }
}

/// A text that is read as a path is the text of that path, and each path is read back from its text.
#[tactic(auto, using(crate::proofs::PathLaws::texts_and_paths))]
pub fn path_texts()
    ensures text_again { (text : List ℕ) (path : Path)
        → path_of text ≡ Some path → text_of path ≡ text }
    ensures read_is_path { (text : List ℕ) (path : Path) → path_of text ≡ Some path
        → IsTrue (is_path path) }
    ensures path_again { (path : Path) → IsTrue (is_path path)
        → path_of (text_of path) ≡ Some path }
{}
