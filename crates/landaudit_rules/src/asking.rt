//! The words of the command line.

ghost use Rattle.std.specs.Prelude.{◌≡◌, map, string_bytes};
ghost use Rattle.landaudit_rules.specs.Asking.{asked, asked_by as asked_by_word, calls_asked as calls_asked_by, calls_at as calls_at_version, is_option, request_in, version_named};

use ll_rights::Abi;

/// What `--version` prints behind the name: the version, and the line of the toolchain that proves and builds it.
pub const VERSION: &str = "0.2 (rattle-kit-13f logic dac8208d650f15bf)";

/// What the words of a command line ask for.
#[derive(Clone, Copy, Debug, PartialEq, Eq)]
pub enum Request<'a> {
    /// The answers to the comparisons in the file of a name.
    Compare(&'a str),
    /// The calls for the policies in the file of a name, at a version.
    Calls(Abi, &'a str),
    /// The tables of rights.
    Rights,
    /// Help.
    Help,
    /// The version.
    Version,
    /// Nothing: they are wrong.
    Wrong,
}

/// Whether a word is a hyphen with more behind it.
#[tactic(auto, unfolding(crate::specs::Asking::is_option))]
fn is_option(word: &str) -> bool
    ensures { result ≡ is_option word.now }
{
    let bytes = word.as_bytes();
    bytes.len() > 1 && bytes[0] == b'-'
}

/// What one word behind the program's name asks for.
#[tactic(auto, unfolding(crate::specs::Asking::asked_by))]
fn asked_by<'a>(word: &'a str) -> Request<'a>
    ensures { asked result ≡ asked_by_word word.now }
{
    match word {
        "-h" => Request::Help,
        "--help" => Request::Help,
        "-V" => Request::Version,
        "--version" => Request::Version,
        "--rights" => Request::Rights,
        _ if is_option(word) => Request::Wrong,
        _ => Request::Compare(word),
    }
}

/// The version of a number of one digit.
#[tactic(auto, unfolding(crate::specs::Asking::version_named))]
fn version_named(word: &str) -> Option<Abi>
    ensures { result ≡ version_named word.now }
{
    match word.as_bytes() {
        [digit] => Abi::new(u64::from((*digit).saturating_sub(b'0'))),
        _ => None,
    }
}

/// What is asked for by a version and the name of a file.
fn calls_at<'a>(version: Option<Abi>, name: &'a str) -> Request<'a>
    ensures { asked result ≡ calls_at_version version name.now }
{
    match version {
        None => Request::Wrong,
        Some(_) if is_option(name) => Request::Wrong,
        Some(abi) => Request::Calls(abi, name),
    }
}

/// What an option with a number, and the name of a file, ask for.
#[tactic(auto, unfolding(crate::specs::Asking::calls_asked))]
fn calls_asked<'a>(option: &str, number: &str, name: &'a str) -> Request<'a>
    ensures { asked result ≡ calls_asked_by option.now number.now name.now }
{
    match option {
        "--calls" => calls_at(version_named(number), name),
        _ => Request::Wrong,
    }
}

/// What the words of a command line ask for, of which the first is the program's name. Without the name of a file they
/// ask for standard input, whose name is `-`.
pub fn request_of<'a>(words: &'a [String]) -> Request<'a>
    ensures { asked result ≡ request_in (map string_bytes words.entry.now) }
{
    match words {
        [_] => Request::Compare("-"),
        [_, word] => asked_by(word),
        [_, option, number] => calls_asked(option, number, "-"),
        [_, option, number, name] => calls_asked(option, number, name),
        _ => Request::Wrong,
    }
}
