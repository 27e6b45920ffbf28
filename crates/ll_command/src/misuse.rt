//! What there is to say of words that name no run, and what is wrong with words that are each as their rule has it.

use clap::Error;
use ll_rights::with_abi_numbers;
use std::fmt;

/// Help, the version, or what is wrong with the words, as a text of some lines.
#[derive(Debug, Drop)]
pub struct Message(pub(crate) Error);

impl fmt::Display for Message {
    fn fmt<W: fmt::Write>(&self, f: &mut fmt::Formatter<W>) -> fmt::Result {
        let error = &self.0;
        write!(f, "{error}")
    }
}

/// What is wrong with such words. What it prints is a line without its end.
#[derive(Clone, Copy, Debug, PartialEq, Eq)]
pub enum Misuse {
    /// The text that names the versions names no range of them.
    Versions,
    /// Both files are standard input.
    StandardInput,
}

impl fmt::Display for Misuse {
    fn fmt<W: fmt::Write>(&self, f: &mut fmt::Formatter<W>) -> fmt::Result {
        f.write_str(match self {
            Misuse::Versions => with_abi_numbers!(
                "--abi: expected an ABI (",
                ") or an ascending range such as 2-5"
            ),
            Misuse::StandardInput => "TREE and TRACE can't both be standard input",
        })
    }
}
