//! `landaudit-rules` tells for pairs of policies what each lets pass, as paths are named and once objects are moved or
//! linked, and by which calls a policy is put in force.
#![tactic(auto)]

mod asking;

use crate::asking::{Request, VERSION, request_of};
use ll_calling::{write_calls, write_tables};
use ll_comparison::write_answers;
use ll_rights::{Abi, with_abi_numbers};
use std::fs::File;
use std::io::{ErrorKind, Read, Write};
use std::process::ExitCode;
use std::{env, io};

/// The name by which a file is standard input.
const STANDARD_INPUT: &str = "-";

/// The largest input, in bytes.
const LARGEST_INPUT: u64 = 1 << 30;

const HELP: &str = with_abi_numbers!(
    "\
Compares policies over objects, and says by which calls they are put in force, for landaudit-policy

Usage: landaudit-rules [FILE]
       landaudit-rules --calls ABI [FILE]
       landaudit-rules --rights

Arguments:
  [FILE]  File with a comparison on each line, or with --calls a policy, or - for standard input [default: -]

Options:
      --calls ABI  Print the calls that put each policy in force at an ABI, ",
    "
      --rights     Print the rights that each ABI knows, and the groups of rights
  -h, --help       Print help
  -V, --version    Print version

Status:
  0  each comparison or policy is answered, or the rights, this help or the version were asked for
  1  so are policies, of which the kernel would refuse a rule
  2  the command line is wrong
  3  the file can't be read, or a line of it is wrong
  4  no memory is left, or the answers can't be written

The lines that are read and written are described in landaudit-rules(1).
"
);

/// The words of the command line, of which the first is the program's name.
fn words(rt: &HostRuntime) -> io::Result<Vec<String>> {
    Ok(env::args(rt)?.collect(rt.alloc())?)
}

/// The bytes that a reader gives, if there are at most `LARGEST_INPUT`.
fn read_all<I: Read + Drop>(rt: &HostRuntime, reader: I) -> io::Result<Vec<u8>> {
    let mut bytes = Vec::new(rt.alloc());
    reader.take(LARGEST_INPUT + 1).read_to_end(&mut bytes)?;
    if bytes.len() as u64 > LARGEST_INPUT {
        return Err(ErrorKind::FileTooLarge.into());
    }
    Ok(bytes)
}

/// The bytes of a file, or those of standard input.
fn read(rt: &HostRuntime, name: &str) -> io::Result<Vec<u8>> {
    if name == STANDARD_INPUT {
        read_all(rt, rt.reader())
    } else {
        read_all(rt, File::open(rt, name)?)
    }
}

/// Tells why the file of a name is not read, and gives the status.
fn complain(rt: &HostRuntime, name: &str, error: &io::Error) -> u8 {
    if error.kind() == ErrorKind::OutOfMemory {
        let _ = eprintln!(rt; "landaudit-rules: no memory");
        return 4;
    }
    let _ = eprintln!(rt; "landaudit-rules: cannot read {name}");
    3
}

/// Answers the comparisons in the file of a name.
fn answer(rt: &HostRuntime, name: &str) -> u8 {
    match read(rt, name) {
        Ok(bytes) => write_answers(rt.alloc(), &bytes, &mut rt.stdout(), &mut rt.stderr()),
        Err(error) => complain(rt, name, &error),
    }
}

/// Prints the calls for the policies in the file of a name, at a version.
fn call(rt: &HostRuntime, abi: Abi, name: &str) -> u8 {
    match read(rt, name) {
        Ok(bytes) => write_calls(rt.alloc(), &bytes, abi, &mut rt.stdout(), &mut rt.stderr()),
        Err(error) => complain(rt, name, &error),
    }
}

/// Prints a text, and gives the status.
fn print(rt: &HostRuntime, text: &str) -> u8 {
    let mut out = rt.stdout();
    if out.write_all(text.as_bytes()).is_ok() && out.flush().is_ok() {
        return 0;
    }
    let _ = eprintln!(rt; "landaudit-rules: cannot write");
    4
}

/// Prints the version.
fn print_version(rt: &HostRuntime) -> u8 {
    match format!(in rt.alloc(); "landaudit-rules {VERSION}\n") {
        Ok(text) => print(rt, &text),
        Err(_) => 4,
    }
}

/// Does what the words ask for, and gives the status.
fn run(rt: &HostRuntime, words: &[String]) -> u8 {
    match request_of(words) {
        Request::Compare(name) => answer(rt, name),
        Request::Calls(abi, name) => call(rt, abi, name),
        Request::Rights => write_tables(rt.alloc(), &mut rt.stdout(), &mut rt.stderr()),
        Request::Help => print(rt, HELP),
        Request::Version => print_version(rt),
        Request::Wrong => {
            let _ = eprintln!(rt; "landaudit-rules: wrong words; see landaudit-rules --help");
            2
        }
    }
}

fn main(rt: HostRuntime) -> ExitCode {
    match words(&rt) {
        Ok(words) => ExitCode::from(run(&rt, &words)),
        Err(error) if error.kind() == ErrorKind::InvalidData => {
            let _ = eprintln!(rt; "landaudit-rules: a word of the command line isn't UTF-8");
            ExitCode::from(2)
        }
        Err(_) => {
            let _ = eprintln!(rt; "landaudit-rules: no memory");
            ExitCode::from(4)
        }
    }
}
