//! The lines of a file, and what a line says.

use json::Scratch;
use ll_lines::Cause;
use ll_lines::lines::FilledLines;
use ll_members::{
    Members, Name, flag_of, fs_of, net_of, number_of, read_members, text_of, truth_of,
};
use ll_rights::{Net, RightSet, fs_of_name};
use std::alloc::{AllocError, Global};
use std::test::Fail;

/// Its lines 2 and 4 are blank.
const LINES: &[u8] = b"a\n\nbc\n \nd\ne";

/// The numbers of the lines that are not blank, part by part.
fn numbers_in(alloc: Global, parts: Vec<FilledLines<'_>>) -> Result<Vec<u64>, AllocError> {
    let mut numbers = Vec::new(alloc);
    for part in parts {
        for line in part {
            numbers.push(line.number)?;
        }
    }
    Ok(numbers)
}

/// By the last number each line is a part of its own.
#[test]
fn lines_keep_their_numbers_in_parts(rt: HostRuntime) -> Result<(), Fail> {
    for most in [0, 1, 2, 3, 8, usize::MAX] {
        let parts = FilledLines::new(LINES).in_parts(rt.alloc(), most)?;
        assert!(rt; parts.len() <= most.max(1) && (most < usize::MAX || parts.len() >= 4));
        let numbers = numbers_in(rt.alloc(), parts)?;
        assert_eq!(rt;
            numbers.as_slice(),
            [1, 3, 5, 6].as_slice(),
            "{most} parts at most"
        );
    }
    Ok(())
}

/// Lines, and whether each is one value whose numbers fit a float.
const VALUES: [(&[u8], bool); 19] = [
    (b"7", true),
    (b"\"a\"", true),
    (b"[null,true]", true),
    (b" {\"a\":{\"b\":[-0.5e3]}} ", true),
    (b"{", false),
    (b"", false),
    (b"7 8", false),
    (b"[1]]", false),
    (b"\"\xff\"", false),
    (b"\xff", false),
    (b"'a'", false),
    (b"01", false),
    (b"1e308", true),
    (b"-1e308", true),
    (b"1e-999", true),
    (b"99999999999999999999", true),
    (b"1e309", false),
    (b"[0,-1e309]", false),
    (b"{\"a\":1,\"b\":[{\"c\":1e309}]}", false),
];

/// Whether a line reads as one value, or else is at fault for its JSON.
fn reads_as(alloc: Global, line: &[u8], reads: bool) -> bool {
    match read_members(line, &mut Scratch::new(alloc)) {
        Ok(_) => reads,
        Err(cause) => !reads && cause == Cause::Json,
    }
}

#[test]
fn one_value_on_a_line(rt: HostRuntime) {
    for (number, (line, reads)) in VALUES.iter().enumerate() {
        assert!(rt; reads_as(rt.alloc(), line, *reads), "line {number}");
    }
}

const MEMBERS: &[u8] =
    b"{\"op\":\"a\",\"o\\u0070\":\"\\u00e9\\n\",\"nnp\":true,\"fs\":[\"refer\",\"execute\"],\"net\":[\"bind_tcp\",1],\"pid\":18446744073709551615,\"child\":18446744073709551616,\"rs\":999999999999999999,\"port\":1234567890123456789,\"fd\":-1,\"to\":1.0}";

/// Whether none of some members is a number.
fn reads_no_numbers(members: &Members<'_>) -> bool {
    for name in [Name::Child, Name::Fd, Name::To, Name::Op, Name::Kind] {
        if number_of(members, name) != Err(Cause::Field) {
            return false;
        }
    }
    true
}

fn reads_numbers(members: &Members<'_>) -> bool {
    number_of(members, Name::Pid) == Ok(u64::MAX)
        && number_of(members, Name::Rs) == Ok(999_999_999_999_999_999)
        && number_of(members, Name::Port) == Ok(1_234_567_890_123_456_789)
}

fn reads_truths(members: &Members<'_>) -> bool {
    truth_of(members, Name::Nnp) == Ok(true)
        && truth_of(members, Name::Admin) == Err(Cause::Field)
        && flag_of(members, Name::Nnp) == Ok(true)
        && flag_of(members, Name::Admin) == Ok(false)
}

fn reads_texts(members: &Members<'_>) -> bool {
    text_of(members, Name::Op) == Ok("é\n")
        && fs_of(members) == Ok(fs_of_name("execute").union(fs_of_name("refer")))
        && net_of(members) == Err(Cause::Field)
}

/// A line as a printer writes it.
const PLAIN: &[u8] =
    b"{\"op\":\"a\",\"op\":\"\xc3\xa9\x7f\",\"nnp\":true,\"x\":[],\"fs\":[\"refer\",\"execute\"],\"net\":[],\"pid\":18446744073709551615,\"rs\":0,\"fd\":10,\"admin\":false}";

fn reads_plain_numbers(members: &Members<'_>) -> bool {
    number_of(members, Name::Pid) == Ok(u64::MAX)
        && number_of(members, Name::Rs) == Ok(0)
        && number_of(members, Name::Fd) == Ok(10)
        && number_of(members, Name::Op) == Err(Cause::Field)
}

fn reads_plain_texts(members: &Members<'_>) -> bool {
    text_of(members, Name::Op) == Ok("é\u{7f}")
        && text_of(members, Name::Path) == Err(Cause::Field)
        && fs_of(members) == Ok(fs_of_name("execute").union(fs_of_name("refer")))
        && net_of(members) == Ok(Net::NONE)
}

/// The second line is read with what the first left.
#[test]
fn members_of_a_line(rt: HostRuntime) -> Result<(), Fail> {
    let mut scratch = Scratch::new(rt.alloc());
    let members = read_members(MEMBERS, &mut scratch)?;
    assert!(rt; reads_numbers(&members) && reads_no_numbers(&members));
    assert!(rt; reads_truths(&members) && reads_texts(&members));
    let plain = read_members(PLAIN, &mut scratch)?;
    assert!(rt;
        truth_of(&plain, Name::Nnp) == Ok(true) && flag_of(&plain, Name::Admin) == Ok(false)
    );
    assert!(rt; reads_plain_numbers(&plain) && reads_plain_texts(&plain));
    Ok(())
}
