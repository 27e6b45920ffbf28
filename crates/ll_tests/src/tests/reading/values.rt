//! What may stand in a line beside what is asked: how `serde_json` reads it decides whether the line reads.

use crate::tests::reading::texts::{Format, fault_of};
use ll_lines::Cause;
use std::alloc::AllocError;
use std::test::Fail;
use std::thread::Threads;

/// What follows the name of a member that nobody asks for, up to the end of the line, and whether the line reads.
const SKIPPED: [(&[u8], bool); 49] = [
    (b"null}", true),
    (b"[1,{\"y\":[true,\"a\"]}]}", true),
    (b"\"\\ud83d\\ude00\\n\\/\"}", true),
    (b"1e308}", true),
    (b"1e-400}", true),
    (b"-0}", true),
    (b"18446744073709551616}", true),
    (b"1000000000000000000}", true),
    // the last of two members counts, and each is read
    (b"1,\"x\":2}", true),
    (b"1e400,\"x\":2}", false),
    // a number too large for a float
    (b"1e400}", false),
    (b"-1e400}", false),
    (b"[0,{\"y\":1e400}]}", false),
    // what is no number
    (b"01}", false),
    (b"-01}", false),
    (b"000000000000000001}", false),
    (b"1.}", false),
    (b".5}", false),
    (b"1e}", false),
    (b"+1}", false),
    (b"-}", false),
    (b"0x10}", false),
    (b"NaN}", false),
    (b"12345678901234567a}", false),
    // two values
    (b"1} {}", false),
    (b"1}]", false),
    (b"1 2}", false),
    (b"1},", false),
    // half a line
    (b"1", false),
    (b"1,", false),
    (b"1,}", false),
    (b"[1}", false),
    (b"\"a}", false),
    (b"tru}", false),
    // bytes that are no UTF-8, and half a pair of surrogates
    (b"\"\xff\"}", false),
    (b"\"\xed\xa0\x80\"}", false),
    (b"\"\xc3\"}", false),
    (b"\"\\ud800\"}", false),
    (b"\"\\udc00\"}", false),
    // what a text escapes
    (b"\"\x01\"}", false),
    (b"\"\t\"}", false),
    (b"\"\x1f\"}", false),
    (b"\"\\x\"}", false),
    // what stands in a text as it is
    (b"\" {[,:'\x7f\xc3\xa9\xe2\x82\xac\"}", true),
    // what stands behind a value
    (b"truex}", false),
    (b"false\"y\":2}", false),
    (b"\"a\"\"y\":2}", false),
    (b"[\"a\"\"b\"]}", false),
    (b"0 ,\t\"y\" :\r[ ] }\t", true),
];

/// The fault of a file that ends with this member.
fn fault_of_end<R: AllocGlobal + Threads + Sync>(
    rt: &R,
    format: Format,
    front: &str,
    end: &[u8],
) -> Result<Option<(u64, Cause)>, AllocError> {
    let mut line = Vec::new(rt.alloc());
    line.extend_from_slice(front.as_bytes())?;
    line.extend_from_slice(end)?;
    Ok(fault_of(rt, format, &line))
}

/// The fault of the first line, where it does not read as a value.
fn json_unless(reads: bool) -> Option<(u64, Cause)> {
    if reads { None } else { Some((1, Cause::Json)) }
}

#[test]
fn members_that_nobody_asks_for(rt: HostRuntime) -> Result<(), Fail> {
    for (row, (end, reads)) in SKIPPED.iter().enumerate() {
        for (format, front) in [
            (Format::Tree, "{\"path\":\"/a\",\"kind\":\"dir\",\"x\":"),
            (Format::Trace(1), "{\"op\":\"start\",\"pid\":9,\"x\":"),
            (Format::Trace(2), "{\"op\":\"start\",\"pid\":9,\"x\":"),
        ] {
            let fault = fault_of_end(&rt, format, front, end)?;
            assert_eq!(rt; fault, json_unless(*reads), "{row}");
        }
    }
    Ok(())
}

/// Lines of a trace, and the fault of each.
const RECORDS: [(&[u8], Option<Cause>); 38] = [
    (b"{\"op\":\"start\",\"pid\":1}", None),
    (b" {\t\"pid\" : 1 ,\"op\":\"start\" }\r", None),
    // the last of two members counts
    (b"{\"op\":\"exit\",\"op\":\"start\",\"pid\":1}", None),
    (
        b"{\"op\":\"start\",\"op\":\"nosuch\",\"pid\":1}",
        Some(Cause::Field),
    ),
    (b"{\"op\":\"start\",\"pid\":\"a\",\"pid\":1}", None),
    (
        b"{\"op\":\"start\",\"pid\":1,\"pid\":null}",
        Some(Cause::Field),
    ),
    (b"{\"op\":\"start\",\"pid\":1,\"nnp\":7,\"nnp\":true}", None),
    (
        b"{\"op\":\"start\",\"pid\":1,\"nnp\":true,\"nnp\":7}",
        Some(Cause::Field),
    ),
    // escapes in names and in texts
    (b"{\"\\u006fp\":\"st\\u0061rt\",\"p\\u0069d\":1}", None),
    (b"{\"op\":\"exit\",\"o\\u0070\":\"start\",\"pid\":1}", None),
    (b"{\"o\\\\p\":\"start\",\"pid\":1}", Some(Cause::Field)),
    (b"{\"op\":\"start\\n\",\"pid\":1}", Some(Cause::Field)),
    (
        b"{\"\\ud800\":1,\"op\":\"start\",\"pid\":1}",
        Some(Cause::Json),
    ),
    (b"{\"op\":\"start\",\"pid\":1,\"\":2}", None),
    (b"{op:\"start\",\"pid\":1}", Some(Cause::Json)),
    (b"{\"op\" \"start\",\"pid\":1}", Some(Cause::Json)),
    (b"{,\"op\":\"start\",\"pid\":1}", Some(Cause::Json)),
    (b"{}", Some(Cause::Field)),
    (b"{\"op\":\"start\",\"pid\":1,\"\xc3\xa9\x7f\":2}", None),
    (
        b"{\"op\":\"start\",\"pid\":1,\"\x1f\":2}",
        Some(Cause::Json),
    ),
    // numbers that are asked for
    (b"{\"op\":\"start\",\"pid\":0}", None),
    (b"{\"op\":\"start\",\"pid\":999999999999999999}", None),
    (b"{\"op\":\"start\",\"pid\":1000000000000000000}", None),
    (b"{\"op\":\"start\",\"pid\":18446744073709551615}", None),
    (
        b"{\"op\":\"start\",\"pid\":18446744073709551616}",
        Some(Cause::Field),
    ),
    (b"{\"op\":\"start\",\"pid\":-0}", Some(Cause::Field)),
    (b"{\"op\":\"start\",\"pid\":-1}", Some(Cause::Field)),
    (b"{\"op\":\"start\",\"pid\":1.0}", Some(Cause::Field)),
    (b"{\"op\":\"start\",\"pid\":1e0}", Some(Cause::Field)),
    (b"{\"op\":\"start\",\"pid\":1e400}", Some(Cause::Json)),
    (b"{\"op\":\"start\",\"pid\":01}", Some(Cause::Json)),
    // members of other operations, whatever they are
    (
        b"{\"op\":\"start\",\"pid\":1,\"fs\":[1,{}],\"path\":7,\"to\":[[]],\"port\":null}",
        None,
    ),
    (
        b"{\"op\":\"start\",\"pid\":1,\"fs\":[\"refer\",[1e400]]}",
        Some(Cause::Json),
    ),
    (
        b"{\"op\":\"start\",\"pid\":1,\"port\":1e400}",
        Some(Cause::Json),
    ),
    // what is no object
    (b"[]", Some(Cause::Field)),
    (b"\"start\"", Some(Cause::Field)),
    (
        b"\xef\xbb\xbf{\"op\":\"start\",\"pid\":1}",
        Some(Cause::Json),
    ),
    (b"{\"op\":\"start\",\"pid\":1}\x00", Some(Cause::Json)),
];

#[test]
fn lines_of_a_trace(rt: HostRuntime) {
    for (row, (line, cause)) in RECORDS.iter().enumerate() {
        for workers in [1, 2] {
            let fault = fault_of(&rt, Format::Trace(workers), line);
            assert_eq!(rt; fault, cause.map(|cause| (1, cause)), "{row}");
        }
    }
}

/// What follows `"fs":` in lines that create a ruleset, by the fault of the line.
const LISTS: [(Option<Cause>, &[&[u8]]); 3] = [
    (
        None,
        &[
            b"[]}",
            b"[\"refer\",\"refer\",\"execute\"]}",
            b"[\"\\u0072efer\"]}",
            b"[\"nosuch\",\"\"]}",
            // the last of two lists counts
            b"[1],\"fs\":[\"refer\"]}",
        ],
    ),
    (
        Some(Cause::Field),
        &[
            b"\"refer\"}",
            b"null}",
            b"{\"refer\":true}}",
            b"[\"refer\",1]}",
            b"[null]}",
            b"[[\"refer\"]]}",
            b"[\"refer\"],\"fs\":[1]}",
        ],
    ),
    (
        Some(Cause::Json),
        &[
            b"[\"refer\",1e400]}",
            b"[\"refer\",]}",
            b"[\"refer\"}",
            b"[\"\xff\"]}",
        ],
    ),
];

#[test]
fn lists_of_rights(rt: HostRuntime) -> Result<(), Fail> {
    let front = "{\"op\":\"start\",\"pid\":1}\n{\"op\":\"create\",\"pid\":1,\"rs\":3,\"fs\":";
    for (cause, ends) in LISTS {
        for (row, end) in ends.iter().enumerate() {
            let fault = fault_of_end(&rt, Format::Trace(1), front, end)?;
            assert_eq!(rt; fault, cause.map(|cause| (2, cause)), "{row}");
        }
    }
    Ok(())
}
