//! Words that ask for no run, and what no clause says: the texts of help, of the version and of faults.

use crate::tests::runs::ready::run;
use ll_audit::{Fault, MemorySource, Source, SourceFault};
use ll_tree::{Cause, ReadFault};
use std::alloc::AllocError;
use std::sync::Wait;
use std::test::Fail;
use std::thread::Threads;

/// What the line says that names no versions.
const NO_VERSIONS: &str =
    "landaudit: --abi: expected an ABI (1 to 5) or an ascending range such as 2-5\n";

const BOTH_INPUTS: &str = "landaudit: TREE and TRACE can't both be standard input\n";

#[test]
fn words_that_are_misused(rt: HostRuntime) -> Result<(), Fail> {
    let cases = [
        ("0-3", "t", NO_VERSIONS),
        ("5-1", "t", NO_VERSIONS),
        ("1-6", "t", NO_VERSIONS),
        ("1-", "t", NO_VERSIONS),
        ("-", "t", NO_VERSIONS),
        ("a-b", "t", NO_VERSIONS),
        ("6", "-", NO_VERSIONS),
        ("1-5", "-", BOTH_INPUTS),
    ];
    for (versions, tree, line) in cases {
        let words = ["landaudit", "--abi", versions, tree, "-"];
        let ended = run(&rt, words.as_slice(), &[])?;
        assert!(rt; ended.is(2, "", line), "{versions} {tree}");
    }
    Ok(())
}

/// Whether the program prints a text with this beginning and this end, and nothing else.
fn is_printed<R: Threads + Wait + AllocGlobal + Sync>(
    rt: &R,
    word: &str,
    beginning: &str,
    end: &str,
) -> Result<bool, AllocError> {
    let ended = run(rt, ["landaudit", word].as_slice(), &[])?;
    let out = ended.out.as_slice();
    Ok(
        ended.status == 0
            && out.starts_with(beginning.as_bytes())
            && out.ends_with(end.as_bytes())
            && ended.err.is_empty(),
    )
}

const ABOUT: &str = "Says what Landlock answers to each system call of a trace\n";

const VERSION: &str = "landaudit 0.2 (rattle-kit-13f logic dac8208d650f15bf)\n";

#[test]
fn help_and_the_version_are_told(rt: HostRuntime) -> Result<(), Fail> {
    for (word, beginning, end) in [
        ("-h", ABOUT, "Print version\n"),
        ("--help", ABOUT, "landaudit(5) and docs/FORMATS.md.\n"),
        ("-V", VERSION, VERSION),
        ("--version", VERSION, VERSION),
    ] {
        assert!(rt; is_printed(&rt, word, beginning, end)?, "{word}");
    }
    Ok(())
}

const FILES: [(&str, &[u8]); 3] = [("t", b"one"), ("r", b"two"), ("t", b"three")];

#[test]
fn files_in_memory(rt: HostRuntime) -> Result<(), Fail> {
    for (name, bytes) in [("t", "one"), ("r", "two")] {
        let mut source = MemorySource::new(FILES.as_slice());
        let read = source.bytes_of(rt.alloc(), name)?;
        assert!(rt;
            read.as_slice() == bytes.as_bytes() && source.failures() == 0,
            "{name}"
        );
    }
    Ok(())
}

#[test]
fn no_file_in_memory(rt: HostRuntime) {
    let mut source = MemorySource::new(FILES.as_slice());
    let fault = source.bytes_of(rt.alloc(), "x").err();
    assert!(rt; fault == Some(SourceFault::Unread) && source.failures() == 1);
}

#[test]
fn faults_have_texts(rt: HostRuntime) -> Result<(), Fail> {
    let fault = Fault::Tree(ReadFault {
        line: 3,
        cause: Cause::Twice,
    });
    assert_eq!(rt;
        fault.to_string(rt.alloc())?.as_str(),
        "line 3 of the tree is wrong: Twice"
    );
    Ok(())
}
