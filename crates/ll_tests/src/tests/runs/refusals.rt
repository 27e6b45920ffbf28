//! Sources and writers that fail.

ghost use Rattle.std.specs.Prelude.{◌+◌, ◌^◌, ◌<◌};

use crate::failing::FailingSource;
use crate::tests::runs::ready::{REPORT, TRACE, owned};
use ll_audit::{Ending, Idle, MemorySource, Resources, Source, SourceFault};
use ll_fixtures::TREE;
use std::alloc::{AllocError, Global};
use std::io;
use std::io::{ErrorKind, Write};
use std::sync::Wait;
use std::test::Fail;
use std::thread::Threads;

/// A writer of at most sixteen bytes a call, that is interrupted first and fails from one of its calls on.
#[derive(Drop)]
struct Stubborn {
    interrupts: u64,
    good_calls: u64,
    bytes: Vec<u8>,
}

impl Stubborn {
    fn count(&mut self) -> io::Result<()> {
        if self.good_calls == 0 {
            return Err(ErrorKind::BrokenPipe.into());
        }
        self.good_calls -= 1;
        Ok(())
    }
}

impl Write for Stubborn {
    fn write(&mut self, buf: &[u8]) -> io::Result<usize> {
        if self.interrupts > 0 {
            self.interrupts -= 1;
            return Err(ErrorKind::Interrupted.into());
        }
        self.count()?;
        let taken = buf.len().min(16);
        self.bytes.extend_from_slice(&buf[..taken])?;
        Ok(taken)
    }

    fn flush(&mut self) -> io::Result<()> {
        self.count()
    }
}

const WORDS: [&str; 5] = ["landaudit", "--abi", "4", "t", "r"];

/// How the program ends on these words.
fn ending_of<R: Threads + Wait + AllocGlobal + Sync, S: Source>(
    rt: &R,
    words: &[&str],
    source: &mut S,
    out: &mut impl Write,
    err: &mut impl Write,
) -> Result<Ending, AllocError>
    requires { S.failed source.old + 2 < 2 ^ 64 }
{
    let words = owned(rt.alloc(), words)?;
    let given = Resources {
        rt,
        alloc: rt.alloc(),
        gate: &Idle,
    };
    Ok(given.front_ending(&words, source, out, err))
}

/// Whether the program writes this line and ends with this status if its source fails from one call on, and whether the
/// source has counted one failure exactly if the status is 3.
fn is_ended<R: Threads + Wait + AllocGlobal + Sync>(
    rt: &R,
    (good_calls, fault): (u64, SourceFault),
    status: u8,
    line: &str,
) -> Result<bool, Fail> {
    let files = [("t", TREE.as_bytes()), ("r", TRACE.as_bytes())];
    let mut source = FailingSource::new(files.as_slice(), good_calls, fault);
    let (mut out, mut err) = (Vec::new(rt.alloc()), Vec::new(rt.alloc()));
    let ending = ending_of(rt, WORDS.as_slice(), &mut source, &mut out, &mut err)?;
    Ok(
        ending.told
            && ending.status == status
            && err.as_slice() == line.as_bytes()
            && out.is_empty()
            && (source.failures() == 1) == (status == 3),
    )
}

#[test]
fn sources_that_fail(rt: HostRuntime) -> Result<(), Fail> {
    for (good_calls, fault, status, line) in [
        (0, SourceFault::Unread, 3, "landaudit: cannot read t\n"),
        (1, SourceFault::Unread, 3, "landaudit: cannot read r\n"),
        (0, SourceFault::Memory, 4, "landaudit: no memory\n"),
        (1, SourceFault::Memory, 4, "landaudit: no memory\n"),
    ] {
        assert!(rt; is_ended(&rt, (good_calls, fault), status, line)?, "{line}");
    }
    Ok(())
}

/// Runs the program on the worked files, with an output that fails from one of its calls on.
fn run_into<R: Threads + Wait + AllocGlobal + Sync>(
    rt: &R,
    good_calls: u64,
    err: &mut impl Write,
) -> Result<(Ending, Vec<u8>), Fail> {
    let files = [("t", TREE.as_bytes()), ("r", TRACE.as_bytes())];
    let mut source = MemorySource::new(files.as_slice());
    let mut out = Stubborn {
        interrupts: 2,
        good_calls,
        bytes: Vec::new(rt.alloc()),
    };
    let ending = ending_of(rt, WORDS.as_slice(), &mut source, &mut out, err)?;
    Ok((ending, out.bytes))
}

/// Whether the program ends with a status and a line, which it tells, and what it wrote begins the report.
fn is_broken_off<R: Threads + Wait + AllocGlobal + Sync>(
    rt: &R,
    good_calls: u64,
) -> Result<bool, Fail> {
    let mut err = Vec::new(rt.alloc());
    let (ending, out) = run_into(rt, good_calls, &mut err)?;
    Ok(
        ending.told
            && ending.status == 4
            && err.as_slice() == b"landaudit: cannot write\n".as_slice()
            && REPORT.as_bytes().starts_with(out.as_slice()),
    )
}

/// How many calls write the report: one for each sixteen bytes, and one to flush it.
fn calls() -> u64 {
    REPORT.len().div_ceil(16) as u64 + 1
}

#[test]
fn outputs_that_fail_at_each_call(rt: HostRuntime) -> Result<(), Fail> {
    for good_calls in 0..calls() {
        assert!(rt; is_broken_off(&rt, good_calls)?, "after {good_calls} calls");
    }
    Ok(())
}

#[test]
fn an_output_that_fails_after_its_last_call(rt: HostRuntime) -> Result<(), Fail> {
    let mut err = Vec::new(rt.alloc());
    let (ending, out) = run_into(&rt, calls(), &mut err)?;
    assert!(rt; ending.status == 1 && out.as_slice() == REPORT.as_bytes() && err.is_empty());
    Ok(())
}

/// A writer that fails at once.
fn mute(alloc: Global) -> Stubborn {
    Stubborn {
        interrupts: 0,
        good_calls: 0,
        bytes: Vec::new(alloc),
    }
}

#[test]
fn a_status_stays_where_no_report_can_be_written(rt: HostRuntime) -> Result<(), Fail> {
    let (ending, _) = run_into(&rt, 0, &mut mute(rt.alloc()))?;
    assert!(rt; ending.status == 4 && !ending.told);
    Ok(())
}

/// Whether the program ends with a status and without a word, on a tree and the worked trace.
fn is_mute<R: Threads + Wait + AllocGlobal + Sync>(
    rt: &R,
    words: &[&str],
    tree: &[u8],
    status: u8,
) -> Result<bool, Fail> {
    let files = [("t", tree), ("r", TRACE.as_bytes())];
    let mut source = MemorySource::new(files.as_slice());
    let (mut out, mut err) = (Vec::new(rt.alloc()), mute(rt.alloc()));
    let ending = ending_of(rt, words, &mut source, &mut out, &mut err)?;
    Ok(ending.status == status && !ending.told && out.is_empty())
}

#[test]
fn a_status_stays_where_nothing_can_be_said(rt: HostRuntime) -> Result<(), Fail> {
    let absent = ["landaudit", "--abi", "4", "x", "r"];
    let unknown = ["landaudit", "--abi", "6", "t", "r"];
    assert!(rt; is_mute(&rt, WORDS.as_slice(), b"[]", 3)?);
    assert!(rt; is_mute(&rt, absent.as_slice(), b"", 3)?);
    assert!(rt; is_mute(&rt, unknown.as_slice(), b"", 2)?);
    Ok(())
}
