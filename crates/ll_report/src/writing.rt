//! Writing bytes so that a failure leaves a beginning of them.

ghost use Rattle.std.specs.Prelude.{◌≡◌, OnErr, OnOk};
ghost use Rattle.std.specs.Io.{WritesAtMost};
ghost use Rattle.std.specs.Io.KnownBytes.{Appends, WriteAppends};
ghost use Rattle.std.specs.List.{flat_map};
ghost use Rattle.ll_report.specs.Writing.{AppendsBeginning, AppendsPart};

use std::io;
use std::io::{ErrorKind, Write};

/// Writes all bytes, and sends them on. Where that fails a beginning of them was written.
pub fn write_whole<O: Write>(out: &mut O, bytes: &[u8]) -> io::Result<()>
    ensures whole { OnOk result (Appends (O.contents out.old) (O.contents out.new) bytes.now) }
    ensures beginning { AppendsBeginning (O.contents out.old) (O.contents out.new) bytes.now }
{
    write_bytes(out, bytes)?;
    out.flush()
}

/// Writes texts, one behind the other. Where that fails a beginning of all of them was written, but not all.
pub fn write_texts<O: Write>(out: &mut O, texts: &[&str]) -> io::Result<()>
    ensures whole { OnOk result (Appends (O.contents out.old) (O.contents out.new)
        (flat_map (λ text. text.now) texts.now)) }
    ensures beginning { AppendsBeginning (O.contents out.old) (O.contents out.new)
        (flat_map (λ text. text.now) texts.now) }
    ensures cut { OnErr result (AppendsPart (O.contents out.old) (O.contents out.new)
        (flat_map (λ text. text.now) texts.now)) }
{
    for text in texts {
        write_bytes(out, text.as_bytes())?;
    }
    Ok(())
}

/// Writes all bytes, as `write_all` does. That promises nothing of what was written before a write
/// failed.
pub(crate) fn write_bytes<O: Write>(out: &mut O, bytes: &[u8]) -> io::Result<()>
    ensures whole { OnOk result (Appends (O.contents out.old) (O.contents out.new) bytes.now) }
    ensures beginning { AppendsBeginning (O.contents out.old) (O.contents out.new) bytes.now }
    ensures cut { OnErr result (AppendsPart (O.contents out.old) (O.contents out.new) bytes.now) }
{
    let mut rest = bytes;
    for _ in 0..u64::MAX {
        if rest.is_empty() {
            return Ok(());
        }
        let count = write_some(out, rest)?;
        rest = &rest[count..];
    }
    if rest.is_empty() {
        return Ok(());
    }
    Err(ErrorKind::Interrupted.into())
}

/// Writes some bytes, and none where the write was interrupted.
fn write_some<O: Write>(out: &mut O, bytes: &[u8]) -> io::Result<usize>
    ensures bound { WritesAtMost result bytes.now }
    ensures bytes { WriteAppends (O.contents out.old) (O.contents out.new) result bytes.now }
{
    match out.write(bytes) {
        Ok(0) => Err(ErrorKind::WriteZero.into()),
        Err(error) if error.kind() == ErrorKind::Interrupted => Ok(0),
        result => result,
    }
}
