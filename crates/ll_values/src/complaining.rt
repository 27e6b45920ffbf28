//! Texts that are written whole, and the faults of lines that are told.

ghost use Rattle.std.specs.Prelude.{◌≡◌, ◌≢◌, OnOk};
ghost use Rattle.std.specs.Io.KnownBytes.{Appends};
ghost use Rattle.ll_lines.specs.declared.fault.Cause.TheVariants.{Memory as NoMemoryLeft};

use ll_lines::{Cause, ReadFault};
use std::io;
use std::io::Write;

/// Writes all of a text.
pub fn write_whole<O: Write>(out: &mut O, text: &[u8]) -> io::Result<()>
    ensures { OnOk result (Appends (O.contents out.old) (O.contents out.new) text.now) }
{
    out.write_all(text)?;
    out.flush()
}

/// Tells the fault of a line, if that can be done, and gives the status: 4 if memory ran out, and else 3.
pub fn complain<E: Write>(fault: ReadFault, err: &mut E) -> u8
    ensures memory { fault.cause ≡ NoMemoryLeft → result ≡ 4 }
    ensures bad { fault.cause ≢ NoMemoryLeft → result ≡ 3 }
{
    if fault.cause == Cause::Memory {
        let _ = writeln!(err, "landaudit-rules: no memory");
        return 4;
    }
    let _ = writeln!(
        err,
        "landaudit-rules: line {}: {:?}",
        fault.line, fault.cause
    );
    3
}
