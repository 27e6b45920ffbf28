//! The policies of a file answered, and the tables of rights written.

ghost use Rattle.std.specs.Prelude.{◌≡◌, ◌⊎◌, true, false};
ghost use Rattle.ll_values.specs.Answers.{IsRefused};
ghost use Rattle.std.specs.Io.KnownBytes.{Appends};
ghost use Rattle.ll_calling.specs.PolicyLines.{policy_format};
ghost use Rattle.ll_calling.specs.Answers.{WritesCalls};
ghost use Rattle.ll_calling.specs.Texts.{tables};

use crate::calls::call_lines;
use crate::tables::tables;
use ll_rights::Abi;
use ll_values::{complain, write_whole};
use std::alloc::Global;
use std::io::Write;

/// Writes the calls that put the policies in a file in force at a version to `out`, or what is wrong to `err`, and gives
/// the status: 0 with all calls; 1 with all calls, where the kernel would refuse a rule; 3 where a line does not read,
/// and then nothing is written to `out`; 4 where memory runs out or `out` can't be written.
pub fn write_calls<O: Write, E: Write>(
    alloc: Global,
    bytes: &[u8],
    abi: Abi,
    out: &mut O,
    err: &mut E,
) -> u8
    ensures status { (result ≡ 0) ⊎ (result ≡ 1) ⊎ (result ≡ 3) ⊎ (result ≡ 4) }
    ensures calls { result ≡ 0
        → WritesCalls abi bytes.now false (O.contents out.old) (O.contents out.new) }
    ensures refused { result ≡ 1
        → WritesCalls abi bytes.now true (O.contents out.old) (O.contents out.new) }
    ensures bad { result ≡ 3 → IsRefused policy_format bytes.now out.old out.new }
    ensures quiet { (result ≡ 0) ⊎ (result ≡ 1) → err.new ≡ err.old }
{
    let called = match call_lines(alloc, bytes, abi) {
        Ok(called) => called,
        Err(fault) => return complain(fault, err),
    };
    if write_whole(out, &called.text).is_err() {
        let _ = writeln!(err, "landaudit-rules: cannot write");
        return 4;
    }
    if called.refused { 1 } else { 0 }
}

/// Writes the tables of rights to `out`, and gives the status: 0, or 4 where memory runs out or `out` can't be written.
pub fn write_tables<O: Write, E: Write>(alloc: Global, out: &mut O, err: &mut E) -> u8
    ensures status { (result ≡ 0) ⊎ (result ≡ 4) }
    ensures tables { result ≡ 0 → Appends (O.contents out.old) (O.contents out.new) tables }
{
    let text = match tables(alloc) {
        Ok(text) => text,
        Err(_) => {
            let _ = writeln!(err, "landaudit-rules: no memory");
            return 4;
        }
    };
    if write_whole(out, &text).is_err() {
        let _ = writeln!(err, "landaudit-rules: cannot write");
        return 4;
    }
    0
}
