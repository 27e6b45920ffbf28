//! The comparisons of a file, answered.

ghost use Rattle.std.specs.Prelude.{◌≡◌, ◌⊎◌, ℕ, List};
ghost use Rattle.std.specs.Io.KnownBytes.{Appends};
ghost use Rattle.ll_values.specs.Answers.{IsRefused};
ghost use Rattle.ll_comparison.specs.Answers.{comparison_format, AreAnswers};

use crate::answers::compare_lines;
use ll_values::{complain, write_whole};
use std::alloc::Global;
use std::io::Write;

/// Writes the answers to the comparisons in a file to `out`, or what is wrong to `err`, and gives the status: 0 with
/// all answers; 3 where a line does not read, and then nothing is written to `out`; 4 where memory runs out or `out`
/// can't be written.
pub fn write_answers<O: Write, E: Write>(
    alloc: Global,
    bytes: &[u8],
    out: &mut O,
    err: &mut E,
) -> u8
    ensures status { (result ≡ 0) ⊎ (result ≡ 3) ⊎ (result ≡ 4) }
    ensures answers { result ≡ 0 → (text : List ℕ) × AreAnswers bytes.now text
        × Appends (O.contents out.old) (O.contents out.new) text }
    ensures refused { result ≡ 3 → IsRefused comparison_format bytes.now out.old out.new }
    ensures quiet { result ≡ 0 → err.new ≡ err.old }
{
    let text = match compare_lines(alloc, bytes) {
        Ok(text) => text,
        Err(fault) => return complain(fault, err),
    };
    if write_whole(out, &text).is_err() {
        let _ = writeln!(err, "landaudit-rules: cannot write");
        return 4;
    }
    0
}
