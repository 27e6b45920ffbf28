//! The reading of a trace file in parts: the lines of each are read as entries, by several threads or by one, and one
//! thread admits the entries in the order of the file.

ghost use Rattle.std.specs.Prelude.{◌≡◌, ◌≢◌, ◌≤◌, ◌<◌, ◌++◌, ◌∷◌, [], ℕ, List, flat_map, OnOk, OnErr, IfOk, IfErr, vec_len};
ghost use Rattle.std.specs.List.{AllZip};
ghost use Rattle.ll_lines.specs.Lines.{Line, filled_lines};
ghost use Rattle.ll_lines.specs.LineByLine.{read_lines, GivesReading, MeetsFault, line_view};
ghost use Rattle.ll_lines.specs.Readers.{Fails};
ghost use Rattle.ll_lines.specs.declared.fault.Cause.TheVariants.{Memory};
ghost use Rattle.ll_trace.specs.Entries.{entry_at, trace_file};
ghost use Rattle.ll_trace.specs.Kept.{IsKept, entries};
ghost use Rattle.ll_trace.specs.Parts.{Covers, IsReadOf};

use crate::reader::{Entry, Reader, entry_of};
use json::Scratch;
use ll_lines::blocks::LineBlock;
use ll_lines::lines::{FileLine, FilledLines};
use ll_lines::{Cause, ReadFault};
use rayon::prelude::*;
use std::alloc::{AllocError, Global};
use std::mem;
use std::thread::{Threads, join};

/// How many parts a worker reads before their entries are admitted.
const PARTS_EACH: usize = 8;

/// About how many bytes of a file that is given whole are read as one part, at most.
const PART_BYTES: usize = 262_144;

/// What a part of the lines reads as: the entries of the lines before the first line that has none,
/// and the fault of that line.
#[derive(Drop)]
pub(crate) struct PartRead {
    entries: Vec<Entry>,
    fault: Option<ReadFault>,
}

/// Lines of a file that are read by themselves.
pub(crate) trait Part: Send + Drop {
    ghost use Rattle.std.specs.Prelude.{List};
    ghost use Rattle.ll_lines.specs.Lines.{Line};
    ghost use Rattle.ll_trace.specs.Parts.{IsReadOf};

    // The lines.
    ghost lines: { Self → List Line };

    /// Reads the lines, up to the first that has a fault, and gives the part back.
    fn read(self, alloc: Global) -> PartRead
        ensures { IsReadOf (lines self) result };
}

impl Part for LineBlock {
    ghost lines = { λ block. block };

    fn read(self, alloc: Global) -> PartRead {
        read_part(alloc, self.lines())
    }
}

impl<'a> Part for FilledLines<'a> {
    ghost lines = { λ lines. lines };

    fn read(self, alloc: Global) -> PartRead {
        read_part(alloc, self)
    }
}

/// Adds the entry that a line reads as.
#[tactic(auto, using(crate::proofs::PartLemmas::covers_more))]
fn take_line(
    alloc: Global,
    line: &FileLine,
    scratch: &mut Scratch,
    entries: &mut Vec<Entry>,
) -> Result<(), Cause>
    ensures covers { OnOk result ((lines others : List Line)
        → Covers lines entries.old.items (line_view line.now ∷ others)
        → Covers lines entries.new.items others) }
    ensures fails { IfErr result (λ cause. Fails cause (entry_at (line_view line.now))) }
    ensures unchanged { OnErr result (entries.new.items ≡ entries.old.items) }
{
    let entry = entry_of(alloc, line, scratch)?;
    entries.push(entry)?;
    Ok(())
}

fn read_part(alloc: Global, lines: FilledLines) -> PartRead
    ensures { IsReadOf lines.entry result }
{
    let mut entries = Vec::new(alloc);
    let mut scratch = Scratch::new(alloc);
    for line in lines {
        if let Err(cause) = take_line(alloc, &line, &mut scratch, &mut entries) {
            let fault = Some(line.fault(cause));
            return PartRead { entries, fault };
        }
    }
    PartRead {
        entries,
        fault: None,
    }
}

/// Admits the entries of a part as records, up to the first fault.
fn admit_part(reader: &mut Reader, part: PartRead) -> Result<(), ReadFault>
    requires { IsKept reader.old }
    ensures admitted { OnOk result ((lines others : List Line) → IsReadOf lines part
        → read_lines trace_file (entries reader.old) (lines ++ others)
        ≡ read_lines trace_file (entries reader.new) others) }
    ensures fault { IfErr result (λ fault. (lines others : List Line) → IsReadOf lines part
        → MeetsFault fault.line fault.cause
        (read_lines trace_file (entries reader.old) (lines ++ others))) }
    ensures kept { OnOk result (IsKept reader.new) }
{
    let PartRead { entries, fault } = part;
    for entry in entries {
        let line = entry.line;
        if let Err(cause) = reader.admit(entry) {
            return Err(ReadFault { line, cause });
        }
    }
    match fault {
        None => Ok(()),
        Some(fault) => Err(fault),
    }
}

/// Admits the entries of parts as records, one part after another, up to the first fault.
fn admit_all(reader: Reader, parts: Vec<PartRead>) -> Result<Reader, ReadFault>
    requires { IsKept reader }
    ensures admitted { IfOk result (λ more. (lines : List (List Line)) (others : List Line)
        → AllZip IsReadOf lines parts.items
        → read_lines trace_file (entries reader) (flat_map (λ part. part) lines ++ others)
        ≡ read_lines trace_file (entries more) others) }
    ensures fault { IfErr result (λ fault. (lines : List (List Line)) (others : List Line)
        → AllZip IsReadOf lines parts.items
        → MeetsFault fault.line fault.cause
        (read_lines trace_file (entries reader) (flat_map (λ part. part) lines ++ others))) }
    ensures kept { IfOk result IsKept }
{
    let mut reader = reader;
    for part in parts {
        if let Err(fault) = admit_part(&mut reader, part) {
            return Err(fault);
        }
    }
    Ok(reader)
}

/// The lines of these bytes in parts of at most about [`PART_BYTES`], and in [`PARTS_EACH`] for each worker or more.
pub(crate) fn parts_of(
    alloc: Global,
    bytes: &[u8],
    workers: usize,
) -> Result<Vec<FilledLines<'_>>, AllocError>
    ensures { IfOk result
        (λ parts. flat_map (λ part. part) parts.items ≡ filled_lines bytes.now) }
{
    let most = workers
        .saturating_mul(PARTS_EACH)
        .max(bytes.len() / PART_BYTES);
    FilledLines::new(bytes).in_parts(alloc, most)
}

/// Reads parts one after another: the entries of each are admitted before the next one is read.
pub(crate) fn read_parts<P: Part>(alloc: Global, parts: Vec<P>) -> Result<Reader, ReadFault>
    ensures gives { GivesReading entries result
        (read_lines trace_file [] (flat_map P.lines parts.items)) }
    ensures kept { IfOk result IsKept }
{
    let mut reader = Reader::new(alloc);
    for part in parts {
        if let Err(fault) = admit_part(&mut reader, part.read(alloc)) {
            return Err(fault);
        }
    }
    Ok(reader)
}

/// Parts, each read by itself, with at most a thread for every [`PARTS_EACH`] of them.
fn read_each<R: Threads + Sync, P: Part>(
    rt: &R,
    alloc: Global,
    parts: Vec<P>,
) -> Result<Vec<PartRead>, AllocError>
    ensures { IfOk result
        (λ reads. AllZip (λ part. IsReadOf (P.lines part)) parts.items reads.items) }
{
    parts
        .into_par_iter()
        .map(
            |part: P| -> PartRead
                ensures { IsReadOf (P.lines part) result }
            { part.read(alloc) },
        )
        .with_min_len(PARTS_EACH)
        .collect(rt, alloc)
}

/// The fault of a file for which memory is missing before a line is read.
pub(crate) fn no_memory() -> ReadFault
    ensures { result.cause ≡ Memory }
{
    ReadFault {
        line: 1,
        cause: Cause::Memory,
    }
}

/// Takes the next parts, which are read together: so many for each worker.
fn next_round<P: Drop>(parts: &mut Vec<P>, workers: usize) -> Result<Vec<P>, AllocError>
    requires { 1 ≤ workers }
    ensures next { IfOk result (λ round. round.items ++ parts.new.items ≡ parts.old.items) }
    ensures some { IfOk result (λ round. vec_len parts.old ≢ 0 → 0 < vec_len round) }
{
    let many = workers.saturating_mul(PARTS_EACH).min(parts.len());
    let others = parts.split_off(many)?;
    Ok(mem::replace(parts, others))
}

/// Admits the entries of parts that are read as records, while one thread for every [`PARTS_EACH`] others reads these.
fn admit_beside<R: Threads + Sync, P: Part>(
    rt: &R,
    alloc: Global,
    reader: Reader,
    reads: Vec<PartRead>,
    parts: Vec<P>,
) -> Result<(Reader, Vec<PartRead>), ReadFault>
    requires { IsKept reader }
    ensures admitted { IfOk result (λ both. (lines : List (List Line)) (others : List Line)
        → AllZip IsReadOf lines reads.items
        → read_lines trace_file (entries reader) (flat_map (λ part. part) lines ++ others)
        ≡ read_lines trace_file (entries both.0) others) }
    ensures read { IfOk result
        (λ both. AllZip (λ part. IsReadOf (P.lines part)) parts.items both.1.items) }
    ensures fault { IfErr result (λ fault. (lines : List (List Line)) (others : List Line)
        → AllZip IsReadOf lines reads.items
        → MeetsFault fault.line fault.cause
        (read_lines trace_file (entries reader) (flat_map (λ part. part) lines ++ others))) }
    ensures kept { IfOk result (λ both. IsKept both.0) }
{
    let (admitted, read) = join(
        rt,
        move || admit_all(reader, reads),
        move || read_each(rt, alloc, parts),
    );
    let reader = admitted?;
    let Ok(read) = read else {
        return Err(no_memory());
    };
    Ok((reader, read))
}

/// Reads parts by at most this many threads, and one reads them as [`read_parts`] does. Of several, the calling thread
/// admits the entries of some parts while the others read the next ones, so that few entries are kept.
pub(crate) fn read_parts_by<R: Threads + Sync, P: Part>(
    rt: &R,
    alloc: Global,
    parts: Vec<P>,
    workers: usize,
) -> Result<Reader, ReadFault>
    ensures gives { GivesReading entries result
        (read_lines trace_file [] (flat_map P.lines parts.items)) }
    ensures kept { IfOk result IsKept }
{
    if workers <= 1 {
        return read_parts(alloc, parts);
    }
    let mut reader = Reader::new(alloc);
    let mut reads = Vec::new(alloc);
    let mut left = parts;
    while !left.is_empty() {
        let Ok(round) = next_round(&mut left, workers) else {
            return Err(no_memory());
        };
        let (admitted, read) = admit_beside(rt, alloc, reader, reads, round)?;
        reader = admitted;
        reads = read;
    }
    admit_all(reader, reads)
}
