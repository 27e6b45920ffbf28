//! The system's files, and standard input, as a source.

ghost use Rattle.std.specs.Prelude.{◌≡◌, ◌≤◌, ◌<◌, ◌+◌, ◌-◌, ◌^◌, Err, IfOk, None, length, vec_len};

use crate::source::{LARGEST_FILE, Source, SourceFault};
use ll_lines::blocks::LineBlocks;
use std::alloc::Global;
use std::fs::File;
use std::io;
use std::io::{ErrorKind, Input, Read};
use std::rt::Files;

/// The name by which a file is standard input.
const STANDARD_INPUT: &str = "-";

/// The files of the system, and standard input by the name `-`. What has more than `LARGEST_FILE` bytes can't be read.
#[derive(Drop)]
pub struct FileSource<'a, R: Files + Input> {
    rt: &'a R,
    failures: u64,
}

impl<'a, R: Files + Input> FileSource<'a, R> {
    pub fn new(rt: &'a R) -> FileSource<'a, R>
        ensures { ⟦<FileSource<'a, R> as Source>⟧.failed result ≡ 0 }
    {
        FileSource { rt, failures: 0 }
    }

    /// What was read of a file; one that can't be read is counted.
    fn counted<T>(&mut self, read: io::Result<T>) -> Result<T, SourceFault>
        requires { self.old.failures < 2 ^ 64 - 1 }
        ensures unread { result ≡ Err SourceFault.Unread
            → self.new.failures ≡ self.old.failures + 1 }
        ensures kept { self.old.failures ≤ self.new.failures }
        ensures at_most_one { self.new.failures ≤ self.old.failures + 1 }
    {
        match read {
            Ok(read) => Ok(read),
            Err(error) if error.kind() == ErrorKind::OutOfMemory => Err(SourceFault::Memory),
            Err(_) => {
                self.failures += 1;
                Err(SourceFault::Unread)
            }
        }
    }
}

impl<R: Files + Input> Source for FileSource<'_, R> {
    ghost files = { λ _. None };

    ghost failed = { λ source. source.failures };

    fn bytes_of(&mut self, alloc: Global, name: &str) -> Result<Vec<u8>, SourceFault> {
        let read = read(self.rt, alloc, name);
        self.counted(read)
    }

    fn blocks_of(&mut self, alloc: Global, name: &str) -> Result<LineBlocks, SourceFault> {
        let read = read_blocks(self.rt, alloc, name);
        self.counted(read)
    }

    fn failures(&self) -> u64 {
        self.failures
    }
}

/// The bytes of a file, or those of standard input, if there are at most `LARGEST_FILE`.
fn read<R: Files + Input>(rt: &R, alloc: Global, name: &str) -> io::Result<Vec<u8>>
    ensures { IfOk result (λ bytes. vec_len bytes ≤ LARGEST_FILE) }
{
    if name == STANDARD_INPUT {
        read_all(alloc, rt.reader())
    } else {
        read_all(alloc, File::open(rt, name)?)
    }
}

/// The bytes of a file, or those of standard input, in blocks of whole lines.
fn read_blocks<R: Files + Input>(rt: &R, alloc: Global, name: &str) -> io::Result<LineBlocks>
    ensures { IfOk result (λ blocks. length blocks ≤ LARGEST_FILE) }
{
    if name == STANDARD_INPUT {
        LineBlocks::read(alloc, &mut rt.reader(), LARGEST_FILE)
    } else {
        LineBlocks::read(alloc, &mut File::open(rt, name)?, LARGEST_FILE)
    }
}

/// The bytes that a reader gives, if there are at most `LARGEST_FILE`.
fn read_all<I: Read + Drop>(alloc: Global, reader: I) -> io::Result<Vec<u8>>
    ensures { IfOk result (λ bytes. vec_len bytes ≤ LARGEST_FILE) }
{
    let mut bytes = Vec::new(alloc);
    reader.take(LARGEST_FILE + 1).read_to_end(&mut bytes)?;
    if bytes.len() as u64 > LARGEST_FILE {
        return Err(ErrorKind::FileTooLarge.into());
    }
    Ok(bytes)
}
