//! Where the bytes of the files come from.

ghost use Rattle.std.specs.Prelude.{◌≡◌, ◌+◌, ◌-◌, ◌^◌, ◌<◌, ◌≤◌, ℕ, Option, Some, IfOk, find, option_map};
ghost use Rattle.std.specs.Str.{bytes_eq};
ghost use Rattle.ll_audit.specs.Inputs.{AreBytesOf, Files, HasNoFile, files_of};

use ll_lines::blocks::LineBlocks;
use std::alloc::Global;

/// The most bytes that a file may have. A source over files gives no more, so that there is a bound on what a
/// file from a stranger asks for.
pub const LARGEST_FILE: u64 = 1_073_741_824;

/// Why a source gives no bytes.
#[derive(Clone, Copy, Debug, PartialEq, Eq)]
pub enum SourceFault {
    /// The file can't be read.
    Unread,
    /// Out of memory for its bytes.
    Memory,
}

/// Files by their names, and a count of those that could not be read.
pub trait Source {
    // The files, where they are known.
    ghost files: { Self → Option Files };
    // How many could not be read so far.
    ghost failed: { Self → ℕ };

    /// The bytes of the file of a name. `Unread` is answered only where the count of failures
    /// rises, and where no file has the name; a call adds at most one to it.
    fn bytes_of(&mut self, alloc: Global, name: &str) -> Result<Vec<u8>, SourceFault>
        requires { failed self.old < 2 ^ 64 - 1 }
        ensures bytes { IfOk result (λ bytes. AreBytesOf (files self.old) name.now bytes.items) }
        ensures unread { result ≡ Err SourceFault.Unread
            → failed self.new ≡ failed self.old + 1 }
        ensures missing { result ≡ Err SourceFault.Unread → HasNoFile (files self.old) name.now }
        ensures kept { failed self.old ≤ failed self.new }
        ensures at_most_one { failed self.new ≤ failed self.old + 1 }
        ensures same_files { files self.new ≡ files self.old };

    /// The bytes of the file of a name, as `bytes_of` gives them, in blocks of whole lines, so that the memory of each can be
    /// given back once its lines are read. A source that has no blocks gives the file in one.
    fn blocks_of(&mut self, alloc: Global, name: &str) -> Result<LineBlocks, SourceFault>
        requires { failed self.old < 2 ^ 64 - 1 }
        ensures bytes { IfOk result (λ blocks. AreBytesOf (files self.old) name.now blocks) }
        ensures unread { result ≡ Err SourceFault.Unread
            → failed self.new ≡ failed self.old + 1 }
        ensures missing { result ≡ Err SourceFault.Unread → HasNoFile (files self.old) name.now }
        ensures kept { failed self.old ≤ failed self.new }
        ensures at_most_one { failed self.new ≤ failed self.old + 1 }
        ensures same_files { files self.new ≡ files self.old }
    {
        let bytes = self.bytes_of(alloc, name)?;
        Ok(LineBlocks::whole(alloc, bytes))
    }

    /// How many files could not be read so far.
    fn failures(&self) -> u64
        ensures { result ≡ failed self.now };
}

/// The bytes of the first file of a name.
fn first_named<'a>(files: &[(&'a str, &'a [u8])], name: &str) -> Option<&'a [u8]>
    ensures { option_map (λ bytes. bytes.now) result
        ≡ option_map (λ file. file.1.now) (find (λ file. bytes_eq file.0.now name.now) files.now) }
{
    let file = files.iter().find(|file| file.0 == name)?;
    Some(file.1)
}

/// Files in memory, as names beside their bytes. Where a name is there twice the first counts.
#[derive(Debug, Drop)]
pub struct MemorySource<'a> {
    files: &'a [(&'a str, &'a [u8])],
    failures: u64,
}

impl<'a> MemorySource<'a> {
    pub fn new(files: &'a [(&'a str, &'a [u8])]) -> MemorySource<'a>
        ensures files { ⟦<MemorySource<'a> as Source>⟧.files result ≡ Some (files_of files.now) }
        ensures none_failed { ⟦<MemorySource<'a> as Source>⟧.failed result ≡ 0 }
    {
        MemorySource { files, failures: 0 }
    }
}

impl Source for MemorySource<'_> {
    ghost files = { λ source. Some (files_of source.files.now) };

    ghost failed = { λ source. source.failures };

    fn bytes_of(&mut self, alloc: Global, name: &str) -> Result<Vec<u8>, SourceFault> {
        match first_named(self.files, name) {
            Some(bytes) => match Vec::from_slice(alloc, bytes) {
                Ok(copy) => Ok(copy),
                Err(_refused) => Err(SourceFault::Memory),
            },
            None => {
                self.failures += 1;
                Err(SourceFault::Unread)
            }
        }
    }

    fn failures(&self) -> u64 {
        self.failures
    }
}
