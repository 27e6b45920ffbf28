//! The bytes of a file in blocks of whole lines, of which each can be read and given back by itself.

ghost use Rattle.std.specs.Prelude.{◌≡◌, ◌≤◌, ◌<◌, ◌++◌, ℕ, List, IfOk, OnOk, IfSome, None, ◌+◌, flat_map, length, take, vec_len};
ghost use Rattle.std.specs.Io.KnownBytes.{Consumes, IsAtEnd};
ghost use Rattle.ll_lines.specs.{LineByLine.EndsLine, Lines.filled_lines};

use crate::lines::{FilledLines, LINE_FEED, count_line_feeds};
use memchr::memrchr;
use std::alloc::{AllocError, Global};
use std::io::{self, ErrorKind, Read};
use std::marker::Model;
use std::mem;

/// How many bytes are asked of a reader at once: as many as a pipe holds.
const PAGE: usize = 65_536;

/// How many bytes are read for a block, at least.
const BLOCK: usize = 4 * PAGE;

/// How many bytes more a block has room for: a page, and the beginning of its first line, which is read with the block
/// before.
const MORE: usize = PAGE + 4_096;

/// Some whole lines of a file; contracts see those that aren't blank.
#[derive(Drop)]
pub struct LineBlock {
    before: u64,
    bytes: Vec<u8>,
}

impl Model for LineBlock {
    ghost use Rattle.std.specs.Prelude.{List, ◌+◌, ◌<◌, ◌^◌, length};
    ghost use Rattle.ll_lines.specs.Lines.{Line, filled_from};

    ghost Value = { List Line };

    ghost view = { λ block. filled_from (block.before + 1) block.bytes.items };

    ghost invariant = { λ block. block.before + length block.bytes.items < 2 ^ 64 };
}

impl LineBlock {
    /// The lines that aren't blank.
    pub fn lines(&self) -> FilledLines<'_>
        ensures { result ≡ self.now }
    {
        FilledLines::behind(self.before, &self.bytes)
    }
}

/// The bytes of a file, in blocks that end with a line feed, and what comes behind them. Contracts see all bytes.
#[derive(Drop)]
pub struct LineBlocks {
    whole: Vec<Vec<u8>>,
    last: Vec<u8>,
}

impl Model for LineBlocks {
    ghost use Rattle.std.specs.Prelude.{List, ℕ, ◌++◌, ◌<◌, ◌^◌, All, flat_map, length};
    ghost use Rattle.ll_lines.specs.LineByLine.{EndsLine};

    ghost Value = { List ℕ };

    ghost view = { λ all. flat_map (λ block. block.items) all.whole.items ++ all.last.items };

    ghost invariant = { λ all. All (λ block. EndsLine block.items) all.whole.items
        × (length (flat_map (λ block. block.items) all.whole.items ++ all.last.items) < 2 ^ 64) };
}

/// Reads about `BLOCK` bytes behind those of a block, a page at a time, and says how many. Fewer come from a reader that
/// has no more, and none is the end.
fn read_on<I: Read>(reader: &mut I, page: &mut Vec<u8>, block: &mut Vec<u8>) -> io::Result<u64>
    requires { 0 < vec_len page.old }
    ensures more { IfOk result (λ count. (more : List ℕ)
        × (block.new.items ≡ block.old.items ++ more)
        × (length more ≡ count)
        × Consumes (I.remaining reader.old) (I.remaining reader.new) more) }
    ensures end { IfOk result (λ count. count ≡ 0 → IsAtEnd (I.remaining reader.new)) }
    ensures page { vec_len page.new ≡ vec_len page.old }
{
    let begun = block.len();
    for _ in 0..u64::MAX {
        match reader.read(page) {
            Ok(count) => {
                block.extend_from_slice(&page[..count])?;
                if count == 0 || block.len() - begun >= BLOCK {
                    return Ok((block.len() - begun) as u64);
                }
            }
            Err(error) if error.kind() == ErrorKind::Interrupted => {}
            Err(error) => return Err(error),
        }
    }
    Err(ErrorKind::Other.into())
}

/// A page to read into.
fn page(alloc: Global) -> Result<Vec<u8>, AllocError>
    ensures { IfOk result (λ page. 0 < vec_len page) }
{
    vec![in alloc; 0; PAGE]
}

/// A block that begins with these bytes.
fn begun(alloc: Global, bytes: &[u8]) -> Result<Vec<u8>, AllocError>
    ensures { IfOk result (λ block. block.items ≡ bytes.now) }
{
    let mut block = Vec::with_capacity(alloc, BLOCK + MORE)?;
    block.extend_from_slice(bytes)?;
    Ok(block)
}

/// Cuts a block behind its last line feed, and begins the next one with what is behind it. A block without a line feed
/// behind its first `read` bytes stays as it is.
fn cut_off(alloc: Global, block: &mut Vec<u8>, read: usize) -> Result<Option<Vec<u8>>, AllocError>
    requires { read ≤ vec_len block.old }
    ensures cut { IfOk result (λ next. IfSome next
        (λ rest. EndsLine block.new.items × (block.old.items ≡ block.new.items ++ rest.items))) }
    ensures uncut { IfOk result (λ next. next ≡ None → block.new.items ≡ block.old.items) }
{
    let Some(end) = memrchr(LINE_FEED, &block[read..]) else {
        return Ok(None);
    };
    let next = begun(alloc, &block[read + end + 1..])?;
    block.truncate(read + end + 1);
    Ok(Some(next))
}

impl LineBlocks {
    /// A file in one block.
    pub fn whole(alloc: Global, bytes: Vec<u8>) -> LineBlocks
        ensures { result ≡ bytes.items }
    {
        LineBlocks {
            whole: Vec::new(alloc),
            last: bytes,
        }
    }

    /// All bytes that a reader gives, if there are at most so many.
    pub fn read<I: Read>(alloc: Global, reader: &mut I, most: u64) -> io::Result<LineBlocks>
        ensures few { IfOk result (λ all. length all ≤ most) }
        ensures bytes { IfOk result
            (λ all. IfSome (I.remaining reader.old) (λ bytes. all ≡ bytes)) }
    {
        let mut whole = Vec::new(alloc);
        let mut page = page(alloc)?;
        let mut block = begun(alloc, &[])?;
        let mut left = most;
        loop {
            let read = block.len();
            let count = read_on(reader, &mut page, &mut block)?;
            if count == 0 {
                return Ok(LineBlocks { whole, last: block });
            }
            if count > left {
                return Err(ErrorKind::FileTooLarge.into());
            }
            left -= count;
            if let Some(next) = cut_off(alloc, &mut block, read)? {
                whole.push(mem::replace(&mut block, next))?;
            }
        }
    }

    /// The blocks, each with its lines.
    pub fn into_blocks(self, alloc: Global) -> Result<Vec<LineBlock>, AllocError>
        ensures { IfOk result
            (λ blocks. flat_map (λ block. block) blocks.items ≡ filled_lines self) }
    {
        let LineBlocks { whole, last } = self;
        let mut blocks = Vec::new(alloc);
        let mut before = 0;
        for bytes in whole {
            let feeds = count_line_feeds(&bytes);
            blocks.push(LineBlock { before, bytes })?;
            before += feeds;
        }
        blocks.push(LineBlock {
            before,
            bytes: last,
        })?;
        Ok(blocks)
    }
}
