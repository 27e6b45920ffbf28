//! The lines of a file.

ghost use Rattle.std.specs.Prelude.{◌≡◌, ◌<◌, ◌≤◌, ◌+◌, ◌^◌, ◌∷◌, ◌++◌, [], ℕ, length, max, flat_map, IfOk};
ghost use Rattle.std.specs.Iterator.{YieldsFirstBy, item_count};
ghost use Rattle.ll_lines.specs.declared.lines.TheConstants.{LANES};
ghost use Rattle.ll_lines.specs.Lines.{lines, is_blank, filled_from, filled_lines};
ghost use Rattle.ll_lines.specs.LineByLine.{line_feeds};

use crate::fault::{Cause, ReadFault};
use memchr::memchr;
use std::alloc::{AllocError, Global};
use std::marker::Model;
use std::simd::prelude::*;

pub(crate) const LINE_FEED: u8 = b'\n';

/// How many bytes are compared with a line feed at once.
const LANES: usize = 32;

/// A line that isn't blank, without its line feed. The first line of a file has the number 1.
#[derive(Drop)]
pub struct FileLine<'a> {
    pub number: u64,
    pub bytes: &'a [u8],
}

impl<'a> FileLine<'a> {
    /// This line's fault.
    pub fn fault(&self, cause: Cause) -> ReadFault
        ensures { result ≡ record { line = self.now.number; cause = cause } }
    {
        ReadFault {
            line: self.number,
            cause,
        }
    }
}

/// The lines of a file that aren't blank, in their order; contracts see the list of those that are
/// still to come. Blank lines are counted, and hold nothing but spaces, tabs and carriage returns.
#[derive(Drop)]
pub struct FilledLines<'a> {
    number: u64,
    rest: &'a [u8],
}

impl<'a> Model for FilledLines<'a> {
    ghost use Rattle.std.specs.Prelude.{List, ◌+◌, ◌<◌, ◌^◌, length};
    ghost use Rattle.ll_lines.specs.Lines.{Line, filled_from};

    ghost Value = { List Line };

    ghost view = { λ lines. filled_from (lines.number + 1) lines.rest.now };

    ghost invariant = { λ lines. lines.number + length lines.rest.now < 2 ^ 64 };
}

impl<'a> FilledLines<'a> {
    /// The lines of these bytes.
    pub fn new(bytes: &'a [u8]) -> FilledLines<'a>
        ensures { result ≡ filled_lines bytes.now }
    {
        FilledLines {
            number: 0,
            rest: bytes,
        }
    }

    /// The lines of bytes that come behind so many lines.
    pub(crate) fn behind(number: u64, bytes: &'a [u8]) -> FilledLines<'a>
        requires { number + length bytes.now < 2 ^ 64 }
        ensures { result ≡ filled_from (number + 1) bytes.now }
    {
        FilledLines {
            number,
            rest: bytes,
        }
    }

    /// The same lines in at most this many parts, each of about as many bytes, or in one part where the
    /// number is 0. The lines of every part keep their numbers.
    #[tactic(auto, using(std::proofs::lemmas::Grind::common_steps))]
    pub fn in_parts(self, alloc: Global, most: usize) -> Result<Vec<FilledLines<'a>>, AllocError>
        ensures lines { IfOk result (λ parts. flat_map (λ part. part) parts.items ≡ self.entry) }
        ensures few { IfOk result (λ parts. length parts.items ≤ max most 1) }
    {
        let count = most.max(1);
        let size = self.rest.len() / count;
        let mut parts = Vec::new(alloc);
        let mut left = self;
        for _ in 1..count {
            if left.rest.is_empty() {
                break;
            }
            let (part, others) = left.cut(size);
            parts.push(part)?;
            left = others;
        }
        parts.push(left)?;
        Ok(parts)
    }

    /// The lines up to the one with the byte at this index, and the lines after it.
    fn cut(self, index: usize) -> (FilledLines<'a>, FilledLines<'a>)
        ensures { self.entry ≡ result.0 ++ result.1 }
    {
        let (part, rest) = cut_behind_line(self.rest, index);
        let others = FilledLines {
            number: self.number + count_line_feeds(part),
            rest,
        };
        let lines = FilledLines {
            number: self.number,
            rest: part,
        };
        (lines, others)
    }
}

impl<'a> Iterator for FilledLines<'a> {
    ghost use Rattle.ll_lines.specs.LineByLine.{line_view};

    type Item = FileLine<'a>;

    ghost next_gives = { YieldsFirstBy line_view (λ lines. lines) };

    ghost remaining = { item_count (λ lines. lines) };

    fn next(&mut self) -> Option<FileLine<'a>> {
        while !self.rest.is_empty() {
            let (bytes, rest) = cut_line(self.rest);
            self.number += 1;
            self.rest = rest;
            if !is_blank_line(bytes) {
                return Some(FileLine {
                    number: self.number,
                    bytes,
                });
            }
        }
        None
    }
}

/// The first line, without its line feed, and the bytes after it.
#[tactic(auto, using(crate::proofs::LinesLemmas::cut_at, crate::proofs::LinesLemmas::uncut))]
fn cut_line(bytes: &[u8]) -> (&[u8], &[u8])
    requires { 0 < length bytes.now }
    ensures cut { lines bytes.now ≡ result.0.now ∷ lines result.1.now }
    ensures shorter { length result.1.now < length bytes.now }
{
    match memchr(LINE_FEED, bytes) {
        Some(end) => (&bytes[..end], &bytes[end + 1..]),
        None => (bytes, &[]),
    }
}

/// The bytes up to the end of the line with the byte at this index, with its line feed,
/// and the bytes after them.
fn cut_behind_line(bytes: &[u8], index: usize) -> (&[u8], &[u8])
    ensures lines { (n : ℕ) → filled_from n bytes.now
        ≡ filled_from n result.0.now ++ filled_from (n + line_feeds result.0.now) result.1.now }
    ensures whole { length result.0.now + length result.1.now ≡ length bytes.now }
{
    let from = index.min(bytes.len());
    match memchr(LINE_FEED, &bytes[from..]) {
        Some(end) => bytes.split_at(from + end + 1),
        None => (bytes, &[]),
    }
}

/// How many line feeds there are.
pub(crate) fn count_line_feeds(bytes: &[u8]) -> u64
    ensures count { result ≡ line_feeds bytes.now }
    ensures few { result ≤ length bytes.now }
{
    let mut count = 0;
    let mut rest = bytes;
    while let Some((lanes, behind)) = rest.split_first_chunk::<LANES>() {
        count += u64::from(count_in_lanes(u8x32::from_array(*lanes)));
        rest = behind;
    }
    count + count_one_by_one(rest)
}

/// How many lanes are line feeds.
fn count_in_lanes(lanes: u8x32) -> u32
    requires { length lanes ≡ LANES }
    ensures { result ≡ line_feeds lanes }
{
    let is_line_feed = lanes.simd_eq(u8x32::splat(LINE_FEED));
    is_line_feed.to_bitmask().count_ones()
}

/// How many line feeds there are, which are looked for byte by byte.
fn count_one_by_one(bytes: &[u8]) -> u64
    ensures { result ≡ line_feeds bytes.now }
{
    bytes.iter().filter(|byte| **byte == LINE_FEED).count() as u64
}

fn is_blank_line(bytes: &[u8]) -> bool
    ensures { result ≡ is_blank bytes.now }
{
    bytes
        .iter()
        .all(|byte| matches!(byte, b' ' | b'\t' | b'\r'))
}
