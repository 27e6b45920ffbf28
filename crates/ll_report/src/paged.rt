//! A report that goes out through a page of fixed size.

ghost use Rattle.std.specs.Prelude.{◌≡◌, ◌++◌, ◌<◌, ◌≤◌, ◌+◌, ◌-◌, ◌^◌, IfOk, OnOk, drop, length, take};
ghost use Rattle.std.specs.Bool.{OnFalse, OnTrue};
ghost use Rattle.std.specs.Io.KnownBytes.{Appends};
ghost use Rattle.ll_explain.specs.Buffers.{adding, holding};
ghost use Rattle.ll_report.specs.Made.{part_at, text_of};
ghost use Rattle.ll_report.specs.Writing.{AppendsBeginning, HoldsRest, IsPage, Sends};

use crate::made::Rows;
use crate::writing::{write_bytes, write_whole};
use ll_explain::TextBuffer;
use std::alloc::{AllocError, Global};
use std::io::{ErrorKind, Write};
use std::marker::Model;
use std::{io, mem};

/// How many bytes are written at once, where more follow.
const PAGE: usize = 262_144;

/// A report that goes out row after row through a page. All memory that this takes is there already.
#[derive(Drop)]
pub struct Paged<R: Rows> {
    rows: R,
    page: TextBuffer,
}

impl<R: Rows> Model for Paged<R> {
    ghost use Rattle.std.specs.Prelude.{◌<◌};
    ghost use Rattle.ll_report.specs.Made.{Made};

    ghost Value = { Made };

    ghost view = { λ paged. R.made_of paged.rows };

    ghost invariant = { λ paged. 0 < paged.page.room };
}

impl<R: Rows + Drop> Paged<R> {
    /// A report of these rows.
    pub fn of(alloc: Global, rows: R) -> Result<Paged<R>, AllocError>
        ensures { IfOk result (λ paged. paged ≡ R.made_of rows) }
    {
        Ok(Paged {
            rows,
            page: TextBuffer::new(alloc, PAGE)?,
        })
    }

    /// The report in a vector of just its length.
    pub fn into_bytes(self, alloc: Global) -> Result<Vec<u8>, AllocError>
        ensures { IfOk result (λ bytes. bytes.items ≡ text_of self) }
    {
        let Paged { mut rows, page: _ } = self;
        let mut counter = TextBuffer::counter(alloc);
        push_all(&mut rows, &mut counter)?;
        let mut text = TextBuffer::new(alloc, counter.count())?;
        push_all(&mut rows, &mut text)?;
        Ok(text.into_bytes())
    }

    /// Writes the report, row after row. Where that fails a beginning was written. The memory of the rows isn't given
    /// back: a program ends with its report, and giving back a million records one by one would take a tenth of its
    /// time.
    pub fn write_to<O: Write>(self, out: &mut O) -> io::Result<()>
        ensures whole { OnOk result
            (Appends (O.contents out.old) (O.contents out.new) (text_of self)) }
        ensures beginning { AppendsBeginning (O.contents out.old) (O.contents out.new)
            (text_of self) }
    {
        let Paged { mut rows, mut page } = self;
        page.clear();
        for index in 0..rows.count() {
            put_part(&mut rows, index, &mut page, out)?;
        }
        let last = rows.count();
        put_part(&mut rows, last, &mut page, out)?;
        write_whole(out, page.held())?;
        mem::forget(rows);
        Ok(())
    }
}

/// Adds all rows and the last lines.
fn push_all<R: Rows>(rows: &mut R, text: &mut TextBuffer) -> Result<(), AllocError>
    ensures text { OnOk result (text.new ≡ adding text.old (text_of (R.made_of rows.old))) }
    ensures made { R.made_of rows.new ≡ R.made_of rows.old }
{
    for index in 0..rows.count() {
        rows.push_row(text, index)?;
    }
    rows.push_last(text);
    Ok(())
}

/// Adds the row at an index, or the last lines if there are fewer rows.
fn push_part<R: Rows>(rows: &mut R, text: &mut TextBuffer, index: usize) -> io::Result<()>
    ensures part { OnOk result
        (text.new ≡ adding text.old (part_at (R.made_of rows.old) index)) }
    ensures made { R.made_of rows.new ≡ R.made_of rows.old }
{
    if index < rows.count() {
        rows.push_row(text, index)?;
        return Ok(());
    }
    rows.push_last(text);
    Ok(())
}

/// Puts the part at an index on a page, behind what is held there, and writes the page out if it is full.
fn put_part<R: Rows, O: Write>(
    rows: &mut R,
    index: usize,
    page: &mut TextBuffer,
    out: &mut O,
) -> io::Result<()>
    requires { IsPage page.old }
    ensures page { OnOk result (IsPage page.new) }
    ensures made { R.made_of rows.new ≡ R.made_of rows.old }
    ensures sent { OnOk result (Sends (O.contents out.old) (O.contents out.new)
        (page.old.held ++ part_at (R.made_of rows.old) index) page.new.held) }
    ensures beginning { AppendsBeginning (O.contents out.old) (O.contents out.new)
        (page.old.held ++ part_at (R.made_of rows.old) index) }
{
    let written = page.room() - page.held().len();
    push_part(rows, page, index)?;
    if page.count() <= page.room() {
        return Ok(());
    }
    write_bytes(out, page.held())?;
    put_rest(rows, index, written, page, out)?;
    Ok(())
}

/// Puts a part on a page without its first bytes, which are written already.
fn put_rest<R: Rows, O: Write>(
    rows: &mut R,
    index: usize,
    skip: usize,
    page: &mut TextBuffer,
    out: &mut O,
) -> io::Result<()>
    requires room { 0 < page.old.room }
    requires skip { skip ≤ length (part_at (R.made_of rows.old) index) }
    ensures page { OnOk result (IsPage page.new) }
    ensures made { R.made_of rows.new ≡ R.made_of rows.old }
    ensures sent { OnOk result (Sends (O.contents out.old) (O.contents out.new)
        (drop skip (part_at (R.made_of rows.old) index)) page.new.held) }
    ensures beginning { AppendsBeginning (O.contents out.old) (O.contents out.new)
        (drop skip (part_at (R.made_of rows.old) index)) }
{
    let mut written = skip;
    loop {
        let whole = holds_rest(rows, index, written, page)?;
        if whole {
            page.settle();
            return Ok(());
        }
        write_bytes(out, page.held())?;
        let Some(next) = written.checked_add(page.room()) else {
            return Err(ErrorKind::FileTooLarge.into());
        };
        written = next;
    }
}

/// Puts a part on an empty page without its first bytes, as much as there is room for, and says whether that is all.
fn holds_rest<R: Rows>(
    rows: &mut R,
    index: usize,
    skip: usize,
    page: &mut TextBuffer,
) -> io::Result<bool>
    requires { skip ≤ length (part_at (R.made_of rows.old) index) }
    ensures made { R.made_of rows.new ≡ R.made_of rows.old }
    ensures page { IfOk result
        (HoldsRest (part_at (R.made_of rows.old) index) skip page.old.room page.new) }
{
    page.restart(skip);
    push_part(rows, page, index)?;
    Ok(is_room_for(page.count(), skip, page.room()))
}

/// Whether there is room for so many bytes without the first ones. What can't be counted has none.
fn is_room_for(count: usize, skip: usize, room: usize) -> bool
    requires { skip ≤ count }
    ensures all { OnTrue result ((count < 2 ^ 64 - 1) × (count ≤ skip + room)) }
    ensures more { OnFalse result (skip + room < 2 ^ 64 → skip + room ≤ count) }
{
    if count == usize::MAX {
        return false;
    }
    count - skip <= room
}
