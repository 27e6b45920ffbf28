//! Pages on which is compared what versions found of a record.

ghost use Rattle.std.specs.Prelude.{◌≡◌, ◌<◌, Decides, IfOk, [], bytes_eq, drop, get_or, length, take};
ghost use Rattle.ll_report.specs.Printed.{texts_of};

use crate::findings_at::FindingsAt;
use crate::printer::Printer;
use ll_explain::TextBuffer;
use std::alloc::{AllocError, Global};
use std::io;
use std::io::ErrorKind;
use std::marker::Model;

/// How many bytes there is room for on a page.
const PAGE: usize = 4_096;

/// A text has more bytes than can be counted. No memory holds it, and no file.
#[derive(Clone, Copy, Debug)]
pub struct TooLong;

impl From<TooLong> for AllocError {
    fn from(_long: TooLong) -> AllocError {
        AllocError
    }
}

impl From<TooLong> for io::Error {
    fn from(_long: TooLong) -> io::Error {
        ErrorKind::FileTooLarge.into()
    }
}

/// Two pages of the same size. Two texts are compared page after page, so that this takes no memory, however long they
/// are.
#[derive(Drop)]
pub struct Pages {
    first: TextBuffer,
    second: TextBuffer,
}

impl Model for Pages {
    ghost use Rattle.std.specs.Prelude.{◌≡◌, ◌<◌, ℕ};

    ghost Value = { ℕ };

    ghost view = { λ pages. pages.first.room };

    ghost invariant = { λ pages.
        (0 < pages.first.room) × (pages.second.room ≡ pages.first.room) };
}

impl Pages {
    /// Two pages.
    pub fn new(alloc: Global) -> Result<Pages, AllocError> {
        Ok(Pages {
            first: TextBuffer::new(alloc, PAGE)?,
            second: TextBuffer::new(alloc, PAGE)?,
        })
    }

    /// Whether the same is printed under two versions.
    pub(crate) fn are_same<P: Printer>(
        &mut self,
        row: &FindingsAt<'_>,
        one: usize,
        other: usize,
    ) -> Result<bool, TooLong>
        requires one { one < length row.now.findings.now }
        requires other { other < length row.now.findings.now }
        ensures { IfOk result (λ same. same ≡ bytes_eq (get_or (texts_of P.printed row.now) one [])
            (get_or (texts_of P.printed row.now) other [])) }
    {
        if row.find_alike::<P>(one, other) {
            return Ok(true);
        }
        let Pages { first, second } = self;
        let room = first.room();
        let mut skip = 0usize;
        loop {
            put_page::<P>(first, row, one, skip);
            put_page::<P>(second, row, other, skip);
            if first.held() != second.held() {
                return Ok(false);
            }
            if first.held().len() < room {
                return Ok(true);
            }
            let Some(next) = skip.checked_add(room) else {
                return Err(TooLong);
            };
            skip = next;
        }
    }

    /// Whether nothing is printed under a version.
    pub(crate) fn is_blank<P: Printer>(&mut self, row: &FindingsAt<'_>, version: usize) -> bool
        requires { version < length row.now.findings.now }
        ensures { Decides result (get_or (texts_of P.printed row.now) version [] ≡ []) }
    {
        put_page::<P>(&mut self.first, row, version, 0);
        self.first.held().is_empty()
    }
}

/// Puts what is printed under a version on a page, without its first bytes and as much as there is room for.
fn put_page<P: Printer>(page: &mut TextBuffer, row: &FindingsAt<'_>, version: usize, skip: usize)
    requires { version < length row.now.findings.now }
    ensures held { page.new.held
        ≡ take page.old.room (drop skip (get_or (texts_of P.printed row.now) version [])) }
    ensures room { page.new.room ≡ page.old.room }
{
    page.restart(skip);
    row.print::<P>(page, version);
}
