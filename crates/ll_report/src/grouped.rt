//! Rows by kind.

ghost use Rattle.std.specs.Prelude.{◌≡◌, ◌<◌, IfOk, IfSome, OnOk, get_or, is_some, length, option_map};
ghost use Rattle.ll_explain.specs.Buffers.{adding};
ghost use Rattle.ll_report.specs.Counted.{counts_of, grouped};
ghost use Rattle.ll_report.specs.Made.{row_at};

use crate::formed::{FormedRows, RowForm};
use crate::kinds::counts_of;
use crate::made::Rows;
use crate::pages::TooLong;
use ll_explain::TextBuffer;
use std::alloc::{AllocError, Global};
use std::marker::Model;

/// Rows as they are, or by kind: then a kind's row stands where its first record has its own.
#[derive(Drop)]
pub struct Grouped<F: RowForm> {
    rows: FormedRows<F>,
    /// Of each record how many are of its kind, if it is the first of these, and else 0.
    counts: Option<Vec<u64>>,
}

impl<F: RowForm> Model for Grouped<F> {
    ghost use Rattle.std.specs.Prelude.{◌≡◌, IfSome, is_some};
    ghost use Rattle.ll_report.specs.Counted.{counts_of, grouped};
    ghost use Rattle.ll_report.specs.Made.{Made};

    ghost Value = { Made };

    ghost view = { λ all. grouped F.head (is_some all.counts) all.rows };

    ghost invariant = { λ all.
        IfSome all.counts (λ counts. counts.items ≡ counts_of all.rows.shown) };
}

/// Of each record how many are of its kind, where rows are shown by kind.
fn counts_if<R: Rows>(
    alloc: Global,
    rows: &mut R,
    kinds: bool,
) -> Result<Option<Vec<u64>>, AllocError>
    ensures kinds { IfOk result (λ counts. is_some counts ≡ kinds) }
    ensures counts { IfOk result (λ counts.
        IfSome counts (λ counts. counts.items ≡ counts_of (R.made_of rows.old).shown)) }
    ensures made { R.made_of rows.new ≡ R.made_of rows.old }
{
    if !kinds {
        return Ok(None);
    }
    let counts = counts_of(alloc, rows)?;
    Ok(Some(counts))
}

impl<F: RowForm + Drop> Grouped<F> {
    /// Rows as they are, or by kind.
    pub(crate) fn of(
        alloc: Global,
        mut rows: FormedRows<F>,
        kinds: bool,
    ) -> Result<Grouped<F>, AllocError>
        ensures { IfOk result (λ all. all ≡ grouped F.head kinds rows) }
    {
        let counts = counts_if(alloc, &mut rows, kinds)?;
        Ok(Grouped { rows, counts })
    }
}

impl<F: RowForm> Rows for Grouped<F> {
    ghost made_of = { λ made. made };

    fn count(&self) -> usize {
        self.rows.count()
    }

    fn push_row(&mut self, text: &mut TextBuffer, index: usize) -> Result<(), TooLong> {
        let Some(counts) = &self.counts else {
            self.rows.push_row(text, index)?;
            return Ok(());
        };
        let records = counts[index];
        if records == 0 {
            return Ok(());
        }
        F::push_head(text, records, self.rows.line(index));
        self.rows.push_row(text, index)?;
        Ok(())
    }

    fn push_last(&mut self, text: &mut TextBuffer) {
        self.rows.push_last(text);
    }
}
