//! Kinds of records, which are counted.

ghost use Rattle.std.specs.Prelude.{◌≡◌, ◌∷◌, ◌++◌, ◌<◌, [], ℕ, List, IfOk, OnOk, length};
ghost use Rattle.ll_explain.specs.Buffers.{adding};
ghost use Rattle.ll_report.specs.Counted.{AreCounted, counts_of};
ghost use Rattle.ll_report.specs.Made.{row_at};

use crate::made::Rows;
use ll_explain::TextBuffer;
use std::alloc::{AllocError, Global};
use std::collections::BTreeMap;

/// For how many bytes there is room in the buffer for rows at first.
const ROOM: usize = 4_096;

/// Kinds of records, by what is said of these.
#[derive(Drop)]
pub(crate) struct Kinds {
    /// The first record of each kind, by what is said of it.
    firsts: BTreeMap<Vec<u8>, usize>,
    /// Of each record how many are of its kind, if it is the first of these, and else 0.
    counts: Vec<u64>,
}

impl Kinds {
    /// The kinds of no records.
    fn none(alloc: Global) -> Kinds
        ensures { AreCounted [] result }
    {
        Kinds {
            firsts: BTreeMap::new(alloc),
            counts: Vec::new(alloc),
        }
    }

    /// Counts one record more, of which this is said.
    fn add(&mut self, alloc: Global, text: &[u8]) -> Result<(), AllocError>
        requires counted { (said : List (List ℕ)) × AreCounted said self.old }
        ensures { (said : List (List ℕ)) → AreCounted said self.old
            → OnOk result (AreCounted (said ++ text.now ∷ []) self.new) }
    {
        if text.is_empty() {
            self.counts.push(0)?;
            return Ok(());
        }
        match self.firsts.get(text) {
            Some(first) => {
                self.counts[*first] += 1;
                self.counts.push(0)?;
            }
            None => {
                let key = Vec::from_slice(alloc, text)?;
                self.firsts.insert(key, self.counts.len())?;
                self.counts.push(1)?;
            }
        }
        Ok(())
    }
}

/// Puts the row at an index into a buffer, or into a larger one in its place.
fn put_row<R: Rows>(
    alloc: Global,
    rows: &mut R,
    index: usize,
    text: &mut TextBuffer,
) -> Result<(), AllocError>
    requires { index < length (R.made_of rows.old).shown }
    ensures held { OnOk result (text.new.held ≡ row_at (R.made_of rows.old) index) }
    ensures made { R.made_of rows.new ≡ R.made_of rows.old }
{
    text.clear();
    rows.push_row(text, index)?;
    if text.count() > text.room() {
        *text = TextBuffer::new(alloc, text.count())?;
        rows.push_row(text, index)?;
    }
    Ok(())
}

/// Of each record how many are of its kind, if it is the first of these, and else 0.
pub(crate) fn counts_of<R: Rows>(alloc: Global, rows: &mut R) -> Result<Vec<u64>, AllocError>
    ensures counts { IfOk result
        (λ counts. counts.items ≡ counts_of (R.made_of rows.old).shown) }
    ensures made { R.made_of rows.new ≡ R.made_of rows.old }
{
    let mut kinds = Kinds::none(alloc);
    let mut text = TextBuffer::new(alloc, ROOM)?;
    for index in 0..rows.count() {
        put_row(alloc, rows, index, &mut text)?;
        kinds.add(alloc, text.held())?;
    }
    let Kinds { counts, .. } = kinds;
    Ok(counts)
}
