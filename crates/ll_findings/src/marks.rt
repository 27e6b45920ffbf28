//! Marks of the records about which versions may differ.

ghost use Rattle.std.specs.Prelude.{◌≡◌, ◌≢◌, All};
ghost use Rattle.ll_findings.specs.Alike.{FindsAs, MarksUnless};

use crate::finding::Finding;

/// Marks the record at an index, if it has a mark.
fn mark(marks: &mut Vec<bool>, index: usize)
    ensures { MarksUnless (λ at. index ≢ at) marks.old.items marks.new.items }
{
    if index < marks.len() {
        marks[index] = true;
    }
}

/// Marks the records at these indices.
pub(crate) fn mark_all(marks: &mut Vec<bool>, indices: &[u32])
    ensures { MarksUnless (λ at. All (λ index. index ≢ at) indices.now)
        marks.old.items marks.new.items }
{
    for index in indices {
        mark(marks, *index as usize);
    }
}

/// Marks the record at an index, if two versions don't find the same of it.
fn mark_if_differing(marks: &mut Vec<bool>, one: &Finding, other: &Finding, index: usize)
    ensures { MarksUnless (λ at. index ≡ at → FindsAs one.now at other.now)
        marks.old.items marks.new.items }
{
    if !other.finds_as(one, index) {
        mark(marks, index);
    }
}

/// Marks the records of which two versions don't find the same.
pub(crate) fn mark_differing(marks: &mut Vec<bool>, one: &Finding, other: &Finding)
    ensures { MarksUnless (λ at. FindsAs one.now at other.now) marks.old.items marks.new.items }
{
    for index in 0..marks.len() {
        mark_if_differing(marks, one, other, index);
    }
}
