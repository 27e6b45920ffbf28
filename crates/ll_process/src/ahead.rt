//! Looking ahead at the records of a process.

ghost use Rattle.std.specs.Prelude.{◌≡◌, ◌<◌, ◌≤◌, ℕ, false, None, Some, length, All, slice_get};
ghost use Rattle.ll_trace.specs.Processes.{forked_at};

use crate::case::Case;

/// How many records are looked at together.
const TOGETHER: usize = 16;

/// What is known of some of a process's next records: whether one of them forks. The records of a process lie scattered
/// over the trace, and one that was looked at a moment before is judged without waiting for memory; those that are
/// looked at together wait at the same time.
#[derive(Clone, Copy)]
pub(crate) struct Ahead<'c> {
    pub(crate) case: &'c Case<'c>,
    pub(crate) indices: &'c [u32],
    from: usize,
    end: usize,
    forks: bool,
    ghost within: { All (λ index. index < length case.now.records) indices.now },
    ghost calm: { forks ≡ false → (at index : ℕ) → from ≤ at → at < end
        → slice_get indices.now at ≡ Some index → forked_at case.now.records index ≡ None },
}

/// Whether one of the records at these indices forks.
fn forks_among(case: &Case<'_>, indices: &[u32]) -> bool
    requires { All (λ index. index < length case.now.records) indices.now }
    ensures { result ≡ false → (at index : ℕ) → slice_get indices.now at ≡ Some index
        → forked_at case.now.records index ≡ None }
{
    for index in indices {
        if case.child_at(*index).is_some() {
            return true;
        }
    }
    false
}

impl<'c> Ahead<'c> {
    /// Nothing is known of the records at these indices.
    pub(crate) fn new(case: &'c Case<'c>, indices: &'c [u32]) -> Ahead<'c>
        requires { All (λ index. index < length case.now.records) indices.now }
        ensures case { result.case.now ≡ case.now }
        ensures indices { result.indices.now ≡ indices.now }
    {
        Ahead {
            case,
            indices,
            from: 0,
            end: 0,
            forks: false,
        }
    }

    /// What is known from the record at a position on.
    fn from(self, from: usize) -> Ahead<'c>
        requires { from < length self.indices.now }
        ensures case { result.case.now ≡ self.entry.case.now }
        ensures indices { result.indices.now ≡ self.entry.indices.now }
        ensures there { (result.from ≤ from) × (from < result.end) }
    {
        let end = (self.indices.len() - from).min(TOGETHER) + from;
        Ahead {
            case: self.case,
            indices: self.indices,
            from,
            end,
            forks: forks_among(self.case, &self.indices[from..end]),
        }
    }

    /// Whether the record at a position in the list of indices may fork. If not, it starts no child.
    pub(crate) fn may_fork(&mut self, at: usize) -> bool
        requires { at < length self.old.indices.now }
        ensures case { self.new.case.now ≡ self.old.case.now }
        ensures indices { self.new.indices.now ≡ self.old.indices.now }
        ensures known { result ≡ false → (index : ℕ)
            → slice_get self.old.indices.now at ≡ Some index
            → forked_at self.old.case.now.records index ≡ None }
    {
        if at < self.from || at >= self.end {
            *self = self.from(at);
        }
        self.forks
    }
}
