//! What is said of a record under neighbouring versions.
#![tactic(auto, using(ll_explain::proofs::Buffering::adding_both))]

ghost use Rattle.std.specs.Prelude.{◌≡◌, ◌+◌, ◌<◌, ◌≤◌, ◌^◌, IfOk, OnOk, [], get_or, length};
ghost use Rattle.ll_explain.specs.Buffers.{adding};
ghost use Rattle.ll_report.specs.Printed.{texts_of};
ghost use Rattle.ll_report.specs.Spans.{IsSpan, agree, alone_text, numbers_text, span_at, span_text, versions_text};

use crate::findings_at::FindingsAt;
use crate::pages::{Pages, TooLong};
use crate::printer::Printer;
use ll_explain::{TextBuffer, push_number, push_words};

/// What is said under each version.
#[derive(Clone, Copy, Debug)]
pub enum Form {
    /// Answers, which are on the record's line.
    Answers,
    /// Explanations, which are lines of their own.
    Explanations,
}

/// Adds the numbers of neighbouring versions.
fn push_numbers(text: &mut TextBuffer, first: u64, last: u64)
    ensures { text.new ≡ adding text.old (numbers_text first last) }
{
    push_number(text, first);
    if first != last {
        push_words(text, "-");
        push_number(text, last);
    }
}

impl<'f> FindingsAt<'f> {
    /// The version behind a span, which begins with a version. Texts are compared only if versions may differ about the
    /// record.
    pub fn span_end<P: Printer>(&self, pages: &mut Pages, from: usize) -> Result<usize, TooLong>
        requires { from < length self.now.findings.now }
        ensures { IfOk result (IsSpan (texts_of P.printed self.now) from) }
    {
        let count = self.versions();
        if !self.findings.is_apart(self.index) {
            return Ok(count);
        }
        for version in from + 1..count {
            let same = pages.are_same::<P>(self, from, version)?;
            if !same {
                return Ok(version);
            }
        }
        Ok(count)
    }

    /// Whether all versions say the same.
    pub(crate) fn agree<P: Printer>(&self, pages: &mut Pages) -> Result<bool, TooLong>
        ensures { IfOk result (λ all. all ≡ agree (texts_of P.printed self.now)) }
    {
        if self.versions() == 0 {
            return Ok(true);
        }
        let end = self.span_end::<P>(pages, 0)?;
        Ok(end == self.versions())
    }

    /// Adds what the versions of a span say, which goes from a version to one before another. The oldest version has this
    /// number.
    fn push_span<P: Printer>(
        &self,
        text: &mut TextBuffer,
        pages: &mut Pages,
        form: Form,
        oldest: u64,
        from: usize,
        end: usize,
    )
        requires few { oldest + length self.now.findings.now < 2 ^ 64 }
        requires from { from < end }
        requires end { end ≤ length self.now.findings.now }
        ensures { text.new ≡ adding text.old
            (span_text form (span_at oldest (texts_of P.printed self.now) from end)) }
    {
        let first = oldest + from as u64;
        let last = oldest + (end as u64 - 1);
        match form {
            Form::Answers => {
                push_words(text, " ");
                push_numbers(text, first, last);
                push_words(text, " ");
                self.print::<P>(text, from);
            }
            Form::Explanations => {
                if pages.is_blank::<P>(self, from) {
                    return;
                }
                push_words(text, "    abi ");
                push_numbers(text, first, last);
                push_words(text, ":\n");
                self.print::<P>(text, from);
            }
        }
    }

    /// Adds what all versions say, of which there is one at least.
    fn push_alone<P: Printer>(&self, text: &mut TextBuffer, form: Form)
        requires { 0 < length self.now.findings.now }
        ensures { text.new ≡ adding text.old
            (alone_text form (get_or (texts_of P.printed self.now) 0 [])) }
    {
        match form {
            Form::Answers => {
                push_words(text, " ");
                self.print::<P>(text, 0);
            }
            Form::Explanations => self.print::<P>(text, 0),
        }
    }

    /// Adds what is said: once, where all say the same, and else span after span. The oldest version has this number.
    pub(crate) fn push_versions<P: Printer>(
        &self,
        text: &mut TextBuffer,
        pages: &mut Pages,
        form: Form,
        oldest: u64,
    ) -> Result<(), TooLong>
        requires { oldest + length self.now.findings.now < 2 ^ 64 }
        ensures { OnOk result (text.new ≡ adding text.old
            (versions_text form oldest (texts_of P.printed self.now))) }
    {
        let count = self.versions();
        if count == 0 {
            return Ok(());
        }
        let mut end = self.span_end::<P>(pages, 0)?;
        if end == count {
            self.push_alone::<P>(text, form);
            return Ok(());
        }
        self.push_span::<P>(text, pages, form, oldest, 0, end);
        while end < count {
            let from = end;
            end = self.span_end::<P>(pages, from)?;
            self.push_span::<P>(text, pages, form, oldest, from, end);
        }
        Ok(())
    }
}
