//! The words for calls that the policy isn't asked about.

ghost use Rattle.std.specs.Prelude.{◌≡◌, ◌++◌, IsTrue, codes, is_some};
ghost use Rattle.ll_lines.specs.Paths.{path_of};
ghost use Rattle.ll_explanations.specs.declared.why.Which.TheVariants.{First, Second};
ghost use Rattle.ll_explanations.specs.Meant.{path_in, path_named, reason_in};
ghost use Rattle.ll_reasons.specs.Reasons.{of_kind, spelt};
ghost use Rattle.ll_explain.specs.Buffers.{adding};
ghost use Rattle.ll_explain.specs.Words.{path_text, reason_text};

use crate::buffer::TextBuffer;
use crate::words::{push_escaped, push_numbered, push_words};
use ll_explanations::{NamedPath, Reason, Which, text_above, text_of};
use ll_rights::Kind;
use ll_trace::Op;

/// Adds a path.
#[tactic(auto, using(crate::proofs::PathsSpelt::path_text_spelt))]
fn push_path(text: &mut TextBuffer, path: &str)
    requires { IsTrue (is_some (path_of path.now)) }
    ensures { text.new ≡ adding text.old (path_text (spelt path.now)) }
{
    push_escaped(text, path)
}

/// Adds a path that a call names.
fn push_which(text: &mut TextBuffer, op: &Op, which: Which)
    ensures { text.new ≡ adding text.old (path_text (path_named op.now which)) }
{
    push_path(text, text_of(op, which))
}

/// Adds a path that a call names, or one above it, and what is said of it.
#[tactic(auto, using(crate::proofs::Appending::appended_2))]
fn push_named(text: &mut TextBuffer, op: &Op, named: NamedPath, said: &str)
    ensures { text.new ≡ adding text.old (path_text (path_in op.now named) ++ said.now) }
{
    push_path(text, text_above(op, named));
    push_words(text, said);
}

/// Adds a path that a call names and what is said of it.
#[tactic(auto, using(crate::proofs::Appending::appended_2))]
fn push_said(text: &mut TextBuffer, op: &Op, which: Which, said: &str)
    ensures { text.new ≡ adding text.old (path_text (path_named op.now which) ++ said.now) }
{
    push_which(text, op, which);
    push_words(text, said);
}

/// Says of what kind the object of the first path is.
#[tactic(auto, unfolding(crate::specs::Words::reason_text))]
fn push_kind(text: &mut TextBuffer, op: &Op, kind: Kind)
    ensures { text.new ≡ adding text.old (reason_text (of_kind (path_named op.now First) kind)) }
{
    match kind {
        Kind::Dir => push_said(text, op, Which::First, " is a directory"),
        Kind::Reg => push_said(text, op, Which::First, " is a regular file"),
        Kind::Sym => push_said(text, op, Which::First, " is a symbolic link"),
        Kind::Char => push_said(text, op, Which::First, " is a character device"),
        Kind::Block => push_said(text, op, Which::First, " is a block device"),
        Kind::Fifo => push_said(text, op, Which::First, " is a named pipe"),
        Kind::Sock => push_said(text, op, Which::First, " is a socket"),
    }
}

/// Adds the two paths of a call, and what is said before, between and behind them.
#[tactic(auto, using(crate::proofs::Buffering::adding_both))]
fn push_both(text: &mut TextBuffer, op: &Op, before: &str, between: &str, said: &str)
    ensures { text.new ≡ adding text.old (before.now ++ path_text (path_named op.now First)
        ++ between.now ++ path_text (path_named op.now Second) ++ said.now) }
{
    push_words(text, before);
    push_which(text, op, Which::First);
    push_words(text, between);
    push_which(text, op, Which::Second);
    push_words(text, said);
}

/// Says why the policy isn't asked.
#[tactic(auto, unfolding(ll_explanations::specs::Meant::reason_in, crate::specs::Words::reason_text))]
pub(crate) fn push_reason(text: &mut TextBuffer, op: &Op, reason: &Reason)
    ensures { text.new ≡ adding text.old (reason_text (reason_in op.now reason.now)) }
{
    match reason {
        Reason::Absent(named) => push_named(text, op, *named, " is not in the tree"),
        Reason::NoDirectory(named) => push_named(text, op, *named, " is not a directory"),
        Reason::Present(which) => push_said(text, op, *which, " is in the tree already"),
        Reason::OfKind(kind) => push_kind(text, op, *kind),
        Reason::Root => push_words(text, "/ stays where it is"),
        Reason::Unmoved => push_said(text, op, Which::First, " would go where it is"),
        Reason::BeneathItself => push_both(text, op, "", " would go beneath itself, to ", ""),
        Reason::OverItself => {
            push_both(
                text,
                op,
                "",
                " would take the place of ",
                ", which it is in",
            )
        }
        Reason::Mixed => push_both(
            text,
            op,
            "one of ",
            " and ",
            " is a directory, the other is not",
        ),
        Reason::OpenAlready(fd) => push_numbered(text, "descriptor ", *fd, " is open already"),
        Reason::Unopened(fd) => push_numbered(text, "descriptor ", *fd, " is not open"),
        Reason::NotForWriting(fd) => {
            push_numbered(
                text,
                "descriptor ",
                *fd,
                " is not a regular file open for writing",
            )
        }
        Reason::HeldAlready(rs) => push_numbered(text, "ruleset ", *rs, " is held already"),
        Reason::Unheld(rs) => push_numbered(text, "ruleset ", *rs, " is not held"),
        Reason::Unsupported => {
            push_words(
                text,
                "left out, as this ABI supports none of the rule's rights",
            )
        }
        Reason::Unenforced => {
            push_words(
                text,
                "left out, as this ABI supports none of the ruleset's rights",
            )
        }
    }
}
