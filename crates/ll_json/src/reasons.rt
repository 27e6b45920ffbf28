//! Why the policy isn't asked.
#![tactic(auto, unfolding(crate::specs::Why::by_word, crate::specs::Writing::writing))]

ghost use Rattle.std.specs.Prelude.{◌≡◌, ◌∷◌, [], IsTrue, codes, is_some};
ghost use Rattle.json.specs.Json.{string};
ghost use Rattle.json.specs.Token as token;
ghost use Rattle.json.specs.Tree.{json_tokens};
ghost use Rattle.ll_lines.specs.Paths.{path_of};
ghost use Rattle.ll_explanations.specs.declared.why.Which.TheVariants.{First, Second};
ghost use Rattle.ll_explanations.specs.Meant.{path_in, path_named, reason_in};
ghost use Rattle.ll_reasons.specs.Reasons.{spelt};
ghost use Rattle.ll_json.specs.Writing.{writing};
ghost use Rattle.ll_json.specs.Why as spec;
ghost use Rattle.ll_json.specs.Why.{by_reason, from_to, path_json, reason_json};

use crate::json_text::JsonText;
use crate::words::{begin_by, write_alone, write_numbered, write_text};
use ll_explanations::{NamedPath, Reason, Which, text_above, text_of};
use ll_rights::Kind;
use ll_trace::Op;

/// Writes a member that is a path.
#[tactic(auto, using(crate::proofs::PathsSpelt::text_spelt))]
fn write_path(out: &mut JsonText, name: &str, path: &str)
    requires { IsTrue (is_some (path_of path.now)) }
    ensures { out.new ≡ writing out.old
        (token.key name.now ∷ json_tokens (path_json (spelt path.now))) }
{
    write_text(out, name, path)
}

/// Writes a member that is a path which a call names.
fn write_which(out: &mut JsonText, name: &str, op: &Op, which: Which)
    ensures { out.new ≡ writing out.old
        (token.key name.now ∷ json_tokens (path_json (path_named op.now which))) }
{
    write_path(out, name, text_of(op, which))
}

/// Writes a reason that names a path of a call, or one above it.
fn write_named(out: &mut JsonText, op: &Op, named: NamedPath, word: &str)
    ensures { out.new ≡ writing out.old (json_tokens
        (by_reason word.now ((codes "path", path_json (path_in op.now named)) ∷ []))) }
{
    begin_by(out, "reason", word);
    write_path(out, "path", text_above(op, named));
    out.end_object();
}

/// Writes a reason that names a path of a call.
fn write_said(out: &mut JsonText, op: &Op, which: Which, word: &str)
    ensures { out.new ≡ writing out.old (json_tokens
        (by_reason word.now ((codes "path", path_json (path_named op.now which)) ∷ []))) }
{
    begin_by(out, "reason", word);
    write_which(out, "path", op, which);
    out.end_object();
}

/// The name of a kind.
fn kind_name(kind: Kind) -> &'static str
    ensures { result.now ≡ spec.kind_name kind }
{
    match kind {
        Kind::Dir => "dir",
        Kind::Reg => "reg",
        Kind::Sym => "sym",
        Kind::Char => "char",
        Kind::Block => "block",
        Kind::Fifo => "fifo",
        Kind::Sock => "sock",
    }
}

/// Writes of what kind the object of the first path is.
fn write_kind(out: &mut JsonText, op: &Op, kind: Kind)
    ensures { out.new ≡ writing out.old (json_tokens (by_reason (codes "of_kind")
        ((codes "path", path_json (path_named op.now First))
        ∷ (codes "kind", string (spec.kind_name kind)) ∷ []))) }
{
    begin_by(out, "reason", "of_kind");
    write_which(out, "path", op, Which::First);
    write_text(out, "kind", kind_name(kind));
    out.end_object();
}

/// Writes a reason that names both paths of a call.
fn write_both(out: &mut JsonText, op: &Op, word: &str)
    ensures { out.new ≡ writing out.old (json_tokens
        (by_reason word.now (from_to (path_named op.now First) (path_named op.now Second)))) }
{
    begin_by(out, "reason", word);
    write_which(out, "from", op, Which::First);
    write_which(out, "to", op, Which::Second);
    out.end_object();
}

/// Writes why the policy isn't asked.
#[tactic(auto, unfolding(ll_explanations::specs::Meant::reason_in, crate::specs::Why::reason_json))]
pub(crate) fn write_reason(out: &mut JsonText, op: &Op, reason: &Reason)
    ensures { out.new ≡ writing out.old (json_tokens (reason_json (reason_in op.now reason.now))) }
{
    match reason {
        Reason::Absent(named) => write_named(out, op, *named, "absent"),
        Reason::NoDirectory(named) => write_named(out, op, *named, "no_directory"),
        Reason::Present(which) => write_said(out, op, *which, "present"),
        Reason::OfKind(kind) => write_kind(out, op, *kind),
        Reason::Root => write_alone(out, "reason", "root"),
        Reason::Unmoved => write_said(out, op, Which::First, "unmoved"),
        Reason::BeneathItself => write_both(out, op, "beneath_itself"),
        Reason::OverItself => write_both(out, op, "over_itself"),
        Reason::Mixed => write_both(out, op, "mixed"),
        Reason::OpenAlready(fd) => write_numbered(out, "reason", "open_already", "fd", *fd),
        Reason::Unopened(fd) => write_numbered(out, "reason", "unopened", "fd", *fd),
        Reason::NotForWriting(fd) => write_numbered(out, "reason", "not_for_writing", "fd", *fd),
        Reason::HeldAlready(rs) => write_numbered(out, "reason", "held_already", "rs", *rs),
        Reason::Unheld(rs) => write_numbered(out, "reason", "unheld", "rs", *rs),
        Reason::Unsupported => write_alone(out, "reason", "unsupported"),
        Reason::Unenforced => write_alone(out, "reason", "unenforced"),
    }
}
