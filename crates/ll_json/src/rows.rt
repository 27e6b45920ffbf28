//! How the lines of records and of kinds begin.
#![tactic(auto, unfolding(crate::specs::Writing::writing))]

ghost use Rattle.std.specs.Prelude.{◌≡◌, ◌∷◌, ◌++◌, option_map, option_to_list};
ghost use Rattle.json.specs.Print.{print};
ghost use Rattle.ll_explain.specs.Buffers.{adding};
ghost use Rattle.ll_report.specs.Calls.{paths_in, port_in};
ghost use Rattle.ll_json.specs.Parts.{named_tokens};
ghost use Rattle.ll_json.specs.Records.{paths_members, port_members};
ghost use Rattle.ll_json.specs.Rows.{call_tokens, head_tokens, kind_tokens, opening_tokens};
ghost use Rattle.ll_json.specs.Writing.{writing};

use crate::json_text::JsonText;
use crate::words::{write_number, write_text};
use ll_explain::TextBuffer;
use ll_report::Named;
use ll_trace::Record;

/// Writes which record a line is about.
fn write_head(out: &mut JsonText, found: &Record)
    ensures { out.new ≡ writing out.old (head_tokens found.now) }
{
    out.begin_object();
    write_number(out, "line", found.line);
    write_number(out, "pid", found.pid);
    write_text(out, "op", found.op.name());
    out.write_key("answers");
    out.begin_array();
}

/// Writes a member that is an array of paths.
fn write_paths(out: &mut JsonText, first: &str, second: Option<&str>)
    ensures { out.new ≡ writing out.old
        (named_tokens (paths_members (first.now
        ∷ option_to_list (option_map (λ path. path.now) second.entry)))) }
{
    out.write_key("paths");
    out.begin_array();
    out.write_string(first);
    if let Some(second) = second {
        out.write_string(second);
    }
    out.end_array();
}

/// Writes the members that say what a call names.
fn write_named(out: &mut JsonText, named: Named<'_>)
    ensures { out.new ≡ writing out.old
        (named_tokens (paths_members (paths_in named.entry)
        ++ port_members (port_in named.entry))) }
{
    match named {
        Named::Nothing => {}
        Named::Path(path) => write_paths(out, path, None),
        Named::Paths(from, to) => write_paths(out, from, Some(to)),
        Named::Port(port) => write_number(out, "port", port),
    }
}

/// Writes a call, to the bracket before its answers.
#[tactic(auto, using(crate::proofs::Writing::writing_both))]
fn write_call(out: &mut JsonText, found: &Record)
    ensures { out.new ≡ writing out.old (call_tokens found.now) }
{
    write_text(out, "op", found.op.name());
    write_named(out, Named::by(&found.op));
    out.write_key("answers");
    out.begin_array();
}

/// Adds how a line tells of a record, or of its call alone, to the bracket before the answers.
#[tactic(auto, using(crate::proofs::Printed::printed))]
pub(crate) fn push_opening(text: &mut TextBuffer, kinds: bool, found: &Record)
    ensures { text.new ≡ adding text.old (print (opening_tokens kinds found.now)) }
{
    let mut out = JsonText::behind(text.take());
    if kinds {
        write_call(&mut out, found);
    } else {
        write_head(&mut out, found);
    }
    *text = out.into_text();
}

/// Writes how many records are of a kind, and the line of the first.
pub(crate) fn write_kind(out: &mut JsonText, records: u64, line: u64)
    ensures { out.new ≡ writing out.old (kind_tokens records line) }
{
    out.begin_object();
    write_number(out, "records", records);
    write_number(out, "line", line);
}
