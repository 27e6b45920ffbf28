//! What a call names.

ghost use Rattle.std.specs.Prelude.{◌≡◌, ◌++◌};
ghost use Rattle.std.specs.List.{flat_map};
ghost use Rattle.ll_explain.specs.Buffers.{adding};
ghost use Rattle.ll_trace.specs.Operations.{paths_of};
ghost use Rattle.ll_report.specs.Calls.{call_text, path_text, paths_in, port_in, port_of, port_text};

use ll_explain::{TextBuffer, push_escaped, push_number, push_words};
use ll_trace::{Op, changes_without_names, wants_at_a_path};

/// What a call names.
#[derive(Clone, Copy, Debug)]
pub enum Named<'o> {
    /// Neither a path nor a port.
    Nothing,
    /// A path.
    Path(&'o str),
    /// The path of an object, and that to which it goes.
    Paths(&'o str, &'o str),
    /// A port.
    Port(u64),
}

impl<'o> Named<'o> {
    /// What a call names.
    #[tactic(auto, unfolding(ll_trace::specs::Operations::paths_of, crate::specs::Calls::port_of))]
    pub fn by(op: &'o Op) -> Named<'o>
        ensures paths { paths_in result ≡ paths_of op.now }
        ensures port { port_in result ≡ port_of op.now }
    {
        match op {
            Op::Bind { port } | Op::Connect { port } => Named::Port(u64::from(*port)),
            Op::AddPort { port, .. } => Named::Port(*port),
            wants_at_a_path!(path)
            | Op::OpenFile { path, .. }
            | Op::AddPath { path, .. }
            | Op::LeaveOutPath { path } => Named::Path(path.as_str()),
            Op::Rename { from, to, .. } | Op::Link { from, to } => {
                Named::Paths(from.as_str(), to.path().as_str())
            }
            changes_without_names!()
            | Op::Exit
            | Op::Create { .. }
            | Op::LeaveOutPort
            | Op::Ftruncate { .. }
            | Op::Ioctl { .. }
            | Op::Mount => Named::Nothing,
        }
    }
}

/// Adds a path behind a space.
#[tactic(auto, using(ll_explain::proofs::Buffering::adding_both))]
fn push_path(text: &mut TextBuffer, path: &str)
    ensures { text.new ≡ adding text.old (path_text path.now) }
{
    push_words(text, " ");
    push_escaped(text, path);
}

/// Adds what a call names.
fn push_named(text: &mut TextBuffer, named: Named<'_>)
    ensures { text.new ≡ adding text.old
        (flat_map path_text (paths_in named.entry) ++ port_text (port_in named.entry)) }
{
    match named {
        Named::Nothing => {}
        Named::Path(path) => push_path(text, path),
        Named::Paths(from, to) => {
            push_path(text, from);
            push_path(text, to);
        }
        Named::Port(port) => {
            push_words(text, " ");
            push_number(text, port);
        }
    }
}

/// Adds a call: the operation, and what it names.
pub(crate) fn push_call(text: &mut TextBuffer, op: &Op)
    ensures { text.new ≡ adding text.old (call_text op.now) }
{
    push_words(text, op.name());
    push_named(text, Named::by(op));
}
