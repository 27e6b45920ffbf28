//! What each call wants at a path.

ghost use Rattle.std.specs.Prelude.{◌≡◌, option_map};
ghost use Rattle.ll_semantics.specs.Requests.{wanted};

use crate::request::Wanted;
use ll_rights::Fs;
use ll_trace::{Op, PathText};

/// What a call wants, and at which path.
#[tactic(auto, unfolding(crate::specs::Requests::wanted, ll_rights::specs::Rights::only))]
pub fn wanted(op: &Op) -> Option<(&PathText, Wanted)>
    ensures { option_map (λ want. (want.0.now, want.1)) result ≡ wanted op.now }
{
    match op {
        Op::OpenFile {
            path,
            mode,
            create,
            trunc,
            ..
        } => Some((
            path,
            Wanted::Open {
                mode: *mode,
                create: *create,
                trunc: *trunc,
            },
        )),
        Op::Truncate { path } => Some((path, Wanted::OnFile(Fs::TRUNCATE))),
        Op::Exec { path } => Some((path, Wanted::OnFile(Fs::EXECUTE))),
        Op::Mknod { path, kind } => Some((path, Wanted::Make(kind.make_right()))),
        Op::Mkdir { path } => Some((path, Wanted::Make(Fs::MAKE_DIR))),
        Op::Symlink { path } => Some((path, Wanted::Make(Fs::MAKE_SYM))),
        Op::Unlink { path } => Some((path, Wanted::Unlink)),
        Op::Rmdir { path } => Some((path, Wanted::Rmdir)),
        _ => None,
    }
}
