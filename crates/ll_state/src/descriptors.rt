//! What calls on open descriptors are answered.

ghost use Rattle.std.specs.Prelude.{◌≡◌, [], Some};
ghost use Rattle.ll_semantics.specs.Answers.{refused_by, ftruncate_answer, ioctl_answer};

use ll_rules::{Errno, LayerSet};
use ll_semantics::{Answer, Descriptor};
use ll_trace::Sort;

/// Refused with an error by the layers found, allowed if there are none.
pub(crate) fn refused_by(error: Errno, layers: LayerSet) -> Answer
    ensures { result ≡ refused_by error layers }
{
    if layers.is_empty() {
        return Answer::Allowed;
    }
    Answer::Refused(error, layers)
}

/// A descriptor to which no layer refused anything.
pub(crate) fn unrestricted(sort: Sort) -> Descriptor
    ensures sort { result.sort ≡ sort }
    ensures kept { result.kept ≡ [] }
{
    Descriptor {
        sort,
        kept: LayerSet::new(),
    }
}

/// ftruncate(2): the layers that refused `truncate` when the file was opened refuse it still.
#[tactic(auto, unfolding(ll_semantics::specs::Answers::ftruncate_answer))]
pub(crate) fn ftruncate(held: Option<Descriptor>) -> Answer
    ensures { result ≡ ftruncate_answer held }
{
    match held {
        Some(held) if held.sort == Sort::Regular => refused_by(Errno::Acces, held.kept),
        _ => Answer::Moot,
    }
}

/// ioctl(2): the layers that refused `ioctl_dev` when the device was opened refuse the commands that the
/// policy judges; `driver` says whether this is one.
#[tactic(auto, unfolding(ll_semantics::specs::Answers::ioctl_answer))]
pub(crate) fn ioctl(held: Option<Descriptor>, driver: bool) -> Answer
    ensures { result ≡ ioctl_answer held driver }
{
    match held {
        None => Answer::Moot,
        Some(held) if held.sort == Sort::Device && driver => refused_by(Errno::Acces, held.kept),
        Some(_) => Answer::Allowed,
    }
}
