//! Lists of which only what differs from another list, the base, is kept.

ghost use Rattle.std.specs.Prelude.{◌≡◌, option_map, slice_get};
ghost use Rattle.ll_findings.specs.Overlays.{change_at, overlay};

use crate::indices::Indices;

/// The change at an index, if there is one.
fn change_at<'a, T>(indices: &Indices, changes: &'a [T], index: usize) -> Option<&'a T>
    ensures { option_map (λ one. one.now) result ≡ change_at index indices.now changes.now }
{
    let position = indices.find(index)?;
    changes.get(position)
}

/// What stands at an index of a base with changes.
#[tactic(auto, using(crate::proofs::Overlaying::nothing_there, crate::proofs::Overlaying::stays_there, crate::proofs::Overlaying::change_there))]
pub(crate) fn overlaid<'a, T>(
    base: &'a [T],
    indices: &Indices,
    changes: &'a [T],
    index: usize,
) -> Option<&'a T>
    ensures { option_map (λ one. one.now) result
        ≡ slice_get (overlay base.now indices.now changes.now) index }
{
    let stays = base.get(index)?;
    match change_at(indices, changes, index) {
        Some(change) => Some(change),
        None => Some(stays),
    }
}
