//! What layers object to in calls that descriptors decide: what was missing when they were opened.

ghost use Rattle.std.specs.Prelude.{IfOk, Some};
ghost use Rattle.ll_rights.specs.CodeRights.{fs_right};
ghost use Rattle.ll_reasons.specs.Explanations.{kept_by};
ghost use Rattle.ll_origins.specs.TraceOrigins.{opened};
ghost use Rattle.ll_explanations.specs.Adding.{AreObjections};

use crate::call::Objected;
use crate::confinement::{Confinement, made_by};
use crate::objection::{LayerObjection, Objection};
use ll_rights::FsRight;
use ll_rules::{LayerSet, MOST_LAYERS};
use std::alloc::Global;

/// What layers object to if they lacked a right when the record at an index of the trace opened a file.
fn kept_since(
    alloc: Global,
    ctx: &Confinement,
    right: FsRight,
    numbers: LayerSet,
    opened: u32,
) -> Objected
    ensures { IfOk result (AreObjections ctx.now
        (kept_by (fs_right right) numbers (Some opened))) }
{
    let objection = Objection::Kept { right, opened };
    let mut all = Vec::new(alloc);
    if numbers.is_empty() {
        return Ok(all);
    }
    for index in 0..MOST_LAYERS as u32 {
        if numbers.has(index + 1) {
            all.push(LayerObjection {
                layer: index as u64 + 1,
                made: made_by(ctx.trail, index as usize),
                objection,
            })?;
        }
    }
    Ok(all)
}

/// What the layers object to that refuse a call on a descriptor, by the record that opened it.
#[tactic(auto, unfolding(crate::specs::Meanings::by_layer))]
pub(crate) fn kept_by_descriptor(
    alloc: Global,
    ctx: &Confinement,
    right: FsRight,
    numbers: LayerSet,
    fd: u64,
) -> Objected
    ensures { IfOk result (AreObjections ctx.now
        (kept_by (fs_right right) numbers (opened ctx.now.trail.now.openings fd))) }
{
    match ctx.trail.openings.get(fd) {
        None => Ok(Vec::new(alloc)),
        Some(index) => kept_since(alloc, ctx, right, numbers, index),
    }
}
