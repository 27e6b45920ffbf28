//! The domain of a process, as its case keeps it.

ghost use Rattle.std.specs.Prelude.{IfOk};
ghost use Rattle.ll_origins.specs.CaseTrails.{IsLayerBy, AreLayersBy};

use crate::trail::ProcessOrigins;
use ll_process::Case;
use ll_rules::LayerId;
use ll_semantics::RulesetOutcome;
use std::alloc::{AllocError, Global};

/// The layer of a case that the record at an index restricts its process by, if it does.
fn layer_by(case: &Case<'_>, index: u32) -> Option<LayerId>
    ensures { IsLayerBy case.now index result }
{
    let index = index as usize;
    if index >= case.count() {
        return None;
    }
    match case.outcome(index) {
        RulesetOutcome::Frozen(id) => Some(*id),
        RulesetOutcome::Answered(_) => None,
        RulesetOutcome::ByState => None,
    }
}

/// The layers of a process in the case that its records are of: those that the rulesets were frozen to which its
/// `restrict` records named, the oldest first. An error says that memory ran out.
pub fn domain_of(
    alloc: Global,
    case: &Case<'_>,
    trail: &ProcessOrigins,
) -> Result<Vec<LayerId>, AllocError>
    ensures { IfOk result (λ ids. AreLayersBy case.now trail.now ids.items) }
{
    let mut ids = Vec::new(alloc);
    for index in &trail.layers {
        if let Some(id) = layer_by(case, *index) {
            ids.push(id)?;
        }
    }
    Ok(ids)
}
