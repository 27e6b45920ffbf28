//! Why calls are refused or not asked: definitions over the one fold of the semantics, which are in `specs/`, and the
//! laws that hold of them.
#![tactic(auto)]

mod layers;
mod origins;
mod reasons;
mod remedies;
mod worked;

pub use layers::{allowed_records_need_no_explanation, refusing_layers_are_explained};
pub use origins::{
    descriptors_come_from_their_openings, layers_come_from_their_restricts,
    layers_keep_their_numbers, rulesets_come_from_their_creations,
};
pub use reasons::{conditions_hold, reasons_hold};
pub use remedies::{
    granting_what_is_named_is_enough, named_rights_are_needed, satisfied_layers_do_not_refuse,
};
pub use worked::{worked_best_effort, worked_reasons, worked_refusals};
