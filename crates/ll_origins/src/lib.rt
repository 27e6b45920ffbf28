//! Where the layers, open descriptors and rulesets of each process come from, record after record of a trace that was
//! judged.
#![tactic(auto)]

mod domain;
mod trail;

pub use domain::domain_of;
pub use trail::{ProcessOrigins, TraceOrigins, same_layers_object_to_the_same};
