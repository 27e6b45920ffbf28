//! What is found under each ABI: the answers to the records of a case, and the explanations of all records.
#![tactic(auto)]

mod changes;
mod chunk;
mod chunks;
mod comparing;
mod explained;
mod finding;
mod findings;
mod found;
mod indices;
mod laws;
mod marks;
mod overlay;

pub use finding::Finding;
pub use findings::Findings;
pub use laws::{findings_tell_what_is_judged, records_are_taken};
