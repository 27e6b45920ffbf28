//! The semantics of a trace: what each call asks, what it is answered, and what it changes. The definitions are
//! in `specs/`; here are the types that they share with the code above, and what they say of small traces.
#![tactic(auto)]

mod answer;
mod laws;
mod making_do;
mod request;
mod unchanging;
mod wants;

pub use answer::{Answer, Descriptor, RulesetOutcome};
pub use laws::{
    worked_confinements, worked_descriptors, worked_moves, worked_ports, worked_processes,
    worked_requests, worked_rulesets,
};
pub use making_do::making_do_is_never_refused;
pub use request::{Request, Wanted};
pub use unchanging::only_allowed_records_change_the_world;
pub use wants::wanted;
