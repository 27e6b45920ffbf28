//! Judging one process at a time.
#![tactic(auto)]

mod ahead;
mod alike;
mod case;
mod child;
mod descend;
mod hand;
mod job;
mod laws;
mod piece;
mod progress;
mod settled;
mod sizes;
mod starting;
mod walk;

pub use alike::answers_alike;
pub use case::Case;
pub use descend::judge;
pub use hand::Hand;
pub use job::Job;
pub use laws::{each_process_once, law_of_orders};
pub use ll_semantics::Answer;
pub use piece::Piece;
pub use settled::Settled;
