//! Judging all processes of a case, on one thread or by workers, and putting the answers in order.
#![tactic(auto)]

mod alone;
mod gather;
mod hand;
mod queue;
mod running;
mod workers;

pub use alone::judge_alone;
pub use gather::assemble;
pub use hand::Gate;
pub use running::run;
pub use workers::PoolFault;
