//! JSON Lines: the lines of a file, numbers, and why a file does not read; and paths as text.
#![tactic(auto)]

pub mod blocks;
mod fault;
pub mod lines;
pub mod numbers;
mod path;
pub mod reading;

pub use fault::{Cause, ReadFault};
pub use path::{LONGEST_PATH, front_text, path_ok, path_texts};
