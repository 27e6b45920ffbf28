//! The trace: the calls of several processes, one record on a line, in the order in which they were made.
#![tactic(auto)]

mod laws;
mod located;
mod members;
mod op;
mod operations;
mod owners;
mod parts;
mod path_text;
mod reader;
mod rows;
mod seen;
mod tables;
mod trace;

pub use laws::{
    best_effort_by_version, files_read_as_one_trace, lines_say_operations_by_name,
    processes_are_numbered, sets_are_their_names, traces_of_single_pids,
};
pub use located::Located;
pub use op::{Mode, Op, ProcessId, Record, Sort};
pub use path_text::{PathText, SecondPath};
pub use reader::{MOST_PROCESSES, MOST_RECORDS};
pub use rows::{calls_at_best_effort, faulty_traces, whole_traces};
pub use seen::{Call, Kernel, Seen, SeenRecord, TakenTrace};
pub use trace::{Effort, Trace};
