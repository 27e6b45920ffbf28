//! Values of JSON that are read with their first fault, and answers to the lines of a file.
#![tactic(auto)]

mod complaining;
mod lists;
mod members;

pub use complaining::{complain, write_whole};
pub use lists::{Sight, all_in, list_of};
pub use members::{
    flag_of, fs_of, items_of, net_of, number_of, place_in_list, text_in_list, text_of,
    truth_in_list, value_of,
};
