//! The tests, by what they try.

mod examples;
mod gates;
mod judging;
mod policies;
mod reading;
mod rules;
mod runs;
