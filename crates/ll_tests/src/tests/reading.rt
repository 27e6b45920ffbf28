//! Tests of rights, of the lines of a file and their values, of trees and of traces.

mod blocks;
mod lines;
mod rights;
mod texts;
mod traces;
mod trees;
mod values;
