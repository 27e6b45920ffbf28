//! Tests of whole runs: `audit` and `front` over files in memory, with threads, and with sources and
//! writers that fail.

mod examples;
mod families;
mod gates;
mod json_reports;
mod kinds;
mod options;
mod ready;
mod refusals;
mod reports;
mod words;
