//! Tests of cases, of the judging of one process after another, and of workers.

mod alike;
mod orders;
mod pool;
mod refusals;
mod traces;
mod worked;
