//! Measures what the first word says: the stages of an audit, checks of a path, or maps that share.
#![tactic(auto)]

mod checks;
mod maps;
mod stages;
mod stopwatch;

use anyhow::Result;
use ll_rights::Abi;
use maps::Keys;
use stages::Run;
use std::env;
use std::process::ExitCode;
use std::rt::{Clock, Files};
use std::sync::Wait;
use std::thread::Threads;

/// What is measured.
#[derive(Drop)]
enum Measurement<'a> {
    /// How long each stage of an audit takes, and the most memory that was in use by its end.
    Stages(Run<'a>),
    /// How long a check of a path takes, in three forms.
    Checks,
    /// What maps that share take with such keys, and the keys' name.
    Maps(&'a str, Keys),
}

/// What the words of the command line ask for.
fn asked(words: &[String]) -> Option<Measurement<'_>> {
    match words {
        [_program, word] if word.as_str() == "checks" => Some(Measurement::Checks),
        [_program, word, keys] if word.as_str() == "maps" => {
            Some(Measurement::Maps(keys.as_str(), Keys::named(keys)?))
        }
        [_program, word, abi, tree, trace] if word.as_str() == "stages" => {
            Some(Measurement::Stages(Run {
                abi: Abi::new(abi.parse().ok()?)?,
                tree,
                trace,
            }))
        }
        _ => None,
    }
}

/// Measures what is asked for.
fn measure<R: Clock + Files + Print + AllocGlobal + Threads + Wait + Sync>(
    rt: &R,
    measurement: Measurement<'_>,
) -> Result<()> {
    match measurement {
        Measurement::Stages(run) => stages::measure(rt, &run),
        Measurement::Checks => checks::measure(rt),
        Measurement::Maps(name, keys) => maps::measure(rt, name, keys),
    }
}

/// What the program ends with on these words.
fn ended<R: Clock + Files + Print + Eprint + AllocGlobal + Threads + Wait + Sync>(
    rt: &R,
    words: &[String],
) -> Result<ExitCode> {
    let Some(measurement) = asked(words) else {
        eprintln!(rt;
            "usage: ll_bench stages ABI TREE TRACE | checks | maps dense|scattered|worst"
        )?;
        return Ok(ExitCode::from(2));
    };
    measure(rt, measurement)?;
    Ok(ExitCode::SUCCESS)
}

fn main(rt: HostRuntime) -> Result<ExitCode> {
    let words: Vec<String> = env::args(&rt)?.collect(rt.alloc())?;
    ended(&rt, &words)
}
