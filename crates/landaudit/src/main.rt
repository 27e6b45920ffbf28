//! `landaudit` tells for each call of a trace what Landlock answers.
#![tactic(auto)]

use ll_audit::{FileSource, Idle, front};
use std::io::ErrorKind;
use std::process::ExitCode;
use std::{env, io};

/// The words of the command line, of which the first is the program's name.
fn words(rt: &HostRuntime) -> io::Result<Vec<String>> {
    Ok(env::args(rt)?.collect(rt.alloc())?)
}

fn main(rt: HostRuntime) -> ExitCode {
    let words = match words(&rt) {
        Ok(words) => words,
        Err(error) if error.kind() == ErrorKind::InvalidData => {
            let _ = eprintln!(rt; "landaudit: a word of the command line isn't UTF-8");
            return ExitCode::from(2);
        }
        Err(_) => {
            let _ = eprintln!(rt; "landaudit: no memory");
            return ExitCode::from(4);
        }
    };
    let mut source = FileSource::new(&rt);
    let (mut out, mut err) = (rt.stdout(), rt.stderr());
    let status = front(
        &rt,
        rt.alloc(),
        &words,
        &mut source,
        &mut out,
        &mut err,
        &Idle,
    );
    ExitCode::from(status)
}
