//! Time and memory.

use anyhow::{Context, Result};
use std::fs;
use std::rt::{Clock, Files};
use std::time::{Duration, Instant};

/// Measures stages that follow one another, and prints a line for each.
#[derive(Drop)]
pub(crate) struct Stopwatch<'a, R> {
    rt: &'a R,
    since: Instant,
    ticks: u64,
}

impl<'a, R: Clock + Files + Print + AllocGlobal> Stopwatch<'a, R> {
    /// Prints the head of the table, and begins the first stage.
    pub(crate) fn start(rt: &'a R) -> Result<Stopwatch<'a, R>> {
        println!(rt; "seconds  processor  peak MiB  stage")?;
        let ticks = ticks(rt)?;
        let since = Instant::now(rt)?;
        Ok(Stopwatch { rt, since, ticks })
    }

    /// Begins the next stage now, and leaves out what came since the last.
    pub(crate) fn restart(&mut self) -> Result<()> {
        self.ticks = ticks(self.rt)?;
        self.since = Instant::now(self.rt)?;
        Ok(())
    }

    /// Ends a stage, prints its line, and begins the next.
    pub(crate) fn lap(&mut self, stage: &str) -> Result<()> {
        let took = self.since.elapsed(self.rt)?;
        let (seconds, millis) = (took.as_secs(), took.subsec_millis());
        let busy = ticks(self.rt)?.saturating_sub(self.ticks);
        let (busy, hundredths) = (busy / 100, busy % 100);
        let peak = peak_kib(self.rt)? / 1024;
        println!(self.rt;
            "{seconds:>3}.{millis:03}  {busy:>6}.{hundredths:02}  {peak:>8}  {stage}"
        )?;
        self.restart()
    }
}

/// The time that all threads of the process have spent on processors, in hundredths of a second: `utime`
/// and `stime` of proc_pid_stat(5).
fn ticks<R: Files + AllocGlobal>(rt: &R) -> Result<u64> {
    let text = fs::read_to_string(rt, "/proc/self/stat")?;
    ticks_in(&text).context("/proc/self/stat has no utime or stime")
}

fn ticks_in(stat: &str) -> Option<u64> {
    let (_, fields) = stat.rsplit_once(") ")?;
    let mut times = fields.split_ascii_whitespace().skip(11);
    let user: u64 = times.next()?.parse().ok()?;
    let system: u64 = times.next()?.parse().ok()?;
    Some(user.saturating_add(system))
}

/// The most memory that the process has had so far, in KiB: `VmHWM` of proc_pid_status(5).
fn peak_kib<R: Files + AllocGlobal>(rt: &R) -> Result<u64> {
    let text = fs::read_to_string(rt, "/proc/self/status")?;
    peak_in(&text).context("/proc/self/status has no VmHWM in kB")
}

fn peak_in(status: &str) -> Option<u64> {
    let words = status.lines().find_map(|line| line.strip_prefix("VmHWM:"))?;
    words.trim().strip_suffix(" kB")?.parse().ok()
}

/// The quicker of two.
pub(crate) fn quicker(first: Duration, second: Duration) -> Duration {
    if second < first { second } else { first }
}

/// Nanoseconds for one of this many.
pub(crate) fn nanoseconds(time: Duration, many: u32) -> f64 {
    time.as_secs_f64() * 1e9 / f64::from(many)
}
