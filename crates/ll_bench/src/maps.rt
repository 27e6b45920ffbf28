//! What maps that share take, beside the standard library's ordered map: one is made, cloned, changed and looked up in.

use crate::stopwatch::{nanoseconds, quicker};
use anyhow::{Context, Result};
use ll_shared::SharedMap;
use std::alloc::Global;
use std::collections::BTreeMap;
use std::fs;
use std::rt::{Clock, Files};
use std::time::{Duration, Instant};

/// How many entries a map has.
const ENTRIES: u64 = 10_000;

/// How many clones are kept.
const CLONES: u32 = 40_000;

/// How many changed versions are kept.
const VERSIONS: u32 = 8_000;

/// How often all keys are looked up in one run.
const ROUNDS: u32 = 20;

/// How many look-ups one run has.
const LOOK_UPS: u32 = ROUNDS * 10_000;

/// How many runs of look-ups there are, of which the quickest counts.
const RUNS: u32 = 30;

/// Which keys a map has.
#[derive(Clone, Copy)]
pub(crate) enum Keys {
    Dense,
    /// Spread over all numbers.
    Scattered,
    /// Pairs that differ in their highest bit alone.
    Worst,
}

impl Keys {
    /// The keys of a name.
    pub(crate) fn named(name: &str) -> Option<Keys> {
        match name {
            "dense" => Some(Keys::Dense),
            "scattered" => Some(Keys::Scattered),
            "worst" => Some(Keys::Worst),
            _ => None,
        }
    }

    /// The key of a number.
    fn key(self, number: u64) -> u64 {
        match self {
            Keys::Dense => number,
            Keys::Scattered => number.wrapping_mul(0x9e37_79b9_7f4a_7c15),
            Keys::Worst => {
                let highest = if number % 2 == 0 { 0 } else { 1 << 63 };
                number / 2 | highest
            }
        }
    }
}

/// The memory that the process has now, in bytes: the second number of `/proc/self/statm` (proc(5)) is in pages.
fn resident<R: Files + AllocGlobal>(rt: &R) -> Result<u64> {
    let text = fs::read_to_string(rt, "/proc/self/statm")?;
    let pages = pages_in(&text).context("/proc/self/statm")?;
    Ok(pages.saturating_mul(4096))
}

fn pages_in(statm: &str) -> Option<u64> {
    statm.split_ascii_whitespace().nth(1)?.parse().ok()
}

fn shared_map(alloc: Global, keys: Keys) -> Result<SharedMap<u64>> {
    let mut map = SharedMap::new(alloc);
    for number in 0..ENTRIES {
        map.insert(keys.key(number), number)?;
    }
    Ok(map)
}

fn ordered_map(alloc: Global, keys: Keys) -> Result<BTreeMap<u64, u64>> {
    let mut map = BTreeMap::new(alloc);
    for number in 0..ENTRIES {
        map.insert(keys.key(number), number)?;
    }
    Ok(map)
}

/// Keeps a clone.
fn keep(kept: &mut Vec<SharedMap<u64>>, map: &SharedMap<u64>) -> Result<()> {
    kept.push(map.clone()?)?;
    Ok(())
}

/// Keeps many clones. Returns the bytes that one takes, those in the list included.
fn clones<R: Files + AllocGlobal>(rt: &R, map: &SharedMap<u64>) -> Result<u64> {
    let before = resident(rt)?;
    let mut kept = Vec::new(rt.alloc());
    for _ in 0..CLONES {
        keep(&mut kept, map)?;
    }
    let taken = resident(rt)?.saturating_sub(before);
    Ok(taken / u64::from(CLONES))
}

/// Changes the entry that a version changes.
fn change(map: &mut SharedMap<u64>, keys: Keys, version: u32) -> Result<()> {
    let number = u64::from(version).wrapping_mul(7919) % ENTRIES;
    map.insert(keys.key(number), u64::from(version))?;
    Ok(())
}

/// Changes one entry again and again, and keeps a clone after each change.
fn keep_versions(
    kept: &mut Vec<SharedMap<u64>>,
    map: &mut SharedMap<u64>,
    keys: Keys,
) -> Result<()> {
    for version in 0..VERSIONS {
        change(map, keys, version)?;
        keep(kept, map)?;
    }
    Ok(())
}

/// Keeps many changed versions. Answers the bytes that one takes.
fn versions<R: Files + AllocGlobal>(rt: &R, map: &SharedMap<u64>, keys: Keys) -> Result<u64> {
    let mut map = map.clone()?;
    let before = resident(rt)?;
    let mut kept = Vec::new(rt.alloc());
    keep_versions(&mut kept, &mut map, keys)?;
    let taken = resident(rt)?.saturating_sub(before);
    Ok(taken / u64::from(VERSIONS))
}

/// Looks all keys up again and again: their values' sum, and the time.
fn in_shared<R: Clock>(rt: &R, map: &SharedMap<u64>, keys: Keys) -> Result<(u64, Duration)> {
    let start = Instant::now(rt)?;
    let mut sum = 0u64;
    for _ in 0..ROUNDS {
        for number in 0..ENTRIES {
            let value = map.get(keys.key(number)).copied().unwrap_or(0);
            sum = sum.wrapping_add(value);
        }
    }
    let time = start.elapsed(rt)?;
    Ok((sum, time))
}

/// The same in an ordered map.
fn in_ordered<R: Clock>(rt: &R, map: &BTreeMap<u64, u64>, keys: Keys) -> Result<(u64, Duration)> {
    let start = Instant::now(rt)?;
    let mut sum = 0u64;
    for _ in 0..ROUNDS {
        for number in 0..ENTRIES {
            let value = map.get(&keys.key(number)).copied().unwrap_or(0);
            sum = sum.wrapping_add(value);
        }
    }
    let time = start.elapsed(rt)?;
    Ok((sum, time))
}

/// What maps that share take: the bytes of an entry, of a clone and of a changed version.
#[derive(Clone, Copy)]
struct Bytes {
    entry: u64,
    clone: u64,
    version: u64,
}

/// The bytes that a map takes, where the process had so many before it was made.
fn bytes_of<R: Files + AllocGlobal>(
    rt: &R,
    map: &SharedMap<u64>,
    keys: Keys,
    before: u64,
) -> Result<Bytes> {
    let entry = resident(rt)?.saturating_sub(before) / ENTRIES;
    let clone = clones(rt, map)?;
    let version = versions(rt, map, keys)?;
    Ok(Bytes {
        entry,
        clone,
        version,
    })
}

/// How long all look-ups of one run take in each map.
#[derive(Clone, Copy)]
struct Times {
    shared: Duration,
    ordered: Duration,
}

/// Two maps with the same entries, of these keys.
#[derive(Clone, Copy)]
struct Both<'m> {
    shared: &'m SharedMap<u64>,
    ordered: &'m BTreeMap<u64, u64>,
    keys: Keys,
}

/// One run in each map.
fn run<R: Clock>(rt: &R, maps: &Both<'_>) -> Result<Times> {
    let (first, quick) = in_shared(rt, maps.shared, maps.keys)?;
    let (second, other) = in_ordered(rt, maps.ordered, maps.keys)?;
    if first != second {
        return None.context("both maps have the same entries");
    }
    Ok(Times {
        shared: quick,
        ordered: other,
    })
}

/// The quickest run in each map.
fn quickest<R: Clock>(rt: &R, maps: &Both<'_>) -> Result<Times> {
    let mut least = run(rt, maps)?;
    for _ in 0..RUNS {
        let next = run(rt, maps)?;
        least = Times {
            shared: quicker(least.shared, next.shared),
            ordered: quicker(least.ordered, next.ordered),
        };
    }
    Ok(least)
}

/// The quickest look-ups in a map that shares, and in an ordered map of the same entries.
fn times_of<R: Clock + AllocGlobal>(rt: &R, map: &SharedMap<u64>, keys: Keys) -> Result<Times> {
    let ordered = ordered_map(rt.alloc(), keys)?;
    let maps = Both {
        shared: map,
        ordered: &ordered,
        keys,
    };
    quickest(rt, &maps)
}

fn print_line<R: Print>(rt: &R, name: &str, bytes: Bytes, times: Times) -> Result<()> {
    let (entry, clone, version) = (bytes.entry, bytes.clone, bytes.version);
    let quick = nanoseconds(times.shared, LOOK_UPS);
    let other = nanoseconds(times.ordered, LOOK_UPS);
    let ratio = quick / other;
    println!(rt;
        "{name:<9} {entry:>6} {clone:>6} {version:>8} {quick:>7.1} {other:>8.1} {ratio:>6.2}"
    )?;
    Ok(())
}

/// Measures maps of 10,000 entries with such keys, and prints a line.
pub(crate) fn measure<R: Clock + Files + Print + AllocGlobal>(
    rt: &R,
    name: &str,
    keys: Keys,
) -> Result<()> {
    let before = resident(rt)?;
    let map = shared_map(rt.alloc(), keys)?;
    let bytes = bytes_of(rt, &map, keys, before)?;
    let times = times_of(rt, &map, keys)?;
    print_line(rt, name, bytes, times)
}
