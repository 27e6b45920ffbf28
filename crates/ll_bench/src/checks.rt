//! How long a check of a path takes, by a plain climb for each layer, by one with a filter and an early end, and by
//! lanes: the least time of several runs, for each number of layers and each depth.

mod filtered;
mod setting;

ghost use Rattle.std.specs.Prelude.{All};
ghost use Rattle.ll_tree.specs.Trees.{IsNode};

use crate::checks::setting::{Layers, deep_tree, layers_of, objects_at};
use crate::stopwatch::{nanoseconds, quicker};
use anyhow::{Context, Result};
use ll_fixtures::refusing;
use ll_rights::Fs;
use ll_rules::check_path;
use ll_tree::{NodeId, Tree};
use std::rt::Clock;
use std::time::{Duration, Instant};

/// How often the objects are checked in one run.
const ROUNDS: u32 = 500;

/// How many runs there are, of which the quickest counts.
const RUNS: u32 = 60;

/// How layers are asked.
#[derive(Clone, Copy)]
enum Form {
    /// One after another, by a plain climb for each.
    Plain,
    /// One after another, with a filter and an early end.
    Filtered,
    /// By lanes where there are several.
    Lanes,
}

/// What is measured: how many layers refuse or grant in how many checks, and how long these took.
#[derive(Clone, Copy)]
struct Taken {
    refused: u64,
    time: Duration,
}

/// Whether some layer refuses to read an object.
fn is_refused(form: Form, layers: &Layers<'_>, node: NodeId) -> bool
    requires { IsNode layers.now.lanes.tree.now node }
{
    let wanted = Fs::READ_FILE;
    let lanes = &layers.lanes;
    match form {
        Form::Plain => refusing(lanes.tree, &layers.plain, node, wanted).contains(&true),
        Form::Filtered => refusing(lanes.tree, &layers.filtered, node, wanted).contains(&true),
        Form::Lanes => {
            !check_path(lanes.tree, &lanes.layers, &lanes.domain, node, wanted).is_empty()
        }
    }
}

/// Checks all objects again and again.
fn checked<R: Clock>(rt: &R, form: Form, layers: &Layers<'_>, nodes: &[NodeId]) -> Result<Taken>
    requires { All (IsNode layers.now.lanes.tree.now) nodes.now }
{
    let start = Instant::now(rt)?;
    let mut refused = 0u64;
    for _ in 0..ROUNDS {
        for node in nodes {
            if is_refused(form, layers, *node) {
                refused = refused.wrapping_add(1);
            }
        }
    }
    let time = start.elapsed(rt)?;
    Ok(Taken { refused, time })
}

/// How long one run takes in each form.
#[derive(Clone, Copy)]
struct Times {
    plain: Duration,
    filtered: Duration,
    lanes: Duration,
}

/// One run in each form. All refuse equally often.
fn run<R: Clock>(rt: &R, layers: &Layers<'_>, nodes: &[NodeId]) -> Result<Times>
    requires { All (IsNode layers.now.lanes.tree.now) nodes.now }
{
    let plain = checked(rt, Form::Plain, layers, nodes)?;
    let filtered = checked(rt, Form::Filtered, layers, nodes)?;
    let lanes = checked(rt, Form::Lanes, layers, nodes)?;
    if plain.refused != lanes.refused || filtered.refused != lanes.refused {
        return None.context("the answers are the same");
    }
    Ok(Times {
        plain: plain.time,
        filtered: filtered.time,
        lanes: lanes.time,
    })
}

/// The quickest run in each form.
fn quickest<R: Clock>(rt: &R, layers: &Layers<'_>, nodes: &[NodeId]) -> Result<Times>
    requires { All (IsNode layers.now.lanes.tree.now) nodes.now }
{
    let mut least = run(rt, layers, nodes)?;
    for _ in 0..RUNS {
        let next = run(rt, layers, nodes)?;
        least = Times {
            plain: quicker(least.plain, next.plain),
            filtered: quicker(least.filtered, next.filtered),
            lanes: quicker(least.lanes, next.lanes),
        };
    }
    Ok(least)
}

/// What a line is about: the answer, the number of layers and the depth.
#[derive(Clone, Copy)]
struct Row {
    granting: bool,
    layers: u32,
    depth: u32,
}

fn print_line<R: Print>(rt: &R, row: Row, took: Times) -> Result<()> {
    let answer = if row.granting { "granted" } else { "refused" };
    let (count, depth) = (row.layers, row.depth);
    let plain = nanoseconds(took.plain, ROUNDS * 8);
    let filtered = nanoseconds(took.filtered, ROUNDS * 8);
    let lanes = nanoseconds(took.lanes, ROUNDS * 8);
    let (times, over) = (plain / lanes, filtered / lanes);
    println!(rt;
        "{answer} {count:>6} {depth:>5} {plain:>8.1} {filtered:>8.1} {lanes:>8.1} {times:>6.2} {over:>8.2}"
    )?;
    Ok(())
}

/// Measures layers at a depth, and prints a line.
fn line<R: Clock + Print + AllocGlobal>(rt: &R, layers: &Layers<'_>, row: Row) -> Result<()> {
    let nodes = objects_at(rt.alloc(), layers.lanes.tree, row.depth)?;
    let times = quickest(rt, layers, &nodes)?;
    print_line(rt, row, times)
}

/// Measures a number of layers at depths 3, 10 and 40, and prints their lines.
fn lines<R: Clock + Print + AllocGlobal>(
    rt: &R,
    tree: &Tree,
    layers: u32,
    granting: bool,
) -> Result<()> {
    let stacked = layers_of(rt.alloc(), tree, layers, granting)?;
    for depth in [3, 10, 40] {
        let row = Row {
            granting,
            layers,
            depth,
        };
        line(rt, &stacked, row)?;
    }
    Ok(())
}

/// Measures 1, 6 and 16 layers, and prints a table.
pub(crate) fn measure<R: Clock + Print + AllocGlobal>(rt: &R) -> Result<()> {
    let tree = deep_tree(rt.alloc())?;
    println!(rt; "answer  layers depth    plain filtered    lanes  times filtered")?;
    for granting in [false, true] {
        for layers in [1, 6, 16] {
            lines(rt, &tree, layers, granting)?;
        }
    }
    Ok(())
}
