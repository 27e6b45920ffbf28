//! A trace with the places in the tree that its records name.

ghost use Rattle.std.specs.Prelude.{◌≡◌, ◌≤◌, ◌<◌, IfOk, length, map};
ghost use Rattle.ll_trace.specs.FirstPlaces.{by_process, first_place, first_places, own_of};
ghost use Rattle.ll_trace.specs.Processes.{process_count};

use crate::op::{Op, ProcessId, Record};
use crate::trace::Trace;
use ll_tree::{SmallPlace, Tree};
use rayon::prelude::*;
use std::alloc::{AllocError, Global};
use std::thread::Threads;

/// The least number of records for which a thread is started that looks up their paths.
const LEAST_PART: usize = 1024;

/// A tree and a trace, with the place of each record's first path in the tree, so that this path is looked up once,
/// however often the record is judged. A process is judged record after record, while its records lie scattered over
/// the trace; so the places of its own records stand together too, in their order.
#[derive(Drop)]
pub struct Located {
    pub tree: Tree,
    pub trace: Trace,
    pub places: Vec<SmallPlace>,
    pub own: Vec<Vec<SmallPlace>>,
    pub ghost are_first: { places.items ≡ first_places tree trace },
    pub ghost are_own: { map (λ own. own.items) own.items
        ≡ by_process trace (first_places tree trace) },
}

impl Located {
    /// Looks up each record's first path.
    pub fn of(alloc: Global, tree: Tree, trace: Trace) -> Result<Located, AllocError>
        ensures tree { IfOk result (λ located. located.tree ≡ tree) }
        ensures trace { IfOk result (λ located. located.trace ≡ trace) }
    {
        let places = places_of(alloc, &tree, &trace)?;
        Located::with(alloc, tree, trace, places)
    }

    /// Looks up each record's first path as [`Located::of`] does, with at most this many threads, which look up parts
    /// of the records at the same time; 0 counts as one, and one starts no thread.
    pub fn of_by<R: Threads + Sync>(
        rt: &R,
        alloc: Global,
        tree: Tree,
        trace: Trace,
        workers: usize,
    ) -> Result<Located, AllocError>
        ensures tree { IfOk result (λ located. located.tree ≡ tree) }
        ensures trace { IfOk result (λ located. located.trace ≡ trace) }
    {
        if workers <= 1 {
            return Located::of(alloc, tree, trace);
        }
        let places = places_by(rt, alloc, &tree, &trace, workers)?;
        Located::with(alloc, tree, trace, places)
    }

    /// A tree and a trace with the places that were looked up.
    fn with(
        alloc: Global,
        tree: Tree,
        trace: Trace,
        places: Vec<SmallPlace>,
    ) -> Result<Located, AllocError>
        requires { places.items ≡ first_places tree trace }
        ensures tree { IfOk result (λ located. located.tree ≡ tree) }
        ensures trace { IfOk result (λ located. located.trace ≡ trace) }
    {
        let own = by_process(alloc, &trace, &places)?;
        Ok(Located {
            tree,
            trace,
            places,
            own,
        })
    }

    /// The places of the first paths of a process's own records, in their order.
    pub fn places_of(&self, process: ProcessId) -> &[SmallPlace]
        requires { process.0 < process_count self.now.trace }
        ensures { result.now ≡ own_of (first_places self.now.tree self.now.trace) self.now.trace
            process.0 }
    {
        let own = &self.own[process.0 as usize];
        own.as_slice()
    }
}

/// The place of an operation's first path.
#[tactic(auto, using(crate::proofs::Places::first_place_inside))]
fn first_place(tree: &Tree, op: &Op) -> SmallPlace
    ensures { result ≡ first_place tree.now op.now }
{
    tree.small(op.first_place(tree))
}

/// The place of each record's first path.
fn places_of(alloc: Global, tree: &Tree, trace: &Trace) -> Result<Vec<SmallPlace>, AllocError>
    ensures { IfOk result (λ places. places.items ≡ first_places tree.now trace.now) }
{
    trace
        .records()
        .iter()
        .map(|record| first_place(tree, &record.op))
        .collect(alloc)
}

/// The place of each record's first path, looked up by at most this many threads.
fn places_by<R: Threads + Sync>(
    rt: &R,
    alloc: Global,
    tree: &Tree,
    trace: &Trace,
    workers: usize,
) -> Result<Vec<SmallPlace>, AllocError>
    requires { 1 ≤ workers }
    ensures { IfOk result (λ places. places.items ≡ first_places tree.now trace.now) }
{
    let records = trace.records();
    records
        .par_iter()
        .map(
            |record: &Record| -> SmallPlace
                ensures { result ≡ first_place tree.entry.now record.now.op }
            { first_place(tree, &record.op) },
        )
        .with_min_len((records.len() / workers).max(LEAST_PART))
        .collect(rt, alloc)
}

/// Of the places of all records, those of a process's own.
fn own_places(
    alloc: Global,
    trace: &Trace,
    places: &[SmallPlace],
    process: ProcessId,
) -> Result<Vec<SmallPlace>, AllocError>
    requires process { process.0 < process_count trace.now }
    requires all { length places.now ≡ length trace.now }
    ensures { IfOk result (λ own. own.items ≡ own_of places.now trace.now process.0) }
{
    let indices = trace.records_of(process);
    let mut own = Vec::with_capacity(alloc, indices.len())?;
    for index in indices {
        own.push(places[*index as usize].again())?;
    }
    Ok(own)
}

/// The places of each process's own records.
fn by_process(
    alloc: Global,
    trace: &Trace,
    places: &[SmallPlace],
) -> Result<Vec<Vec<SmallPlace>>, AllocError>
    requires { length places.now ≡ length trace.now }
    ensures { IfOk result (λ all. map (λ own. own.items) all.items
        ≡ by_process trace.now places.now) }
{
    let mut all = Vec::new(alloc);
    for process in 0..trace.processes() {
        all.push(own_places(alloc, trace, places, ProcessId(process))?)?;
    }
    Ok(all)
}
