//! The processes of a trace, looked up by their numbers.

ghost use Rattle.std.specs.Prelude.{◌≡◌, ◌+◌, ◌<◌, ◌^◌, [], ◌∷◌, ◌++◌, length, OnOk, IfOk, if◌then◌else◌};
ghost use Rattle.ll_trace.specs.Traces.{AreRecords, Indexes, lists};

use crate::op::{ProcessId, Record};
use std::alloc::{AllocError, Global};

/// The parent of each process, the indices of its records, and the index of the record that starts it,
/// in the order of the processes' numbers. So the indices in `starts` rise, and the process that a
/// record starts is found by a binary search.
#[derive(Drop)]
pub struct Tables {
    pub parents: Vec<Option<ProcessId>>,
    pub own: Vec<Vec<u32>>,
    pub starts: Vec<u32>,
}

impl Tables {
    ghost use Rattle.ll_trace.specs.Processes.{is_starting, forked_by};
    ghost use Rattle.ll_trace.specs.Traces.{Adds, Indexes, lists, indices_noted};

    #[tactic(auto, unfolding(crate::proofs::TableLemmas::without_records))]
    fn new(alloc: Global) -> Tables
        ensures { Indexes result [] }
    {
        Tables {
            parents: Vec::new(alloc),
            own: Vec::new(alloc),
            starts: Vec::new(alloc),
        }
    }

    /// Makes room for the process that the record at an index starts.
    fn begin(&mut self, alloc: Global, added: &Record, index: u32) -> Result<(), AllocError>
        ensures parents { OnOk result (self.new.parents.items ≡ self.old.parents.items
            ++ (if is_starting added.now.op
            then forked_by added.now.op added.now.process ∷ [] else [])) }
        ensures own { OnOk result (lists self.new.own.items ≡ lists self.old.own.items
            ++ (if is_starting added.now.op then [] ∷ [] else [])) }
        ensures starts { OnOk result (self.new.starts.items ≡ self.old.starts.items
            ++ (if is_starting added.now.op then index ∷ [] else [])) }
    {
        if !added.op.is_starting() {
            return Ok(());
        }
        self.parents.push(added.op.forked_by(added.process))?;
        self.own.push(Vec::new(alloc))?;
        self.starts.push(index)?;
        Ok(())
    }

    /// Adds the record at an index.
    fn add(&mut self, alloc: Global, added: &Record, index: u32) -> Result<(), AllocError>
        requires { added.now.process.0 < length self.old.own.items
            + (if is_starting added.now.op then 1 else 0) }
        ensures { OnOk result (Adds self.old self.new added.now index) }
    {
        self.begin(alloc, added, index)?;
        self.own[added.process.0 as usize].push(index)?;
        Ok(())
    }
}

/// Gives back the room that lists have beyond their last index.
fn fit_all(own: &mut Vec<Vec<u32>>)
    ensures { lists own.new.items ≡ lists own.old.items }
{
    for process in 0..own.len() {
        own[process].shrink_to_fit();
    }
}

/// The tables of some records.
pub fn index(alloc: Global, records: &[Record]) -> Result<Tables, AllocError>
    requires { AreRecords records.now }
    ensures { IfOk result (λ tables. Indexes tables records.now) }
{
    let mut tables = Tables::new(alloc);
    for (index, added) in records.iter().enumerate() {
        tables.add(alloc, added, index as u32)?;
    }
    fit_all(&mut tables.own);
    Ok(tables)
}
