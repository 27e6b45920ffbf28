//! What is judged: a tree and a trace as they are seen under a kernel, and the rulebook.

ghost use Rattle.std.specs.Prelude.{◌≡◌, ◌<◌, ◌≤◌, All, Some, length, slice_get};
ghost use Rattle.std.specs.Option.{option_map};
ghost use Rattle.ll_process.specs.Cases.{IsCase, case_of};
ghost use Rattle.ll_trace.specs.{SeenRecords.record_of, declared.reader.TheConstants.MOST_RECORDS};
ghost use Rattle.ll_trace.specs.declared.op.Record.{Record as OneRecord};
ghost use Rattle.ll_trace.specs.FirstPlaces.{first_place, first_places, own_of};
ghost use Rattle.ll_trace.specs.Processes.{process_count, own_records, forked_at};

use crate::settled::Settled;
use ll_rights::Abi;
use ll_rules::{Grants, Layer};
use ll_semantics::RulesetOutcome;
use ll_trace::{Located, ProcessId, Seen, SeenRecord, TakenTrace};
use ll_tree::{Place, SmallPlace, Tree};
use std::marker::Model;

/// A tree and a trace as they are seen under a kernel, with what follows from the rulesets of the whole trace.
#[derive(Drop)]
pub struct Case<'t> {
    located: &'t Located,
    settled: &'t Settled,
}

impl<'t> Model for Case<'t> {
    ghost use Rattle.ll_process.specs.Cases.{CaseValue, IsCase, case_of};

    ghost Value = { CaseValue };

    ghost view = { λ case. case_of case.located.now case.settled.now };

    ghost invariant = { λ case. IsCase (case_of case.located.now case.settled.now) };
}

impl<'t> Case<'t> {
    /// The case of a tree and a trace, and what was settled of them.
    pub fn of(located: &'t Located, settled: &'t Settled) -> Case<'t>
        requires { IsCase (case_of located.now settled.now) }
        ensures { result ≡ case_of located.now settled.now }
    {
        Case { located, settled }
    }

    /// The tree.
    pub fn tree(&self) -> &'t Tree
        ensures { result.now ≡ self.now.tree }
    {
        let located = self.located;
        &located.tree
    }

    /// The trace as it is seen under the kernel. Its processes are numbered in order, and the rulebook says about each of
    /// its records what the whole trace says.
    pub fn trace(&self) -> TakenTrace<'t>
        ensures records { result ≡ self.now.records }
        ensures case { IsCase self.now }
    {
        let located = self.located;
        TakenTrace::of(&located.trace, self.settled.kernel)
    }

    /// The kernel's version of the interface.
    pub fn abi(&self) -> Abi
        ensures { result ≡ self.now.abi }
    {
        self.settled.kernel.abi
    }

    /// The layers that the trace enforces.
    pub fn layers(&self) -> &'t [Layer]
        ensures { result.now ≡ self.now.layers }
    {
        let settled = self.settled;
        &settled.layers
    }

    /// What is known of what the layers grant.
    pub fn grants(&self) -> &'t [Grants]
        ensures grants { result.now ≡ self.now.grants }
        ensures case { IsCase self.now }
    {
        let settled = self.settled;
        &settled.grants
    }

    /// How many records there are.
    pub fn count(&self) -> usize
        ensures { result ≡ length self.now.records }
    {
        self.trace().count()
    }

    /// How many processes there are.
    pub fn processes(&self) -> u32 {
        self.trace().processes()
    }

    /// The call of the record at an index, and the process that makes it.
    pub fn call(&self, index: usize) -> (Seen<'t>, ProcessId)
        requires { index < length self.now.records }
        ensures op { (r : OneRecord) → slice_get self.now.records index ≡ Some r
            → result.0 ≡ r.op }
        ensures process { (r : OneRecord) → slice_get self.now.records index ≡ Some r
            → result.1 ≡ r.process }
        ensures few { length self.now.records ≤ MOST_RECORDS }
        ensures case { IsCase self.now }
    {
        let trace = self.trace();
        let _count = trace.count();
        trace.call(index)
    }

    /// The call of the record at an index, if there is one.
    pub fn op(&self, index: usize) -> Option<Seen<'t>>
        ensures { result ≡ option_map (λ r. r.op) (slice_get self.now.records index) }
    {
        if index >= self.count() {
            return None;
        }
        let (op, _) = self.call(index);
        Some(op)
    }

    /// The record at an index.
    pub fn record(&self, index: usize) -> SeenRecord<'t>
        requires { index < length self.now.records }
        ensures at { slice_get self.now.records index ≡ Some (record_of result) }
        ensures case { IsCase self.now }
    {
        self.trace().record(index)
    }

    /// What the rulebook says of the record at an index.
    pub fn outcome(&self, index: usize) -> &'t RulesetOutcome
        requires { index < length self.now.records }
        ensures outcome { slice_get self.now.outcomes index ≡ Some result.now }
        ensures case { IsCase self.now }
    {
        let settled = self.settled;
        &settled.outcomes[index]
    }

    /// The place of the first path of the record at an index.
    pub fn first_place(&self, index: usize) -> Place
        requires { index < length self.now.records }
        ensures { (r : OneRecord) → slice_get self.now.records index ≡ Some r
            → result ≡ first_place self.now.tree r.op }
    {
        let located = self.located;
        located.places[index].place()
    }

    /// How many records a process has with its descendants; a process that isn't there has none. No answer rests on it.
    pub(crate) fn size_of(&self, process: ProcessId) -> u32 {
        let settled = self.settled;
        settled.sizes.get(process.0 as usize).copied().unwrap_or(0)
    }

    /// The indices of a process's own records.
    pub(crate) fn own_records(&self, process: ProcessId) -> &'t [u32]
        requires { process.0 < process_count self.now.records }
        ensures indices { result.now ≡ own_records self.now.records process.0 }
        ensures within { All (λ index. index < length self.now.records) result.now }
        ensures case { IsCase self.now }
    {
        self.trace().records_of(process)
    }

    /// The places of the first paths of a process's own records.
    pub(crate) fn own_places(&self, process: ProcessId) -> &'t [SmallPlace]
        requires { process.0 < process_count self.now.records }
        ensures { result.now ≡ own_of (first_places self.now.tree self.now.records)
            self.now.records process.0 }
    {
        let located = self.located;
        located.places_of(process)
    }

    /// The child that the record at an index forks, if it forks one.
    pub(crate) fn child_at(&self, index: u32) -> Option<ProcessId>
        requires { index < length self.now.records }
        ensures child { option_map (λ child. child.0) result ≡ forked_at self.now.records index }
        ensures case { IsCase self.now }
    {
        self.trace().child_at(index)
    }
}
