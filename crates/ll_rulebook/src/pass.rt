//! One pass over the records of a trace.

ghost use Rattle.std.specs.Prelude.{◌≡◌, ℕ, ◌<◌, ◌^◌, Bool, false, [], length, None, Some, IfOk, OnOk, slice_get};
ghost use Rattle.ll_rules.specs.Layers.{without_rules};
ghost use Rattle.ll_semantics.specs.Answers.{fails};
ghost use Rattle.ll_trace.specs.{Entries.is_start, Borrowed.is_of_rights};
ghost use Rattle.ll_trace.specs.declared.op.Record.{Record as OneRecord};
ghost use Rattle.ll_rulebook.specs.Stores.{IsAnswerTo, held_by};

use crate::store::Store;
use crate::tables::Tables;
use ll_rights::{Abi, Fs, Net};
use ll_rules::{Errno, Layer, LayerSet, RuleFault, Ruleset};
use ll_semantics::{Answer, RulesetOutcome};
use ll_trace::{Call, Op, PathText, Seen, TakenTrace, changes_nothing};
use ll_tree::Tree;
use std::alloc::{AllocError, Global};

/// What the records so far made of the rulesets, and which of them each process holds, on a tree and by a version
/// of the interface.
#[derive(Drop)]
pub(crate) struct Pass<'t> {
    tree: &'t Tree,
    abi: Abi,
    store: Store,
    tables: Tables,
}

/// The outcome of a record, if there is memory.
type Settled = Result<RulesetOutcome, AllocError>;

/// The answer to a call that fails with an error.
fn failed(error: Errno) -> RulesetOutcome
    ensures { result ≡ RulesetOutcome.Answered (fails error) }
{
    RulesetOutcome::Answered(Answer::Refused(error, LayerSet::new()))
}

/// The answer to a call that adds a rule.
fn added(attempt: Result<(), RuleFault>) -> Settled
    ensures { IfOk result (λ outcome. IsAnswerTo attempt outcome) }
{
    match attempt {
        Ok(()) => Ok(RulesetOutcome::Answered(Answer::Allowed)),
        Err(RuleFault::Errno(error)) => Ok(failed(error)),
        Err(RuleFault::Moot) => Ok(RulesetOutcome::Answered(Answer::Moot)),
        Err(RuleFault::Memory) => Err(AllocError),
    }
}

/// Whether a call names rights.
#[tactic(auto, unfolding(ll_trace::specs::Borrowed::is_of_rights))]
fn is_of_rights(op: &Op) -> bool
    ensures { result ≡ is_of_rights op.now }
{
    matches!(
        op,
        Op::Create { .. }
            | Op::CreateEmpty { .. }
            | Op::AddPath { .. }
            | Op::AddPort { .. }
            | Op::LeaveOutPath { .. }
            | Op::LeaveOutPort
    )
}

impl<'t> Pass<'t> {
    ghost use Rattle.ll_rulebook.specs.Passes.{IsSound, Creates, Settles, HasSettled, AddsOutcome};

    /// No record yet.
    pub(crate) fn new(alloc: Global, tree: &'t Tree, abi: Abi) -> Pass<'t>
        ensures tree { result.tree.now ≡ tree.now }
        ensures abi { result.abi ≡ abi }
        ensures rulesets { result.store.rulesets ≡ [] }
        ensures layers { result.store.layers ≡ [] }
        ensures tables { result.tables.held.items ≡ [] }
    {
        Pass {
            tree,
            abi,
            store: Store::new(alloc),
            tables: Tables::new(alloc),
        }
    }

    /// The layers that rulesets were frozen to.
    pub(crate) fn into_layers(self) -> Vec<Layer>
        ensures { result.items ≡ self.entry.store.layers }
    {
        self.store.into_layers()
    }

    /// A ruleset that a call creates is held under a free number.
    fn hold_created(&mut self, process: usize, rs: u64, created: Ruleset) -> Settled
        requires there { process < length self.old.tables.held.items }
        requires sound { IsSound self.old }
        requires free { held_by self.old.tables.held.items process rs ≡ None }
        ensures { IfOk result (λ outcome. (fs : Fs) (net : Net) (op : Op)
            → created ≡ without_rules fs net
            → Creates self.old.tree.now self.old.abi rs fs net op
            → Settles process op self.old self.new outcome) }
    {
        let index = self.store.add(created)?;
        self.tables.hold(process, rs, Some(index))?;
        Ok(RulesetOutcome::Answered(Answer::Allowed))
    }

    /// A ruleset is created, and held under its number if this is free.
    fn create(&mut self, alloc: Global, process: usize, rs: u64, fs: Fs, net: Net) -> Settled
        requires there { process < length self.old.tables.held.items }
        requires sound { IsSound self.old }
        ensures { IfOk result (Settles process (Op.Create rs fs net) self.old self.new) }
    {
        if let Some(_) = self.tables.held_by(process, rs) {
            return Ok(RulesetOutcome::Answered(Answer::Moot));
        }
        match Ruleset::create(alloc, self.abi, fs, net) {
            Err(error) => Ok(failed(error)),
            Ok(created) => self.hold_created(process, rs, created),
        }
    }

    /// A ruleset that handles nothing stands for one that a program does without, and is held under its number
    /// if this is free.
    fn create_empty(&mut self, alloc: Global, process: usize, rs: u64) -> Settled
        requires there { process < length self.old.tables.held.items }
        requires sound { IsSound self.old }
        ensures { IfOk result (Settles process (Op.CreateEmpty rs) self.old self.new) }
    {
        match self.tables.held_by(process, rs) {
            Some(_) => Ok(RulesetOutcome::Answered(Answer::Moot)),
            None => self.hold_created(process, rs, Ruleset::empty(alloc)),
        }
    }

    /// A rule for files is added to a ruleset that the process holds.
    fn add_path(&mut self, process: usize, rs: u64, path: &PathText, fs: Fs) -> Settled
        requires there { process < length self.old.tables.held.items }
        requires sound { IsSound self.old }
        ensures { IfOk result (Settles process (Op.AddPath rs path.now fs) self.old self.new) }
    {
        let Some(index) = self.tables.held_by(process, rs) else {
            return Ok(failed(Errno::BadFd));
        };
        let spot = self.tree.place_of(path.as_str());
        added(self.store.add_path(index, self.tree, spot, fs))
    }

    /// A rule for a port is added to a ruleset that the process holds.
    fn add_port(&mut self, process: usize, rs: u64, port: u64, net: Net) -> Settled
        requires there { process < length self.old.tables.held.items }
        requires sound { IsSound self.old }
        ensures { IfOk result (Settles process (Op.AddPort rs port net) self.old self.new) }
    {
        let Some(index) = self.tables.held_by(process, rs) else {
            return Ok(failed(Errno::BadFd));
        };
        added(self.store.add_port(index, self.abi, port, net))
    }

    /// A process closes a ruleset that it holds.
    fn close_rs(&mut self, process: usize, rs: u64) -> Settled
        requires there { process < length self.old.tables.held.items }
        requires sound { IsSound self.old }
        ensures { IfOk result (Settles process (Op.CloseRs rs) self.old self.new) }
    {
        let Some(_) = self.tables.held_by(process, rs) else {
            return Ok(RulesetOutcome::Answered(Answer::Moot));
        };
        self.tables.hold(process, rs, None)?;
        Ok(RulesetOutcome::Answered(Answer::Allowed))
    }

    /// The ruleset by which a process restricts itself is frozen to a layer, if the process holds it.
    fn restrict(&mut self, alloc: Global, process: usize, rs: u64) -> Settled
        requires there { process < length self.old.tables.held.items }
        requires sound { IsSound self.old }
        requires room { length self.old.store.layers < 2 ^ 32 }
        ensures { IfOk result (Settles process (Op.Restrict rs) self.old self.new) }
    {
        match self.tables.held_by(process, rs) {
            None => Ok(RulesetOutcome::ByState),
            Some(index) => Ok(RulesetOutcome::Frozen(self.store.freeze(alloc, index)?)),
        }
    }

    /// A process begins that the trace starts with; it holds nothing.
    fn start(&mut self, alloc: Global) -> Settled
        requires { IsSound self.old }
        ensures { IfOk result (λ outcome. (process : ℕ) (nnp admin : Bool)
            → Settles process (Op.Start nnp admin) self.old self.new outcome) }
    {
        self.tables.start(alloc)?;
        Ok(RulesetOutcome::ByState)
    }

    /// A process forks a child, which holds what its parent holds.
    fn fork(&mut self, process: usize) -> Settled
        requires there { process < length self.old.tables.held.items }
        requires sound { IsSound self.old }
        ensures { IfOk result (λ outcome. (child : ℕ)
            → Settles process (Op.Fork child) self.old self.new outcome) }
    {
        self.tables.fork(process)?;
        Ok(RulesetOutcome::ByState)
    }

    /// Settles a call that no kernel changes.
    #[tactic(auto, unfolding(ll_trace::specs::Entries::is_start, ll_trace::specs::Borrowed::is_of_rights))]
    fn settle_other(&mut self, alloc: Global, process: usize, op: &Op) -> Settled
        requires other { is_of_rights op.now ≡ false }
        requires there { is_start op.now ≡ false → process < length self.old.tables.held.items }
        requires sound { IsSound self.old }
        requires room { length self.old.store.layers < 2 ^ 32 }
        ensures { IfOk result (Settles process op.now self.old self.new) }
    {
        match op {
            Op::Start { .. } => self.start(alloc),
            Op::Fork { .. } => self.fork(process),
            Op::CloseRs { rs } => self.close_rs(process, *rs),
            Op::Restrict { rs } => self.restrict(alloc, process, *rs),
            changes_nothing!()
            | Op::Nnp
            | Op::OpenFile { .. }
            | Op::Adopt { .. }
            | Op::Dup { .. }
            | Op::Close { .. } => Ok(RulesetOutcome::ByState),
            Op::Create { .. } | Op::CreateEmpty { .. } | Op::AddPath { .. } | Op::AddPort { .. } =>
                unreachable!(),
        }
    }

    /// Settles one record: what it answers, if it is one that creates, changes or closes a ruleset, or the
    /// layer that its ruleset is frozen to.
    #[tactic(auto, unfolding(ll_trace::specs::Entries::is_start, ll_trace::specs::Borrowed::meant))]
    pub(crate) fn settle(&mut self, alloc: Global, process: usize, seen: &Seen<'_>) -> Settled
        requires there { is_start seen.now ≡ false → process < length self.old.tables.held.items }
        requires sound { IsSound self.old }
        requires room { length self.old.store.layers < 2 ^ 32 }
        ensures { IfOk result (Settles process seen.now self.old self.new) }
    {
        match seen.call() {
            Call::Create { rs, fs, net } => self.create(alloc, process, rs, fs, net),
            Call::CreateEmpty { rs } => self.create_empty(alloc, process, rs),
            Call::AddPath { rs, path, fs } => self.add_path(process, rs, path, fs),
            Call::AddPort { rs, port, net } => self.add_port(process, rs, port, net),
            Call::LeaveOutPath { .. } => Ok(RulesetOutcome::ByState),
            Call::LeaveOutPort => Ok(RulesetOutcome::ByState),
            Call::Other(op) => self.settle_other(alloc, process, op),
        }
    }

    /// Settles the record at an index. One that names no rights is settled as it was recorded.
    fn settle_at(&mut self, alloc: Global, trace: &TakenTrace<'_>, index: usize) -> Settled
        requires within { index < length trace.now }
        requires there { (r : OneRecord) → slice_get trace.now index ≡ Some r
            → is_start r.op ≡ false → r.process.0 < length self.old.tables.held.items }
        requires sound { IsSound self.old }
        requires room { length self.old.store.layers < 2 ^ 32 }
        ensures { IfOk result (λ outcome. (r : OneRecord) → slice_get trace.now index ≡ Some r
            → Settles r.process.0 r.op self.old self.new outcome) }
    {
        let (op, process) = trace.recorded(index);
        if is_of_rights(op) {
            let (seen, process) = trace.call(index);
            return self.settle(alloc, process.0 as usize, &seen);
        }
        self.settle_other(alloc, process.0 as usize, op)
    }

    /// Settles the record at an index, and adds its outcome to those of the records before it. (It is added by cases,
    /// since the check of `push_reserved` must be shown the type that an outcome holds.)
    fn settle_next(
        &mut self,
        alloc: Global,
        trace: &TakenTrace<'_>,
        index: usize,
        outcomes: &mut Vec<RulesetOutcome>,
    ) -> Result<(), AllocError>
        requires within { index < length trace.now }
        requires there { (r : OneRecord) → slice_get trace.now index ≡ Some r
            → is_start r.op ≡ false → r.process.0 < length self.old.tables.held.items }
        requires sound { IsSound self.old }
        requires room { length self.old.store.layers < 2 ^ 32 }
        ensures { OnOk result (AddsOutcome outcomes.old.items outcomes.new.items
            (λ outcome. (r : OneRecord) → slice_get trace.now index ≡ Some r
            → Settles r.process.0 r.op self.old self.new outcome)) }
    {
        outcomes.reserve(1)?;
        match self.settle_at(alloc, trace, index)? {
            RulesetOutcome::Answered(answer) => outcomes.push_reserved(RulesetOutcome::Answered(
                answer,
            )),
            RulesetOutcome::Frozen(layer) => outcomes.push_reserved(RulesetOutcome::Frozen(layer)),
            RulesetOutcome::ByState => outcomes.push_reserved(RulesetOutcome::ByState),
        }
        Ok(())
    }

    /// Settles all records of a trace, in their order.
    pub(crate) fn settle_all(
        &mut self,
        alloc: Global,
        trace: &TakenTrace<'_>,
    ) -> Result<Vec<RulesetOutcome>, AllocError>
        requires { HasSettled self.old.tree.now self.old.abi trace.now 0 self.old [] }
        ensures { IfOk result (λ outcomes. HasSettled self.old.tree.now self.old.abi trace.now
            (length trace.now) self.new outcomes.items) }
    {
        let mut outcomes = Vec::with_capacity(alloc, trace.count())?;
        for index in 0..trace.count() {
            self.settle_next(alloc, trace, index, &mut outcomes)?;
        }
        Ok(outcomes)
    }
}
