//! Where the layers, open descriptors and rulesets of processes come from.

ghost use Rattle.std.specs.Prelude.{◌≡◌, ◌<◌, ◌+◌, ◌++◌, ◌∷◌, ℕ, [], Some, false, length, slice_get, IfOk, OnOk};
ghost use Rattle.ll_trace.specs.{Entries.is_start, Borrowed.is_of_rights};
ghost use Rattle.ll_reasons.specs.Origins.{Origins, Sources, no_origins, no_sources, sources_by, traced, with_next};
ghost use Rattle.ll_origins.specs.CaseTrails.{AreTrailsAt, IsAnswerAt, ObjectToTheSame};
ghost use Rattle.ll_origins.specs.TraceOrigins.{AreTrails, Follows};

use ll_process::Case;
use ll_semantics::Answer;
use ll_shared::{LowMap, SharedMap};
use ll_trace::{Call, Op, ProcessId, Seen, changes_nothing};
use std::alloc::{AllocError, Global};

/// Where the layers, open descriptors and rulesets of one process come from: the records that made them, by their
/// indices in the trace. A child shares with its parent what neither of them changes.
#[derive(Drop)]
pub struct ProcessOrigins {
    pub layers: Vec<u32>,
    pub openings: LowMap<u32>,
    pub rulesets: SharedMap<u32>,
}

impl ProcessOrigins {
    /// Those of a process with which a trace begins.
    #[tactic(auto, unfolding(ll_reasons::specs::Origins::no_origins))]
    pub fn new(alloc: Global) -> ProcessOrigins
        ensures { Follows result no_origins }
    {
        ProcessOrigins {
            layers: Vec::new(alloc),
            openings: LowMap::new(alloc),
            rulesets: SharedMap::new(alloc),
        }
    }

    /// The same once more, as a child has it at first. It shares with this one what neither of them changes.
    fn again(&self) -> Result<ProcessOrigins, AllocError>
        ensures { IfOk result (λ again. (o : Origins) → Follows self.now o → Follows again o) }
    {
        Ok(ProcessOrigins {
            layers: self.layers.clone()?,
            openings: self.openings.clone()?,
            rulesets: self.rulesets.clone()?,
        })
    }

    /// One layer more, which the record at an index makes.
    fn restrict(&mut self, index: u32) -> Result<(), AllocError>
        ensures layers { OnOk result (self.new.layers.items ≡ self.old.layers.items ++ index ∷ []) }
        ensures openings { OnOk result (self.new.openings ≡ self.old.openings) }
        ensures rulesets { OnOk result (self.new.rulesets ≡ self.old.rulesets) }
    {
        self.layers.push(index)?;
        Ok(())
    }

    /// Follows an allowed call, the record at an index of the trace.
    #[tactic(auto, unfolding(ll_reasons::specs::Origins::traced, ll_trace::specs::Borrowed::meant))]
    fn follow(&mut self, index: u32, seen: &Seen<'_>) -> Result<(), AllocError>
        ensures { OnOk result ((o : Origins) → Follows self.old o
            → Follows self.new (traced index seen.now o)) }
    {
        match seen.call() {
            Call::Create { rs, .. } => {
                self.rulesets.insert(rs, index)?;
            }
            Call::CreateEmpty { rs } => {
                self.rulesets.insert(rs, index)?;
            }
            Call::AddPath { .. } => {}
            Call::AddPort { .. } => {}
            Call::LeaveOutPath { .. } => {}
            Call::LeaveOutPort => {}
            Call::Other(op) => self.follow_other(index, op)?,
        }
        Ok(())
    }

    /// Follows an allowed call that no kernel changes.
    #[tactic(auto, unfolding(ll_reasons::specs::Origins::traced, ll_trace::specs::Borrowed::is_of_rights))]
    fn follow_other(&mut self, index: u32, op: &Op) -> Result<(), AllocError>
        requires { is_of_rights op.now ≡ false }
        ensures { OnOk result ((o : Origins) → Follows self.old o
            → Follows self.new (traced index op.now o)) }
    {
        match op {
            Op::CloseRs { rs } => {
                self.rulesets.remove(*rs)?;
            }
            Op::Restrict { .. } => self.restrict(index)?,
            Op::OpenFile { fd, .. } | Op::Adopt { fd, .. } => self.openings.insert(*fd, index)?,
            Op::Dup { fd, to } => match self.openings.get(*fd) {
                Some(opening) => self.openings.insert(*to, opening)?,
                None => {
                    self.openings.remove(*to)?;
                }
            },
            Op::Close { fd } => {
                self.openings.remove(*fd)?;
            }
            Op::Start { .. } | Op::Fork { .. } | Op::Nnp | changes_nothing!() => {}
            Op::Create { .. } | Op::CreateEmpty { .. } | Op::AddPath { .. } | Op::AddPort { .. } =>
                unreachable!(),
        }
        Ok(())
    }
}

/// The origins of all processes, by their numbers.
#[derive(Drop)]
pub struct TraceOrigins {
    pub trails: Vec<ProcessOrigins>,
}

impl TraceOrigins {
    /// No process.
    pub fn new(alloc: Global) -> TraceOrigins
        ensures { AreTrails result.trails.items no_sources }
    {
        let trails = Vec::new(alloc);
        TraceOrigins { trails }
    }

    /// One process more.
    fn begin(&mut self, trail: ProcessOrigins) -> Result<(), AllocError>
        ensures { OnOk result ((sources : Sources) (o : Origins)
            → AreTrails self.old.trails.items sources → Follows trail o
            → AreTrails self.new.trails.items (with_next sources o)) }
    {
        self.trails.push(trail)?;
        Ok(())
    }

    /// The same once more. It shares with this one what neither of them changes.
    pub fn again(&self) -> Result<TraceOrigins, AllocError>
        ensures { IfOk result (λ again. (sources : Sources)
            → AreTrails self.now.trails.items sources → AreTrails again.trails.items sources) }
    {
        let mut trails = Vec::with_capacity(*self.trails.allocator(), self.trails.len())?;
        for trail in &self.trails {
            trails.reserve(1)?;
            trails.push_reserved(trail.again()?);
        }
        Ok(TraceOrigins { trails })
    }

    /// What is kept of a process.
    pub fn of(&self, process: ProcessId) -> &ProcessOrigins
        requires { process.0 < length self.now.trails.items }
        ensures { slice_get self.now.trails.items process.0 ≡ Some result.now }
    {
        &self.trails[process.0 as usize]
    }

    /// Follows the record at an index of a case and its answer. If memory runs out, what is kept is of no use.
    pub fn follow(
        &mut self,
        alloc: Global,
        case: &Case<'_>,
        index: usize,
        answer: Answer,
    ) -> Result<(), AllocError>
        requires index { index < length case.now.records }
        requires answer { IsAnswerAt case.now index answer }
        requires trails { AreTrailsAt case.now index self.old }
        ensures { OnOk result (AreTrailsAt case.now (index + 1) self.new) }
    {
        let (seen, process) = case.call(index);
        self.follow_by(alloc, index as u32, &seen, process, answer)?;
        Ok(())
    }

    /// Follows the call of a process by the record at an index, and its answer.
    #[tactic(auto, using(crate::proofs::Trailing::sources_by_other), unfolding(ll_reasons::specs::Origins::sources_by))]
    fn follow_by(
        &mut self,
        alloc: Global,
        index: u32,
        seen: &Seen<'_>,
        process: ProcessId,
        answer: Answer,
    ) -> Result<(), AllocError>
        requires { is_start seen.now ≡ false → process.0 < length self.old.trails.items }
        ensures { OnOk result ((sources : Sources) → AreTrails self.old.trails.items sources
            → AreTrails self.new.trails.items
            (sources_by index seen.now process.0 answer sources)) }
    {
        let number = process.0 as usize;
        if seen.is_start() {
            self.begin(ProcessOrigins::new(alloc))?;
            return Ok(());
        }
        if seen.is_fork() {
            let child = self.trails[number].again()?;
            self.begin(child)?;
            return Ok(());
        }
        match answer {
            Answer::Allowed => self.trails[number].follow(index, seen)?,
            Answer::Moot => {}
            Answer::Refused(_, _) => {}
        }
        Ok(())
    }
}

/// Layers that are one by one the same object to the same in each call, so that a case's own layers of a process may
/// be asked in place of those that the semantics gives it.
#[tactic(auto, using(crate::proofs::SameObjections::same_layers_object_to_the_same))]
pub fn same_layers_object_to_the_same()
    ensures { ObjectToTheSame }
{}
