//! What one process has by itself.

mod opening;
mod restricting;

ghost use Rattle.std.specs.Prelude.{◌≡◌, ℕ, List, true, IfOk, OnOk, OnErr};
ghost use Rattle.ll_tree.specs.Trees.{Entry};
ghost use Rattle.ll_rules.specs.Layers.{RulesOn};
ghost use Rattle.ll_semantics.specs.States.{State, fresh};
ghost use Rattle.ll_semantics.specs.CallContexts.{CallContext, answer_to, state_then};
ghost use Rattle.ll_state.specs.Agreement.{IsMet, Agrees, IsJudged, is_still};
ghost use Rattle.ll_semantics.specs.RulesetOutcomes.{OutcomeFits};

use crate::call::{Call, ConfinedCall, SeenCall};
use crate::descriptors::{ftruncate, ioctl};
use crate::moves::{link_move, rename_move};
use ll_rights::Net;
use ll_rules::{Domain, Layer};
use ll_semantics::{Answer, Descriptor, RulesetOutcome};
use ll_shared::LowMap;
use ll_trace::{Call as Taken, Op, changes_nothing, wants_at_a_path};
use std::alloc::{AllocError, Global};

/// What one process has by itself: its flags, its domain and its open descriptors. The rulesets that it holds
/// are settled before, for all processes together.
#[derive(Drop)]
pub struct OwnState {
    no_new_privs: bool,
    admin: bool,
    domain: Domain,
    descriptors: LowMap<Descriptor>,
}

/// The same domain once more.
fn domain_again(domain: &Domain) -> Result<Domain, AllocError>
    ensures { IfOk result (λ again. again ≡ domain.now) }
{
    domain.clone()
}

impl OwnState {
    /// The state of a process that a trace begins with.
    #[tactic(auto, unfolding(ll_semantics::specs::States::fresh))]
    pub fn fresh(alloc: Global, no_new_privs: bool, admin: bool) -> OwnState
        ensures { (tree : List Entry) (layers : List (RulesOn ℕ))
            → Agrees tree layers result (fresh no_new_privs admin) }
    {
        OwnState {
            no_new_privs,
            admin,
            domain: Domain::new(),
            descriptors: LowMap::new(alloc),
        }
    }

    /// The state of a process that this one forks, which inherits all of it (landlock(7), "Inheritance").
    pub fn forked(&self) -> Result<OwnState, AllocError>
        ensures { IfOk result (λ child. (tree : List Entry) (layers : List (RulesOn ℕ))
            (state : State) → Agrees tree layers self.now state → Agrees tree layers child state) }
    {
        Ok(OwnState {
            no_new_privs: self.no_new_privs,
            admin: self.admin,
            domain: domain_again(&self.domain)?,
            descriptors: self.descriptors.clone()?,
        })
    }

    /// Answers one call that the process meets, and changes its state where the call is allowed. The outcome says what
    /// follows from the rulesets, which the processes share.
    #[tactic(auto, unfolding(ll_trace::specs::Borrowed::meant, ll_semantics::specs::RulesetOutcomes::fitting, crate::specs::ConfinedCalls::answering))]
    pub fn answer_call(
        &mut self,
        call: &SeenCall<'_>,
        outcome: &RulesetOutcome,
    ) -> Result<Answer, AllocError>
        ghost ctx: { CallContext }
        requires met { IsMet ctx call.now.tree.now call.now.layers.now }
        requires agrees { Agrees ctx.tree ctx.layers self.old ctx.state }
        requires fits { OutcomeFits ctx call.now.seen.now outcome.now }
        ensures answer { IfOk result (λ answer. answer ≡ answer_to ctx call.now.seen.now) }
        ensures ok { OnOk result
            (Agrees ctx.tree ctx.layers self.new (state_then ctx call.now.seen.now)) }
        ensures err { OnErr result (Agrees ctx.tree ctx.layers self.new ctx.state) }
    {
        match outcome {
            RulesetOutcome::Answered(answer) => Ok(*answer),
            RulesetOutcome::Frozen(layer) => Ok(self.restrict(call.layers, Some(*layer))),
            RulesetOutcome::ByState => match call.seen.call() {
                Taken::Other(op) => self.answer_by_state(&Call {
                    op,
                    tree: call.tree,
                    layers: call.layers,
                    grants: call.grants,
                    place: call.place,
                }),
                Taken::LeaveOutPath { .. } => Ok(Answer::Moot),
                Taken::LeaveOutPort => Ok(Answer::Moot),
                Taken::Create { .. }
                | Taken::CreateEmpty { .. }
                | Taken::AddPath { .. }
                | Taken::AddPort { .. } => unreachable!(),
            },
        }
    }

    /// Answers a call whose answer rests on the state of its process alone.
    #[tactic(auto, unfolding(crate::specs::ConfinedCalls::answering, crate::specs::ConfinedCalls::by_state, ll_semantics::specs::RulesetOutcomes::OutcomeFits))]
    fn answer_by_state(&mut self, call: &Call<'_>) -> Result<Answer, AllocError>
        ghost ctx: { CallContext }
        requires met { IsMet ctx call.now.tree.now call.now.layers.now }
        requires agrees { Agrees ctx.tree ctx.layers self.old ctx.state }
        requires fits { OutcomeFits ctx call.now.op.now RulesetOutcome.ByState }
        ensures { IsJudged ctx call.now.op.now self.new result }
    {
        match call.op {
            Op::Nnp => {
                self.no_new_privs = true;
                Ok(Answer::Allowed)
            }
            Op::Restrict { .. } => Ok(self.restrict(call.layers, None)),
            Op::OpenFile {
                fd,
                mode,
                create,
                trunc,
                ..
            } => self.open(call, *fd, *mode, *create, *trunc),
            Op::Adopt { fd, kind } => self.adopt(*fd, *kind),
            Op::Dup { fd, to } => self.dup(*fd, *to),
            Op::Close { fd } => self.close(*fd),
            Op::Start { .. } | Op::Fork { .. } | changes_nothing!() => Ok(self.answer(call)),
            Op::Create { .. }
            | Op::AddPath { .. }
            | Op::AddPort { .. }
            | Op::CloseRs { .. }
            | Op::CreateEmpty { .. } => unreachable!(),
        }
    }

    /// The answer to a call that changes nothing of its process's state.
    #[tactic(auto, using(crate::proofs::SameLayers::same_answers), unfolding(crate::specs::ConfinedCalls::by_layers))]
    fn answer(&self, call: &Call<'_>) -> Answer
        ghost ctx: { CallContext }
        requires met { IsMet ctx call.now.tree.now call.now.layers.now }
        requires agrees { Agrees ctx.tree ctx.layers self.now ctx.state }
        requires still { is_still call.now.op.now ≡ true }
        ensures { result ≡ answer_to ctx call.now.op.now }
    {
        let tree = call.tree;
        let confined = ConfinedCall {
            call: *call,
            domain: &self.domain,
        };
        match call.op {
            Op::Start { .. } | Op::Fork { .. } | Op::Exit => Answer::Allowed,
            Op::Ftruncate { fd } => ftruncate(self.descriptor(*fd)),
            Op::Ioctl { fd, driver } => ioctl(self.descriptor(*fd), *driver),
            wants_at_a_path!() => confined.ask(call.request()),
            Op::Rename { to, exchange, .. } => {
                let to = tree.place_of(to.path().as_str());
                confined.ask_move(rename_move(tree, call.place, to, *exchange))
            }
            Op::Link { to, .. } => {
                let to = tree.place_of(to.path().as_str());
                confined.ask_move(link_move(tree, call.place, to))
            }
            Op::Mount => confined.ask_mount(),
            Op::Bind { port } => confined.ask_port(*port, Net::BIND_TCP),
            Op::Connect { port } => confined.ask_port(*port, Net::CONNECT_TCP),
            Op::LeaveOutPath { .. } | Op::LeaveOutPort => Answer::Moot,
            Op::Nnp
            | Op::Create { .. }
            | Op::AddPath { .. }
            | Op::AddPort { .. }
            | Op::CloseRs { .. }
            | Op::Restrict { .. }
            | Op::OpenFile { .. }
            | Op::Adopt { .. }
            | Op::Dup { .. }
            | Op::Close { .. }
            | Op::CreateEmpty { .. } => unreachable!(),
        }
    }
}
