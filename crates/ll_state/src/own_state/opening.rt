//! Calls by which numbers get open, and are closed.

ghost use Rattle.std.specs.Prelude.{◌≡◌, List, ℕ};
ghost use Rattle.ll_shared.specs.LowMaps.{value_of};
ghost use Rattle.ll_trace.specs.declared.op.Op.{Op};
ghost use Rattle.ll_semantics.specs.CallContexts.{CallContext};
ghost use Rattle.ll_state.specs.Agreement.{IsMet, Agrees, IsJudged};

use crate::call::{Call, ConfinedCall};
use crate::descriptors::unrestricted;
use crate::own_state::OwnState;
use crate::requests::asks;
use ll_semantics::{Answer, Descriptor, Wanted};
use ll_trace::{Mode, Sort};
use std::alloc::AllocError;

impl OwnState {
    /// What a number is open on.
    pub(crate) fn descriptor(&self, fd: u64) -> Option<Descriptor>
        ensures { result ≡ value_of self.now.descriptors fd }
    {
        self.descriptors.get(fd)
    }

    /// open(2), whose number must be free.
    #[tactic(auto, using(crate::proofs::SameLayers::same_openings), unfolding(crate::specs::ConfinedCalls::opening))]
    pub(crate) fn open(
        &mut self,
        call: &Call<'_>,
        fd: u64,
        mode: Mode,
        create: bool,
        trunc: bool,
    ) -> Result<Answer, AllocError>
        ghost ctx: { CallContext }
        requires met { IsMet ctx call.now.tree.now call.now.layers.now }
        requires agrees { Agrees ctx.tree ctx.layers self.old ctx.state }
        ensures { (path : List ℕ) → call.now.op.now ≡ Op.OpenFile path fd mode create trunc
            → IsJudged ctx call.now.op.now self.new result }
    {
        if self.descriptor(fd).is_some() {
            return Ok(Answer::Moot);
        }
        let wanted = Wanted::Open {
            mode,
            create,
            trunc,
        };
        let confined = ConfinedCall {
            call: *call,
            domain: &self.domain,
        };
        let answer = confined.ask(asks(call.tree, call.place, wanted));
        if answer == Answer::Allowed {
            let opened = confined.opened(call.place, mode);
            self.descriptors.insert(fd, opened)?;
        }
        Ok(answer)
    }

    /// A descriptor that was made without open(2) keeps no layers.
    #[tactic(auto, unfolding(crate::specs::ConfinedCalls::answering))]
    pub(crate) fn adopt(&mut self, fd: u64, kind: Sort) -> Result<Answer, AllocError>
        ghost ctx: { CallContext }
        requires { Agrees ctx.tree ctx.layers self.old ctx.state }
        ensures { IsJudged ctx (Op.Adopt fd kind) self.new result }
    {
        if self.descriptor(fd).is_some() {
            return Ok(Answer::Moot);
        }
        self.descriptors.insert(fd, unrestricted(kind))?;
        Ok(Answer::Allowed)
    }

    /// dup(2): the other number is open on the same, with the same layers kept.
    #[tactic(auto, unfolding(crate::specs::ConfinedCalls::answering))]
    pub(crate) fn dup(&mut self, fd: u64, to: u64) -> Result<Answer, AllocError>
        ghost ctx: { CallContext }
        requires { Agrees ctx.tree ctx.layers self.old ctx.state }
        ensures { IsJudged ctx (Op.Dup fd to) self.new result }
    {
        let Some(descriptor) = self.descriptor(fd) else {
            return Ok(Answer::Moot);
        };
        self.descriptors.insert(to, descriptor)?;
        Ok(Answer::Allowed)
    }

    /// close(2).
    #[tactic(auto, unfolding(crate::specs::ConfinedCalls::answering))]
    pub(crate) fn close(&mut self, fd: u64) -> Result<Answer, AllocError>
        ghost ctx: { CallContext }
        requires { Agrees ctx.tree ctx.layers self.old ctx.state }
        ensures { IsJudged ctx (Op.Close fd) self.new result }
    {
        match self.descriptors.remove(fd)? {
            Some(_) => Ok(Answer::Allowed),
            None => Ok(Answer::Moot),
        }
    }
}
