//! Calls that a process makes on itself.

ghost use Rattle.std.specs.Prelude.{◌≡◌, ◌<◌, ◌||◌, length, IfSome};
ghost use Rattle.ll_semantics.specs.Answers.{fails};
ghost use Rattle.ll_state.specs.Agreement.{Restricts, fails_by_layer};

use crate::own_state::OwnState;
use ll_rules::{Errno, Full, Layer, LayerId, LayerSet, MOST_LAYERS};
use ll_semantics::Answer;

/// Refused with an error by no layer.
fn fails(error: Errno) -> Answer
    ensures { result ≡ fails error }
{
    Answer::Refused(error, LayerSet::new())
}

/// Refused with an error by no layer, but moot by a ruleset that handles nothing: a program that makes do with it
/// calls nothing.
#[tactic(auto, unfolding(crate::specs::Agreement::fails_by_layer))]
fn fails_by(layers: &[Layer], layer: Option<LayerId>, error: Errno) -> Answer
    requires { IfSome layer (λ id. id.0 < length layers.now) }
    ensures { result ≡ fails_by_layer layers.now layer error }
{
    let Some(layer) = layer else {
        return fails(error);
    };
    if layers[layer.0 as usize].handles_nothing() {
        return Answer::Moot;
    }
    fails(error)
}

impl OwnState {
    /// Whether the process may restrict itself: it can't gain privileges, or has `CAP_SYS_ADMIN`.
    fn may_restrict(&self) -> bool
        ensures { result ≡ (self.now.no_new_privs || self.now.admin) }
    {
        self.no_new_privs || self.admin
    }

    /// landlock_restrict_self(2): stacks the layer that a ruleset was frozen to, where one is held.
    pub(crate) fn restrict(&mut self, layers: &[Layer], layer: Option<LayerId>) -> Answer
        requires { IfSome layer (λ id. id.0 < length layers.now) }
        ensures { Restricts layers.now layer self.old self.new result }
    {
        if !self.may_restrict() {
            return fails_by(layers, layer, Errno::Perm);
        }
        let Some(layer) = layer else {
            return fails(Errno::BadFd);
        };
        prove!(self.domain.layers().len() <= MOST_LAYERS);
        match self.domain.push(layer) {
            Ok(()) => Answer::Allowed,
            Err(Full) => fails_by(layers, Some(layer), Errno::TooBig),
        }
    }
}
