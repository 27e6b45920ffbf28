//! Whether two explanations are the same value.

ghost use Rattle.std.specs.Prelude.{◌≡◌, Decides};

use crate::condition::Condition;
use crate::explanation::Explanation;
use crate::objection::{LayerObjection, Objection};
use crate::why::Reason;

/// Whether two objections of layers are the same.
fn is_same_objection(one: &LayerObjection, other: &LayerObjection) -> bool
    ensures { Decides result (one.now ≡ other.now) }
{
    one == other
}

/// Whether two conditions are the same.
fn is_same_condition(one: &Condition, other: &Condition) -> bool
    ensures { Decides result (one.now ≡ other.now) }
{
    one == other
}

/// Whether two reasons are the same.
fn is_same_reason(one: &Option<Reason>, other: &Option<Reason>) -> bool
    ensures { Decides result (one.now ≡ other.now) }
{
    one == other
}

/// Whether lists of objections are the same.
fn are_same_objections(all: &[LayerObjection], others: &[LayerObjection]) -> bool
    ensures { Decides result (all.now ≡ others.now) }
{
    if all.len() != others.len() {
        return false;
    }
    for (index, one) in all.iter().enumerate() {
        if !is_same_objection(one, &others[index]) {
            return false;
        }
    }
    true
}

impl Explanation {
    /// Whether another explanation is the same value.
    pub fn is_same(&self, other: &Explanation) -> bool
        ensures { Decides result (self.now ≡ other.now) }
    {
        match (self, other) {
            (Explanation::Nothing, Explanation::Nothing) => true,
            (Explanation::Objections(all), Explanation::Objections(others)) => {
                are_same_objections(all.as_slice(), others.as_slice())
            }
            (Explanation::Failure(condition), Explanation::Failure(other)) => {
                is_same_condition(condition, other)
            }
            (Explanation::Mootness(reason), Explanation::Mootness(other)) => {
                is_same_reason(reason, other)
            }
            _ => false,
        }
    }
}
