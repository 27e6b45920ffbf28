//! The lists of words of a policy, which make one value.

ghost use Rattle.serde_json.specs.View.{view, items_view};
ghost use Rattle.ll_lines.specs.Readers.{Reads};
ghost use Rattle.ll_values.specs.Lists.{fold_items};
ghost use Rattle.ll_calling.specs.PolicyLines.{words_at};

use ll_lines::Cause;
use ll_values::items_of;
use serde_json::Value;

/// What words make.
pub(crate) trait Worded: Copy {
    ghost use Rattle.std.specs.Prelude.{Result};
    ghost use Rattle.serde_json.specs.Data.{Data};
    ghost use Rattle.serde_json.specs.View.{view};
    ghost use Rattle.ll_lines.specs.declared.fault.Cause as cause;
    ghost use Rattle.ll_lines.specs.Readers.{Reads};

    // What one word more makes of it.
    ghost more: { Self → Data → Result Self cause.Cause };

    /// The same with one word more.
    fn with(self, value: &Value) -> Result<Self, Cause>
        ensures { Reads (λ with. with) result (more self (view value.now)) };
}

/// The same with each of some words more.
#[tactic(auto, using(ll_values::proofs::Folds::fold_fault, ll_values::proofs::Folds::fold_end))]
fn with_words<W: Worded>(none: W, words: &[Value]) -> Result<W, Cause>
    ensures { Reads (λ all. all) result (fold_items W.more none (items_view words.now)) }
{
    let mut all = none;
    for word in words {
        all = all.with(word)?;
    }
    Ok(all)
}

/// What the words of a member make of what no word makes.
#[tactic(auto, unfolding(crate::specs::PolicyLines::words_at))]
pub(crate) fn words_of<W: Worded>(none: W, value: &Value, name: &str) -> Result<W, Cause>
    ensures { Reads (λ all. all) result (words_at W.more none name.now (view value.now)) }
{
    let words = items_of(value, name)?;
    with_words(none, words)
}
