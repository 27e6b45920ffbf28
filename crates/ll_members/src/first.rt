//! What a value begins with.

ghost use Rattle.std.specs.Prelude.{◌≡◌, ◌<◌, length, MatchResult, OnOk, IfErr};
ghost use Rattle.ll_lines.specs.declared.fault.Cause.TheVariants.{Json};
ghost use Rattle.ll_members.specs.Slots.{Begin, BeginNoValue};

use crate::row::Slot;
use json::{Reader, Token};
use ll_lines::Cause;
use ll_lines::numbers::{is_number_in_range, whole_number};

/// What a token begins.
pub(crate) enum First<'l> {
    /// A value of that one token.
    Whole(Slot<'l>),
    Array,
    Object,
}

/// Takes the first token of the next value.
#[inline(always)]
#[tactic(auto, using(crate::proofs::FirstLemmas::begins))]
pub(crate) fn first_of<'l>(reader: &mut Reader<'l>) -> Result<First<'l>, Cause>
    ensures value { MatchResult result (λ first. Begin first reader.old reader.new)
        (λ _. BeginNoValue reader.old) }
    ensures cause { IfErr result (λ cause. cause ≡ Json) }
    ensures shorter { OnOk result (length reader.new < length reader.old) }
{
    let token = reader.next().ok_or(Cause::Json)?;
    match token {
        Token::String(text) => Ok(First::Whole(Slot::Text(text))),
        Token::Bool(truth) => Ok(First::Whole(Slot::Truth(truth))),
        Token::Null => Ok(First::Whole(Slot::Other)),
        Token::Number(text) => if is_number_in_range(text) {
            Ok(First::Whole(Slot::Number(whole_number(text))))
        } else {
            Err(Cause::Json)
        },
        Token::BeginArray => Ok(First::Array),
        Token::BeginObject => Ok(First::Object),
        Token::EndObject | Token::EndArray | Token::Key(_) | Token::Bad => Err(Cause::Json),
    }
}
