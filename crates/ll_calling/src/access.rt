//! Lists of rights and of scopes, by the words of a policy.

ghost use Rattle.std.specs.Prelude.{◌≡◌};
ghost use Rattle.serde_json.specs.View.{view};
ghost use Rattle.ll_lines.specs.Readers.{Reads};
ghost use Rattle.ll_calling.specs.PolicyLines as lines;

use crate::groups::Grouped;
use crate::lists::{Worded, words_of};
use ll_fitting::{Access, Scopes};
use ll_lines::Cause;
use ll_rights::RightSet;
use ll_values::text_in_list;
use serde_json::Value;

/// A list with one right more, if its name is one.
fn with_right<S: RightSet>(access: Access<S>, right: S) -> Result<Access<S>, Cause>
    ensures { Reads (λ more. more) result (lines.with_right S.family access right) }
{
    if right.has_other() {
        return Err(Cause::Field);
    }
    Ok(Access {
        named: access.named.union(right),
        grouped: access.grouped,
    })
}

impl<S: Grouped> Worded for Access<S> {
    ghost more = { lines.with_word S.family S.group };

    #[tactic(auto, unfolding(crate::specs::PolicyLines::with_word))]
    fn with(self, value: &Value) -> Result<Access<S>, Cause> {
        let word = text_in_list(value)?;
        match S::group(word) {
            Some(rights) => Ok(Access {
                named: self.named,
                grouped: self.grouped.union(rights),
            }),
            None => with_right(self, S::of_name(word)),
        }
    }
}

/// The rights of a member.
pub(crate) fn access_of<S: Grouped>(value: &Value, name: &str) -> Result<Access<S>, Cause>
    ensures { Reads (λ access. access) result
        (lines.rights_at S.family S.group name.now (view value.now)) }
{
    let none = Access {
        named: S::none(),
        grouped: S::none(),
    };
    words_of(none, value, name)
}

impl Worded for Scopes {
    ghost more = { lines.with_scope };

    #[tactic(auto, unfolding(crate::specs::PolicyLines::with_scope))]
    fn with(self, value: &Value) -> Result<Scopes, Cause> {
        match text_in_list(value)? {
            "abstract_unix_socket" => Ok(Scopes {
                abstract_unix_socket: true,
                signal: self.signal,
            }),
            "signal" => Ok(Scopes {
                abstract_unix_socket: self.abstract_unix_socket,
                signal: true,
            }),
            _ => Err(Cause::Field),
        }
    }
}

/// The scopes of a layer.
pub(crate) fn scopes_of(value: &Value) -> Result<Scopes, Cause>
    ensures { Reads (λ scopes. scopes) result (lines.scopes_at (view value.now)) }
{
    let none = Scopes {
        abstract_unix_socket: false,
        signal: false,
    };
    words_of(none, value, "scoped")
}
