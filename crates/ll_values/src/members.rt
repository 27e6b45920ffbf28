//! The value of a line, and the members of an object.

ghost use Rattle.std.specs.Prelude.{◌≡◌, ◌<◌, IfOk, length};
ghost use Rattle.serde_json.specs.View.{view, items_view};
ghost use Rattle.ll_lines.specs.Readers.{Gives, Reads};
ghost use Rattle.ll_lines.specs.Members.{value_at, text_at, number_at, flag_at, items_at, text_in, fold_texts};
ghost use Rattle.ll_members.specs.Rights.{net_at, texts_at, with_fs};
ghost use Rattle.ll_rights.specs.Families.{no_right, with_name};
ghost use Rattle.ll_rights.specs.Rights as for_files;
ghost use Rattle.ll_values.specs.Lists.{place_in, truth_in};

use ll_lines::Cause;
use ll_rights::{Fs, Net, RightSet};
use serde_json::Value;
use std::alloc::Global;

/// The one JSON value that a line is.
#[tactic(auto, unfolding(ll_lines::specs::Members::value_at), using(crate::proofs::Texts::value_of_text, crate::proofs::Texts::value_of_other))]
pub fn value_of(alloc: Global, line: &[u8]) -> Result<Value, Cause>
    ensures { Gives view result (value_at line.now) }
{
    match Value::from_slice(alloc, line) {
        Ok(value) => Ok(value),
        Err(error) if error.is_memory() => Err(Cause::Memory),
        Err(_) => Err(Cause::Json),
    }
}

/// The text of a member.
#[tactic(auto, unfolding(ll_lines::specs::Members::text_at))]
pub fn text_of<'v>(value: &'v Value, name: &str) -> Result<&'v str, Cause>
    ensures { Reads (λ text. text.now) result (text_at name.now (view value.now)) }
{
    value.get(name).and_then(Value::as_str).ok_or(Cause::Field)
}

/// The number of a member.
#[tactic(auto, unfolding(ll_lines::specs::Members::number_at))]
pub fn number_of(value: &Value, name: &str) -> Result<u64, Cause>
    ensures { Reads (λ number. number) result (number_at name.now (view value.now)) }
{
    value.get(name).and_then(Value::as_u64).ok_or(Cause::Field)
}

/// A member that is true or false, and false where it is missing.
#[tactic(auto, unfolding(ll_lines::specs::Members::flag_at))]
pub fn flag_of(value: &Value, name: &str) -> Result<bool, Cause>
    ensures { Reads (λ flag. flag) result (flag_at name.now (view value.now)) }
{
    match value.get(name) {
        None => Ok(false),
        Some(flag) => flag.as_bool().ok_or(Cause::Field),
    }
}

/// The values of a member that is a list, and none where it is missing.
#[tactic(auto, unfolding(ll_lines::specs::Members::items_at))]
pub fn items_of<'v>(value: &'v Value, name: &str) -> Result<&'v [Value], Cause>
    ensures { Reads (λ items. items_view items.now) result (items_at name.now (view value.now)) }
{
    match value.get(name) {
        None => Ok(&[]),
        Some(list) => match list.as_array() {
            None => Err(Cause::Field),
            Some(items) => Ok(items.as_slice()),
        },
    }
}

/// The text that a value of a list is.
#[tactic(auto, unfolding(ll_lines::specs::Members::text_in))]
pub fn text_in_list(value: &Value) -> Result<&str, Cause>
    ensures { Reads (λ text. text.now) result (text_in (view value.now)) }
{
    value.as_str().ok_or(Cause::Field)
}

/// True or false in a list.
#[tactic(auto, unfolding(crate::specs::Lists::truth_in))]
pub fn truth_in_list(value: &Value) -> Result<bool, Cause>
    ensures { Reads (λ truth. truth) result (truth_in (view value.now)) }
{
    value.as_bool().ok_or(Cause::Field)
}

/// A number in a list, below a bound.
#[tactic(auto, unfolding(crate::specs::Lists::place_in))]
pub fn place_in_list(bound: usize, value: &Value) -> Result<usize, Cause>
    ensures place { Reads (λ place. place) result (place_in bound (view value.now)) }
    ensures below { IfOk result (λ place. place < bound) }
{
    let number = value.as_u64().ok_or(Cause::Field)?;
    if number >= bound as u64 {
        return Err(Cause::Field);
    }
    Ok(number as usize)
}

/// The rights for files of a member.
pub fn fs_of(value: &Value, name: &str) -> Result<Fs, Cause>
    ensures { Reads (λ set. set) result
        (texts_at name.now with_fs for_files.no_right (view value.now)) }
{
    let names = items_of(value, name)?;
    set_in_list(names)
}

/// The rights for the network of the member `net`.
#[tactic(auto, unfolding(ll_members::specs::Rights::net_at))]
pub fn net_of(value: &Value) -> Result<Net, Cause>
    ensures { Reads (λ set. set) result (net_at (view value.now)) }
{
    let names = items_of(value, "net")?;
    set_in_list(names)
}

#[tactic(auto, using(crate::proofs::Texts::fold_texts_fault, crate::proofs::Texts::fold_texts_end))]
fn set_in_list<S: RightSet>(names: &[Value]) -> Result<S, Cause>
    ensures { Reads (λ set. set) result
        (fold_texts (with_name S.family) (no_right S.family) (items_view names.now)) }
{
    let mut set = S::none();
    for name in names {
        set = set.union(S::of_name(text_in_list(name)?));
    }
    Ok(set)
}
