//! The object that a line of the tree file describes.

ghost use Rattle.std.specs.Prelude.{◌≡◌, IsTrue, IfOk, is_some};
ghost use Rattle.serde_json.specs.Data.{Data};
ghost use Rattle.ll_lines.specs.{Readers.Reads, Paths.path_of};
ghost use Rattle.ll_members.specs.Slots.{Hold};
ghost use Rattle.ll_tree.specs.TreeFacts.{named};
ghost use Rattle.ll_tree.specs.TreeReading.{kind_named, entry_in};

use ll_lines::{Cause, path_ok};
use ll_members::{Members, Name, text_of};
use ll_rights::Kind;

/// The kind that a name stands for.
#[tactic(auto, unfolding(crate::specs::TreeReading::kind_named))]
pub fn kind_of(name: &str) -> Option<Kind>
    ensures { result ≡ kind_named name.now }
{
    match name {
        "dir" => Some(Kind::Dir),
        "reg" => Some(Kind::Reg),
        "sym" => Some(Kind::Sym),
        "char" => Some(Kind::Char),
        "block" => Some(Kind::Block),
        "fifo" => Some(Kind::Fifo),
        "sock" => Some(Kind::Sock),
        _ => None,
    }
}

/// The path and the kind of the object that members describe.
#[tactic(auto, unfolding(ll_members::specs::Slots::spelt, crate::specs::TreeReading::entry_in))]
pub(crate) fn object_of<'l>(members: &Members<'l>) -> Result<(&'l str, Kind), Cause>
    ensures entry { (value : Data) → Hold members.now value
        → Reads (λ object. named object.0.now object.1) result (entry_in value) }
    ensures shape { IfOk result (λ object. IsTrue (is_some (path_of object.0.now))) }
{
    let text = text_of(members, Name::Path)?;
    let name = text_of(members, Name::Kind)?;
    let kind = kind_of(name).ok_or(Cause::Field)?;
    if !path_ok(text) {
        return Err(Cause::BadPath);
    }
    Ok((text, kind))
}
