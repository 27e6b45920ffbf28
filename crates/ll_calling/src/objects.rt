//! Objects of JSON whose members are words, numbers and sets of rights.

ghost use Rattle.std.specs.Prelude.{◌≡◌, ◌++◌, IfOk, OnOk, map};
ghost use Rattle.json.specs.Tree.{json_tokens, items_tokens, members_tokens};
ghost use Rattle.ll_values.specs.Texts.{members_of, object_of, line_of};
ghost use Rattle.ll_calling.specs.Texts.{name_items, names_json, shown_json, named};

use json::Writer;
use ll_rights::{Fs, Net, RightSet};
use std::alloc::{AllocError, Global};

/// A value of an object.
#[derive(Clone, Copy)]
pub(crate) enum Shown<'a> {
    Word(&'a str),
    Whole(usize),
    Number(u64),
    Files(Fs),
    Network(Net),
}

/// Writes the names of those rights that a set has, and the end of their array.
#[tactic(auto, unfolding(crate::specs::Texts::name_items))]
fn write_names<S: RightSet>(out: &mut Writer, all: &[S::Right], set: S) -> Result<(), AllocError>
    ensures tokens { OnOk result (out.new.tokens ≡ out.old.tokens
        ++ items_tokens (name_items S.family (S.family.has set) (map S.named all.now))) }
    ensures before { out.new.before ≡ out.old.before }
{
    for right in all {
        if set.has(*right) {
            out.string(S::name(*right))?;
        }
    }
    out.end_array()
}

/// Writes a set of rights.
fn write_set<S: RightSet>(out: &mut Writer, set: S) -> Result<(), AllocError>
    ensures tokens { OnOk result (out.new.tokens ≡ out.old.tokens
        ++ json_tokens (names_json S.family (S.family.has set))) }
    ensures before { out.new.before ≡ out.old.before }
{
    out.begin_array()?;
    write_names(out, S::all(), set)
}

/// Writes a value.
fn write_value(out: &mut Writer, value: Shown<'_>) -> Result<(), AllocError>
    ensures tokens { OnOk result (out.new.tokens ≡ out.old.tokens
        ++ json_tokens (shown_json value.entry)) }
    ensures before { out.new.before ≡ out.old.before }
{
    match value {
        Shown::Word(text) => out.string(text),
        Shown::Whole(number) => out.u64(number as u64),
        Shown::Number(number) => out.u64(number),
        Shown::Files(set) => write_set(out, set),
        Shown::Network(set) => write_set(out, set),
    }
}

/// Writes members, and the end of their object.
fn write_members(out: &mut Writer, members: &[(&str, Shown<'_>)]) -> Result<(), AllocError>
    ensures tokens { OnOk result (out.new.tokens ≡ out.old.tokens
        ++ members_tokens (members_of (map named members.now))) }
    ensures before { out.new.before ≡ out.old.before }
{
    for (name, value) in members {
        out.key(name)?;
        write_value(out, *value)?;
    }
    out.end_object()
}

/// Writes an object.
pub(crate) fn write_object(
    out: &mut Writer,
    members: &[(&str, Shown<'_>)],
) -> Result<(), AllocError>
    ensures tokens { OnOk result (out.new.tokens ≡ out.old.tokens
        ++ json_tokens (object_of (map named members.now))) }
    ensures before { out.new.before ≡ out.old.before }
{
    out.begin_object()?;
    write_members(out, members)
}

/// A line with an object.
pub(crate) fn object_line(
    alloc: Global,
    members: &[(&str, Shown<'_>)],
) -> Result<Vec<u8>, AllocError>
    ensures { IfOk result (λ line. line.items ≡ line_of (object_of (map named members.now))) }
{
    let mut out = Writer::new(Vec::new(alloc));
    write_object(&mut out, members)?;
    let mut line = out.into_inner();
    line.push(b'\n')?;
    Ok(line)
}
