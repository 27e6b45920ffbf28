//! What is found, written as JSON.

ghost use Rattle.std.specs.Prelude.{◌≡◌, ◌∷◌, ◌++◌, OnOk, map};
ghost use Rattle.json.specs.Token as token;
ghost use Rattle.json.specs.Tree.{json_tokens, items_tokens, members_tokens};
ghost use Rattle.ll_values.specs.Texts.{items_of, members_of, object_of, whole_json, option_json, list_json};
ghost use Rattle.ll_comparison.specs.Texts.{named, gain_json, movers_json, moved_to_json, passing_json, lost_json, found_json};

use crate::found::{Found, Lost};
use json::Writer;
use ll_policy::{Gain, MovedTo, Movers, Passing};
use std::alloc::AllocError;

/// What is written as JSON.
pub(crate) trait Told {
    ghost use Rattle.std.specs.Prelude.{◌≡◌, ◌++◌, OnOk};
    ghost use Rattle.json.specs.Json.{Json};
    ghost use Rattle.json.specs.Tree.{json_tokens};

    // As what it is written.
    ghost json: { Self → Json };

    /// Writes it behind what was written before.
    fn write(&self, out: &mut Writer) -> Result<(), AllocError>
        ensures tokens { OnOk result (out.new.tokens
            ≡ out.old.tokens ++ json_tokens (json self.now)) }
        ensures before { out.new.before ≡ out.old.before };
}

impl Told for usize {
    ghost json = { whole_json };

    fn write(&self, out: &mut Writer) -> Result<(), AllocError> {
        out.u64(*self as u64)
    }
}

impl<T: Told> Told for Option<T> {
    ghost json = { option_json T.json };

    fn write(&self, out: &mut Writer) -> Result<(), AllocError> {
        match self {
            None => out.null(),
            Some(value) => value.write(out),
        }
    }
}

/// Writes the values of an array, and its end.
fn write_values<T: Told>(out: &mut Writer, values: &[T]) -> Result<(), AllocError>
    ensures tokens { OnOk result (out.new.tokens
        ≡ out.old.tokens ++ items_tokens (items_of (map T.json values.now))) }
    ensures before { out.new.before ≡ out.old.before }
{
    for value in values {
        value.write(out)?;
    }
    out.end_array()
}

impl<T: Told> Told for Vec<T> {
    ghost json = { list_json T.json };

    fn write(&self, out: &mut Writer) -> Result<(), AllocError> {
        out.begin_array()?;
        write_values(out, self)
    }
}

/// Writes a member of an object.
fn write_member<T: Told>(out: &mut Writer, name: &str, value: &T) -> Result<(), AllocError>
    ensures tokens { OnOk result (out.new.tokens
        ≡ out.old.tokens ++ token.key name.now ∷ json_tokens (T.json value.now)) }
    ensures before { out.new.before ≡ out.old.before }
{
    out.key(name)?;
    value.write(out)
}

/// Writes members of one kind, and the end of their object.
fn write_members<T: Told>(out: &mut Writer, members: &[(&str, &T)]) -> Result<(), AllocError>
    ensures tokens { OnOk result (out.new.tokens ≡ out.old.tokens
        ++ members_tokens (members_of (map (named T.json) members.now))) }
    ensures before { out.new.before ≡ out.old.before }
{
    for (name, value) in members {
        write_member(out, name, *value)?;
    }
    out.end_object()
}

/// Writes an object whose members are of one kind.
fn write_object<T: Told>(out: &mut Writer, members: &[(&str, &T)]) -> Result<(), AllocError>
    ensures tokens { OnOk result (out.new.tokens ≡ out.old.tokens
        ++ json_tokens (object_of (map (named T.json) members.now))) }
    ensures before { out.new.before ≡ out.old.before }
{
    out.begin_object()?;
    write_members(out, members)
}

impl Told for Gain {
    ghost json = { gain_json };

    fn write(&self, out: &mut Writer) -> Result<(), AllocError> {
        out.begin_object()?;
        write_member(out, "directory", &self.directory)?;
        write_members(out, &[("chain", &self.chain)])
    }
}

impl Told for Movers {
    ghost json = { movers_json };

    fn write(&self, out: &mut Writer) -> Result<(), AllocError> {
        let Movers {
            beneath,
            themselves,
        } = self;
        write_object(out, &[("beneath", beneath), ("themselves", themselves)])
    }
}

impl Told for MovedTo {
    ghost json = { moved_to_json };

    fn write(&self, out: &mut Writer) -> Result<(), AllocError> {
        write_object(out, &[("new", &self.new), ("old", &self.old)])
    }
}

impl Told for Passing {
    ghost json = { passing_json };

    fn write(&self, out: &mut Writer) -> Result<(), AllocError> {
        let Passing { both, new, old } = self;
        write_object(out, &[("both", both), ("new", new), ("old", old)])
    }
}

impl Told for Lost {
    ghost json = { lost_json };

    fn write(&self, out: &mut Writer) -> Result<(), AllocError> {
        let members = [
            ("mounts", &self.mounts),
            ("abstract_unix_socket", &self.abstract_unix_socket),
            ("signal", &self.signal),
        ];
        write_object(out, &members)
    }
}

impl Told for Found {
    ghost json = { found_json };

    fn write(&self, out: &mut Writer) -> Result<(), AllocError> {
        out.begin_object()?;
        write_member(out, "regions", &self.regions)?;
        write_member(out, "objects", &self.objects)?;
        write_member(out, "single", &self.single)?;
        write_member(out, "gains", &self.gains)?;
        write_member(out, "moves", &self.moves)?;
        write_member(out, "ports", &self.ports)?;
        write_member(out, "lost", &self.lost)?;
        write_member(out, "spare_layers", &self.spare_layers)?;
        out.end_object()
    }
}
