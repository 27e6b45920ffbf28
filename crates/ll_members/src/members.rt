//! The members that have a slot.

ghost use Rattle.std.specs.Prelude.{◌≡◌};
ghost use Rattle.ll_lines.specs.Readers.{Reads};
ghost use Rattle.ll_lines.specs.Members.{text_at, number_at, truth_at, flag_at};
ghost use Rattle.ll_members.specs.declared.rights.Rights.{Rights as RightsOf};
ghost use Rattle.ll_members.specs.Rights.{fs_at, net_at};
ghost use Rattle.ll_members.specs.Slots.{ReadsOf, spelt, text_from, number_from, truth_from, flag_from, rights_from, part_of};

use crate::rights::Rights;
use crate::row::{Members, Name, Slot};
use ll_lines::Cause;
use ll_rights::{Fs, Net};

/// The text of a slot.
pub(crate) fn text_in<'l>(slot: Slot<'l>) -> Result<&'l str, Cause>
    ensures { Reads (λ text. text.now) result (text_from slot.entry) }
{
    match slot {
        Slot::Text(text) => Ok(text),
        _ => Err(Cause::Field),
    }
}

fn number_in(slot: Slot<'_>) -> Result<u64, Cause>
    ensures { Reads (λ number. number) result (number_from slot.entry) }
{
    match slot {
        Slot::Number(number) => number.ok_or(Cause::Field),
        _ => Err(Cause::Field),
    }
}

fn truth_in(slot: Slot<'_>) -> Result<bool, Cause>
    ensures { Reads (λ truth. truth) result (truth_from slot.entry) }
{
    match slot {
        Slot::Truth(truth) => Ok(truth),
        _ => Err(Cause::Field),
    }
}

fn flag_in(slot: Slot<'_>) -> Result<bool, Cause>
    ensures { Reads (λ flag. flag) result (flag_from slot.entry) }
{
    match slot {
        Slot::Missing => Ok(false),
        _ => truth_in(slot),
    }
}

fn rights_in(slot: Slot<'_>) -> Result<Rights, Cause>
    ensures { Reads (λ rights. rights) result (rights_from slot.entry) }
{
    match slot {
        Slot::Missing => Ok(Rights::none()),
        Slot::Names(rights) => rights.ok_or(Cause::Field),
        _ => Err(Cause::Field),
    }
}

fn fs_in(slot: Slot<'_>) -> Result<Fs, Cause>
    ensures { Reads (λ set. set) result
        (part_of (λ (r : RightsOf). r.fs) (rights_from slot.entry)) }
{
    let rights = rights_in(slot)?;
    Ok(rights.fs)
}

fn net_in(slot: Slot<'_>) -> Result<Net, Cause>
    ensures { Reads (λ set. set) result
        (part_of (λ (r : RightsOf). r.net) (rights_from slot.entry)) }
{
    let rights = rights_in(slot)?;
    Ok(rights.net)
}

/// The text of a member.
#[tactic(auto, using(crate::proofs::ShownLemmas::text_shown))]
pub fn text_of<'l>(members: &Members<'l>, name: Name) -> Result<&'l str, Cause>
    ensures { ReadsOf members.now (Reads (λ text. text.now) result) (text_at (spelt name)) }
{
    text_in(members.at(name))
}

/// The number of a member.
#[tactic(auto, using(crate::proofs::ShownLemmas::number_shown))]
pub fn number_of(members: &Members<'_>, name: Name) -> Result<u64, Cause>
    ensures { ReadsOf members.now (Reads (λ number. number) result) (number_at (spelt name)) }
{
    number_in(members.at(name))
}

/// A member that is true or false.
#[tactic(auto, using(crate::proofs::ShownLemmas::truth_shown))]
pub fn truth_of(members: &Members<'_>, name: Name) -> Result<bool, Cause>
    ensures { ReadsOf members.now (Reads (λ truth. truth) result) (truth_at (spelt name)) }
{
    truth_in(members.at(name))
}

/// A member that is true or false, and false where it is missing.
#[tactic(auto, using(crate::proofs::ShownLemmas::flag_shown))]
pub fn flag_of(members: &Members<'_>, name: Name) -> Result<bool, Cause>
    ensures { ReadsOf members.now (Reads (λ flag. flag) result) (flag_at (spelt name)) }
{
    flag_in(members.at(name))
}

/// The rights for files of the member `fs`.
#[tactic(auto, using(crate::proofs::ShownLemmas::fs_shown))]
pub fn fs_of(members: &Members<'_>) -> Result<Fs, Cause>
    ensures { ReadsOf members.now (Reads (λ set. set) result) fs_at }
{
    fs_in(members.at(Name::Fs))
}

/// The rights for the network of the member `net`.
#[tactic(auto, using(crate::proofs::ShownLemmas::net_shown))]
pub fn net_of(members: &Members<'_>) -> Result<Net, Cause>
    ensures { ReadsOf members.now (Reads (λ set. set) result) net_at }
{
    net_in(members.at(Name::Net))
}
