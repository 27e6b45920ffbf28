//! The reading of a line into slots.

ghost use Rattle.std.specs.Prelude.{◌≡◌, ◌<◌, length, suc, MatchResult, OnOk, IfErr, Some, None};
ghost use Rattle.json.specs.Json as spec;
ghost use Rattle.ll_lines.specs.{declared.fault.Cause.TheVariants.Json, Members.value_at, Readers.Fails};
ghost use Rattle.ll_members.specs.Slots.{folded, with_text, text_from, IsReadFrom, AreReadFrom, AreMissing, IsValue, IsLine, no_rights, behind_value, behind_items, behind_members};

use crate::first::{First, first_of};
use crate::members::text_in;
use crate::plain::scan_line;
use crate::rights::Rights;
use crate::row::{Members, Slot};
use json::{Reader, Scratch};
use ll_lines::Cause;
use simdutf8::compat::from_utf8;

/// How deep the values in a list or an object may nest, where the whole line may do so as deep as `serde_json` reads
/// it, 127 deep.
const INNER_DEPTH: usize = 126;

/// How deep values may nest in one that may nest so deep itself.
fn within(depth: usize) -> Result<usize, Cause>
    ensures { MatchResult result (λ inner. suc inner ≡ depth)
        (λ cause. (cause ≡ Json) × (depth ≡ 0)) }
{
    depth.checked_sub(1).ok_or(Cause::Json)
}

/// The next value, as a slot.
#[cycle(slot)]
#[tactic(auto, using(crate::proofs::FirstLemmas::slots_read))]
fn slot_in<'l>(reader: &mut Reader<'l>, depth: usize) -> Result<Slot<'l>, Cause>
    ensures value { MatchResult result (λ slot. IsReadFrom depth reader.old reader.new slot)
        (λ _. behind_value depth reader.old ≡ None) }
    ensures cause { IfErr result (λ cause. cause ≡ Json) }
    ensures shorter { OnOk result (length reader.new < length reader.old) }
{
    match first_of(reader)? {
        First::Whole(slot) => Ok(slot),
        First::Array => {
            let inner = within(depth)?;
            let rights = rights_in(reader, inner)?;
            Ok(Slot::Names(rights))
        }
        First::Object => {
            let inner = within(depth)?;
            skip_members(reader, inner)?;
            Ok(Slot::Other)
        }
    }
}

/// What the values of a list stand for as names of rights, up to the bracket that closes it.
#[cycle(slot)]
#[tactic(auto, using(crate::proofs::RightsLemmas::folding))]
fn rights_in(reader: &mut Reader<'_>, depth: usize) -> Result<Option<Rights>, Cause>
    ensures value { MatchResult result
        (λ rights. folded (Some no_rights)
        (spec.items (spec.value depth) (length reader.old) reader.old)
        ≡ Some (rights, reader.new))
        (λ _. behind_items depth reader.old ≡ None) }
    ensures cause { IfErr result (λ cause. cause ≡ Json) }
    ensures shorter { OnOk result (length reader.new < length reader.old) }
{
    let mut rights = Some(Rights::none());
    while !reader.take_end_array() {
        let slot = slot_in(reader, depth)?;
        rights = with_slot(rights, slot);
    }
    Ok(rights)
}

/// Passes over the members of an object, and the brace that closes it.
#[cycle(slot)]
#[tactic(auto, using(crate::proofs::PassedLemmas::passing))]
fn skip_members(reader: &mut Reader<'_>, depth: usize) -> Result<(), Cause>
    ensures value { MatchResult result (λ _. behind_members depth reader.old ≡ Some reader.new)
        (λ _. behind_members depth reader.old ≡ None) }
    ensures cause { IfErr result (λ cause. cause ≡ Json) }
    ensures shorter { OnOk result (length reader.new < length reader.old) }
{
    while let Some(_) = reader.next_key()? {
        slot_in(reader, depth)?;
    }
    Ok(())
}

/// Rights, and what one more value of the list stands for.
fn with_slot(rights: Option<Rights>, slot: Slot<'_>) -> Option<Rights>
    ensures { result ≡ with_text rights (text_from slot.entry) }
{
    let rights = rights?;
    match text_in(slot) {
        Ok(name) => Some(rights.with(name)),
        Err(_) => None,
    }
}

/// Takes in all members of an object, and the brace that closes it.
#[tactic(auto, using(crate::proofs::PassedLemmas::filling))]
fn fill<'l>(reader: &mut Reader<'l>, members: &mut Members<'l>, depth: usize) -> Result<(), Cause>
    requires { AreMissing members.old }
    ensures value { MatchResult result
        (λ _. AreReadFrom depth reader.old reader.new members.new)
        (λ _. behind_members depth reader.old ≡ None) }
    ensures cause { IfErr result (λ cause. cause ≡ Json) }
{
    while let Some(key) = reader.next_key()? {
        let slot = slot_in(reader, depth)?;
        members.keep(key, slot);
    }
    Ok(())
}

/// The next value, with its members in their slots where it is an object.
#[tactic(auto, using(crate::proofs::SlotLemmas::values_taken))]
fn take_value<'l>(reader: &mut Reader<'l>, members: &mut Members<'l>) -> Result<(), Cause>
    requires { AreMissing members.old }
    ensures value { MatchResult result (λ _. IsValue reader.old reader.new members.new)
        (λ _. behind_value 127 reader.old ≡ None) }
    ensures cause { IfErr result (λ cause. cause ≡ Json) }
{
    match first_of(reader)? {
        First::Whole(_) => Ok(()),
        First::Array => {
            rights_in(reader, INNER_DEPTH)?;
            Ok(())
        }
        First::Object => {
            fill(reader, members, INNER_DEPTH)?;
            Ok(())
        }
    }
}

/// Reads the members of the one JSON value that a line is, token by token.
#[inline(never)]
#[tactic(auto, using(crate::proofs::SlotLemmas::line_read, crate::proofs::SlotLemmas::line_fails, crate::proofs::SlotLemmas::line_goes_on))]
fn read_tokens<'l>(line: &'l str, scratch: &'l mut Scratch) -> Result<Members<'l>, Cause>
    ensures { MatchResult result (λ members. IsLine line.now members)
        (λ cause. Fails cause (value_at line.now)) }
{
    let mut reader = Reader::new(line, scratch)?;
    let mut members: Members<'l> = Members::none();
    take_value(&mut reader, &mut members)?;
    match reader.next() {
        None => Ok(members),
        Some(_) => Err(Cause::Json),
    }
}

/// Reads the members of the one JSON value that a line is.
#[tactic(auto, using(crate::proofs::PlainLemmas::line_scanned, ll_lines::proofs::Values::no_text))]
pub fn read_members<'l>(line: &'l [u8], scratch: &'l mut Scratch) -> Result<Members<'l>, Cause>
    ensures { MatchResult result (λ members. IsLine line.now members)
        (λ cause. Fails cause (value_at line.now)) }
{
    let Ok(text) = from_utf8(line) else {
        return Err(Cause::Json);
    };
    let mut members: Members<'l> = Members::none();
    if scan_line(text, &mut members).is_some() {
        return Ok(members);
    }
    read_tokens(text, scratch)
}
