//! The members of a record's line.

ghost use Rattle.ll_lines.specs.Readers.{Gives, Reads};
ghost use Rattle.ll_members.specs.Slots.{ReadsOf};
ghost use Rattle.ll_trace.specs.Members.{path_at, mode_at, sort_at, made_kind_at, port_at};

use crate::op::{Mode, Sort};
use crate::path_text::PathText;
use ll_lines::Cause;
use ll_members::{Members, Name, number_of, text_of};
use ll_rights::Kind;
use std::alloc::Global;

/// The path of the member `path`.
#[tactic(auto, unfolding(ll_members::specs::Slots::spelt, crate::specs::Members::path_at))]
pub fn path_of(alloc: Global, members: &Members<'_>) -> Result<PathText, Cause>
    ensures { ReadsOf members.now (Gives (λ path. path) result) path_at }
{
    let text = text_of(members, Name::Path)?;
    PathText::read(alloc, text)
}

/// What a file is opened for.
#[tactic(auto, unfolding(ll_members::specs::Slots::spelt, crate::specs::Members::mode_at))]
pub fn mode_of(members: &Members<'_>) -> Result<Mode, Cause>
    ensures { ReadsOf members.now (Reads (λ mode. mode) result) mode_at }
{
    match text_of(members, Name::Mode)? {
        "r" => Ok(Mode::Read),
        "w" => Ok(Mode::Write),
        "rw" => Ok(Mode::Both),
        _ => Err(Cause::Field),
    }
}

/// What an adopted descriptor refers to.
#[tactic(auto, unfolding(ll_members::specs::Slots::spelt, crate::specs::Members::sort_at))]
pub fn sort_of(members: &Members<'_>) -> Result<Sort, Cause>
    ensures { ReadsOf members.now (Reads (λ sort. sort) result) sort_at }
{
    match text_of(members, Name::Kind)? {
        "reg" => Ok(Sort::Regular),
        "device" => Ok(Sort::Device),
        "other" => Ok(Sort::Other),
        _ => Err(Cause::Field),
    }
}

/// The kind of what mknod(2) makes.
#[tactic(auto, unfolding(ll_members::specs::Slots::spelt, crate::specs::Members::made_kind_at))]
pub fn made_kind_of(members: &Members<'_>) -> Result<Kind, Cause>
    ensures { ReadsOf members.now (Reads (λ kind. kind) result) made_kind_at }
{
    match text_of(members, Name::Kind)? {
        "reg" => Ok(Kind::Reg),
        "char" => Ok(Kind::Char),
        "block" => Ok(Kind::Block),
        "fifo" => Ok(Kind::Fifo),
        "sock" => Ok(Kind::Sock),
        _ => Err(Cause::Field),
    }
}

/// The TCP port of the member `port`.
#[tactic(auto, unfolding(ll_members::specs::Slots::spelt, crate::specs::Members::port_at))]
pub fn port_of(members: &Members<'_>) -> Result<u16, Cause>
    ensures { ReadsOf members.now (Reads (λ port. port) result) port_at }
{
    let port = number_of(members, Name::Port)?;
    u16::try_from(port).ok().ok_or(Cause::Field)
}
