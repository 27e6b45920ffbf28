//! The names of operations, and the operation of a record's line by its name.

ghost use Rattle.std.specs.Prelude.{◌≡◌, codes};
ghost use Rattle.ll_lines.specs.Readers.{Gives};
ghost use Rattle.ll_members.specs.Slots.{ReadsOf};
ghost use Rattle.ll_trace.specs.Operations.{op_name, operation_at, operation_named};

use crate::members::{made_kind_of, mode_of, path_of, port_of, sort_of};
use crate::op::Op;
use crate::path_text::{PathText, SecondPath};
use ll_lines::Cause;
use ll_members::{Members, Name, flag_of, fs_of, net_of, number_of, text_of, truth_of};
use std::alloc::Global;

/// The operation that an object says, by its members: its name is the member `op`.
#[tactic(auto, unfolding(ll_members::specs::Slots::spelt, crate::specs::Operations::operation_at))]
pub fn operation_of(alloc: Global, members: &Members<'_>) -> Result<Op, Cause>
    ensures { ReadsOf members.now (Gives (λ op. op) result) operation_at }
{
    let name = text_of(members, Name::Op)?;
    operation_by_name(alloc, name, members)
}

#[tactic(auto, unfolding(crate::specs::SaidByName::naming))]
fn operation_by_name(alloc: Global, name: &str, members: &Members<'_>) -> Result<Op, Cause>
    ensures { ReadsOf members.now (Gives (λ op. op) result)
        (λ value. operation_named name.now value) }
{
    match name {
        "start" => Ok(Op::Start {
            nnp: flag_of(members, Name::Nnp)?,
            admin: flag_of(members, Name::Admin)?,
        }),
        "fork" => number_of(members, Name::Child).map(|child| Op::Fork { child }),
        "exit" => Ok(Op::Exit),
        "nnp" => Ok(Op::Nnp),
        "create" => Ok(Op::Create {
            rs: number_of(members, Name::Rs)?,
            fs: fs_of(members)?,
            net: net_of(members)?,
        }),
        "add_path" => add_path_of(alloc, members),
        "add_port" => Ok(Op::AddPort {
            rs: number_of(members, Name::Rs)?,
            port: number_of(members, Name::Port)?,
            net: net_of(members)?,
        }),
        "close_rs" => number_of(members, Name::Rs).map(|rs| Op::CloseRs { rs }),
        "restrict" => number_of(members, Name::Rs).map(|rs| Op::Restrict { rs }),
        "mount" => Ok(Op::Mount),
        "adopt" => Ok(Op::Adopt {
            fd: number_of(members, Name::Fd)?,
            kind: sort_of(members)?,
        }),
        "dup" => Ok(Op::Dup {
            fd: number_of(members, Name::Fd)?,
            to: number_of(members, Name::To)?,
        }),
        "close" => number_of(members, Name::Fd).map(|fd| Op::Close { fd }),
        "ftruncate" => number_of(members, Name::Fd).map(|fd| Op::Ftruncate { fd }),
        "ioctl" => Ok(Op::Ioctl {
            fd: number_of(members, Name::Fd)?,
            driver: truth_of(members, Name::Driver)?,
        }),
        "bind" => port_of(members).map(|port| Op::Bind { port }),
        "connect" => port_of(members).map(|port| Op::Connect { port }),
        "truncate" => path_of(alloc, members).map(|path| Op::Truncate { path }),
        "exec" => path_of(alloc, members).map(|path| Op::Exec { path }),
        "open" => open_of(alloc, members),
        "mknod" => mknod_of(alloc, members),
        "mkdir" => path_of(alloc, members).map(|path| Op::Mkdir { path }),
        "symlink" => path_of(alloc, members).map(|path| Op::Symlink { path }),
        "unlink" => path_of(alloc, members).map(|path| Op::Unlink { path }),
        "rmdir" => path_of(alloc, members).map(|path| Op::Rmdir { path }),
        "rename" => rename_of(alloc, members),
        "link" => link_of(alloc, members),
        _ => Err(Cause::Field),
    }
}

#[tactic(auto, unfolding(crate::specs::SaidByName::naming))]
fn add_path_of(alloc: Global, members: &Members<'_>) -> Result<Op, Cause>
    ensures { ReadsOf members.now (Gives (λ op. op) result)
        (λ value. operation_named (codes "add_path") value) }
{
    let rs = number_of(members, Name::Rs)?;
    let path = text_of(members, Name::Path)?;
    let fs = fs_of(members)?;
    let path = PathText::read(alloc, path)?;
    Ok(Op::AddPath { rs, path, fs })
}

#[tactic(auto, unfolding(crate::specs::SaidByName::naming))]
fn open_of(alloc: Global, members: &Members<'_>) -> Result<Op, Cause>
    ensures { ReadsOf members.now (Gives (λ op. op) result)
        (λ value. operation_named (codes "open") value) }
{
    let path = text_of(members, Name::Path)?;
    let fd = number_of(members, Name::Fd)?;
    let mode = mode_of(members)?;
    let create = flag_of(members, Name::Create)?;
    let trunc = flag_of(members, Name::Trunc)?;
    let path = PathText::read(alloc, path)?;
    Ok(Op::OpenFile {
        path,
        fd,
        mode,
        create,
        trunc,
    })
}

#[tactic(auto, unfolding(crate::specs::SaidByName::naming))]
fn mknod_of(alloc: Global, members: &Members<'_>) -> Result<Op, Cause>
    ensures { ReadsOf members.now (Gives (λ op. op) result)
        (λ value. operation_named (codes "mknod") value) }
{
    let path = text_of(members, Name::Path)?;
    let kind = made_kind_of(members)?;
    let path = PathText::read(alloc, path)?;
    Ok(Op::Mknod { path, kind })
}

#[tactic(auto, unfolding(crate::specs::SaidByName::naming))]
fn rename_of(alloc: Global, members: &Members<'_>) -> Result<Op, Cause>
    ensures { ReadsOf members.now (Gives (λ op. op) result)
        (λ value. operation_named (codes "rename") value) }
{
    let from = text_of(members, Name::From)?;
    let to = text_of(members, Name::To)?;
    let exchange = flag_of(members, Name::Exchange)?;
    let from = PathText::read(alloc, from)?;
    let to = SecondPath::read(alloc, to)?;
    Ok(Op::Rename { from, to, exchange })
}

#[tactic(auto, unfolding(crate::specs::SaidByName::naming))]
fn link_of(alloc: Global, members: &Members<'_>) -> Result<Op, Cause>
    ensures { ReadsOf members.now (Gives (λ op. op) result)
        (λ value. operation_named (codes "link") value) }
{
    let from = text_of(members, Name::From)?;
    let to = text_of(members, Name::To)?;
    let from = PathText::read(alloc, from)?;
    let to = SecondPath::read(alloc, to)?;
    Ok(Op::Link { from, to })
}

impl Op {
    /// The operation's name, as the trace and the report spell it.
    #[tactic(auto, unfolding(crate::specs::Operations::op_name))]
    pub fn name(&self) -> &'static str
        ensures { result.now ≡ op_name self.now }
    {
        match self {
            Op::Start { .. } => "start",
            Op::Fork { .. } => "fork",
            Op::Exit => "exit",
            Op::Nnp => "nnp",
            Op::Create { .. } | Op::CreateEmpty { .. } => "create",
            Op::AddPath { .. } | Op::LeaveOutPath { .. } => "add_path",
            Op::AddPort { .. } | Op::LeaveOutPort => "add_port",
            Op::CloseRs { .. } => "close_rs",
            Op::Restrict { .. } => "restrict",
            Op::OpenFile { .. } => "open",
            Op::Adopt { .. } => "adopt",
            Op::Dup { .. } => "dup",
            Op::Close { .. } => "close",
            Op::Ftruncate { .. } => "ftruncate",
            Op::Truncate { .. } => "truncate",
            Op::Exec { .. } => "exec",
            Op::Mknod { .. } => "mknod",
            Op::Mkdir { .. } => "mkdir",
            Op::Symlink { .. } => "symlink",
            Op::Unlink { .. } => "unlink",
            Op::Rmdir { .. } => "rmdir",
            Op::Rename { .. } => "rename",
            Op::Link { .. } => "link",
            Op::Mount => "mount",
            Op::Bind { .. } => "bind",
            Op::Connect { .. } => "connect",
            Op::Ioctl { .. } => "ioctl",
        }
    }
}
