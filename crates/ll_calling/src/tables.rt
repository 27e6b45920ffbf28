//! The tables of rights.

ghost use Rattle.std.specs.Prelude.{◌≡◌, ◌++◌, IfOk, OnOk, flat_map};
ghost use Rattle.ll_calling.specs.Texts as texts;

use crate::groups::Grouped;
use crate::objects::Shown::{Files, Network, Number, Word};
use crate::objects::object_line;
use ll_rights::{Abi, Fs, Net};
use std::alloc::{AllocError, Global};

/// What a version knows.
#[tactic(auto, using(crate::proofs::Names::names_same))]
fn abi_line(alloc: Global, abi: Abi) -> Result<Vec<u8>, AllocError>
    ensures { IfOk result (λ line. line.items ≡ texts.abi_line abi) }
{
    let members = [
        ("abi", Number(abi.number())),
        ("fs", Files(abi.fs())),
        ("net", Network(abi.net())),
    ];
    object_line(alloc, &members)
}

/// What a group stands for.
#[tactic(auto, using(crate::proofs::Names::group_names, crate::proofs::Names::port_group_names))]
fn group_line(alloc: Global, name: &str) -> Result<Vec<u8>, AllocError>
    ensures { IfOk result (λ line. line.items ≡ texts.group_line name.now) }
{
    let members = [
        ("group", Word(name)),
        ("fs", Files(Fs::group(name).unwrap_or(Fs::NONE))),
        ("net", Network(Net::group(name).unwrap_or(Net::NONE))),
    ];
    object_line(alloc, &members)
}

/// What applies to what is no directory.
#[tactic(auto, unfolding(ll_rights::specs::Rights::named_rights))]
fn file_line(alloc: Global) -> Result<Vec<u8>, AllocError>
    ensures { IfOk result (λ line. line.items ≡ texts.file_line) }
{
    let members = [("of", Word("file")), ("fs", Files(Fs::FILE))];
    object_line(alloc, &members)
}

/// Puts what each version knows behind a text.
fn put_versions(alloc: Global, text: &mut Vec<u8>, versions: &[Abi]) -> Result<(), AllocError>
    ensures { OnOk result
        (text.new.items ≡ text.old.items ++ flat_map texts.abi_line versions.now) }
{
    for abi in versions {
        let line = abi_line(alloc, *abi)?;
        text.extend_from_slice(&line)?;
    }
    Ok(())
}

/// Puts what each group stands for behind a text.
fn put_groups(alloc: Global, text: &mut Vec<u8>, names: &[&str]) -> Result<(), AllocError>
    ensures { OnOk result (text.new.items ≡ text.old.items
        ++ flat_map (λ name. texts.group_line name.now) names.now) }
{
    for name in names {
        let line = group_line(alloc, *name)?;
        text.extend_from_slice(&line)?;
    }
    Ok(())
}

/// The tables of rights.
#[tactic(auto, unfolding(crate::specs::Texts::tables))]
pub(crate) fn tables(alloc: Global) -> Result<Vec<u8>, AllocError>
    ensures { IfOk result (λ text. text.items ≡ texts.tables) }
{
    let mut text = Vec::new(alloc);
    put_versions(alloc, &mut text, Abi::all())?;
    put_groups(alloc, &mut text, &["all", "read", "write", "execute"])?;
    let line = file_line(alloc)?;
    text.extend_from_slice(&line)?;
    Ok(text)
}
