//! Whether objects gain rights in new layers where they do in an old one.

ghost use Rattle.std.specs.Prelude.{◌≡◌, ◌&&◌, not, IfOk, MatchOption};
ghost use Rattle.std.specs.List.{AllZip};
ghost use Rattle.ll_policy.specs.Chains.{AreDirectories, Tells, is_among, is_file_in};
ghost use Rattle.ll_policy.specs.Choices.{narrow_ones};
ghost use Rattle.ll_policy.specs.Gains.{granting_there, IsGain, KeepsGainsInto, TellsGain};
ghost use Rattle.ll_policy.specs.Granted.{root};

use crate::deciding::{ROOT, excess, is_closed, is_file, narrow_ones, open_file};
use crate::each::made_of_each;
use crate::granting::Granting;
use std::alloc::{AllocError, Global};

/// A directory into which objects may be moved under new layers and not under an old one.
#[derive(Drop)]
pub struct Gain {
    /// The directory, on which the old layer grants the right.
    pub directory: usize,
    /// Objects on which the old layer doesn't grant the right, and each new layer that grants it on the directory
    /// does. What is under them gains the right in the old layer alone.
    pub chain: Vec<usize>,
}

/// The layers that grant on a directory.
#[tactic(auto, unfolding(crate::specs::Gains::granting_there))]
fn granting_there(
    alloc: Global,
    directory: usize,
    layers: &[Granting],
) -> Result<Vec<Granting>, AllocError>
    ensures { IfOk result (λ found. found.items ≡ granting_there directory layers.now) }
{
    let mut found = Vec::new(alloc);
    for layer in layers {
        if layer.grants_on(directory) {
            found.push(layer.copied()?)?;
        }
    }
    Ok(found)
}

/// What an old layer and new ones say of a right.
#[derive(Clone, Copy)]
struct Beside<'a> {
    files: &'a [bool],
    old: &'a Granting,
    new: &'a [Granting],
    /// The new layers that are narrow beside the old one.
    narrow: &'a [Granting],
    ghost has_root: { AreDirectories (is_file_in files.now) root },
    ghost are_narrow: { narrow.now ≡ narrow_ones (is_file_in files.now) old.now new.now },
}

impl Beside<'_> {
    /// A chain that new layers which grant on a directory let pass and the old one doesn't, if there is one.
    fn gain_at(&self, alloc: Global, directory: usize) -> Result<Option<Vec<usize>>, AllocError>
        ensures { IfOk result (Tells (is_file_in self.now.files.now) root
            (granting_there directory self.now.new.now) self.now.old.now) }
    {
        let narrow_there = granting_there(alloc, directory, self.narrow)?;
        let file = open_file(self.files, self.old, &narrow_there);
        if is_closed(&narrow_there, file) {
            return Ok(None);
        }
        let there = granting_there(alloc, directory, self.new)?;
        excess(alloc, self.files, &[ROOT], self.old, &there)
    }

    /// Whether an object is a directory on which the old layer grants the right.
    fn is_asked(&self, directory: usize) -> bool
        ensures { result ≡ (is_among directory self.now.old.now.grants
            && not (is_file_in self.now.files.now directory)) }
    {
        self.old.grants_on(directory) && !is_file(self.files, directory)
    }

    /// Whether something may gain the right in one directory in the old layer and in no new one.
    fn gain_into(&self, alloc: Global, directory: usize) -> Result<Option<Gain>, AllocError>
        ensures { IfOk result (λ found. MatchOption found (KeepsGainsInto
            (is_file_in self.now.files.now) self.now.new.now self.now.old.now directory)
            (IsGain (is_file_in self.now.files.now) self.now.new.now self.now.old.now)) }
    {
        if !self.is_asked(directory) {
            return Ok(None);
        }
        match self.gain_at(alloc, directory)? {
            None => Ok(None),
            Some(chain) => Ok(Some(Gain { directory, chain })),
        }
    }
}

/// The first directory on which an old layer grants the right, and into which something may gain it there and in no
/// new layer.
pub fn first_gain(
    alloc: Global,
    files: &[bool],
    old: &Granting,
    new: &[Granting],
) -> Result<Option<Gain>, AllocError>
    requires { AreDirectories (is_file_in files.now) root }
    ensures { IfOk result (TellsGain (is_file_in files.now) new.now old.now) }
{
    let narrow = narrow_ones(alloc, files, old, new)?;
    let beside = Beside {
        files,
        old,
        new,
        narrow: &narrow,
    };
    for directory in 0..old.bound() {
        let found = beside.gain_into(alloc, directory)?;
        if found.is_some() {
            return Ok(found);
        }
    }
    Ok(None)
}

/// The same for each of some old layers.
pub fn gains(
    alloc: Global,
    files: &[bool],
    old: &[Granting],
    new: &[Granting],
) -> Result<Vec<Option<Gain>>, AllocError>
    requires { AreDirectories (is_file_in files.now) root }
    ensures { IfOk result (λ found.
        AllZip (TellsGain (is_file_in files.now) new.now) old.now found.items) }
{
    Ok(made_of_each(alloc, old, |layer| { first_gain(alloc, files, layer, new) })?)
}
