//! Two policies compared, with each right.

ghost use Rattle.std.specs.Prelude.{◌≡◌, IfOk, Ok, length, map};
ghost use Rattle.std.specs.Fn.{FnReturnsAtPair};
ghost use Rattle.std.specs.List.{AllZip};
ghost use Rattle.ll_rights.specs.CodeRights.{fs_right};
ghost use Rattle.ll_rights.specs.Rights as for_files;
ghost use Rattle.ll_policy.specs.Chains.{AreDirectories, Tells, is_file_in};
ghost use Rattle.ll_policy.specs.Found.{TellsSingle, OfEach, said};
ghost use Rattle.ll_policy.specs.Gains.{TellsGain};
ghost use Rattle.ll_policy.specs.Granted.{root};
ghost use Rattle.ll_policy.specs.Policies.{rules_of};

use crate::deciding::{ROOT, each_enough, excesses};
use crate::gaining::{Gain, gains};
use crate::granting::{Granting, all_on_objects};
use crate::layer::Layer;
use ll_rights::{Fs, FsRight, RightSet};
use std::alloc::{AllocError, Global};

/// What the layers of a policy say of a right for files, if it is asked about; else nothing.
fn said_if_asked(
    alloc: Global,
    asked: Fs,
    layers: &[Layer],
    right: FsRight,
) -> Result<Vec<Granting>, AllocError>
    ensures { IfOk result (λ found. found.items
        ≡ said asked (fs_right right) (map rules_of layers.now)) }
{
    if asked.has(right) {
        return all_on_objects(alloc, layers, right);
    }
    Ok(Vec::new(alloc))
}

/// What is found of each right for files, of what old layers and new ones say of it, if it is asked about.
fn found_of_each<T: Drop, F: Fn(&[Granting], &[Granting]) -> Result<Vec<T>, AllocError>>(
    alloc: Global,
    asked: Fs,
    old: &[Layer],
    new: &[Layer],
    compare: F,
) -> Result<Vec<Vec<T>>, AllocError>
    requires { F.IsAlwaysCallable compare }
    ensures { IfOk result (λ found. AllZip
        (λ right told. FnReturnsAtPair F.Fn compare (said asked right (map rules_of old.now))
        (said asked right (map rules_of new.now)) (Ok told))
        for_files.all_rights found.items) }
{
    let mut found = Vec::new(alloc);
    for right in FsRight::all() {
        let old = said_if_asked(alloc, asked, old, *right)?;
        let new = said_if_asked(alloc, asked, new, *right)?;
        found.push(compare(&old, &new)?)?;
    }
    Ok(found)
}

/// Two policies that are compared with each right for files that is asked about, and which objects are files.
#[derive(Clone, Copy)]
pub struct Compared<'a> {
    pub files: &'a [bool],
    pub old: &'a [Layer],
    pub new: &'a [Layer],
}

impl Compared<'_> {
    /// What new layers let pass on objects and old ones don't: for each right and, if it is asked about, each old
    /// layer.
    pub fn more_on_objects(
        &self,
        alloc: Global,
        asked: Fs,
    ) -> Result<Vec<Vec<Option<Vec<usize>>>>, AllocError>
        requires { AreDirectories (is_file_in self.now.files.now) root }
        ensures { IfOk result (OfEach (Tells (is_file_in self.now.files.now) root)
            asked self.now.old.now self.now.new.now) }
    {
        Ok(found_of_each(alloc, asked, self.old, self.new, |old, new| {
            excesses(alloc, self.files, &[ROOT], old, new)
        })?)
    }

    /// The objects by each of which new layers let a right pass and old ones don't: for each right and, if it is asked
    /// about, each old layer.
    pub fn more_on_single_objects(
        &self,
        alloc: Global,
        asked: Fs,
    ) -> Result<Vec<Vec<Vec<usize>>>, AllocError>
        ensures { IfOk result (OfEach (TellsSingle (length self.now.files.now))
            asked self.now.old.now self.now.new.now) }
    {
        let count = self.files.len();
        Ok(found_of_each(alloc, asked, self.old, self.new, |old, new| {
            each_enough(alloc, count, old, new)
        })?)
    }

    /// What gains a right in an old layer and in no new one: for each right and, if it is asked about, each old layer.
    pub fn more_gains(&self, alloc: Global, asked: Fs) -> Result<Vec<Vec<Option<Gain>>>, AllocError>
        requires { AreDirectories (is_file_in self.now.files.now) root }
        ensures { IfOk result (OfEach (TellsGain (is_file_in self.now.files.now))
            asked self.now.old.now self.now.new.now) }
    {
        Ok(found_of_each(alloc, asked, self.old, self.new, |old, new| {
            gains(alloc, self.files, old, new)
        })?)
    }
}
