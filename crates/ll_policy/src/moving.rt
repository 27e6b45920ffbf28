//! Moves between regions that pass under one of two policies and not under the other.

ghost use Rattle.std.specs.Prelude.{◌≡◌, ◌<◌, ◌+◌, ℕ, false, IfOk, None, filter, length, map, replicate};
ghost use Rattle.std.specs.List.{AllZip, list_all, range_with_len};
ghost use Rattle.ll_rights.specs.CodeRights.{fs_right};
ghost use Rattle.ll_rights.specs.Kinds.{make_right_of, remove_right_of};
ghost use Rattle.ll_rights.specs.Rights as for_files;
ghost use Rattle.ll_policy.specs.Chains as chains;
ghost use Rattle.ll_policy.specs.Chains.{is_file_in};
ghost use Rattle.ll_policy.specs.Policies.{rules_of};
ghost use Rattle.ll_policy.specs.Regions.{single};
ghost use Rattle.ll_policy.specs.Moving as specs;
ghost use Rattle.ll_policy.specs.FoundMoves.{all_kinds, spread_all, lets_move, passes_by, MovesNowhere, parent_in, may_be, moves_alone, beneath_alone, itself_alone, TellsMovers, TellsMovedTo, TellsMoves};

use crate::comparing::Compared;
use crate::deciding::{ROOT, is_file, passes};
use crate::each::made_of_each;
use crate::granting::Granting;
use crate::layer::Layer;
use crate::regions::in_regions;
use ll_rights::{Fs, FsRight, Kind, RightSet};
use std::alloc::{AllocError, Global};
use std::marker::Model;

/// Objects that one policy alone lets be moved to a region, by their numbers.
#[derive(Drop)]
pub struct Movers {
    /// Directories: what has no rule itself in the regions of these.
    pub beneath: Vec<usize>,
    /// Objects with rules.
    pub themselves: Vec<usize>,
}

/// What each policy alone lets be moved to a region.
#[derive(Drop)]
pub struct MovedTo {
    pub new: Movers,
    pub old: Movers,
}

/// The kinds of objects, in the order in which their moves are told.
fn kinds() -> &'static [Kind]
    ensures { result.now ≡ all_kinds }
{
    &[
        Kind::Reg,
        Kind::Sym,
        Kind::Char,
        Kind::Block,
        Kind::Fifo,
        Kind::Sock,
        Kind::Dir,
    ]
}

/// The right to make an object of a kind.
fn make_right(kind: Kind) -> FsRight
    ensures { fs_right result ≡ make_right_of kind }
{
    match kind {
        Kind::Dir => FsRight::MakeDir,
        Kind::Reg => FsRight::MakeReg,
        Kind::Sym => FsRight::MakeSym,
        Kind::Char => FsRight::MakeChar,
        Kind::Block => FsRight::MakeBlock,
        Kind::Fifo => FsRight::MakeFifo,
        Kind::Sock => FsRight::MakeSock,
    }
}

/// The right to remove an object of a kind.
fn remove_right(kind: Kind) -> FsRight
    ensures { fs_right result ≡ remove_right_of kind }
{
    match kind {
        Kind::Dir => FsRight::RemoveDir,
        _ => FsRight::RemoveFile,
    }
}

/// Whether a right applies to what is no directory.
fn is_file_right(right: FsRight) -> bool
    ensures { result ≡ for_files.is_file_right (fs_right right) }
{
    matches!(
        right,
        FsRight::Execute
            | FsRight::WriteFile
            | FsRight::ReadFile
            | FsRight::Truncate
            | FsRight::IoctlDev
    )
}

/// Whether objects of a kind may gain a right.
fn applies(kind: Kind, right: FsRight) -> bool
    ensures { result ≡ specs.applies kind (fs_right right) }
{
    match kind {
        Kind::Dir => true,
        _ => is_file_right(right),
    }
}

/// What layers say of moves of objects of a kind, in each region.
#[derive(Drop)]
struct Moving {
    make: Vec<Granting>,
    remove: Vec<Granting>,
    refer: Vec<Granting>,
    gained: Vec<Vec<Granting>>,
}

impl Model for Moving {
    ghost use Rattle.std.specs.Prelude.{map};
    ghost use Rattle.ll_policy.specs.Moving.{MoveGranting};

    ghost Value = { MoveGranting };

    ghost view = { λ a. record {
      make = a.make.items;
      remove = a.remove.items;
      refer = a.refer.items;
      gained = map (λ layers. layers.items) a.gained.items;
    } };
}

/// The same of each right that objects of a kind may gain.
fn gained_in_regions(
    alloc: Global,
    kind: Kind,
    parents: &[usize],
    layers: &[Layer],
) -> Result<Vec<Vec<Granting>>, AllocError>
    ensures { IfOk result (λ made. map (λ layers. layers.items) made.items
        ≡ (spread_all parents.now (specs.about_moves kind (map rules_of layers.now))).gained) }
{
    let mut made = Vec::new(alloc);
    for right in FsRight::all() {
        if applies(kind, *right) {
            made.push(in_regions(alloc, parents, layers, *right)?)?;
        }
    }
    Ok(made)
}

/// Whether an object has a right already in a layer, if it has it in a directory and the layer handles it.
#[tactic(auto, using(crate::proofs::MovesInRegions::one_among), unfolding(crate::specs::Moving::gains_nothing))]
fn gains_nothing(object: usize, to: usize, layer: &Granting) -> bool
    ensures { result ≡ specs.gains_nothing (single object) (single to) layer.now }
{
    !(layer.handles() && layer.grants_on(to)) || layer.grants_on(object)
}

/// The same of each layer.
fn gains_nothing_by_all(object: usize, to: usize, layers: &[Granting]) -> bool
    ensures { result ≡ list_all (specs.gains_nothing (single object) (single to)) layers.now }
{
    layers.iter().all(|layer| gains_nothing(object, to, layer))
}

/// The same of each right.
fn gains_none(object: usize, to: usize, rights: &[Vec<Granting>]) -> bool
    ensures { result
        ≡ list_all (λ layers. list_all (specs.gains_nothing (single object) (single to))
        layers.items) rights.now }
{
    rights
        .iter()
        .all(|layers| gains_nothing_by_all(object, to, layers))
}

impl Moving {
    /// What layers say of moves of objects of a kind.
    fn of(
        alloc: Global,
        kind: Kind,
        parents: &[usize],
        layers: &[Layer],
    ) -> Result<Moving, AllocError>
        ensures { IfOk result (λ made. made
            ≡ spread_all parents.now (specs.about_moves kind (map rules_of layers.now))) }
    {
        let make = in_regions(alloc, parents, layers, make_right(kind))?;
        let remove = in_regions(alloc, parents, layers, remove_right(kind))?;
        let refer = in_regions(alloc, parents, layers, FsRight::Refer)?;
        let gained = gained_in_regions(alloc, kind, parents, layers)?;
        Ok(Moving {
            make,
            remove,
            refer,
            gained,
        })
    }

    /// Whether objects may come to a region.
    #[tactic(auto, unfolding(crate::specs::Moving::comes))]
    fn comes(&self, to: usize) -> bool
        ensures { result ≡ specs.comes self.now (single to) }
    {
        let chain = [to];
        passes(&chain, &self.make) && passes(&chain, &self.refer)
    }

    /// Whether an object gains no right by a move.
    #[tactic(auto, using(crate::proofs::Lists::all_of_mapped), unfolding(crate::specs::Moving::gains_none))]
    fn gains_none(&self, object: usize, to: usize) -> bool
        ensures { result ≡ specs.gains_none (single object) (single to) self.now.gained }
    {
        gains_none(object, to, &self.gained)
    }

    /// Whether a link passes.
    #[tactic(auto, unfolding(crate::specs::Moving::link_passes))]
    fn link_passes(&self, object: usize, from: usize, to: usize) -> bool
        ensures { result ≡ specs.link_passes self.now (single object) (single from) (single to) }
    {
        self.comes(to) && passes(&[from], &self.refer) && self.gains_none(object, to)
    }

    /// Whether a rename passes.
    #[tactic(auto, unfolding(crate::specs::Moving::rename_passes))]
    fn rename_passes(&self, object: usize, from: usize, to: usize) -> bool
        ensures { result ≡ specs.rename_passes self.now (single object) (single from) (single to) }
    {
        self.link_passes(object, from, to) && passes(&[from], &self.remove)
    }

    /// Whether an object of a kind may be moved.
    #[tactic(auto, unfolding(crate::specs::Moving::move_passes))]
    fn passes(&self, kind: Kind, object: usize, from: usize, to: usize) -> bool
        ensures { result
            ≡ specs.move_passes kind self.now (single object) (single from) (single to) }
    {
        match kind {
            Kind::Dir => self.rename_passes(object, from, to),
            _ => self.link_passes(object, from, to),
        }
    }
}

/// What an object is in.
fn parent_in(parents: &[usize], object: usize) -> usize
    ensures { result ≡ parent_in parents.now object }
{
    if object == ROOT {
        return ROOT;
    }
    parents.get(object - 1).copied().unwrap_or(ROOT)
}

/// Whether an object may be one of a kind that is moved.
fn may_be(files: &[bool], kind: Kind, object: usize) -> bool
    ensures { result ≡ may_be (is_file_in files.now) kind object }
{
    if object == ROOT {
        return false;
    }
    match kind {
        Kind::Dir => !is_file(files, object),
        _ => is_file(files, object),
    }
}

/// What two policies say of moves of objects of a kind.
#[derive(Clone, Copy)]
struct Sides<'a> {
    files: &'a [bool],
    parents: &'a [usize],
    kind: Kind,
    one: &'a Moving,
    other: &'a Moving,
}

impl Sides<'_> {
    /// Whether the one policy lets an object be moved and the other doesn't.
    fn moves_alone(&self, object: usize, from: usize, to: usize) -> bool
        ensures { result
            ≡ moves_alone (passes_by self.now.kind self.now.one.now)
            (passes_by self.now.kind self.now.other.now) object from to }
    {
        self.one.passes(self.kind, object, from, to)
            && !self.other.passes(self.kind, object, from, to)
    }

    /// Whether that is so of an object without rules in the region of a directory.
    fn beneath_alone(&self, to: usize, directory: usize) -> bool
        ensures { result
            ≡ beneath_alone (is_file_in self.now.files.now)
            (passes_by self.now.kind self.now.one.now)
            (passes_by self.now.kind self.now.other.now) to directory }
    {
        !is_file(self.files, directory) && self.moves_alone(directory, directory, to)
    }

    /// Whether that is so of an object with rules.
    fn itself_alone(&self, to: usize, object: usize) -> bool
        ensures { result
            ≡ itself_alone (is_file_in self.now.files.now) self.now.parents.now self.now.kind
            (passes_by self.now.kind self.now.one.now)
            (passes_by self.now.kind self.now.other.now) to object }
    {
        may_be(self.files, self.kind, object)
            && self.moves_alone(object, parent_in(self.parents, object), to)
    }

    /// Of so many objects the directories in whose regions the one policy alone lets objects be moved.
    fn beneath(&self, alloc: Global, count: usize, to: usize) -> Result<Vec<usize>, AllocError>
        ensures { IfOk result (λ found. found.items
            ≡ filter (beneath_alone (is_file_in self.now.files.now)
            (passes_by self.now.kind self.now.one.now)
            (passes_by self.now.kind self.now.other.now) to) (range_with_len 0 count)) }
    {
        (0..count)
            .filter(|directory| self.beneath_alone(to, *directory))
            .collect(alloc)
    }

    /// Of so many objects those with rules that the one policy alone lets be moved.
    fn themselves(&self, alloc: Global, count: usize, to: usize) -> Result<Vec<usize>, AllocError>
        ensures { IfOk result (λ found. found.items
            ≡ filter (itself_alone (is_file_in self.now.files.now) self.now.parents.now
            self.now.kind (passes_by self.now.kind self.now.one.now)
            (passes_by self.now.kind self.now.other.now) to) (range_with_len 0 count)) }
    {
        (0..count)
            .filter(|object| self.itself_alone(to, *object))
            .collect(alloc)
    }

    /// What the one policy alone lets be moved to a region.
    fn movers(&self, alloc: Global, to: usize) -> Result<Movers, AllocError>
        ensures { IfOk result (TellsMovers (is_file_in self.now.files.now) self.now.parents.now
            self.now.kind (passes_by self.now.kind self.now.one.now)
            (passes_by self.now.kind self.now.other.now) to) }
    {
        let count = self.parents.len() + 1;
        Ok(Movers {
            beneath: self.beneath(alloc, count, to)?,
            themselves: self.themselves(alloc, count, to)?,
        })
    }

    /// What each policy alone lets be moved to a region, if that is of a directory to which one of them lets objects
    /// come. The one policy is the old one.
    #[tactic(auto, using(crate::proofs::MovesInRegions::nothing_comes))]
    fn moved_to(&self, alloc: Global, to: usize) -> Result<Option<MovedTo>, AllocError>
        ensures { IfOk result (TellsMovedTo (is_file_in self.now.files.now) self.now.parents.now
            self.now.kind (passes_by self.now.kind self.now.one.now)
            (passes_by self.now.kind self.now.other.now) to) }
    {
        if is_file(self.files, to) {
            return Ok(None);
        }
        if !self.one.comes(to) && !self.other.comes(to) {
            return Ok(None);
        }
        let turned = Sides {
            one: self.other,
            other: self.one,
            ..*self
        };
        Ok(Some(MovedTo {
            new: turned.movers(alloc, to)?,
            old: self.movers(alloc, to)?,
        }))
    }

    /// The same of each of so many regions.
    fn moved_to_each(&self, alloc: Global, count: usize) -> Result<Vec<Option<MovedTo>>, AllocError>
        ensures { IfOk result (λ found. AllZip
            (TellsMovedTo (is_file_in self.now.files.now) self.now.parents.now self.now.kind
            (passes_by self.now.kind self.now.one.now)
            (passes_by self.now.kind self.now.other.now)) (range_with_len 0 count) found.items) }
    {
        let mut found = Vec::new(alloc);
        for to in 0..count {
            found.push(self.moved_to(alloc, to)?)?;
        }
        Ok(found)
    }
}

/// The moves of objects of a kind that one policy alone lets pass, by the regions that they come to.
fn moves_of(
    alloc: Global,
    files: &[bool],
    parents: &[usize],
    old: &[Layer],
    new: &[Layer],
    kind: Kind,
) -> Result<Vec<Option<MovedTo>>, AllocError>
    ensures { IfOk result (λ found. AllZip
        (TellsMovedTo (is_file_in files.now) parents.now kind
        (lets_move parents.now kind (map rules_of old.now))
        (lets_move parents.now kind (map rules_of new.now)))
        (range_with_len 0 (length parents.now + 1)) found.items) }
{
    let old = Moving::of(alloc, kind, parents, old)?;
    let new = Moving::of(alloc, kind, parents, new)?;
    let sides = Sides {
        files,
        parents,
        kind,
        one: &old,
        other: &new,
    };
    Ok(sides.moved_to_each(alloc, parents.len() + 1)?)
}

/// Whether a right passes in one of so many regions.
fn passes_somewhere(count: usize, layers: &[Granting]) -> bool
    ensures { result ≡ false
        → (region : ℕ) → region < count → chains.passes layers.now (single region) ≡ false }
{
    for region in 0..count {
        if passes(&[region], layers) {
            return true;
        }
    }
    false
}

/// Whether objects may leave a directory, or come to another, in some region.
fn moves_somewhere(alloc: Global, parents: &[usize], layers: &[Layer]) -> Result<bool, AllocError>
    ensures { IfOk result (λ some. some ≡ false
        → MovesNowhere parents.now (map rules_of layers.now)) }
{
    let refer = in_regions(alloc, parents, layers, FsRight::Refer)?;
    Ok(passes_somewhere(parents.len() + 1, &refer))
}

/// That nothing is moved to any of so many regions.
#[tactic(auto, using(std::proofs::lemmas::List::replicate_more))]
fn nothing_moved(alloc: Global, count: usize) -> Result<Vec<Option<MovedTo>>, AllocError>
    ensures { IfOk result (λ found. found.items ≡ replicate count None) }
{
    let mut found = Vec::new(alloc);
    for _ in 0..count {
        found.push(None)?;
    }
    Ok(found)
}

impl Compared<'_> {
    /// The same of a kind that is asked about, and nothing of others. If it is known that no policy lets anything be
    /// moved, no region is looked at.
    #[tactic(auto, using(crate::proofs::MovesInRegions::told_of_nothing))]
    fn moves_asked(
        &self,
        alloc: Global,
        asked: Fs,
        parents: &[usize],
        somewhere: bool,
        kind: Kind,
    ) -> Result<Vec<Option<MovedTo>>, AllocError>
        requires old { somewhere ≡ false
            → MovesNowhere parents.now (map rules_of self.now.old.now) }
        requires new { somewhere ≡ false
            → MovesNowhere parents.now (map rules_of self.now.new.now) }
        ensures { IfOk result (TellsMoves asked (is_file_in self.now.files.now) parents.now
            (map rules_of self.now.old.now) (map rules_of self.now.new.now) kind) }
    {
        if !asked.has(make_right(kind)) {
            return Ok(Vec::new(alloc));
        }
        if !somewhere {
            return Ok(nothing_moved(alloc, parents.len() + 1)?);
        }
        moves_of(alloc, self.files, parents, self.old, self.new, kind)
    }

    /// The moves between regions that one policy alone lets pass: for each kind of objects, if the right to make one is
    /// asked about, those to each region.
    pub fn moves_between_regions(
        &self,
        alloc: Global,
        asked: Fs,
        parents: &[usize],
    ) -> Result<Vec<Vec<Option<MovedTo>>>, AllocError>
        ensures { IfOk result (λ found. AllZip
            (TellsMoves asked (is_file_in self.now.files.now) parents.now
            (map rules_of self.now.old.now) (map rules_of self.now.new.now))
            all_kinds found.items) }
    {
        let somewhere = moves_somewhere(alloc, parents, self.old)?
            || moves_somewhere(alloc, parents, self.new)?;
        Ok(made_of_each(alloc, kinds(), |kind| {
            self.moves_asked(alloc, asked, parents, somewhere, *kind)
        })?)
    }
}
