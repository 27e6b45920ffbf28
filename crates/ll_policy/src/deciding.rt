//! Whether new layers let more pass than an old one.

ghost use Rattle.std.specs.Prelude.{◌≡◌, ◌≢◌, ◌||◌, [], not, true, false, None, IfOk};
ghost use Rattle.ll_policy.specs.Chains.{is_among, lets, some_among, passes, AreDirectories, Tells, is_file_in, places_of};
ghost use Rattle.std.specs.List.{AllZip};
ghost use Rattle.ll_policy.specs.Choices.{are_within, is_narrow, narrow_ones, some_grants, all_grant, is_open, open_file, counts, is_extra, is_further, AreBelow, IsChainOfExtra, is_enough, enough_of};
ghost use Rattle.ll_policy.specs.Found.{TellsSingle};

use crate::each::made_of_each;
use crate::granting::Granting;
use std::alloc::{AllocError, Global};

/// The number of the root, which is on each way up.
pub const ROOT: usize = 0;

/// Whether an object is a file.
pub(crate) fn is_file(files: &[bool], object: usize) -> bool
    ensures { result ≡ is_file_in files.now object }
{
    files.get(object).copied().unwrap_or(true)
}

/// Whether an object is a file, or the old layer grants on it, if a new layer does.
fn is_held(files: &[bool], old: &Granting, object: usize, granted: bool) -> bool
    ensures { result
        ≡ (not granted || (is_file_in files.now object || is_among object old.now.grants)) }
{
    !granted || is_file(files, object) || old.grants_on(object)
}

/// Whether each directory that is marked is one that the old layer grants on.
#[tactic(auto, using(crate::proofs::Marks::walked_more, crate::proofs::Marks::walked_all), unfolding(crate::specs::Choices::are_within))]
fn are_held(files: &[bool], old: &Granting, on: &[bool]) -> bool
    ensures { result
        ≡ are_within (is_file_in files.now) (places_of on.now) old.now.grants }
{
    for object in 0..on.len() {
        if !is_held(files, old, object, on[object]) {
            return false;
        }
    }
    true
}

/// Whether a new layer handles the right and grants it on no other directory than an old one.
#[tactic(auto, unfolding(crate::specs::Choices::is_narrow))]
fn is_narrow(files: &[bool], old: &Granting, new: &Granting) -> bool
    ensures { result ≡ is_narrow (is_file_in files.now) old.now new.now }
{
    new.handles() && are_held(files, old, new.on())
}

/// The new layers that are narrow beside an old one.
#[tactic(auto, unfolding(crate::specs::Choices::narrow_ones))]
pub(crate) fn narrow_ones(
    alloc: Global,
    files: &[bool],
    old: &Granting,
    new: &[Granting],
) -> Result<Vec<Granting>, AllocError>
    ensures { IfOk result (λ narrow. narrow.items
        ≡ narrow_ones (is_file_in files.now) old.now new.now) }
{
    let mut narrow = Vec::new(alloc);
    for layer in new {
        if is_narrow(files, old, layer) {
            narrow.push(layer.copied()?)?;
        }
    }
    Ok(narrow)
}

/// Whether some layer grants on an object.
#[tactic(auto, unfolding(crate::specs::Choices::some_grants))]
fn some_grants(layers: &[Granting], object: usize) -> bool
    ensures { result ≡ some_grants layers.now object }
{
    layers.iter().any(|layer| layer.grants_on(object))
}

/// Whether each layer grants on an object.
#[tactic(auto, unfolding(crate::specs::Choices::all_grant))]
fn all_grant(layers: &[Granting], object: usize) -> bool
    ensures { result ≡ all_grant layers.now object }
{
    layers.iter().all(|layer| layer.grants_on(object))
}

/// Whether an object is a file that all narrow layers grant on and the old one doesn't.
#[tactic(auto, unfolding(crate::specs::Choices::is_open))]
fn is_open(files: &[bool], old: &Granting, narrow: &[Granting], object: usize) -> bool
    ensures { result ≡ is_open (is_file_in files.now) old.now narrow.now object }
{
    is_file(files, object) && !old.grants_on(object) && all_grant(narrow, object)
}

/// The first file that all narrow layers grant on and the old one doesn't.
#[tactic(auto, using(crate::proofs::Marks::sought_more, crate::proofs::Marks::sought_all), unfolding(crate::specs::Choices::open_file))]
pub(crate) fn open_file(files: &[bool], old: &Granting, narrow: &[Granting]) -> Option<usize>
    ensures { result ≡ open_file (is_file_in files.now) old.now narrow.now }
{
    let Some(first) = narrow.first() else {
        return None;
    };
    let on = first.on();
    for object in 0..on.len() {
        if on[object] && is_open(files, old, narrow, object) {
            return Some(object);
        }
    }
    None
}

/// Whether an object may be on a chain with a file, or with none.
fn counts(files: &[bool], file: Option<usize>, object: usize) -> bool
    ensures { result ≡ counts (is_file_in files.now) file object }
{
    match file {
        None => !is_file(files, object),
        Some(file) => !is_file(files, object) || file == object,
    }
}

/// Whether new layers grant on an object that counts, and the old one doesn't.
#[tactic(auto, unfolding(crate::specs::Choices::is_extra))]
fn is_extra(
    files: &[bool],
    file: Option<usize>,
    old: &Granting,
    new: &[Granting],
    object: usize,
) -> bool
    ensures { result ≡ is_extra (is_file_in files.now) file old.now new.now object }
{
    counts(files, file, object) && !old.grants_on(object) && some_grants(new, object)
}

/// Whether an object is one of some.
#[tactic(auto, unfolding(crate::specs::Chains::is_among))]
fn is_among(object: usize, objects: &[usize]) -> bool
    ensures { result ≡ is_among object objects.now }
{
    objects.iter().any(|own| object == *own)
}

/// Whether an object is extra and none of some objects.
#[tactic(auto, unfolding(crate::specs::Choices::is_further))]
fn is_further(
    files: &[bool],
    always: &[usize],
    file: Option<usize>,
    old: &Granting,
    new: &[Granting],
    object: usize,
) -> bool
    ensures { result
        ≡ is_further (is_file_in files.now) always.now file old.now new.now object }
{
    is_extra(files, file, old, new, object) && !is_among(object, always)
}

/// A number above those of all objects that some layers grant on.
fn bound_of(layers: &[Granting]) -> usize
    ensures { AreBelow result layers.now }
{
    let mut bound = 0;
    for layer in layers {
        bound = bound.max(layer.bound());
    }
    bound
}

/// Some objects, and all else that is extra.
fn chain_of(
    alloc: Global,
    files: &[bool],
    always: &[usize],
    file: Option<usize>,
    old: &Granting,
    new: &[Granting],
) -> Result<Vec<usize>, AllocError>
    ensures { IfOk result (λ chain.
        IsChainOfExtra (is_file_in files.now) always.now file old.now new.now chain.items) }
{
    let bound = bound_of(new);
    let mut chain = always.to_vec(alloc)?;
    for object in 0..bound {
        if is_further(files, always, file, old, new, object) {
            chain.push(object)?;
        }
    }
    Ok(chain)
}

/// Whether some object of a chain is one that a layer grants on.
#[tactic(auto, unfolding(crate::specs::Chains::some_among))]
fn some_among(chain: &[usize], layer: &Granting) -> bool
    ensures { result ≡ some_among chain.now layer.now.grants }
{
    chain.iter().any(|object| layer.grants_on(*object))
}

/// Whether a layer lets a chain pass.
#[tactic(auto, unfolding(crate::specs::Chains::lets))]
fn lets(chain: &[usize], layer: &Granting) -> bool
    ensures { result ≡ lets chain.now layer.now }
{
    !layer.handles() || some_among(chain, layer)
}

/// Whether some layer is narrow, and they leave no file open.
pub(crate) fn is_closed(narrow: &[Granting], file: Option<usize>) -> bool
    ensures closed { result ≡ true → (narrow.now ≢ []) × (file ≡ None) }
    ensures open_to { result ≡ false → file ≡ None → narrow.now ≡ [] }
{
    !narrow.is_empty() && file.is_none()
}

/// A chain of objects that new layers let pass and an old one doesn't, if there is one: of those that have some
/// directories on them, as the root is on each way up. It has these, and all directories that some new layer grants on
/// and the old one doesn't; if the new layers let more pass on files alone, it has such a file too.
pub fn excess(
    alloc: Global,
    files: &[bool],
    always: &[usize],
    old: &Granting,
    new: &[Granting],
) -> Result<Option<Vec<usize>>, AllocError>
    requires { AreDirectories (is_file_in files.now) always.now }
    ensures { IfOk result (Tells (is_file_in files.now) always.now new.now old.now) }
{
    if lets(always, old) {
        return Ok(None);
    }
    let narrow = narrow_ones(alloc, files, old, new)?;
    let file = open_file(files, old, &narrow);
    if is_closed(&narrow, file) {
        return Ok(None);
    }
    let chain = chain_of(alloc, files, always, file, old, new)?;
    Ok(Some(chain))
}

/// For each of some old layers, a chain that the new layers let pass and it doesn't, if there is one.
pub fn excesses(
    alloc: Global,
    files: &[bool],
    always: &[usize],
    old: &[Granting],
    new: &[Granting],
) -> Result<Vec<Option<Vec<usize>>>, AllocError>
    requires { AreDirectories (is_file_in files.now) always.now }
    ensures { IfOk result (λ found.
        AllZip (Tells (is_file_in files.now) always.now new.now) old.now found.items) }
{
    Ok(made_of_each(alloc, old, |layer| {
        excess(alloc, files, always, layer, new)
    })?)
}

/// Whether each layer lets a chain pass.
#[tactic(auto, unfolding(crate::specs::Chains::passes))]
pub(crate) fn passes(chain: &[usize], layers: &[Granting]) -> bool
    ensures { result ≡ passes layers.now chain.now }
{
    layers.iter().all(|layer| lets(chain, layer))
}

/// Whether new layers let the right pass by the rules on an object and on the root, and an old one doesn't.
#[tactic(auto, unfolding(crate::specs::Choices::is_enough))]
fn is_enough(old: &Granting, new: &[Granting], object: usize) -> bool
    ensures { result ≡ is_enough old.now new.now object }
{
    let chain = [ROOT, object];
    !lets(&chain, old) && passes(&chain, new)
}

/// Of so many objects those by each of which new layers let the right pass, and an old one doesn't.
#[tactic(auto, unfolding(crate::specs::Choices::enough_of))]
fn enough_of(
    alloc: Global,
    count: usize,
    old: &Granting,
    new: &[Granting],
) -> Result<Vec<usize>, AllocError>
    ensures { IfOk result (TellsSingle count new.now old.now) }
{
    (0..count)
        .filter(|object| is_enough(old, new, *object))
        .collect(alloc)
}

/// The same for each of some old layers.
pub(crate) fn each_enough(
    alloc: Global,
    count: usize,
    old: &[Granting],
    new: &[Granting],
) -> Result<Vec<Vec<usize>>, AllocError>
    ensures { IfOk result (λ found. AllZip (TellsSingle count new.now) old.now found.items) }
{
    Ok(made_of_each(alloc, old, |layer| { enough_of(alloc, count, layer, new) })?)
}
