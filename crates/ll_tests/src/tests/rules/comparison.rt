//! The checks by lanes against the plain ones, over a table of domains, nodes and sets.

ghost use Rattle.std.specs.Prelude.{◌≡◌, IfOk};
ghost use Rattle.ll_tree.specs.Trees.{IsNode};
ghost use Rattle.ll_rules.specs.{Grants.AreGrants, InTree.IsTargetIn};

use crate::tests::rules::numbers::Numbers;
use crate::tests::rules::ready::node_named;
use bitflags::Flags;
use ll_fixtures::{Attempt, Call, PlainLayer, Refusing, Sandbox, answer, refusing};
use ll_rights::{Fs, Kind, Net};
use ll_rules::{
    Errno, Grants, How, KnownLayers, LayerId, LayerSet, Move, Target, Verdict, check_move,
    check_move_by, check_move_counted, check_path, check_path_by, check_path_counted, entering,
    grants_of, lacks_by, leaving,
};
use ll_tree::{NodeId, Tree};
use std::alloc::{AllocError, Global};
use std::test::Fail;

/// How many numbers of nodes the filter of a layer tells apart: those that differ by a multiple share a mark.
const MARKS: usize = 4096;

/// How many objects the tree has, the root included.
const OBJECTS: usize = 4600;

/// How many of them, the first, have objects in them: three each.
const PARENTS: usize = 1533;

/// How many rules are tried for a layer. Those are added of which a right is left that it handles.
const TRIED: u32 = 256;

/// Lists an object in the directory of another number.
fn list_in(
    alloc: Global,
    paths: &mut Vec<String>,
    directory: usize,
    number: usize,
) -> Result<(), AllocError> {
    if let Some(above) = paths.get(directory) {
        let path = format!(in alloc; "{above}/{number}")?;
        paths.push(path)?;
    }
    Ok(())
}

/// The paths of a tree with more nodes than a filter has marks, in the order of their numbers, that of the root empty.
fn listed_paths(alloc: Global) -> Result<Vec<String>, AllocError> {
    let mut paths = Vec::new(alloc);
    paths.push(String::new(alloc))?;
    for number in 1..OBJECTS {
        list_in(alloc, &mut paths, (number - 1) / 3, number)?;
    }
    Ok(paths)
}

/// The kind of an object by its number: any of them where it has no others in it.
fn kind_at(number: usize) -> &'static str {
    if number < PARENTS {
        return "dir";
    }
    match number % 7 {
        0 => "reg",
        1 => "dir",
        2 => "sym",
        3 => "char",
        4 => "block",
        5 => "fifo",
        _ => "sock",
    }
}

/// The tree with these paths.
fn tree_of(alloc: Global, paths: &[String]) -> Result<Tree, Fail> {
    let mut file = String::new(alloc);
    for (number, path) in paths.iter().enumerate().skip(1) {
        let kind = kind_at(number);
        writeln!(file, "{{\"path\":\"{path}\",\"kind\":\"{kind}\"}}")?;
    }
    Ok(Tree::read(alloc, file.as_bytes())?)
}

/// One of the first objects, as many as said.
fn picked(
    tree: &Tree,
    paths: &[String],
    first: usize,
    numbers: &mut Numbers,
) -> Result<NodeId, Fail>
    ensures { IfOk result (IsNode tree.now) }
{
    let index = numbers.next() as usize % first.max(1);
    let path = paths.get(index.max(1)).ok_or("there is a path")?;
    node_named(tree, path)
}

/// Grants rights on an object in both forms, and on one that is no directory what applies to it.
fn grant(
    sandbox: &mut Sandbox<'_>,
    plain: &mut PlainLayer,
    node: NodeId,
    rights: Fs,
) -> Result<(), Fail>
    requires { IsNode sandbox.old.tree.now node }
{
    let granted = match sandbox.tree.kind(node) {
        Kind::Dir => rights,
        _ => rights.intersection(Fs::FILE),
    };
    if sandbox.grant(node, granted).is_ok() {
        plain.grant(node, granted)?;
    }
    Ok(())
}

/// Grants rights by chance in both forms, half of them on objects with others in them.
fn grant_by_chance(
    sandbox: &mut Sandbox<'_>,
    plain: &mut PlainLayer,
    paths: &[String],
    handled: Fs,
    numbers: &mut Numbers,
) -> Result<(), Fail> {
    for number in 0..TRIED {
        let first = if number % 2 == 0 { PARENTS } else { OBJECTS };
        let node = picked(sandbox.tree, paths, first, numbers)?;
        let rights = numbers.rights().intersection(handled);
        grant(sandbox, plain, node, rights)?;
    }
    Ok(())
}

/// Layers in both forms, with the same rules.
#[derive(Drop)]
struct Both<'t> {
    lanes: Sandbox<'t>,
    plain: Vec<PlainLayer>,
}

/// Stacks a layer with rules by chance.
fn stack_one(
    alloc: Global,
    both: &mut Both<'_>,
    paths: &[String],
    numbers: &mut Numbers,
) -> Result<(), Fail> {
    let handled = numbers.rights();
    both.lanes.create(alloc, handled, Net::BIND_TCP)?;
    let mut plain = PlainLayer::new(alloc, handled);
    grant_by_chance(&mut both.lanes, &mut plain, paths, handled, numbers)?;
    both.plain.push(plain)?;
    both.lanes.restrict(alloc)?;
    Ok(())
}

/// Stacks this many layers, at most sixteen.
fn stack(
    alloc: Global,
    both: &mut Both<'_>,
    paths: &[String],
    count: u32,
    numbers: &mut Numbers,
) -> Result<(), Fail> {
    for _ in 0..count.min(16) {
        stack_one(alloc, both, paths, numbers)?;
    }
    Ok(())
}

/// The numbers of a set of layers, as a plain answer has them.
fn marks_of(set: LayerSet) -> Refusing {
    let mut marks = [false; 16];
    for index in 0..16u32 {
        marks[index as usize] = set.has(index + 1);
    }
    marks
}

/// How many layers refuse.
fn count_of(set: LayerSet) -> u64 {
    let mut count = 0u64;
    for number in 1..17u32 {
        if set.has(number) {
            count = count.saturating_add(1);
        }
    }
    count
}

/// Whether each layer lacks a right on a node that is in a set, by what is known that it grants, and no other does.
fn lack_alike(both: &Both<'_>, grants: &[Grants], node: NodeId, wanted: Fs, set: LayerSet) -> bool {
    let layers = both.lanes.layers.as_slice();
    for index in 0..layers.len().min(16) {
        let id = LayerId(index as u32);
        if lacks_by(grants, layers, id, node, wanted) != Some(set.has(index as u32 + 1)) {
            return false;
        }
    }
    true
}

/// The layers in lanes, and what is known of what they grant.
fn known_in<'a>(both: &'a Both<'_>, grants: &'a [Grants]) -> KnownLayers<'a>
    requires { AreGrants both.now.lanes.tree.now both.now.lanes.layers.items grants.now }
    ensures tree { result.tree.now ≡ both.now.lanes.tree.now }
    ensures layers { result.layers.now ≡ both.now.lanes.layers.items }
{
    KnownLayers {
        tree: both.lanes.tree,
        layers: &both.lanes.layers,
        grants,
    }
}

/// Whether the checks answer alike by what is known that layers grant.
fn answers_agree<'a>(
    both: &'a Both<'_>,
    grants: &'a [Grants],
    node: NodeId,
    wanted: Fs,
    set: LayerSet,
) -> bool
    requires grants { AreGrants both.now.lanes.tree.now both.now.lanes.layers.items grants.now }
    requires node { IsNode both.now.lanes.tree.now node }
{
    let lanes = &both.lanes;
    check_path_by(&known_in(both, grants), &lanes.domain, node, wanted).0 == set
        && lack_alike(both, grants, node, wanted, set)
}

/// Whether both forms refuse the same on a path. Each layer is asked at most once on each node up to the root, and one
/// that refuses was asked on all of them.
fn paths_agree<'a>(both: &'a Both<'_>, grants: &'a [Grants], node: NodeId, wanted: Fs) -> bool
    requires grants { AreGrants both.now.lanes.tree.now both.now.lanes.layers.items grants.now }
    requires node { IsNode both.now.lanes.tree.now node }
{
    let lanes = &both.lanes;
    let set = check_path(lanes.tree, &lanes.layers, &lanes.domain, node, wanted);
    let (counted, look_ups) = check_path_counted(
        lanes.tree,
        &lanes.layers,
        &lanes.domain,
        node,
        wanted,
    );
    let nodes = u64::from(lanes.tree.depth(node)) + 1;
    marks_of(set) == refusing(lanes.tree, &both.plain, node, wanted)
        && counted == set
        && answers_agree(both, grants, node, wanted, set)
        && look_ups <= nodes.saturating_mul(lanes.domain.layers().len() as u64)
        && look_ups >= nodes.saturating_mul(count_of(set))
}

/// The same move as the product has it.
fn move_of(tree: &Tree, attempt: &Attempt) -> Move
    requires moved { IsNode tree.now attempt.now.moved }
    requires onto { IsNode tree.now attempt.now.onto }
    ensures moved { IsNode tree.now result.moved }
    ensures target { IsTargetIn tree.now result.target }
{
    let (target, how) = match attempt.call {
        Call::RenameToMissing => (Target::New(attempt.onto), How::Rename),
        Call::RenameOnto => (Target::Over(attempt.onto), How::Rename),
        Call::Exchange => (Target::Over(attempt.onto), How::Exchange),
        Call::Link => (Target::New(attempt.onto), How::Link),
    };
    Move {
        moved: attempt.moved,
        target,
        how,
    }
}

/// A verdict as a plain answer, and how many layers deny.
fn plainly(verdict: Verdict) -> (Option<(Errno, Refusing)>, u64) {
    match verdict {
        Verdict::Passed => (None, 0),
        Verdict::Refused(error, set) => {
            let denying = if error == Errno::Acces {
                count_of(set)
            } else {
                0
            };
            (Some((error, marks_of(set))), denying)
        }
    }
}

/// Whether both forms answer a move alike. Each layer is asked at most once on each node from either directory up to
/// the root, and at most twice more; one that denies was asked on all nodes up from one of the two.
fn moves_agree<'a>(both: &'a Both<'_>, grants: &'a [Grants], attempt: &Attempt) -> bool
    requires grants { AreGrants both.now.lanes.tree.now both.now.lanes.layers.items grants.now }
    requires moved { IsNode both.now.lanes.tree.now attempt.now.moved }
    requires onto { IsNode both.now.lanes.tree.now attempt.now.onto }
{
    let lanes = &both.lanes;
    let tree = lanes.tree;
    let asked = move_of(tree, attempt);
    let verdict = check_move(tree, &lanes.layers, &lanes.domain, &asked);
    let (counted, look_ups) = check_move_counted(tree, &lanes.layers, &lanes.domain, &asked);
    let (refused, denying) = plainly(verdict);
    let from = u64::from(tree.depth(leaving(tree, &asked).directory)) + 1;
    let to = u64::from(tree.depth(entering(tree, &asked).directory)) + 1;
    refused == answer(tree, &both.plain, attempt)
        && counted == verdict
        && check_move_by(&known_in(both, grants), &lanes.domain, &asked).0 == verdict
        && look_ups <= (from + to + 2).saturating_mul(lanes.domain.layers().len() as u64)
        && look_ups >= from.min(to).saturating_mul(denying)
}

/// Whether both forms answer each call that moves an object, by chance, alike.
fn calls_agree<'a>(
    paths: &[String],
    both: &'a Both<'_>,
    grants: &'a [Grants],
    moved: NodeId,
    numbers: &mut Numbers,
) -> Result<bool, Fail>
    requires grants { AreGrants both.now.lanes.tree.now both.now.lanes.layers.items grants.now }
    requires moved { IsNode both.now.lanes.tree.now moved }
{
    let object = picked(both.lanes.tree, paths, OBJECTS, numbers)?;
    let directory = picked(both.lanes.tree, paths, PARENTS, numbers)?;
    for (call, onto) in [
        (Call::RenameToMissing, directory),
        (Call::RenameOnto, object),
        (Call::Exchange, object),
        (Call::Link, directory),
    ] {
        if !moves_agree(both, grants, &Attempt { call, moved, onto }) {
            return Ok(false);
        }
    }
    Ok(true)
}

/// Whether both forms agree on a path and on moves of an object, each by chance, as often as said.
fn layers_agree<'a>(
    both: &'a Both<'_>,
    grants: &'a [Grants],
    turns: u32,
    paths: &[String],
    numbers: &mut Numbers,
) -> Result<bool, Fail>
    requires { AreGrants both.now.lanes.tree.now both.now.lanes.layers.items grants.now }
{
    for turn in 0..turns {
        let first = if turn % 2 == 0 { PARENTS } else { OBJECTS };
        let moved = picked(both.lanes.tree, paths, first, numbers)?;
        let wanted = numbers.rights();
        let is_alike = paths_agree(both, grants, moved, wanted);
        if !is_alike || !calls_agree(paths, both, grants, moved, numbers)? {
            return Ok(false);
        }
    }
    Ok(true)
}

/// Whether this many layers agree in both forms.
fn are_alike(
    alloc: Global,
    tree: &Tree,
    paths: &[String],
    count: u32,
    numbers: &mut Numbers,
) -> Result<bool, Fail> {
    let mut both = Both {
        lanes: Sandbox::new(alloc, tree),
        plain: Vec::new(alloc),
    };
    stack(alloc, &mut both, paths, count, numbers)?;
    let grants = grants_of(alloc, both.lanes.tree, &both.lanes.layers)?;
    layers_agree(&both, &grants, 60, paths, numbers)
}

/// The first round whose layers do not agree, if there is one: 0 to 16 layers, and these numbers again.
fn first_unlike(alloc: Global, tree: &Tree, paths: &[String]) -> Result<Option<u32>, Fail> {
    let mut numbers = Numbers { last: 1 };
    for round in 0..34u32 {
        if !are_alike(alloc, tree, paths, round % 17, &mut numbers)? {
            return Ok(Some(round));
        }
    }
    Ok(None)
}

#[test]
fn lanes_and_plain_layers(rt: HostRuntime) -> Result<(), Fail> {
    let paths = listed_paths(rt.alloc())?;
    let tree = tree_of(rt.alloc(), &paths)?;
    assert_eq!(rt; first_unlike(rt.alloc(), &tree, &paths)?, None);
    Ok(())
}

/// Grants reading on an object.
fn grant_reading(sandbox: &mut Sandbox<'_>, path: &str) -> Result<(), Fail> {
    let node = node_named(sandbox.tree, path)?;
    sandbox.grant(node, Fs::READ_FILE)?;
    Ok(())
}

/// Stacks a layer with more rules than a filter marks apart from these: it grants reading on some objects alone.
fn stack_granting(alloc: Global, sandbox: &mut Sandbox<'_>, paths: &[String]) -> Result<(), Fail> {
    sandbox.create(alloc, Fs::READ_FILE, Net::NONE)?;
    for path in paths {
        grant_reading(sandbox, path)?;
    }
    sandbox.restrict(alloc)?;
    Ok(())
}

/// Whether a layer refuses reading on a node.
fn refuses_reading(sandbox: &Sandbox<'_>, node: NodeId) -> bool
    requires { IsNode sandbox.now.tree.now node }
{
    let wanted = Fs::READ_FILE;
    !check_path(sandbox.tree, &sandbox.layers, &sandbox.domain, node, wanted).is_empty()
}

/// Whether a layer grants reading on objects alone, and not on others that share their marks.
fn are_granted_alone(
    sandbox: &Sandbox<'_>,
    paths: &[String],
    others: &[String],
) -> Result<bool, Fail> {
    let marks = MARKS as u32;
    for (path, other) in paths.iter().zip(others) {
        let node = node_named(sandbox.tree, path)?;
        let sharing = node_named(sandbox.tree, other)?;
        if node.index() % marks != sharing.index() % marks
            || refuses_reading(sandbox, node)
            || !refuses_reading(sandbox, sharing)
        {
            return Ok(false);
        }
    }
    Ok(true)
}

/// Whether objects without others in them may be read that have rules, and those not whose numbers are 4,096 below, so
/// that they share their marks.
fn are_told_apart(alloc: Global, paths: &[String]) -> Result<bool, Fail> {
    let others = paths.get(1..129).ok_or("there are so many nodes")?;
    let granted = paths
        .get(MARKS + 1..MARKS + 129)
        .ok_or("there are so many nodes")?;
    let tree = tree_of(alloc, paths)?;
    let mut sandbox = Sandbox::new(alloc, &tree);
    stack_granting(alloc, &mut sandbox, granted)?;
    are_granted_alone(&sandbox, granted, others)
}

#[test]
fn nodes_that_share_a_mark(rt: HostRuntime) -> Result<(), Fail> {
    let paths = listed_paths(rt.alloc())?;
    assert!(rt; are_told_apart(rt.alloc(), &paths)?);
    Ok(())
}
