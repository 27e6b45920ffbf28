//! The maps at small maps whose entries are known. Those without memory hold whichever one request for memory is
//! refused.

use ll_shared::{LowMap, SharedMap};
use std::alloc::Global;
use std::test::Fail;

/// Keys that agree in all but their two highest bits, in all but their lowest, and the greatest, with their values.
const APART: [(u64, u8); 6] = [
    (0, 0),
    (0x4000_0000_0000_0000, 1),
    (0xc000_0000_0000_0000, 2),
    (1, 3),
    (2, 4),
    (u64::MAX, 5),
];

/// Whether each key has just this value.
fn are_kept(map: &SharedMap<u8>, entries: &[(u64, u8)]) -> bool {
    entries
        .iter()
        .all(|(key, value)| map.get(*key) == Some(value))
}

/// Whether an entry is added whose key is new.
fn adds(map: &mut SharedMap<u8>, key: u64, value: u8) -> bool {
    map.insert(key, value) == Ok(None)
}

/// Whether each of some entries is added, of a key of its own.
fn adds_all(map: &mut SharedMap<u8>, entries: &[(u64, u8)]) -> bool {
    for (key, value) in entries {
        if !adds(map, *key, *value) {
            return false;
        }
    }
    true
}

/// Whether an entry is removed that has this value.
fn removes(map: &mut SharedMap<u8>, key: u64, value: u8) -> bool {
    map.remove(key) == Ok(Some(value))
}

/// Changes the map of the keys apart, and says whether each change answers the value that was there.
fn changes(map: &mut SharedMap<u8>) -> bool {
    map.insert(1, 10) == Ok(Some(3))
        && map.insert(5, 11) == Ok(None)
        && map.remove(0) == Ok(Some(0))
        && map.remove(0) == Ok(None)
}

#[test]
fn a_map_and_its_clone(rt: HostRuntime) -> Result<(), Fail> {
    let mut map = SharedMap::new(rt.alloc());
    assert!(rt; adds_all(&mut map, &APART));
    let mut copy = map.clone()?;
    assert!(rt; changes(&mut copy));
    assert!(rt; are_kept(&copy, &[(1, 10), (2, 4), (5, 11)]) && copy.get(0).is_none());
    assert!(rt; are_kept(&map, &APART) && map.get(5).is_none());
    Ok(())
}

/// A map with a fork of the keys 0 and 4, and a clone that shares it; nothing where memory runs out.
fn forked(alloc: Global) -> Option<(SharedMap<u8>, SharedMap<u8>)> {
    let mut map = SharedMap::new(alloc);
    map.insert(0, 10).ok()?;
    map.insert(4, 14).ok()?;
    let copy = map.clone().ok()?;
    Some((map, copy))
}

#[test]
fn insert_without_memory(rt: HostRuntime) {
    let Some((mut map, copy)) = forked(rt.alloc()) else {
        return;
    };
    if map.insert(16, 26).is_err() {
        assert!(rt; are_kept(&map, &[(0, 10), (4, 14)]) && map.get(16).is_none());
        // A second try inserts.
        assert!(rt; adds(&mut map, 16, 26));
    }
    assert!(rt; are_kept(&map, &[(0, 10), (4, 14), (16, 26)]));
    assert!(rt; are_kept(&copy, &[(4, 14)]) && copy.get(16).is_none());
}

#[test]
fn remove_without_memory(rt: HostRuntime) {
    let Some((mut map, copy)) = forked(rt.alloc()) else {
        return;
    };
    if map.remove(4).is_err() {
        assert!(rt; are_kept(&map, &[(0, 10), (4, 14)]));
        // A second try removes.
        assert!(rt; removes(&mut map, 4, 14));
    }
    assert!(rt; are_kept(&map, &[(0, 10)]) && map.get(4).is_none());
    assert!(rt; are_kept(&copy, &[(4, 14)]));
}

/// Keys at the ends of leaves, the first and the greatest that are in none, with their values.
const AT_ENDS: [(u64, u8); 6] = [(0, 0), (15, 1), (16, 2), (511, 3), (512, 4), (u64::MAX, 5)];

/// Whether each key has just this value.
fn are_found(map: &LowMap<u8>, entries: &[(u64, u8)]) -> bool {
    entries
        .iter()
        .all(|(key, value)| map.get(*key) == Some(*value))
}

/// Removes a low and a high key, and says whether each removal answers the value that was there.
fn removes_ends(map: &mut LowMap<u8>) -> bool {
    map.remove(0) == Ok(Some(0))
        && map.remove(512) == Ok(Some(4))
        && map.remove(0) == Ok(None)
        && map.remove(300) == Ok(None)
}

#[test]
fn a_map_with_low_keys_and_its_clone(rt: HostRuntime) -> Result<(), Fail> {
    let mut map = LowMap::new(rt.alloc());
    for (key, value) in &AT_ENDS {
        map.insert(*key, *value)?;
    }
    let mut copy = map.clone()?;
    copy.insert(15, 10)?;
    copy.insert(17, 11)?;
    assert!(rt; removes_ends(&mut copy));
    assert!(rt;
        are_found(
            &copy,
            &[(15, 10), (16, 2), (17, 11), (511, 3), (u64::MAX, 5)]
        )
    );
    assert!(rt; copy.get(0).is_none() && copy.get(300).is_none() && copy.get(512).is_none());
    assert!(rt; are_found(&map, &AT_ENDS) && map.get(17).is_none());
    Ok(())
}
