//! Calls on numbers, which ask for no memory: `tools/refuse-memory` runs each test with its first request refused.
use micromap::{Map, Set};
use std::alloc::AllocError;

#[test]
fn keyed_calls_on_numbers_ask_for_no_memory(rt: HostRuntime) {
    let mut map: Map<u8, u8, 3> = [(1, 10), (2, 20), (3, 30)].into();
    assert!(rt; map.checked_insert(1, 11) == Some(Some(10)));
    assert!(rt; map.checked_insert(4, 40).is_none());
    assert!(rt; map.get(&1) == Some(&11));
    if map.fits(&1) {
        assert!(rt; map.insert(1, 12) == Some(11));
    }
    if map.fits(&1) {
        assert!(rt; map.insert_key_value(1, 13) == Some((1, 12)));
    }
    assert!(rt; map.get_key_value(&2) == Some((&2, &20)));
    assert!(rt; map.get_mut(&3).is_some());
    assert!(rt; map.get_mut(&4).is_none());
    assert!(rt; map.contains_key(&3));
    assert!(rt; !map.entry(4).has_room());
    assert!(rt; map.len() == 3);
    assert!(rt; map.remove(&2) == Some(20));
    assert!(rt; map.remove_entry(&3) == Some((3, 30)));
    map.retain(|key, _| *key == 1);
    assert!(rt; map.keys().eq(&[1]));
    map.clear();
    assert!(rt; map.is_empty());
}

#[test]
fn calls_with_a_condition_ask_for_no_memory(rt: HostRuntime) {
    let mut map: Map<u8, u8, 1> = Map::new();
    assert!(rt; map.fits(&5) && map.insert(5, 50).is_none());
    assert!(rt; map.fits(&5) && map.insert_unchecked(5, 51) == Some(50));
    assert!(rt; map.fits(&5) && map.insert_key_value(5, 52) == Some((5, 51)));
    if map.contains_key(&5) {
        *map.index_mut(&5) = 53;
    }
    assert!(rt; map.contains_key(&5) && *map.index(&5) == 53);
}

#[test]
fn calls_by_probe_on_numbers_ask_for_no_memory(rt: HostRuntime) {
    let mut map: Map<u8, u8, 3> = [(1, 10), (2, 20), (3, 30)].into();
    assert!(rt; map.get_by(&1u8) == Some(&10));
    if let Some(value) = map.get_mut_by(&2u8) {
        *value = 21;
    }
    assert!(rt; map.get_key_value_by(&2u8) == Some((&2, &21)));
    if map.contains_key_by(&3u8) {
        *map.index_mut_by(&3u8) = 31;
    }
    assert!(rt; map.contains_key_by(&3u8) && *map.index_by(&3u8) == 31);
    assert!(rt; map.remove_by(&1u8) == Some(10));
    assert!(rt; map.remove_entry_by(&3u8) == Some((3, 31)));
    assert!(rt; map.keys().eq(&[2]));
}

#[test]
fn clones_of_numbers_ask_for_no_memory(rt: HostRuntime) {
    let mut map: Map<u8, u8, 3> = [(1, 10), (2, 20), (3, 30)].into();
    assert!(rt; map.clone().is_ok_and(|clone| clone.eq_with(&map)));
    assert!(rt; map.iter().clone().is_ok_and(|walk| walk.eq(map.iter())));
    assert!(rt; map.keys().clone().is_ok_and(|walk| walk.eq(map.keys())));
    assert!(rt; map.values().clone().is_ok_and(|walk| walk.eq(map.values())));
    assert!(rt; map.drain().len() == 3);
    let set: Set<u8, 3> = [1, 2, 3].into();
    assert!(rt; set.clone().is_ok_and(|clone| clone.eq_with(&set)));
    assert!(rt; set.iter().clone().is_ok_and(|walk| walk.eq(set.iter())));
}

#[test]
fn operations_on_numbers_ask_for_no_memory(rt: HostRuntime) {
    let first: Set<u8, 3> = [1, 2, 3].into();
    let second: Set<u8, 2> = [3, 4].into();
    let union = first.union(&second);
    assert!(rt; union.clone().is_ok_and(|walk| walk.eq(&[3, 4, 1, 2])));
    assert!(rt; union.eq(&[3, 4, 1, 2]));
    let difference = first.difference(&second);
    assert!(rt; difference.clone().is_ok_and(|walk| walk.eq(&[1, 2])));
    assert!(rt; difference.eq(&[1, 2]));
    let intersection = first.intersection(&second);
    assert!(rt; intersection.clone().is_ok_and(|walk| walk.eq(&[3])));
    assert!(rt; intersection.eq(&[3]));
    let apart = first.symmetric_difference(&second);
    assert!(rt; apart.clone().is_ok_and(|walk| walk.eq(&[1, 2, 4])));
    assert!(rt; apart.eq(&[1, 2, 4]));
    assert!(rt; first.bitand(&second).is_ok_and(|both| both.iter().eq(&[3])));
    assert!(rt; first.sub(&second).is_ok_and(|rest| rest.iter().eq(&[1, 2])));
}

#[test]
fn calls_on_a_set_of_numbers_ask_for_no_memory(rt: HostRuntime) {
    let mut set: Set<u8, 3> = [1, 2, 3].into();
    assert!(rt; set.checked_insert(2) == Some(2));
    assert!(rt; set.checked_insert(4).is_none());
    assert!(rt; !set.contains(&4));
    assert!(rt; set.get(&3) == Some(&3));
    assert!(rt; set.take(&1) == Some(1));
    assert!(rt; set.remove(&2));
    assert!(rt; set.fits(&5) && set.insert(5));
    assert!(rt; set.fits(&6) && set.insert_unchecked(6));
    assert!(rt; set.fits(&5) && set.replace(5) == Some(5));
    assert!(rt; set.iter().eq(&[3, 5, 6]));
}

#[test]
fn calls_by_probe_on_a_set_ask_for_no_memory(rt: HostRuntime) {
    let mut set: Set<u8, 3> = [1, 2, 3].into();
    assert!(rt; set.contains_by(&2u8));
    assert!(rt; set.get_by(&3u8) == Some(&3));
    assert!(rt; set.take_by(&1u8) == Some(1));
    assert!(rt; set.remove_by(&2u8));
    assert!(rt; !set.remove_by(&2u8));
    assert!(rt; set.iter().eq(&[3]));
}

#[test]
fn a_difference_of_references_asks_for_no_memory(rt: HostRuntime) -> Result<(), AllocError> {
    let ours: Set<&u8, 3> = [&1, &2, &3].into();
    let theirs: Set<&u8, 2> = [&3, &4].into();
    let mut difference = ours.difference_ref(&theirs);
    assert!(rt; difference.clone().is_ok());
    assert!(rt; difference.clone()?.next() == Some(&1));
    assert!(rt; difference.next() == Some(&1));
    assert!(rt; difference.next() == Some(&2));
    assert!(rt; difference.next().is_none());
    Ok(())
}
