//! Calls at capacities at which they go other ways, with keys of one byte to five, and texts. With 32 slots or more, of at
//! most 4 bytes each, a scan compares all keys first. With at most 16 slots a clone goes over all of them.
ghost use Rattle.std.specs.Prelude.{◌≤◌};

use micromap::{Map, Set};
use std::alloc::AllocError;

// A key that is made of a number below 200.
trait Numbered: Eq + Copy {
    fn numbered(number: u8) -> Self;
}

impl Numbered for u8 {
    fn numbered(number: u8) -> u8 {
        number
    }
}

impl Numbered for u16 {
    fn numbered(number: u8) -> u16 {
        256 + u16::from(number)
    }
}

impl Numbered for (u8, u8, u8) {
    fn numbered(number: u8) -> (u8, u8, u8) {
        (0, number, 1)
    }
}

impl Numbered for [u8; 4] {
    fn numbered(number: u8) -> [u8; 4] {
        [number, 0, 0, 1]
    }
}

impl Numbered for [u8; 5] {
    fn numbered(number: u8) -> [u8; 5] {
        [1, 2, 3, 4, number]
    }
}

const HUNDREDS: &str = "0123456789abcdefghijklmnopqrstuvwxyzABCDEFGHIJKLMNOPQRSTUVWXYZ";

impl Numbered for &'static str {
    fn numbered(number: u8) -> &'static str {
        HUNDREDS.get(usize::from(number)..).unwrap_or("")
    }
}

// Puts as many keys as there is room for, but at most `most`, each with its number. Returns how many, or `None` if one doesn't
// fit.
fn filled<K: Numbered + Drop, const N: usize>(map: &mut Map<K, u8, N>, most: u8) -> Option<u8> {
    let mut count = 0;
    for number in 0..most {
        if map.len() == map.capacity() {
            break;
        }
        if !map.put(K::numbered(number), number) {
            return None;
        }
        count = number.saturating_add(1);
    }
    Some(count)
}

// Whether the first and the last of `count` keys are found, and one that is missing isn't.
fn finds<K: Numbered, const N: usize>(map: &Map<K, u8, N>, count: u8) -> bool {
    let missing = K::numbered(count);
    let last = count.saturating_sub(1);
    map.len() == usize::from(count)
        && map.get(&missing).is_none()
        && !map.contains_key(&missing)
        && map.get(&K::numbered(last)).copied().unwrap_or(last) == last
        && map.contains_key(&K::numbered(0)) == (count > 0)
        && map.contains_key(&K::numbered(last)) == (count > 0)
}

// Whether the last key's value is overwritten in its place, and a full map refuses a new key.
fn overwrites<K: Numbered + Drop, const N: usize>(map: &mut Map<K, u8, N>, count: u8) -> bool {
    let (new, last) = (K::numbered(count), count.saturating_sub(1));
    let is_full = map.len() == map.capacity();
    let is_refused = map.fits(&new) != is_full
        && (!is_full || map.checked_insert(new, 0).is_none());
    let was = map.checked_insert(K::numbered(last), last);
    is_refused && (was == Some(Some(last))) == (count > 0)
}

// Whether the first key and the last are removed, and the keys between them keep their order.
fn removes_both_ends<K: Numbered + Drop, const N: usize>(
    map: &mut Map<K, u8, N>,
    count: u8,
) -> bool {
    let last = count.saturating_sub(1);
    let removed = map.remove(&K::numbered(0)).is_some() == (count > 0)
        && map.remove(&K::numbered(last)).is_some() == (count > 1)
        && map.len() == usize::from(count.saturating_sub(2));
    let mut expected = 1;
    for value in map.values() {
        if *value != expected {
            return false;
        }
        expected = expected.saturating_add(1);
    }
    removed
}

// Whether `retain` keeps the pairs with even values.
fn retains<K: Numbered + Drop, const N: usize>(map: &mut Map<K, u8, N>) -> bool {
    let evens = map.values().filter(|value| **value % 2 == 0).count();
    map.retain(|_, value| *value % 2 == 0);
    map.len() == evens && map.values().all(|value| *value % 2 == 0)
}

// Fills a map, and then calls it by its keys.
fn calls_by_key<K: Numbered + Drop, const N: usize>(map: &mut Map<K, u8, N>, most: u8) -> bool {
    match filled(map, most) {
        Some(count) => {
            finds(map, count)
                && overwrites(map, count)
                && finds(map, count)
                && removes_both_ends(map, count)
                && retains(map)
        }
        None => false,
    }
}

#[test]
fn keys_of_one_byte_at_each_capacity(rt: HostRuntime) {
    assert!(rt; calls_by_key(&mut Map::<u8, u8, 0>::new(), 200));
    assert!(rt; calls_by_key(&mut Map::<u8, u8, 1>::new(), 200));
    assert!(rt; calls_by_key(&mut Map::<u8, u8, 16>::new(), 200));
    assert!(rt; calls_by_key(&mut Map::<u8, u8, 31>::new(), 200));
    assert!(rt; calls_by_key(&mut Map::<u8, u8, 32>::new(), 200));
    assert!(rt; calls_by_key(&mut Map::<u8, u8, 33>::new(), 200));
    assert!(rt; calls_by_key(&mut Map::<u8, u8, 64>::new(), 200));
    assert!(rt; calls_by_key(&mut Map::<u8, u8, 256>::new(), 200));
}

#[test]
fn keys_of_two_bytes_at_each_capacity(rt: HostRuntime) {
    assert!(rt; calls_by_key(&mut Map::<u16, u8, 16>::new(), 200));
    assert!(rt; calls_by_key(&mut Map::<u16, u8, 31>::new(), 200));
    assert!(rt; calls_by_key(&mut Map::<u16, u8, 32>::new(), 200));
    assert!(rt; calls_by_key(&mut Map::<u16, u8, 33>::new(), 200));
    assert!(rt; calls_by_key(&mut Map::<u16, u8, 64>::new(), 200));
    assert!(rt; calls_by_key(&mut Map::<u16, u8, 256>::new(), 200));
}

#[test]
fn keys_of_three_bytes_to_five_at_each_capacity(rt: HostRuntime) {
    assert!(rt; calls_by_key(&mut Map::<(u8, u8, u8), u8, 31>::new(), 200));
    assert!(rt; calls_by_key(&mut Map::<(u8, u8, u8), u8, 32>::new(), 200));
    assert!(rt; calls_by_key(&mut Map::<(u8, u8, u8), u8, 64>::new(), 200));
    assert!(rt; calls_by_key(&mut Map::<[u8; 4], u8, 32>::new(), 200));
    assert!(rt; calls_by_key(&mut Map::<[u8; 4], u8, 33>::new(), 200));
    assert!(rt; calls_by_key(&mut Map::<[u8; 5], u8, 32>::new(), 200));
    assert!(rt; calls_by_key(&mut Map::<[u8; 5], u8, 256>::new(), 200));
}

#[test]
fn texts_at_each_capacity(rt: HostRuntime) {
    assert!(rt; calls_by_key(&mut Map::<&'static str, u8, 1>::new(), 60));
    assert!(rt; calls_by_key(&mut Map::<&'static str, u8, 16>::new(), 60));
    assert!(rt; calls_by_key(&mut Map::<&'static str, u8, 31>::new(), 60));
    assert!(rt; calls_by_key(&mut Map::<&'static str, u8, 33>::new(), 60));
    assert!(rt; calls_by_key(&mut Map::<&'static str, u8, 64>::new(), 60));
}

// Whether copies and clones of a map with all or half of its keys, and the map in another capacity, are the same.
fn copies<const N: usize, const M: usize>(most: u8) -> Result<bool, AllocError>
    requires { N ≤ 256 × M ≤ 257 }
{
    let mut map: Map<u16, u8, N> = Map::new();
    if filled(&mut map, most).is_none() {
        return Ok(false);
    }
    let copy = map.copied();
    let clone = map.clone()?;
    let same = copy.eq_with(&map) && clone == map && map.keys().eq(copy.keys());
    match clone.into_capacity::<M>() {
        Ok(moved) => Ok(same && moved.eq_with(&map) && moved.differs_at(&map).is_none()),
        Err(_) => Ok(false),
    }
}

#[test]
fn copies_at_each_capacity(rt: HostRuntime) -> Result<(), AllocError> {
    assert!(rt; copies::<0, 1>(200)?);
    assert!(rt; copies::<1, 0>(0)?);
    assert!(rt; copies::<16, 16>(7)?);
    assert!(rt; copies::<16, 17>(200)?);
    assert!(rt; copies::<31, 32>(200)?);
    assert!(rt; copies::<32, 31>(20)?);
    assert!(rt; copies::<33, 64>(200)?);
    assert!(rt; copies::<64, 33>(33)?);
    assert!(rt; copies::<256, 257>(200)?);
    Ok(())
}

// Whether the four operations have these numbers of members, if each set has `whole` items, of which `half` are its own.
fn have_members<'a, K: Numbered, const N: usize>(
    first: &'a Set<K, N>,
    second: &'a Set<K, N>,
    whole: usize,
    half: usize,
) -> bool {
    first.difference(second).count() == half
        && first.intersection(second).count() == whole.saturating_sub(half)
        && first.union(second).count() == whole.saturating_add(half)
        && first.symmetric_difference(second).count() == half.saturating_add(half)
        && first.intersection(second).all(|x| second.contains(x))
        && first.difference(second).all(|x| !second.contains(x))
}

// Fills two sets, of which half of the items are common, and then goes over the operations on them.
fn operates<K: Numbered + Drop, const N: usize>(
    first: &mut Set<K, N>,
    second: &mut Set<K, N>,
    count: u8,
) -> bool {
    let half = count / 2;
    for number in 0..count {
        first.put(K::numbered(number));
        second.put(K::numbered(half.saturating_add(number)));
    }
    have_members(first, second, usize::from(count), usize::from(half))
}

#[test]
fn operations_at_each_capacity(rt: HostRuntime) {
    assert!(rt; operates(&mut Set::<u8, 16>::new(), &mut Set::<u8, 16>::new(), 16));
    assert!(rt; operates(&mut Set::<u8, 31>::new(), &mut Set::<u8, 31>::new(), 31));
    assert!(rt; operates(&mut Set::<u8, 32>::new(), &mut Set::<u8, 32>::new(), 32));
    assert!(rt; operates(&mut Set::<u16, 33>::new(), &mut Set::<u16, 33>::new(), 33));
    assert!(rt; operates(&mut Set::<u8, 64>::new(), &mut Set::<u8, 64>::new(), 64));
    assert!(rt;
        operates(
            &mut Set::<[u8; 5], 64>::new(),
            &mut Set::<[u8; 5], 64>::new(),
            64
        )
    );
    assert!(rt; operates(&mut Set::<u8, 256>::new(), &mut Set::<u8, 256>::new(), 160));
}
