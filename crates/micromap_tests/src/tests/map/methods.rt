//! The keyed calls, `retain` and `update_disjoint`, from `methods` and `index`.
ghost use Rattle.std.specs.Prelude.{◌≡◌, nat_eq};
ghost use Rattle.std.specs.Set.{distinct_count};

use super::one;
use micromap::{Map, Overfull, Text};
use micromap_testing::{Id, Marked};
use std::alloc::AllocError;

#[test]
#[tactic(auto, unfolding(micromap_core::specs::Pairs::put))]
fn insert_and_check_length(rt: HostRuntime) {
    let mut map: Map<&str, i32, 10> = Map::new();
    assert!(rt; map.insert("first", 42) == None);
    assert!(rt; map.len() == 1);
    assert!(rt; map.insert("second", 16) == None);
    assert!(rt; map.len() == 2);
    assert!(rt; map.insert("first", 16) == Some(42));
    assert!(rt; map.len() == 2);
}

#[test]
#[tactic(auto, unfolding(micromap_core::specs::Pairs::put))]
fn overwrites_keys(rt: HostRuntime) {
    let mut map: Map<i32, i32, 1> = Map::new();
    assert!(rt; map.insert(1, 42) == None);
    assert!(rt; map.insert(1, 42) == Some(42));
    assert!(rt; map.len() == 1);
}

#[test]
fn empty_length(rt: HostRuntime) {
    let map: Map<u32, u32, 10> = Map::new();
    assert!(rt; map.len() == 0);
}

#[test]
fn is_empty_check(rt: HostRuntime) {
    let mut map: Map<u32, u32, 10> = Map::new();
    assert!(rt; map.is_empty());
    assert!(rt; map.insert(42, 42) == None);
    assert!(rt; !map.is_empty());
}

#[test]
#[tactic(auto, unfolding(micromap_core::specs::Pairs::put))]
fn insert_and_gets(rt: HostRuntime) {
    let mut map: Map<&str, i32, 10> = Map::new();
    assert!(rt; map.insert("one", 42) == None);
    assert!(rt; map.insert("two", 16) == None);
    assert!(rt; map.get_by(&Text("two")) == Some(&16));
}

#[test]
fn insert_and_gets_mut(rt: HostRuntime) {
    let mut map: Map<i32, [i32; 3], 10> = Map::new();
    assert!(rt; map.insert(42, [1, 2, 3]) == None);
    if let Some(value) = map.get_mut(&42) {
        value[0] = 500;
    }
    assert!(rt; map.get(&42) == Some(&[500, 2, 3]));
}

#[test]
fn checks_key(rt: HostRuntime) {
    let map = one(&rt);
    assert!(rt; map.contains_key_by(&Text("one")));
    assert!(rt; !map.contains_key_by(&Text("another")));
}

#[test]
fn gets_missing_key(rt: HostRuntime) {
    assert!(rt; one(&rt).get_by(&Text("two")).is_none());
}

#[test]
fn mut_gets_missing_key(rt: HostRuntime) {
    assert!(rt; one(&rt).get_mut_by(&Text("two")).is_none());
}

#[test]
fn removes_simple_pair(rt: HostRuntime) {
    let mut map = one(&rt);
    assert!(rt; map.remove_by(&Text("one")) == Some(42));
    assert!(rt; map.remove_by(&Text("another")) == None);
    assert!(rt; map.get_by(&Text("one")).is_none());
}

#[derive(Drop)]
struct Triple {
    numbers: [u32; 3],
}

#[test]
fn insert_struct(rt: HostRuntime) {
    let mut map: Map<u8, Triple, 8> = Map::new();
    let numbers = [1, 2, 100];
    assert!(rt; map.insert(1, Triple { numbers }).is_none());
    assert!(rt;
        map.into_iter()
            .next()
            .is_some_and(|pair| pair.1.numbers[2] == 100)
    );
}

#[derive(Drop)]
struct Outer {
    inner: Map<u8, u8, 1>,
}

#[test]
fn insert_composite(rt: HostRuntime) {
    let mut map: Map<u8, Outer, 8> = Map::new();
    assert!(rt; map.insert(1, Outer { inner: Map::new() }).is_none());
    assert!(rt;
        map.into_iter()
            .next()
            .is_some_and(|pair| pair.1.inner.len() == 0)
    );
}

#[test]
fn large_map_in_heap(rt: HostRuntime) -> Result<(), AllocError> {
    let map: Box<Map<u64, [u64; 10], 10>> = Box::new(rt.alloc(), Map::new())?;
    assert!(rt; map.len() == 0);
    Ok(())
}

#[test]
fn retain_test(rt: HostRuntime) -> Result<(), Overfull> {
    let pairs = [0, 1, 2, 3, 4, 5, 6, 7].map(|key: i32| (key, key.wrapping_mul(10)));
    let mut map: Map<i32, i32, 10> = Map::try_from_iter(pairs.into_iter())?;
    assert!(rt; map.len() == 8);
    map.retain(|key, _| *key < 6);
    assert!(rt; map.len() == 6);
    map.retain(|_, value| *value > 30);
    assert!(rt; map.len() == 2);
    Ok(())
}

#[test]
#[tactic(auto, unfolding(micromap_core::specs::Pairs::put))]
fn retain_with_mutable_value(rt: HostRuntime) {
    let mut map: Map<&str, i32, 5> = Map::new();
    map.insert("key1", 10);
    map.insert("key2", 20);
    map.insert("key3", 30);
    map.retain(|_, value| {
        let stays = *value > 15;
        *value = value.wrapping_mul(2);
        stays
    });
    assert!(rt; map.len() == 2);
    assert!(rt; map.get(&"key1") == None);
    assert!(rt; map.get(&"key2") == Some(&40));
    assert!(rt; map.get(&"key3") == Some(&60));
}

#[test]
fn insert_many_and_remove(rt: HostRuntime) {
    let mut map: Map<usize, u64, 4> = Map::new();
    for _ in 0..2 {
        for key in 0..map.capacity() {
            assert!(rt; map.is_empty());
            assert!(rt; map.insert(key, 256) == None);
            assert!(rt; map.remove(&key) == Some(256));
        }
    }
}

#[test]
fn get_key_value(rt: HostRuntime) {
    let map = one(&rt);
    assert!(rt; map.get_key_value(&"one") == Some((&"one", &42)));
    assert!(rt; map.contains_key(&"one"));
}

#[test]
fn get_absent_key_value(rt: HostRuntime) {
    assert!(rt; one(&rt).get_key_value_by(&Text("two")).is_none());
}

#[test]
fn remove_entry_present(rt: HostRuntime) {
    let mut map = one(&rt);
    assert!(rt; map.remove_entry(&"one") == Some(("one", 42)));
    assert!(rt; !map.contains_key(&"one"));
}

#[test]
fn remove_entry_absent(rt: HostRuntime) {
    assert!(rt; one(&rt).remove_entry_by(&Text("two")).is_none());
}

#[test]
#[tactic(auto, unfolding(micromap_core::specs::Pairs::put, micromap_core::specs::Pairs::take_out))]
fn insert_after_remove(rt: HostRuntime) {
    let mut map: Map<u8, u8, 1> = Map::new();
    assert!(rt; map.insert(1, 2) == None);
    assert!(rt; map.remove(&1) == Some(2));
    assert!(rt; map.insert(1, 3) == None);
}

#[test]
#[tactic(auto, unfolding(micromap_core::specs::Pairs::put, micromap_core::specs::Pairs::take_out))]
fn insert_duplicate_after_remove(rt: HostRuntime) {
    let mut map: Map<u8, u8, 2> = Map::new();
    assert!(rt; map.insert(1, 1) == None);
    assert!(rt; map.insert(2, 2) == None);
    assert!(rt; map.remove(&1) == Some(1));
    assert!(rt; map.insert(2, 3) == Some(2));
    assert!(rt; map.len() == 1);
    assert!(rt; *map.index(&2) == 3);
}

#[test]
fn insert_unchecked_inserts_new_key(rt: HostRuntime) {
    let mut map: Map<i32, i32, 3> = Map::new();
    assert!(rt; map.insert_unchecked(1, 10) == None);
    assert!(rt; map.get(&1) == Some(&10));
}

#[test]
#[tactic(auto, unfolding(micromap_core::specs::Pairs::put))]
fn insert_unchecked_overwrites_existing_key(rt: HostRuntime) {
    let mut map: Map<i32, i32, 3> = Map::new();
    assert!(rt; map.insert_unchecked(1, 10) == None);
    assert!(rt; map.insert_unchecked(1, 20) == Some(10));
    assert!(rt; map.get(&1) == Some(&20));
}

#[test]
fn insert_unchecked_does_not_panic_in_release_mode(rt: HostRuntime) {
    let mut map: Map<i32, i32, 1> = Map::new();
    assert!(rt; map.insert_unchecked(1, 10) == None);
}

#[test]
#[tactic(auto, unfolding(micromap_core::specs::Pairs::put))]
fn insert_unchecked_handles_duplicate_keys(rt: HostRuntime) {
    let mut map: Map<i32, i32, 2> = Map::new();
    assert!(rt; map.insert_unchecked(1, 10) == None);
    assert!(rt; map.insert_unchecked(1, 15) == Some(10));
    assert!(rt; map.get(&1) == Some(&15));
}

#[derive(PartialEq, Eq, Drop)]
struct Key {
    id: u32,
}

#[test]
#[tactic(auto, unfolding(micromap_core::specs::Pairs::put))]
fn insert_unchecked_with_struct_key(rt: HostRuntime) {
    let mut map: Map<Key, i32, 2> = Map::new();
    assert!(rt; map.insert_unchecked(Key { id: 1 }, 42) == None);
    assert!(rt; map.insert_unchecked(Key { id: 2 }, 84) == None);
    assert!(rt; map.get(&Key { id: 1 }) == Some(&42));
    assert!(rt; map.get(&Key { id: 2 }) == Some(&84));
}

#[test]
fn checked_insert_updates_existing_key(rt: HostRuntime) {
    let mut map: Map<&str, i32, 10> = Map::new();
    assert!(rt; map.checked_insert("key", 42) == Some(None));
    assert!(rt; map.checked_insert("key", 100) == Some(Some(42)));
    assert!(rt; map.get(&"key") == Some(&100));
}

#[test]
fn checked_insert_inserts_new_key_when_space_available(rt: HostRuntime) {
    let mut map: Map<&str, i32, 2> = Map::new();
    assert!(rt; map.checked_insert("key1", 42) == Some(None));
    assert!(rt; map.checked_insert("key2", 100) == Some(None));
    assert!(rt; map.get(&"key1") == Some(&42));
    assert!(rt; map.get(&"key2") == Some(&100));
}

#[test]
fn checked_insert_fails_when_map_is_full(rt: HostRuntime) {
    let mut map: Map<&str, i32, 1> = Map::new();
    assert!(rt; map.checked_insert("key1", 42) == Some(None));
    assert!(rt; map.checked_insert("key2", 100) == None);
    assert!(rt; map.get(&"key1") == Some(&42));
    assert!(rt; map.get(&"key2") == None);
    assert!(rt; map.checked_insert("key1", 43) == Some(Some(42)));
    assert!(rt; map.get(&"key1") == Some(&43));
}

#[test]
fn checked_insert_handles_empty_map(rt: HostRuntime) {
    let mut map: Map<&str, i32, 0> = Map::new();
    assert!(rt; map.checked_insert("key", 42) == None);
    assert!(rt; map.is_empty());
}

#[test]
fn checked_insert_replaces_value_for_existing_key(rt: HostRuntime) {
    let mut map: Map<i32, i32, 3> = Map::new();
    assert!(rt; map.checked_insert(1, 10) == Some(None));
    assert!(rt; map.checked_insert(1, 20) == Some(Some(10)));
    assert!(rt; map.get(&1) == Some(&20));
}

#[test]
fn checked_insert_does_not_affect_other_keys(rt: HostRuntime) {
    let mut map: Map<i32, i32, 3> = Map::new();
    assert!(rt; map.checked_insert(1, 10) == Some(None));
    assert!(rt; map.checked_insert(2, 20) == Some(None));
    assert!(rt; map.checked_insert(1, 30) == Some(Some(10)));
    assert!(rt; map.get(&1) == Some(&30));
    assert!(rt; map.get(&2) == Some(&20));
}

#[test]
fn update_disjoint_non_overlapping_keys(rt: HostRuntime) {
    let mut map = Map::from([(1, 10), (2, 20), (3, 30), (4, 40)]);
    let mut as_stored = true;
    let found = map.update_disjoint(&[3, 1, 2], |position, value: &mut i32| {
        as_stored &= [30, 10, 20].get(position) == Some(&*value);
        *value = value.wrapping_mul(10);
    });
    assert!(rt; found == [true; 3]);
    assert!(rt; as_stored);
    assert!(rt; map.values().eq(&[100, 200, 300, 40]));
}

// Whether each of these keys has the value that stands at its position, or is missing where `None` does.
fn lends<const J: usize, const N: usize>(
    map: &mut Map<u8, usize, N>,
    keys: &[u8; J],
    values: &[Option<usize>; J],
) -> bool
    requires { distinct_count nat_eq keys.now ≡ J }
{
    let mut as_stored = true;
    let found = map.update_disjoint(keys, |position, value| {
        as_stored &= values.get(position) == Some(&Some(*value));
    });
    as_stored
        && found
            .iter()
            .zip(values)
            .all(|(found, value)| *found == value.is_some())
}

#[test]
fn update_disjoint_missing_keys(rt: HostRuntime) {
    let mut map: Map<u8, usize, 5> = Map::new();
    map.insert(2, 20);
    assert!(rt; lends(&mut map, &[1, 2], &[None, Some(20)]));
    assert!(rt; map.update_disjoint(&[1, 2], |_, value| *value = 7) == [false, true]);
    assert!(rt; map.get(&2) == Some(&7));
}

#[test]
fn update_disjoint_empty_keys(rt: HostRuntime) {
    let mut map: Map<u8, i32, 5> = Map::new();
    assert!(rt; map.update_disjoint(&[], |_, value| *value = 7) == []);
    map.insert(1, 10);
    assert!(rt; map.update_disjoint(&[], |_, value| *value = 7) == []);
    assert!(rt; map.get(&1) == Some(&10));
}

#[test]
fn update_disjoint_keys_more_than_capacity(rt: HostRuntime) {
    let mut map: Map<u8, usize, 3> = Map::new();
    assert!(rt; map.is_empty());
    assert!(rt; lends(&mut map, &[1], &[None]));
    map.checked_insert(1, 10);
    assert!(rt; lends(&mut map, &[1], &[Some(10)]));
    map.checked_insert(2, 20);
    map.checked_insert(3, 30);
    assert!(rt; !map.is_empty());
    assert!(rt; lends(&mut map, &[1, 2, 3], &[Some(10), Some(20), Some(30)]));
    let values = [None, Some(10), Some(20), Some(30), None];
    assert!(rt; lends(&mut map, &[0, 1, 2, 3, 4], &values));
    let found = map.update_disjoint(&[0, 1, 2, 3, 4], |position, value| *value = position);
    assert!(rt; found == [false, true, true, true, false]);
    assert!(rt; map.values().eq(&[1, 2, 3]));
}

// Whether `key` finds the pair of this mark and number, which is the only one.
fn has(library: &Map<Marked, u32, 5>, key: &Marked, mark: char, number: u32) -> bool {
    library.len() == 1
        && library
            .get_key_value(key)
            .is_some_and(|(stored, value)| stored.mark == mark && *value == number)
}

#[test]
#[tactic(auto, unfolding(micromap_core::specs::Pairs::put))]
fn insert_will_not_update_the_key(rt: HostRuntime) {
    let mut library: Map<Marked, u32, 5> = Map::new();
    let (old, new) = (Marked::new(1, 'x'), Marked::new(1, 'y'));
    assert!(rt; old == new && old.mark != new.mark);
    assert!(rt; library.insert(old, 10) == None);
    assert!(rt; has(&library, &old, 'x', 10));
    assert!(rt; library.insert(new, 20) == Some(10));
    assert!(rt; has(&library, &new, 'x', 20));
}

#[test]
#[tactic(auto, unfolding(micromap_core::specs::Pairs::put_key))]
fn insert_key_value_will_update_the_key(rt: HostRuntime) {
    let mut library: Map<Marked, u32, 5> = Map::new();
    let (old, new) = (Marked::new(1, 'x'), Marked::new(1, 'y'));
    assert!(rt; old == new && old.mark != new.mark);
    assert!(rt; library.insert_key_value(old, 10).is_none());
    assert!(rt; has(&library, &old, 'x', 10));
    let given = library.insert_key_value(new, 20);
    assert!(rt; given.is_some_and(|(key, value)| key.mark == 'x' && value == 10));
    assert!(rt; has(&library, &old, 'y', 20));
}

// The map in which `first` has 42.
fn first() -> Map<&'static str, i32, 10> {
    let mut map = Map::new();
    map.insert("first", 42);
    map
}

#[test]
fn index(rt: HostRuntime) {
    let map = first();
    assert!(rt; map.contains_key_by(&Text("first")));
    assert!(rt; *map.index_by(&Text("first")) == 42);
}

#[test]
fn index_mut(rt: HostRuntime) {
    let mut map = first();
    assert!(rt; map.contains_key(&"first"));
    let value = map.index_mut(&"first");
    *value = value.wrapping_add(10);
    assert!(rt; map.get(&"first") == Some(&52));
}

#[test]
fn index_by_borrow(rt: HostRuntime) {
    let mut map: Map<Marked, i32, 10> = Map::new();
    map.insert(Marked::new(10, 'x'), 42);
    assert!(rt; map.contains_key_by(&Id(10)));
    assert!(rt; *map.index_by(&Id(10)) == 42);
}
