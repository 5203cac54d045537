//! Iterators by reference and by value, `for` loops and `update_all`, from `iterators`, `keys`, `values` and `drain`.
use super::{Named, blanks, one, three, two};
use micromap::map::{IntoIter, IntoKeys, IntoValues, Iter, Keys, Values};
use micromap::{Map, Overfull};
use micromap_testing::{debugs, gives};
use std::alloc::AllocError;

// The map of three letters and their codes.
#[tactic(auto, unfolding(micromap_core::specs::Pairs::put))]
fn letters() -> Map<char, u32, 4> {
    let mut map = Map::new();
    map.insert('a', 97);
    map.insert('b', 98);
    map.insert('c', 99);
    map
}

// The sum of the values that a loop over `iter` lends.
fn total(map: &Named) -> i32 {
    let mut sum = 0i32;
    for (_, value) in map.iter() {
        sum = sum.wrapping_add(*value);
    }
    sum
}

#[test]
fn empty_iterator(rt: HostRuntime) {
    assert!(rt; Map::<u32, u32, 4>::new().into_iter().next().is_none());
}

#[test]
fn insert_and_jump_over_next(rt: HostRuntime) {
    let mut pairs = one(&rt).into_iter();
    assert!(rt; pairs.next().is_some_and(|pair| pair.1 == 42));
    assert!(rt; pairs.next().is_none());
}

#[test]
fn insert_and_iterate(rt: HostRuntime) {
    assert!(rt; total(&two()) == 58);
}

#[test]
fn insert_and_into_iterate(rt: HostRuntime) {
    let map = two();
    let mut sum = 0i32;
    for pair in &map {
        sum = sum.wrapping_add(*pair.1);
    }
    assert!(rt; sum == 58);
}

#[test]
fn iterate_with_blanks(rt: HostRuntime) {
    assert!(rt; total(&blanks()) == 6);
}

#[test]
fn debug_trait_for_iter(rt: HostRuntime) {
    let map = Map::from([('x', 120), ('y', 121), ('z', 122)]);
    assert!(rt;
        debugs(
            rt.alloc(),
            &map.iter(),
            "[('x', 120), ('y', 121), ('z', 122)]"
        )
    );
}

#[test]
fn debug_trait_for_into_iter(rt: HostRuntime) {
    let pairs = Map::from([('x', 120), ('y', 121), ('z', 122)]).into_iter();
    assert!(rt; debugs(rt.alloc(), &pairs, "[('x', 120), ('y', 121), ('z', 122)]"));
}

#[test]
fn into_iterate_with_blanks(rt: HostRuntime) {
    let mut sum = 0i32;
    for (_, value) in blanks() {
        sum = sum.wrapping_add(value);
    }
    assert!(rt; sum == 6);
}

#[test]
fn change_with_update_all(rt: HostRuntime) {
    let mut map = Map::from([("one", 2), ("two", 3), ("three", 5)]);
    map.update_all(|_, value: &mut i32| *value = value.wrapping_mul(2));
    assert!(rt; map.iter().map(|pair| *pair.1).eq([4, 6, 10]));
}

#[test]
fn update_all_with_blanks(rt: HostRuntime) {
    let mut map = three();
    let mut calls = 0u8;
    map.update_all(|_, _| calls = calls.wrapping_add(1));
    assert!(rt; calls == 3);
    map.remove(&"two");
    let mut last = 0;
    map.update_all(|_, value| {
        calls = calls.wrapping_add(1);
        last = *value;
    });
    assert!(rt; calls == 5);
    assert!(rt; last == 5);
}

#[test]
#[tactic(auto, unfolding(micromap_core::specs::Pairs::put))]
fn update_all_leaves_the_keys(rt: HostRuntime) {
    let mut map: Map<u8, i32, 10> = Map::new();
    map.insert(1, 10);
    map.insert(2, 20);
    map.update_all(|key, value| *value = value.wrapping_add(i32::from(*key)));
    assert!(rt; gives(map.iter(), &[(&1, &11), (&2, &22)]));
}

#[test]
fn update_all_in_place(rt: HostRuntime) {
    let mut map = three();
    map.update_all(|_, value| *value = value.wrapping_mul(2));
    assert!(rt; total(&map) == 18);
}

#[test]
#[tactic(auto, unfolding(micromap_core::specs::Pairs::put))]
fn iter_size_hint(rt: HostRuntime) {
    let mut map: Map<char, u32, 4> = Map::new();
    map.insert('a', 97);
    map.insert('c', 99);
    assert!(rt; map.iter().len() == 2);
    let mut pairs = map.into_iter();
    assert!(rt; pairs.size_hint() == (2, Some(2)));
    assert!(rt; pairs.next() == Some(('a', 97)));
    assert!(rt; pairs.size_hint() == (1, Some(1)));
    assert!(rt; pairs.next() == Some(('c', 99)));
    assert!(rt; pairs.next().is_none() && pairs.next().is_none());
    assert!(rt; pairs.len() == 0 && pairs.size_hint() == (0, Some(0)));
}

#[test]
fn iter_series_default(rt: HostRuntime) {
    assert!(rt; gives(Iter::<&str, u32>::default(), &[]));
    assert!(rt; gives(IntoIter::<&str, u32, 3>::default(), &[]));
}

#[test]
fn iter_count(rt: HostRuntime) {
    let map = letters();
    let pairs = map.iter();
    assert!(rt; pairs.len() == 3);
    assert!(rt; pairs.count() == 3);
}

#[test]
fn into_iter_count(rt: HostRuntime) {
    let pairs = letters().into_iter();
    assert!(rt; pairs.len() == 3);
    assert!(rt; pairs.count() == 3);
}

// The map of two names.
#[tactic(auto, unfolding(micromap_core::specs::Pairs::put))]
fn names() -> Map<&'static str, i32, 10> {
    let mut map = Map::new();
    map.insert("foo", 0);
    map.insert("bar", 0);
    map
}

#[test]
fn iterate_keys(rt: HostRuntime) {
    let map = names();
    assert!(rt; map.keys().len() == 2);
    assert!(rt; map.keys().eq(&["foo", "bar"]));
}

#[test]
fn iterate_into_keys(rt: HostRuntime) {
    let keys = names().into_keys();
    assert!(rt; keys.len() == 2);
    assert!(rt; keys.eq(["foo", "bar"]));
}

#[test]
fn keys_clone(rt: HostRuntime) -> Result<(), AllocError> {
    let map = names();
    let keys = map.keys();
    assert!(rt; keys.clone()?.eq(keys));
    Ok(())
}

#[test]
fn keys_debug(rt: HostRuntime) {
    let map = names();
    assert!(rt; debugs(rt.alloc(), &map.keys(), r#"["foo", "bar"]"#));
}

#[test]
fn keys_default(rt: HostRuntime) {
    let keys = Keys::<&str, i32>::default();
    assert!(rt; keys.len() == 0);
    assert!(rt; gives(keys, &[]));
}

#[test]
fn into_keys_debug(rt: HostRuntime) {
    assert!(rt; debugs(rt.alloc(), &names().into_keys(), r#"["foo", "bar"]"#));
}

#[test]
fn into_keys_default(rt: HostRuntime) {
    let keys = IntoKeys::<&str, i32, 10>::default();
    assert!(rt; keys.len() == 0);
    assert!(rt; gives(keys, &[]));
}

// The sum of the values.
fn total_of_values(map: &Named) -> i32 {
    let mut sum = 0i32;
    for value in map.values() {
        sum = sum.wrapping_add(*value);
    }
    sum
}

#[test]
fn iterate_values(rt: HostRuntime) {
    let map = two();
    assert!(rt; map.values().len() == 2);
    assert!(rt; total_of_values(&map) == 58);
}

#[test]
fn update_all_values(rt: HostRuntime) {
    let mut map = two();
    let mut calls = 0u8;
    map.update_all(|_, value| {
        calls = calls.wrapping_add(1);
        *value = value.wrapping_mul(2);
    });
    assert!(rt; calls == 2);
    assert!(rt; total_of_values(&map) == 116);
}

#[test]
fn iterate_values_with_blanks(rt: HostRuntime) {
    assert!(rt; blanks().values().eq(&[1, 5]));
}

#[test]
fn values_clone(rt: HostRuntime) -> Result<(), AllocError> {
    let map = Map::from([(1, "foo"), (2, "bar")]);
    let values = map.values();
    assert!(rt; values.clone()?.eq(values));
    Ok(())
}

#[test]
fn values_default(rt: HostRuntime) {
    let values = Values::<&str, i32>::default();
    assert!(rt; values.len() == 0);
    assert!(rt; gives(values, &[]));
}

#[test]
fn into_values_default(rt: HostRuntime) {
    let values = IntoValues::<&str, i32, 10>::default();
    assert!(rt; values.len() == 0);
    assert!(rt; gives(values, &[]));
}

#[test]
fn values_debug(rt: HostRuntime) {
    let map = two();
    assert!(rt; debugs(rt.alloc(), &map.values(), "[42, 16]"));
}

#[test]
fn into_values_debug(rt: HostRuntime) {
    assert!(rt; debugs(rt.alloc(), &two().into_values(), "[42, 16]"));
}

#[test]
fn normal_drain(rt: HostRuntime) -> Result<(), Overfull> {
    let letters = [('a', 97), ('b', 98), ('c', 99), ('d', 100)];
    let mut map: Map<char, u8, 10> = Map::try_from_iter(letters.into_iter())?;
    let cloned = map.clone();
    let mut drain = map.drain();
    assert!(rt; drain.len() == drain.size_hint().0);
    assert!(rt; drain.next() == Some(('a', 97)));
    assert!(rt; drain.next() == Some(('b', 98)));
    let mut fused = drain.fuse();
    assert!(rt; fused.next() == Some(('c', 99)));
    assert!(rt; fused.next() == Some(('d', 100)));
    assert!(rt; fused.next().is_none());
    assert!(rt; fused.next().is_none());
    assert!(rt; cloned.is_ok_and(|mut map| map.drain().next() == Some(('a', 97))));
    Ok(())
}

#[test]
fn debug_trait_for_drain(rt: HostRuntime) {
    let mut map = Map::from([('x', 120), ('y', 121), ('z', 122)]);
    let drain = map.drain();
    assert!(rt; debugs(rt.alloc(), &drain, "[('x', 120), ('y', 121), ('z', 122)]"));
}
