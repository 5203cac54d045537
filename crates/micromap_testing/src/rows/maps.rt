//! The rows of one map: putting, reading and taking by key, by probe and by entry; building one from items; iterators, and
//! values written by a closure.
use crate::Marked;
use micromap::map::Keys;
use micromap::{Map, Overfull, Text};
use std::alloc::{AllocError, Global};

// The three outcomes of `checked_insert`.
pub(super) fn row_1_checked_insert_has_three_outcomes() -> bool {
    let mut map = Map::<_, _, 3>::new();
    map.checked_insert(1, "a") == Some(None)
        && map.checked_insert(1, "A") == Some(Some("a"))
        && map.checked_insert(2, "b") == Some(None)
        && map.checked_insert(3, "c") == Some(None)
        && map.len() == 3
        && map.checked_insert(2, "B") == Some(Some("b"))
        && map.checked_insert(4, "d").is_none()
        && map.len() == 3
}

// A map with no room at all.
pub(super) fn row_2_a_map_without_slots() -> bool {
    let mut map: Map<u8, u8, 0> = Map::new();
    map.get(&1).is_none()
        && map.checked_insert(1, 1).is_none()
        && !map.fits(&1)
        && map.len() == 0
        && map.capacity() == 0
}

// The pairs that a removal leaves keep their order.
pub(super) fn row_3_a_removal_keeps_the_order() -> bool {
    let mut three = keys(&[1, 2, 3]);
    without(&[1, 2, 3, 4], 2, &[1, 3, 4])
        && without(&[1, 2, 3], 2, &[1, 3])
        && without(&[1, 2, 3], 3, &[1, 2])
        && three.remove(&9).is_none()
        && three.keys().eq(&[1, 2, 3])
}

// A map with these keys.
fn keys(keys: &[u8]) -> Map<u8, (), 4> {
    let mut map = Map::new();
    for key in keys {
        map.checked_insert(*key, ());
    }
    map
}

// Whether the map with the keys of `old` has those of `new` once `key` is taken out.
fn without(old: &[u8], key: u8, new: &[u8]) -> bool {
    let mut map = keys(old);
    map.remove(&key).is_some() && map.keys().eq(new)
}

// Equal keys that aren't identical: one call keeps the stored one, the other replaces it.
pub(super) fn row_7_insert_keeps_the_stored_key() -> bool {
    let mut map: Map<Marked, char, 1> = Map::new();
    if map.insert(Marked::new(1, 'x'), 'p').is_some() {
        return false;
    }
    let (second, third) = (Marked::new(1, 'y'), Marked::new(1, 'z'));
    if !map.fits(&second) || map.insert(second, 'q') != Some('p') {
        return false;
    }
    if !stores(&map, third, 'x', 'q') || !map.fits(&third) {
        return false;
    }
    let old = map.insert_key_value(third, 'r');
    matches!(old, Some((key, value)) if key.mark == 'x' && value == 'q')
        && stores(&map, second, 'z', 'r')
}

// Whether the key equal to `key` has the mark, and the value.
fn stores(map: &Map<Marked, char, 1>, key: Marked, mark: char, value: char) -> bool {
    match map.get_key_value(&key) {
        Some((stored, found)) => stored.mark == mark && *found == value,
        None => false,
    }
}

// A value that is made where its key is new alone.
pub(super) fn row_12_an_entry_makes_a_value_for_a_new_key() -> bool {
    let mut map: Map<char, u8, 10> = Map::new();
    first_value(&mut map, 'f', 43) == Some(43)
        && first_value(&mut map, 'f', 44) == Some(43)
        && map.remove_entry(&'f') == Some(('f', 43))
}

// The value of `key`, which is `value` from now on where it had none, or `None` where there is no room for it.
fn first_value(map: &mut Map<char, u8, 10>, key: char, value: u8) -> Option<u8> {
    let entry = map.entry(key);
    if entry.has_room() {
        Some(*entry.or_insert_with(|| value))
    } else {
        None
    }
}

// Keys that are texts, found by a probe.
pub(super) fn row_24_texts_are_found_by_a_probe(alloc: Global) -> Result<bool, AllocError> {
    let mut map: Map<String, i32, 10> = Map::new();
    for (name, value) in [("one", 1), ("two", 3), ("three", 5)] {
        map.checked_insert(String::from_str(alloc, name)?, value);
    }
    let two = Text("two");
    Ok(
        map.get_by(&two) == Some(&3)
            && map.remove_by(&two) == Some(3)
            && map.values().copied().eq([1, 5])
            && !map.contains_key_by(&two),
    )
}

// A repeated key has its last value, at the index where it came first.
pub(super) fn row_11_a_repeated_key_has_its_last_value() -> bool {
    let days = Map::from([(1, "sun"), (2, "mon"), (3, "tue"), (1, "wed"), (2, "thu")]);
    days.len() == 3 && days.capacity() == 5 && has(days, [(1, "wed"), (2, "thu"), (3, "tue")])
}

// Whether these are the map's pairs, from the front.
fn has<const N: usize>(mut map: Map<u8, &'static str, N>, pairs: [(u8, &'static str); 3]) -> bool {
    map.drain().eq(pairs)
}

// The first item that doesn't fit is named by its position.
pub(super) fn row_28_the_first_misfit_is_named() -> bool {
    let items = [(1, "a"), (2, "b"), (1, "c"), (3, "d")];
    let small: Result<Map<u8, &str, 2>, Overfull> = Map::try_from_iter(items.into_iter());
    let large: Result<Map<u8, &str, 3>, Overfull> = Map::try_from_iter(items.into_iter());
    matches!(small, Err(Overfull { at: 3 }))
        && large.is_ok_and(|map| has(map, [(1, "c"), (2, "b"), (3, "d")]))
}

// Keys by reference and by value, both from the front.
pub(super) fn row_9_keys_come_from_the_front() -> bool {
    let mut map: Map<&str, u8, 2> = Map::new();
    map.checked_insert("foo", 0);
    map.checked_insert("bar", 0);
    let keys = map.keys();
    if keys.len() != 2 || !keys.copied().eq(["foo", "bar"]) {
        return false;
    }
    let keys = map.into_keys();
    keys.len() == 2 && keys.eq(["foo", "bar"])
}

// A drained map is empty at once.
pub(super) fn row_10_a_drained_map_is_empty_at_once() -> bool {
    let mut map: Map<char, u8, 3> = Map::new();
    for (letter, code) in [('a', 97), ('b', 98), ('c', 99)] {
        map.checked_insert(letter, code);
    }
    let mut drained = map.drain();
    if drained.len() != 3 || !map.is_empty() {
        return false;
    }
    if drained.next() != Some(('a', 97)) || drained.len() != 2 {
        return false;
    }
    drop(drained);
    map.is_empty()
}

// Values written at some keys, one of which isn't there.
pub(super) fn row_13_update_disjoint_passes_over_a_missing_key() -> bool {
    let mut map: Map<u8, usize, 3> = Map::new();
    for (key, value) in [(1, 10), (2, 20), (3, 30)] {
        map.checked_insert(key, value);
    }
    let found = map.update_disjoint(&[3, 9, 1], |position, value| {
        *value = value.wrapping_add(position)
    });
    found == [true, false, true] && map.drain().eq([(1, 12), (2, 20), (3, 30)])
}

// Values doubled, from the front.
pub(super) fn row_29_update_all_doubles_the_values() -> bool {
    let mut map: Map<&str, u8, 3> = Map::new();
    map.checked_insert("one", 2);
    map.checked_insert("two", 3);
    map.checked_insert("three", 5);
    map.update_all(|_, value| *value = value.wrapping_mul(2));
    map.values().copied().eq([4, 6, 10])
}

// A clone of an iterator has the same items left, and a default iterator is at its end.
pub(super) fn row_30_clones_of_iterators() -> bool {
    let mut map: Map<u8, u8, 3> = Map::new();
    for key in [1, 2, 3] {
        map.checked_insert(key, 0);
    }
    let mut keys = map.keys();
    if keys.next() != Some(&1) {
        return false;
    }
    let Ok(other) = keys.clone() else {
        return false;
    };
    let mut none: Keys<'_, u8, u8> = Keys::default();
    keys.copied().eq([2, 3])
        && other.copied().eq([2, 3])
        && none.len() == 0
        && none.next().is_none()
        && none.next().is_none()
}
