//! The examples of calls on a map: making and building one, looking up, inserting and removing a pair, iterators, and
//! comparisons.
use micromap::{Map, Overfull, Steps, TextBuf};
use std::alloc::AllocError;

#[test]
fn an_empty_map(rt: HostRuntime) {
    {
        let map: Map<u8, char, 4> = Map::new();
        assert!(rt; map.is_empty());
        assert_eq!(rt; map.capacity(), 4);
    }
    {
        let map: Map<u8, char, 4> = Map::with_capacity(4);
        assert!(rt; map.is_empty());
    }
    {
        let map: Map<u8, char, 4> = Map::default();
        assert!(rt; map.is_empty());
    }
}

#[test]
fn a_map_has_a_length_and_a_capacity(rt: HostRuntime) {
    {
        let mut ages: Map<&str, u8, 2> = Map::new();
        assert!(rt; ages.put("Ada", 36) && ages.put("Alan", 41));
        assert!(rt; !ages.put("Grace", 85));
        assert_eq!(rt; ages.get(&"Alan"), Some(&41));
    }
    {
        let mut map: Map<u8, char, 4> = Map::new();
        map.put(1, 'a');
        map.put(1, 'b');
        assert_eq!(rt; map.len(), 1);
    }
}

#[test]
fn a_map_is_empty_or_full(rt: HostRuntime) {
    {
        let mut map: Map<u8, char, 4> = Map::new();
        assert!(rt; map.is_empty());
        map.put(1, 'a');
        assert!(rt; !map.is_empty());
    }
    {
        let mut map: Map<u8, char, 4> = Map::new();
        map.put(1, 'a');
        assert_eq!(rt; map.capacity(), 4);
    }
    {
        let mut map = Map::from([(1, 'a'), (2, 'b')]);
        map.clear();
        assert!(rt; map.is_empty());
        assert!(rt; map.put(3, 'c'));
    }
}

#[test]
fn of_an_array(rt: HostRuntime) {
    let map = Map::from([(1, 'a'), (2, 'b'), (1, 'c')]);
    assert_eq!(rt; map.capacity(), 3);
    assert!(rt; map.into_iter().eq([(1, 'c'), (2, 'b')]));
}

#[test]
fn with_items_up_to_a_misfit(rt: HostRuntime) {
    let mut map: Map<u8, char, 2> = Map::new();
    let ended = map.try_extend([(1, 'a'), (2, 'b'), (1, 'c'), (3, 'd')].into_iter());
    assert_eq!(rt; ended, Err(Overfull { at: 3 }));
    assert!(rt; map.into_iter().eq([(1, 'c'), (2, 'b')]));
}

#[test]
fn of_items_that_fit_or_the_first_misfit(rt: HostRuntime) {
    let items = [(1, 'a'), (2, 'b'), (1, 'c')];
    let map: Result<Map<u8, char, 2>, Overfull> = Map::try_from_iter(items.into_iter());
    assert!(rt; map.is_ok_and(|map| map.get(&1) == Some(&'c')));
    let small: Result<Map<u8, char, 1>, Overfull> = Map::try_from_iter(items.into_iter());
    assert!(rt; matches!(small, Err(Overfull { at: 1 })));
}

#[test]
fn of_all_items_or_none(rt: HostRuntime) {
    let items = [(1, 'a'), (2, 'b'), (1, 'c')];
    let map: Option<Map<u8, char, 2>> = Map::from_all(items.into_iter());
    assert!(rt; map.is_some_and(|map| map.get(&1) == Some(&'c')));
    let small: Option<Map<u8, char, 1>> = Map::from_all(items.into_iter());
    assert!(rt; small.is_none());
}

#[test]
fn of_those_items_that_fit(rt: HostRuntime) {
    let items = [(1, 'a'), (2, 'b'), (1, 'c')];
    let map: Map<u8, char, 1> = Map::from_fitting(items.into_iter());
    assert!(rt; map.into_iter().eq([(1, 'c')]));
}

#[test]
fn in_another_capacity(rt: HostRuntime) {
    let large = Map::from([(1, 'a'), (2, 'b')]).into_capacity::<3>();
    assert!(rt; large.is_ok_and(|mut map| map.put(3, 'c')));
    let small = Map::from([(1, 'a'), (2, 'b')]).into_capacity::<1>();
    assert!(rt; small.is_err_and(|map| map.len() == 2));
}

#[test]
fn as_text(rt: HostRuntime) -> Result<(), AllocError> {
    let alloc = rt.alloc();
    let map = Map::from([(2, 'b'), (1, 'a')]);
    assert_eq!(rt; map.to_string(alloc)?.as_str(), "{2: b, 1: a}");
    Ok(())
}

#[test]
fn with_comparisons_counted(rt: HostRuntime) {
    let map = Map::from([(1, 'a'), (2, 'b'), (3, 'c')]);
    let mut steps = Steps::new();
    assert_eq!(rt; map.get_counted(&2, &mut steps), Some(&'b'));
    assert_eq!(rt; steps.count(), 2);
}

#[test]
fn a_value_by_its_key(rt: HostRuntime) {
    {
        let map = Map::from([(1, 'a'), (2, 'b')]);
        assert_eq!(rt; map.get(&2), Some(&'b'));
        assert_eq!(rt; map.get(&3), None);
    }
    {
        let mut map = Map::from([(1, 'a'), (2, 'b')]);
        if let Some(value) = map.get_mut(&2) {
            *value = 'c';
        }
        assert_eq!(rt; map.get(&2), Some(&'c'));
    }
    {
        let counts = Map::from([("foo", 3), ("bar", 1)]);
        assert_eq!(rt; counts.get_or(&"foo", 0), 3);
        assert_eq!(rt; counts.get_or(&"qux", 0), 0);
    }
}

#[test]
fn a_pair_by_its_key(rt: HostRuntime) {
    let map = Map::from([(1, 'a'), (2, 'b')]);
    assert_eq!(rt; map.get_key_value(&2), Some((&2, &'b')));
    assert_eq!(rt; map.get_key_value(&3), None);
}

#[test]
fn a_pair_at_an_end(rt: HostRuntime) {
    {
        let mut map = Map::from([(2, 'b'), (1, 'a')]);
        assert_eq!(rt; map.first(), Some((&2, &'b')));
        map.clear();
        assert_eq!(rt; map.first(), None);
    }
    {
        let mut map = Map::from([(2, 'b'), (1, 'a')]);
        assert_eq!(rt; map.last(), Some((&1, &'a')));
        map.clear();
        assert_eq!(rt; map.last(), None);
    }
}

#[test]
fn whether_a_key_is_stored_or_fits(rt: HostRuntime) {
    {
        let map = Map::from([(1, 'a'), (2, 'b')]);
        assert!(rt; map.contains_key(&2));
        assert!(rt; !map.contains_key(&3));
    }
    {
        let full = Map::from([(1, 'a'), (2, 'b')]);
        assert!(rt; full.fits(&2));
        assert!(rt; !full.fits(&3));
    }
}

#[test]
fn a_value_at_a_stored_key(rt: HostRuntime) {
    {
        let map = Map::from([(1, 'a'), (2, 'b')]);
        assert!(rt; map.contains_key(&2));
        assert_eq!(rt; *map.index(&2), 'b');
    }
    {
        let mut map = Map::from([(1, 'a'), (2, 'b')]);
        if map.contains_key(&2) {
            *map.index_mut(&2) = 'c';
        }
        assert_eq!(rt; map.get(&2), Some(&'c'));
    }
}

#[test]
fn a_value_in_brackets(rt: HostRuntime) {
    {
        let map = Map::from([(1, 'a'), (2, 'b')]);
        assert!(rt; map.contains_key(&2));
        assert_eq!(rt; map[&2], 'b');
    }
    {
        let mut map = Map::from([(1, 'a'), (2, 'b')]);
        if map.contains_key(&2) {
            map[&2] = 'c';
        }
        assert_eq!(rt; map.get(&2), Some(&'c'));
    }
}

#[test]
fn a_pair_that_fits(rt: HostRuntime) {
    let mut map: Map<u8, char, 1> = Map::new();
    assert_eq!(rt; map.insert(1, 'a'), None);
    if map.fits(&1) {
        assert_eq!(rt; map.insert(1, 'b'), Some('a'));
    }
    assert_eq!(rt; map.get(&1), Some(&'b'));
}

#[test]
fn a_pair_in_the_place_of_a_stored_one(rt: HostRuntime) {
    {
        let mut map = Map::from([(1, 'a'), (2, 'b')]);
        assert!(rt; map.fits(&2));
        assert_eq!(rt; map.insert_unchecked(2, 'c'), Some('b'));
    }
    {
        let mut map = Map::from([(1, 'a'), (2, 'b')]);
        assert!(rt; map.fits(&2));
        assert_eq!(rt; map.insert_key_value(2, 'c'), Some((2, 'b')));
    }
}

#[test]
fn a_pair_is_put_or_refused(rt: HostRuntime) {
    let mut map: Map<u8, char, 1> = Map::new();
    assert!(rt; map.put(1, 'a'));
    assert!(rt; map.put(1, 'b'));
    assert!(rt; !map.put(2, 'c'));
    assert_eq!(rt; map.get(&1), Some(&'b'));
}

#[test]
fn a_pair_removed_by_its_key(rt: HostRuntime) {
    {
        let mut map = Map::from([(1, 'a'), (2, 'b'), (3, 'c')]);
        assert_eq!(rt; map.remove(&1), Some('a'));
        assert_eq!(rt; map.remove(&1), None);
        assert!(rt; map.keys().eq(&[2, 3]));
    }
    {
        let mut map = Map::from([(1, 'a'), (2, 'b')]);
        assert_eq!(rt; map.remove_entry(&1), Some((1, 'a')));
        assert_eq!(rt; map.remove_entry(&1), None);
    }
}

#[test]
fn a_pair_removed_at_an_end(rt: HostRuntime) {
    {
        let mut map = Map::from([(2, 'b'), (1, 'a')]);
        assert_eq!(rt; map.pop_first(), Some((2, 'b')));
        assert_eq!(rt; map.pop_first(), Some((1, 'a')));
        assert_eq!(rt; map.pop_first(), None);
    }
    {
        let mut map = Map::from([(2, 'b'), (1, 'a')]);
        assert_eq!(rt; map.pop_last(), Some((1, 'a')));
        assert_eq!(rt; map.pop_last(), Some((2, 'b')));
        assert_eq!(rt; map.pop_last(), None);
    }
}

#[test]
fn pairs_that_pass_a_test_are_kept(rt: HostRuntime) {
    {
        let mut map = Map::from([(1, 10), (2, 20), (3, 30)]);
        map.retain(|key, value| *key == 1 || *value == 30);
        assert!(rt; map.keys().eq(&[1, 3]));
    }
    {
        let mut map: Map<u8, u8, 2> = Map::from([(1, 10), (2, 20)]);
        map.update_all(|key, value| *value = value.saturating_sub(*key));
        assert!(rt; map.values().eq(&[9, 18]));
    }
}

#[test]
fn pairs_by_reference(rt: HostRuntime) {
    let map = Map::from([(2, 'b'), (1, 'a')]);
    let mut pairs = map.iter();
    assert_eq!(rt; pairs.next(), Some((&2, &'b')));
    assert_eq!(rt; pairs.len(), 1);
}

#[test]
fn keys_or_values_by_reference(rt: HostRuntime) {
    {
        let map = Map::from([(2, 'b'), (1, 'a')]);
        assert!(rt; map.keys().eq(&[2, 1]));
    }
    {
        let map = Map::from([(2, 'b'), (1, 'a')]);
        assert!(rt; map.values().eq(&['b', 'a']));
    }
}

#[test]
fn keys_or_values_by_value(rt: HostRuntime) {
    {
        let map = Map::from([(2, 'b'), (1, 'a')]);
        assert!(rt; map.into_keys().eq([2, 1]));
    }
    {
        let map = Map::from([(2, 'b'), (1, 'a')]);
        assert!(rt; map.into_values().eq(['b', 'a']));
    }
}

#[test]
fn emptied_at_once(rt: HostRuntime) {
    let mut map = Map::from([(2, 'b'), (1, 'a')]);
    assert_eq!(rt; map.drain().next(), Some((2, 'b')));
    assert!(rt; map.is_empty());
}

#[test]
fn in_a_loop(rt: HostRuntime) {
    {
        let mut largest = 0;
        for (_, value) in Map::from([(1, 10), (2, 20)]) {
            largest = largest.max(value);
        }
        assert_eq!(rt; largest, 20);
    }
    {
        let map = Map::from([(1, 10), (2, 20)]);
        let mut largest = 0;
        for (_, value) in &map {
            largest = largest.max(*value);
        }
        assert_eq!(rt; map.get(&2), Some(&largest));
    }
}

#[test]
fn the_same_pairs(rt: HostRuntime) {
    {
        let map = Map::from([(1, 'a'), (2, 'b')]);
        assert!(rt; map.eq_with(&Map::from([(2, 'b'), (1, 'a'), (1, 'a')])));
        assert!(rt; !map.eq_with(&Map::from([(1, 'a')])));
    }
    {
        assert!(rt; Map::from([(1, 'a'), (2, 'b')]) == Map::from([(2, 'b'), (1, 'a')]));
        assert!(rt; Map::from([(1, 'a')]) != Map::from([(1, 'b')]));
    }
}

#[test]
fn a_copy_of_a_map(rt: HostRuntime) {
    let mut map = Map::from([(1, 'a'), (2, 'b')]);
    let before = map.copied();
    map.clear();
    assert!(rt; before.keys().eq(&[1, 2]));
}

#[test]
fn a_clone_of_a_map(rt: HostRuntime) -> Result<(), AllocError> {
    let alloc = rt.alloc();
    let mut names: Map<u8, TextBuf, 2> = Map::new();
    names.put(1, TextBuf::new(alloc, "Ada")?);
    let mut clone = names.clone()?;
    names.clear();
    assert!(rt; clone.remove(&1).is_some_and(|name| name.is("Ada")));
    Ok(())
}
