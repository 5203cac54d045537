//! The entries of a map.
use micromap::Map;
use micromap::map::Entry;

#[test]
fn an_entry_has_a_key_and_may_have_room(rt: HostRuntime) {
    {
        let mut map = Map::from([(1, 'a')]);
        assert_eq!(rt; *map.entry(1).key(), 1);
        assert_eq!(rt; *map.entry(2).key(), 2);
    }
    {
        let mut full = Map::from([(1, 'a')]);
        assert!(rt; full.entry(1).has_room());
        assert!(rt; !full.entry(2).has_room());
    }
}

#[test]
fn an_entry_is_modified(rt: HostRuntime) {
    let mut map = Map::from([(1, 'a')]);
    map.entry(1).and_modify(|value| *value = 'b');
    map.entry(2).and_modify(|value| *value = 'c');
    assert!(rt; map.into_iter().eq([(1, 'b')]));
}

#[test]
fn an_entry_gets_a_value(rt: HostRuntime) {
    let mut map: Map<u8, char, 1> = Map::new();
    for default in ['a', 'b'] {
        if map.fits(&1) {
            map.entry(1).or_insert(default);
        }
    }
    assert_eq!(rt; map.get(&1), Some(&'a'));
}

#[test]
fn an_entry_gets_a_result(rt: HostRuntime) {
    let mut map: Map<u8, char, 1> = Map::new();
    if map.fits(&1) {
        map.entry(1).or_insert_with(|| 'a');
    }
    assert_eq!(rt; map.get(&1), Some(&'a'));
}

#[test]
fn an_entry_gets_a_result_for_its_key(rt: HostRuntime) {
    let mut halves: Map<u8, u8, 4> = Map::new();
    if halves.fits(&6) {
        halves.entry(6).or_insert_with_key(|n| *n / 2);
    }
    assert_eq!(rt; halves.get(&6), Some(&3));
}

#[test]
fn an_entry_gets_a_default(rt: HostRuntime) {
    let mut counts: Map<char, u8, 4> = Map::new();
    if counts.fits(&'a') {
        counts.entry('a').or_default();
    }
    assert_eq!(rt; counts.get(&'a'), Some(&0));
}

#[test]
fn an_entry_becomes_occupied(rt: HostRuntime) {
    let mut map = Map::from([(1, 'a')]);
    if map.fits(&1) {
        assert_eq!(rt; *map.entry(1).insert_entry('b').key(), 1);
    }
    assert_eq!(rt; map.get(&1), Some(&'b'));
}

#[test]
fn an_occupied_entry_is_read(rt: HostRuntime) {
    {
        let mut map = Map::from([(1, 'a')]);
        let key = match map.entry(1) {
            Entry::Occupied(entry) => Some(*entry.key()),
            Entry::Vacant(_entry) => None,
        };
        assert_eq!(rt; key, Some(1));
    }
    {
        let mut map = Map::from([(1, 'a')]);
        let value = match map.entry(1) {
            Entry::Occupied(entry) => Some(*entry.get()),
            Entry::Vacant(_entry) => None,
        };
        assert_eq!(rt; value, Some('a'));
    }
}

#[test]
fn an_occupied_entry_is_written_to(rt: HostRuntime) {
    {
        let mut map = Map::from([(1, 'a')]);
        if let Entry::Occupied(mut entry) = map.entry(1) {
            *entry.get_mut() = 'b';
        }
        assert_eq!(rt; map.get(&1), Some(&'b'));
    }
    {
        let mut map = Map::from([(1, 'a')]);
        if let Entry::Occupied(entry) = map.entry(1) {
            *entry.into_mut() = 'b';
        }
        assert_eq!(rt; map.get(&1), Some(&'b'));
    }
}

#[test]
fn an_occupied_entry_gets_another_value(rt: HostRuntime) {
    let mut map = Map::from([(1, 'a')]);
    if let Entry::Occupied(mut entry) = map.entry(1) {
        assert_eq!(rt; entry.insert('b'), 'a');
    }
    assert_eq!(rt; map.get(&1), Some(&'b'));
}

#[test]
fn an_occupied_entry_is_removed(rt: HostRuntime) {
    {
        let mut map = Map::from([(1, 'a'), (2, 'b')]);
        if let Entry::Occupied(entry) = map.entry(1) {
            assert_eq!(rt; entry.remove(), 'a');
        }
        assert!(rt; map.keys().eq(&[2]));
    }
    {
        let mut map = Map::from([(1, 'a')]);
        if let Entry::Occupied(entry) = map.entry(1) {
            assert_eq!(rt; entry.remove_entry(), (1, 'a'));
        }
        assert!(rt; map.is_empty());
    }
}

#[test]
fn a_vacant_entry_has_its_key(rt: HostRuntime) {
    {
        let mut map: Map<u8, char, 1> = Map::new();
        let key = match map.entry(1) {
            Entry::Vacant(entry) => Some(*entry.key()),
            Entry::Occupied(_entry) => None,
        };
        assert_eq!(rt; key, Some(1));
    }
    {
        let mut map: Map<u8, char, 1> = Map::new();
        let key = match map.entry(1) {
            Entry::Vacant(entry) => Some(entry.into_key()),
            Entry::Occupied(_entry) => None,
        };
        assert_eq!(rt; key, Some(1));
    }
    {
        let mut full = Map::from([(1, 'a')]);
        let has_room = match full.entry(2) {
            Entry::Vacant(entry) => entry.has_room(),
            Entry::Occupied(_entry) => true,
        };
        assert!(rt; !has_room);
    }
}

#[test]
fn a_vacant_entry_is_filled(rt: HostRuntime) {
    {
        let mut map: Map<u8, char, 1> = Map::new();
        if let Entry::Vacant(entry) = map.entry(1) {
            if entry.has_room() {
                entry.insert('a');
            }
        }
        assert_eq!(rt; map.get(&1), Some(&'a'));
    }
    {
        let mut map: Map<u8, char, 1> = Map::new();
        if let Entry::Vacant(entry) = map.entry(1) {
            if entry.has_room() {
                assert_eq!(rt; *entry.insert_entry('a').key(), 1);
            }
        }
        assert_eq!(rt; map.get(&1), Some(&'a'));
    }
}
