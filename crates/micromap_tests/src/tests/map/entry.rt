//! A long run of entries on one map. Each function below makes one call on the entry of a letter, or two, and returns
//! `None` if the entry isn't of the kind that the call is for or has no room.
use micromap::Map;
use micromap::map::Entry;

type Letters = Map<char, u8, 10>;

// The value there, or `value` from now on.
fn or_insert(map: &mut Letters, letter: char, value: u8) -> Option<u8> {
    let entry = map.entry(letter);
    if entry.has_room() {
        Some(*entry.or_insert(value))
    } else {
        None
    }
}

// The same with a closure.
fn or_insert_with(map: &mut Letters, letter: char, value: u8) -> Option<u8> {
    let entry = map.entry(letter);
    if entry.has_room() {
        Some(*entry.or_insert_with(|| value))
    } else {
        None
    }
}

// The same with a closure that gets the letter, and makes `value` or else its code.
fn or_insert_with_key(map: &mut Letters, letter: char, value: Option<u8>) -> Option<u8> {
    let entry = map.entry(letter);
    if entry.has_room() {
        Some(*entry.or_insert_with_key(|letter| value.unwrap_or((*letter as u32 % 256) as u8)))
    } else {
        None
    }
}

// `value` where one is there, else the default.
fn modify_or_default(map: &mut Letters, letter: char, value: u8) -> Option<u8> {
    let entry = map.entry(letter).and_modify(|stored| *stored = value);
    if entry.has_room() {
        Some(*entry.or_default())
    } else {
        None
    }
}

// The value of the entry once it is inserted.
fn insert_entry(map: &mut Letters, letter: char, value: u8) -> Option<u8> {
    let entry = map.entry(letter);
    if entry.has_room() {
        Some(*entry.insert_entry(value).get())
    } else {
        None
    }
}

// The value there, and the one that is written in its place before a last one.
#[tactic(auto, unfolding(micromap_core::specs::Entry::entry_put))]
fn write_twice(map: &mut Letters, letter: char, first: u8, last: u8) -> Option<(u8, u8)> {
    match map.entry(letter) {
        Entry::Occupied(mut entry) => {
            let before = *entry.get();
            *entry.get_mut() = first;
            let between = *entry.get();
            *entry.into_mut() = last;
            Some((before, between))
        }
        Entry::Vacant(_entry) => None,
    }
}

// The value there, which goes with its letter.
fn remove(map: &mut Letters, letter: char) -> Option<u8> {
    match map.entry(letter) {
        Entry::Occupied(entry) => Some(entry.remove()),
        Entry::Vacant(_entry) => None,
    }
}

// The value there, and the pair that goes with another value in its place.
fn insert_and_remove(map: &mut Letters, letter: char, value: u8) -> Option<(u8, (char, u8))> {
    match map.entry(letter) {
        Entry::Occupied(mut entry) => {
            let old = entry.insert(value);
            Some((old, entry.remove_entry()))
        }
        Entry::Vacant(_entry) => None,
    }
}

// The letter that a vacant entry shows and gives back.
fn vacant_key(map: &mut Letters, letter: char) -> Option<(char, char)> {
    match map.entry(letter) {
        Entry::Vacant(entry) => {
            let shown = *entry.key();
            Some((shown, entry.into_key()))
        }
        Entry::Occupied(_entry) => None,
    }
}

// The letter that a vacant entry shows, and the value that it has from now on.
fn insert_new(map: &mut Letters, letter: char, value: u8) -> Option<(char, u8)> {
    match map.entry(letter) {
        Entry::Vacant(entry) if entry.has_room() => {
            let shown = *entry.key();
            Some((shown, *entry.insert(value)))
        }
        Entry::Vacant(_entry) => None,
        Entry::Occupied(_entry) => None,
    }
}

// The map that the run begins with.
#[tactic(auto, unfolding(micromap_core::specs::Pairs::put))]
fn letters() -> Letters {
    let mut map = Map::new();
    map.insert('a', 97);
    map.insert('d', 100);
    map.insert('c', 99);
    map.insert('b', 98);
    map
}

// Whether values are put where there is none, written and made.
fn puts_and_writes(map: &mut Letters) -> bool {
    *map.entry('c').key() == 'c'
        && or_insert(map, 'e', 101) == Some(101)
        && or_insert(map, 'e', 101) == Some(101)
        && modify_or_default(map, 'e', 42) == Some(42)
        && *map.entry('g').key() == 'g'
        && !map.contains_key(&'g')
        && modify_or_default(map, 'g', 42) == Some(0)
        && write_twice(map, 'e', 69, 101) == Some((42, 69))
        && or_insert_with(map, 'f', 43) == Some(43)
        && or_insert_with(map, 'f', 44) == Some(43)
}

// Whether pairs go and come.
fn takes_and_puts(map: &mut Letters) -> bool {
    map.remove_entry(&'f') == Some(('f', 43))
        && or_insert_with_key(map, 'f', None) == Some(102)
        && or_insert_with_key(map, 'f', Some(255)) == Some(102)
        && remove(map, 'e') == Some(101)
        && vacant_key(map, 'e') == Some(('e', 'e'))
        && insert_new(map, 'e', 101) == Some(('e', 101))
        && insert_and_remove(map, 'e', 69) == Some((101, ('e', 69)))
        && insert_entry(map, 'e', 101) == Some(101)
}

#[test]
fn various(rt: HostRuntime) {
    let mut map = letters();
    assert!(rt; puts_and_writes(&mut map));
    assert!(rt; takes_and_puts(&mut map));
    let letters = ['a', 'd', 'c', 'b', 'g', 'f', 'e'];
    assert!(rt; map.keys().eq(&letters));
    assert!(rt; map.values().eq(&[97, 100, 99, 98, 0, 102, 101]));
}
