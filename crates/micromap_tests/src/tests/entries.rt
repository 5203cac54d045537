//! Entries as a user writes them, what they drop, and callers' proofs: letters are counted, and entries are returned.
ghost use Rattle.std.specs.Prelude.{◌≡◌, ◌+ℤ◌, IfSome, IsTrue, nat_eq, pos};
ghost use Rattle.std.specs.Int.{saturate_signed, w32};
ghost use Rattle.std.specs.Option.{option_map_or};
ghost use Rattle.micromap.specs.Entry.{IsSound, entry_has_room};
ghost use Rattle.micromap_core.specs.declared.map.entry.EntryIn.TheVariants.{Occupied, Vacant};
ghost use Rattle.micromap.specs.Pairs.{at, fits, has, put};

use micromap::Map;
use micromap::map::{Entry, OccupiedEntry, VacantEntry};
use micromap_testing::{Counted, Counts, Marked, counted_map};

// Counts one more `letter`.
fn count<const N: usize>(counts: &mut Map<char, i32, N>, letter: char)
    requires { IsTrue (fits nat_eq N counts.old letter) }
    ensures { counts.new ≡ put nat_eq counts.old letter (option_map_or (λ n. saturate_signed w32 (n +ℤ pos 1)) (at nat_eq counts.old letter) (pos 1)) }
{
    counts
        .entry(letter)
        .and_modify(|count| *count = count.saturating_add(1))
        .or_insert(1);
}

// Whether `key` is stored.
fn is_stored<K: Eq + Drop, V, const N: usize>(map: &mut Map<K, V, N>, key: K) -> bool
    ensures answer { result ≡ has K.eq map.old key }
    ensures pairs { map.new ≡ map.old }
{
    matches!(map.entry(key), Entry::Occupied(_))
}

// The entry of `key`, where it can have a value.
fn open<const N: usize>(map: &mut Map<char, u8, N>, key: char) -> Option<Entry<'_, char, u8, N>>
    ensures { IfSome result (λ e. IsSound nat_eq e × IsTrue (entry_has_room N e)) }
{
    let entry = map.entry(key);
    if entry.has_room() { Some(entry) } else { None }
}

// The entry of a key that is stored.
fn stored<const N: usize>(
    map: &mut Map<char, u8, N>,
    key: char,
) -> Option<OccupiedEntry<'_, char, u8, N>>
    ensures { IfSome result (λ o. IsSound nat_eq (Occupied o)) }
{
    match map.entry(key) {
        Entry::Occupied(entry) => Some(entry),
        Entry::Vacant(_entry) => None,
    }
}

// The entry of a new key for which there is room.
fn free<const N: usize>(
    map: &mut Map<char, u8, N>,
    key: char,
) -> Option<VacantEntry<'_, char, u8, N>>
    ensures { IfSome result (λ e. IsSound nat_eq (Vacant e) × IsTrue (entry_has_room N (Vacant e))) }
{
    match map.entry(key) {
        Entry::Vacant(entry) if entry.has_room() => Some(entry),
        Entry::Vacant(_entry) => None,
        Entry::Occupied(_entry) => None,
    }
}

#[test]
fn letters_are_counted(rt: HostRuntime) {
    let mut counts: Map<char, i32, 13> = Map::new();
    for letter in "a short treatise on fungi".chars() {
        if counts.fits(&letter) {
            count(&mut counts, letter);
        }
    }
    for (letter, times) in [
        ('s', Some(&2)),
        ('t', Some(&3)),
        ('u', Some(&1)),
        ('y', None),
    ] {
        assert!(rt; counts.get(&letter) == times);
    }
    assert!(rt; counts.len() == 13);
}

// The key of the entry of a new key, and whether it has room.
fn new_key<K: Eq + Drop, const N: usize>(map: &mut Map<K, u8, N>, key: K) -> Option<(K, bool)> {
    match map.entry(key) {
        Entry::Vacant(entry) => {
            let has_room = entry.has_room();
            Some((entry.into_key(), has_room))
        }
        Entry::Occupied(_entry) => None,
    }
}

#[test]
fn room_decides_at_a_full_map(rt: HostRuntime) {
    let mut map: Map<u8, u8, 1> = Map::new();
    map.insert(1, 10);
    assert!(rt; map.entry(1).has_room());
    assert!(rt; !map.entry(2).has_room());
    assert!(rt; new_key(&mut map, 1).is_none());
    assert!(rt; new_key(&mut map, 2) == Some((2, false)));
    assert!(rt; map.get(&1) == Some(&10));
    assert!(rt; map.len() == 1);
    assert!(rt; new_key(&mut Map::<u8, u8, 0>::new(), 1) == Some((1, false)));
}

#[test]
fn a_stored_key_stays_in_its_entry(rt: HostRuntime) {
    let mut map: Map<Marked, u8, 1> = Map::new();
    map.insert(Marked::new(1, 'x'), 5);
    assert!(rt; map.entry(Marked::new(1, 'y')).key().mark == 'x');
    let entry = map.entry(Marked::new(1, 'y'));
    assert!(rt; entry.has_room());
    let entry = entry.insert_entry(6);
    assert!(rt; entry.key().mark == 'x');
    assert!(rt; *entry.get() == 6);
}

#[test]
fn a_function_may_answer_an_entry(rt: HostRuntime) {
    let mut map: Map<char, u8, 2> = Map::new();
    if let Some(entry) = open(&mut map, 'a') {
        assert!(rt; *entry.or_insert(1) == 1);
    }
    if let Some(entry) = free(&mut map, 'b') {
        assert!(rt; *entry.insert(2) == 2);
    }
    if let Some(entry) = stored(&mut map, 'a') {
        assert!(rt; entry.remove() == 1);
    }
    assert!(rt; map.drain().eq([('b', 2)]));
}

#[test]
fn an_entry_drops_its_key(rt: HostRuntime) {
    let counts = Counts::new();
    let mut map = counted_map([0, 1, 2], &counts);
    let new = Counted::new(9, &counts);
    assert!(rt; !is_stored(&mut map, new));
    assert!(rt; counts.drops.replace(0) == 1);
    let stored = Counted::new(1, &counts);
    assert!(rt; is_stored(&mut map, stored));
    assert!(rt; counts.drops.replace(0) == 1);
    drop(map);
    assert!(rt; counts.drops.get() == 6);
}

#[test]
fn a_closure_is_called_on_the_value_of_an_occupied_entry_alone(rt: HostRuntime) {
    let mut map: Map<u8, u8, 2> = Map::from([(1, 10), (2, 20)]);
    let mut seen = 0u8;
    map.entry(1).and_modify(|value| seen = *value);
    assert!(rt; seen == 10);
    map.entry(3).and_modify(|_| seen = 1);
    assert!(rt; seen == 10);
}
