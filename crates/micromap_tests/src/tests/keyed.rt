//! The keyed calls and the calls by probe: what they require, change and drop. Callers' proofs over what a look-up
//! finds after an insertion and a removal. Pairs kept and values written by a closure.
ghost use Rattle.std.specs.Prelude.{◌≡◌, Some, None, IsTrue, nat_eq};
ghost use Rattle.std.specs.Map.{lookup};
ghost use Rattle.micromap.specs.Pairs.{fits, put};
ghost use Rattle.micromap.specs.Probe.{is_str};

use micromap::{Map, Text};
use micromap_testing::{Counted, Counts, Digit, Id, Marked, counted_map, gives};
use std::alloc::{AllocError, Global};

// Puts a pair and looks its key up.
#[tactic(auto, using(micromap::proofs::Rules::caller))]
fn put_and_get<const N: usize>(map: &mut Map<u8, u8, N>, key: u8, value: u8) -> Option<u8>
    requires { IsTrue (fits nat_eq N map.old key) }
    ensures { result ≡ Some value }
{
    map.insert(key, value);
    map.get(&key).copied()
}

// Takes a pair out and looks its key up.
#[tactic(auto, using(micromap::proofs::Rules::caller))]
fn take_and_get<const N: usize>(map: &mut Map<u8, u8, N>, key: u8) -> Option<u8>
    ensures { result ≡ None }
{
    map.remove(&key);
    map.get(&key).copied()
}

#[test]
fn what_is_put_is_found_and_what_is_taken_is_not(rt: HostRuntime) {
    let mut map: Map<u8, u8, 2> = Map::new();
    assert!(rt; put_and_get(&mut map, 1, 10) == Some(10));
    assert!(rt; take_and_get(&mut map, 1).is_none());
}

#[test]
#[tactic(auto, unfolding(micromap_core::specs::Pairs::put))]
fn insertions_answer_what_was_there(rt: HostRuntime) {
    let mut map = Map::<_, _, 3>::new();
    assert_eq!(rt; map.insert(37, "a"), None);
    assert_eq!(rt; map.insert(37, "b"), Some("a"));
    assert_eq!(rt; map.insert(37, "c"), Some("b"));
    assert!(rt; map.contains_key(&37));
    assert!(rt; *map.index(&37) == "c");
}

#[test]
fn a_pair_is_put_if_it_fits(rt: HostRuntime) {
    let mut map: Map<u8, u8, 1> = Map::new();
    assert!(rt; map.put(1, 10));
    assert!(rt; map.put(1, 11));
    assert!(rt; !map.put(2, 20));
    assert_eq!(rt; map.get(&1), Some(&11));
}

#[test]
fn a_removed_entry_is_gone(rt: HostRuntime) {
    let mut map = Map::<_, _, 2>::new();
    assert_eq!(rt; map.insert(1, "a"), None);
    assert_eq!(rt; map.remove_entry(&1), Some((1, "a")));
    assert_eq!(rt; map.remove(&1), None);
}

#[test]
#[tactic(auto, unfolding(micromap_core::specs::Pairs::put))]
fn a_map_has_its_capacity(rt: HostRuntime) {
    let mut map: Map<u64, &str, 10> = Map::new();
    assert_eq!(rt; map.insert(1, "foo"), None);
    assert_eq!(rt; map.insert(2, "bar"), None);
    assert_eq!(rt; map.len(), 2);
    assert_eq!(rt; map.capacity(), 10);
}

// A map of these names, which all fit.
fn named<const N: usize>(
    alloc: Global,
    pairs: &[(&str, i32)],
) -> Result<Map<String, i32, N>, AllocError> {
    let mut map = Map::new();
    for (name, value) in pairs {
        map.checked_insert(String::from_str(alloc, *name)?, *value);
    }
    Ok(map)
}

// Writes a value by the index of a name, where it is there.
fn write<const N: usize>(map: &mut Map<String, i32, N>, name: &str, value: i32) {
    if map.contains_key_by(&Text(name)) {
        *map.index_mut_by(&Text(name)) = value;
    }
}

// Whether the pair of this name was in the map with this value, and is taken out.
fn takes<const N: usize>(map: &mut Map<String, i32, N>, name: &str, value: i32) -> bool {
    map.remove_entry_by(&Text(name))
        .is_some_and(|taken| taken.0.as_str() == name && taken.1 == value)
}

#[test]
fn texts_find_their_keys(rt: HostRuntime) -> Result<(), AllocError> {
    let mut map = named::<3>(rt.alloc(), &[("one", 1), ("two", 3), ("three", 5)])?;
    assert!(rt; map.fits_by(&Text("two")));
    assert!(rt; !map.fits_by(&Text("four")));
    write(&mut map, "two", 7);
    let two = String::from_str(rt.alloc(), "two")?;
    assert!(rt; map.get(&two) == Some(&7));
    assert!(rt; takes(&mut map, "one", 1));
    assert!(rt; map.get_by(&Text("one")).is_none());
    assert!(rt; map.len() == 2);
    Ok(())
}

// A key need not live as long as the text that finds it, nor the other way round.
fn age_of(ages: &Map<&str, i64, 32>, name: &str) -> Option<i64>
    ensures { result ≡ lookup (is_str name.now) ages.now }
{
    ages.get_by(&Text(name)).copied()
}

#[test]
fn texts_find_keys_that_are_borrowed(rt: HostRuntime) -> Result<(), AllocError> {
    let mut ages: Map<&str, i64, 32> = Map::new();
    ages.checked_insert("Ada", 36);
    let name = String::from_str(rt.alloc(), "Ada")?;
    assert!(rt; age_of(&ages, name.as_str()) == Some(36));
    assert!(rt; age_of(&ages, "Alan").is_none());
    Ok(())
}

#[test]
fn a_probe_finds_the_stored_key(rt: HostRuntime) {
    let mut map: Map<Marked, u8, 2> = Map::new();
    map.insert(Marked::new(1, 'x'), 5);
    let found = map.get_key_value_by(&Id(1));
    assert!(rt; found.map(|(key, value)| (key.mark, *value)) == Some(('x', 5)));
    if let Some(value) = map.get_mut_by(&Digit('1')) {
        *value = 6;
    }
    assert!(rt; map.contains_key_by(&Id(1)));
    assert!(rt; *map.index_by(&Id(1)) == 6);
    // A key is a probe too.
    assert!(rt; map.get_by(&Marked::new(1, 'y')) == Some(&6));
    let taken = map.remove_entry_by(&Digit('1'));
    assert!(rt; taken.map(|(key, value)| (key.mark, value)) == Some(('x', 6)));
    assert!(rt; map.is_empty());
}

#[test]
fn a_key_comes_and_goes(rt: HostRuntime) {
    let mut map: Map<u8, u8, 2> = Map::new();
    assert!(rt; map.checked_insert(1, 10) == Some(None));
    assert!(rt; map.remove(&2).is_none());
    assert!(rt; map.remove(&1) == Some(10));
    assert!(rt; map.remove(&1).is_none());
    assert!(rt; map.is_empty());
}

#[test]
fn a_cleared_map_is_empty(rt: HostRuntime) {
    let mut map: Map<u8, u8, 2> = Map::new();
    assert!(rt; map.checked_insert(3, 30) == Some(None));
    assert!(rt; map.checked_insert(4, 40) == Some(None));
    map.clear();
    assert_eq!(rt; map.len(), 0);
    assert_eq!(rt; map.get(&3), None);
}

#[test]
fn the_pairs_behind_the_gap_move_up_with_key_and_value(rt: HostRuntime) {
    let mut map = Map::from([(1, 10), (2, 20), (3, 30)]);
    assert_eq!(rt; map.remove_entry(&1), Some((1, 10)));
    assert!(rt; gives(map.iter(), &[(&2, &20), (&3, &30)]));
    assert!(rt; gives(map.drain(), &[(2, 20), (3, 30)]));
}

#[test]
fn capacity_0_holds_nothing(rt: HostRuntime) {
    let mut map: Map<u8, u8, 0> = Map::default();
    assert!(rt; map.get_key_value(&1).is_none());
    assert!(rt; map.remove(&1).is_none());
    assert!(rt; map.remove_entry(&1).is_none());
    assert!(rt; map.eq_with(&Map::<u8, u8, 3>::new()));
}

#[test]
fn a_map_of_one_changes_its_key(rt: HostRuntime) {
    let mut map: Map<u8, u8, 1> = Map::new();
    assert!(rt; map.checked_insert(1, 10) == Some(None));
    assert!(rt; map.fits(&1));
    assert!(rt; !map.fits(&2));
    assert!(rt; map.checked_insert(2, 20).is_none());
    assert!(rt; map.checked_insert(1, 11) == Some(Some(10)));
    assert!(rt; map.remove(&1) == Some(11));
    if map.fits(&2) {
        let value = *map.entry(2).or_insert(20);
        assert!(rt; value == 20);
    }
    assert!(rt; !map.entry(3).has_room());
    assert!(rt; (map.get(&2), map.len()) == (Some(&20), 1));
}

#[test]
fn a_pair_at_either_end_is_taken_out(rt: HostRuntime) {
    let mut map = Map::from([(3, 30), (1, 10), (2, 20)]);
    assert!(rt; map.pop_first() == Some((3, 30)));
    assert!(rt; map.get(&3).is_none());
    map.checked_insert(3, 33);
    assert!(rt; map.keys().eq(&[1, 2, 3]));
    assert!(rt; map.pop_first() == Some((1, 10)));
    assert!(rt; map.pop_last() == Some((3, 33)));
    assert!(rt; map.pop_last() == Some((2, 20)));
    assert!(rt; map.pop_first().is_none());
    assert!(rt; map.pop_last().is_none());
    assert!(rt; map.is_empty());
    let mut none: Map<u8, u8, 0> = Map::new();
    assert!(rt; none.pop_first().is_none());
}

#[test]
fn a_default_stands_for_a_missing_value(rt: HostRuntime) {
    let mut map: Map<Marked, u8, 2> = Map::new();
    assert!(rt; map.get_or(&Marked::new(1, 'y'), 9) == 9);
    map.checked_insert(Marked::new(1, 'x'), 10);
    assert!(rt; map.get_or(&Marked::new(1, 'y'), 9) == 10);
    assert!(rt; map.get_or(&Marked::new(2, 'x'), 9) == 9);
    assert!(rt; map.get_or_by(&Id(1), 9) == 10);
    assert!(rt; map.get_or_by(&Id(2), 9) == 9);
}

#[test]
fn a_call_drops_what_it_does_not_keep(rt: HostRuntime) {
    let counts = Counts::new();
    let mut map = counted_map([0, 1, 2], &counts);
    // The new key, and the old value, which is returned.
    map.checked_insert(Counted::new(1, &counts), Counted::new(1, &counts));
    assert!(rt; counts.drops.replace(0) == 2);
    // The pair that has no room.
    map.checked_insert(Counted::new(9, &counts), Counted::new(9, &counts));
    assert!(rt; counts.drops.replace(0) == 2);
    map.retain(|key, _| key.id == 2);
    assert!(rt; counts.drops.replace(0) == 4);
    map.clear();
    assert!(rt; counts.drops.replace(0) == 2);
    drop(map);
    assert!(rt; counts.drops.get() == 0);
}

// The map with these keys, each its own value.
fn numbered(keys: &[u8]) -> Map<u8, u8, 10> {
    let mut map = Map::new();
    for key in keys {
        map.checked_insert(*key, *key);
    }
    map
}

// Whether `retain` visits `keys` from front to end and keeps those of `kept` in their order.
fn retains(keys: &[u8], kept: &[u8]) -> bool {
    let mut map = numbered(keys);
    let mut number = 0usize;
    let mut in_order = true;
    map.retain(|key, _| {
        in_order &= keys.get(number) == Some(key);
        number = number.wrapping_add(1);
        kept.contains(key)
    });
    in_order && number == keys.len() && map.keys().eq(kept)
}

#[test]
fn each_pair_is_visited_once_in_turn(rt: HostRuntime) {
    let visited: [(&[u8], &[u8]); 6] = [
        (&[1, 2, 3, 4, 5], &[2, 4]),
        (&[0, 1, 2, 3, 4, 5, 6, 7], &[0, 2, 4, 6]),
        (&[9, 1, 2, 3, 4, 5, 6, 7, 8, 10], &[2, 4, 6, 8, 10]),
        (&[1, 2, 3], &[1, 2, 3]),
        (&[1, 2, 3], &[]),
        (&[], &[]),
    ];
    for (keys, kept) in visited {
        assert!(rt; retains(keys, kept));
    }
}

#[test]
fn an_empty_map_calls_nothing(rt: HostRuntime) {
    let mut map: Map<u8, u8, 0> = Map::new();
    let mut called = false;
    map.retain(|_, _| {
        called = true;
        true
    });
    map.update_all(|_, _| called = true);
    assert!(rt; !called);
}

#[test]
fn a_closure_counts_its_calls(rt: HostRuntime) {
    let mut map = Map::from([(1, 10), (2, 20), (3, 30), (4, 40), (5, 50)]);
    let mut visits = 0u8;
    let mut in_order = true;
    map.retain(|key, value: &mut u8| {
        visits = visits.wrapping_add(1);
        in_order &= *key == visits;
        *value = value.wrapping_add(visits);
        visits % 2 == 1
    });
    assert!(rt; (visits, in_order) == (5, true));
    assert!(rt; map.drain().eq([(1, 11), (3, 33), (5, 55)]));
}

#[test]
fn a_closure_adds_up(rt: HostRuntime) {
    let mut map = Map::from([(1, 10), (2, 20), (3, 30)]);
    let mut total = 0u8;
    map.update_all(|_, value: &mut u8| {
        total = value.wrapping_add(total);
        *value = total;
    });
    assert!(rt; total == 60);
    assert!(rt; map.drain().eq([(1, 10), (2, 30), (3, 60)]));
}
