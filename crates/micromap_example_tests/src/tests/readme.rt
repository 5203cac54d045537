//! Short uses of the calls, and the examples of doc comments.
use micromap::{InsertError, Map, Overfull, Set, Text, TextBuf};
use std::alloc::AllocError;

#[test]
fn insertions(rt: HostRuntime) {
    // `checked_insert` returns `Some(None)` for a new key, `Some(Some(old))` for a stored one, `None` if there is no room.
    let mut map: Map<u64, &str, 2> = Map::new();
    assert_eq!(rt; map.checked_insert(1, "foo"), Some(None));
    assert_eq!(rt; map.checked_insert(2, "bar"), Some(None));
    assert_eq!(rt; map.checked_insert(1, "baz"), Some(Some("foo")));
    assert_eq!(rt; map.checked_insert(3, "qux"), None);
    if map.fits(&2) {
        assert_eq!(rt; map.insert(2, "bam"), Some("bar"));
    }
}

#[test]
fn look_ups_and_removals(rt: HostRuntime) {
    let mut map: Map<u64, &str, 2> = Map::from([(1, "baz"), (2, "bam")]);
    assert_eq!(rt; map.get(&1), Some(&"baz"));
    if let Some(value) = map.get_mut(&2) {
        *value = "bim";
    }
    assert_eq!(rt; map.remove(&1), Some("baz"));
    assert_eq!(rt; map.get(&2), Some(&"bim"));
    assert!(rt; map.keys().eq(&[2]));
}

#[test]
fn entries_and_closures(rt: HostRuntime) {
    let mut counts: Map<char, u32, 13> = Map::new();
    for letter in "sets".chars() {
        if counts.fits(&letter) {
            counts
                .entry(letter)
                .and_modify(|count| *count = count.saturating_add(1))
                .or_insert(1);
        }
    }
    counts.retain(|_, count| *count > 1);
    assert!(rt; counts.into_iter().eq([('s', 2)]));
}

#[test]
fn a_text_finds_its_key(rt: HostRuntime) -> Result<(), AllocError> {
    // An owned text asks for memory.
    let alloc = rt.alloc();
    let mut ages: Map<TextBuf, u8, 4> = Map::new();
    ages.checked_insert(TextBuf::new(alloc, "Ada")?, 7);
    assert_eq!(rt; ages.get_by(&Text("Ada")), Some(&7));
    Ok(())
}

#[test]
fn a_set(rt: HostRuntime) {
    let mut seen: Set<u8, 2> = Set::new();
    assert_eq!(rt; seen.checked_insert(1), None);
    assert_eq!(rt; seen.checked_insert(1), Some(1));
    assert!(rt; seen.contains(&1));
}

#[test]
fn values_are_written_at_stored_keys(rt: HostRuntime) {
    let mut map: Map<u8, usize, 2> = Map::from([(1, 10), (2, 20)]);
    let found = map.update_disjoint(&[2, 9], |position, value| *value = position);
    assert_eq!(rt; found, [true, false]);
}

#[test]
fn a_union_is_built(rt: HostRuntime) -> Result<(), Overfull> {
    let first = Set::from([1, 2]);
    let second = Set::from([2, 3]);
    assert!(rt; first.union(&second).copied().eq([2, 3, 1]));
    let both: Set<i32, 4> = Set::try_from_iter(first.union(&second).copied())?;
    assert_eq!(rt; both.len(), 3);
    Ok(())
}

#[test]
fn two_maps_differ_at_a_key(rt: HostRuntime) {
    let first = Map::from([(1, 10), (2, 20)]);
    let second = Map::from([(2, 20), (1, 11)]);
    assert_eq!(rt; first.differs_at(&second), Some(&1));
}

#[test]
fn items_are_inserted_up_to_a_misfit(rt: HostRuntime) {
    let mut seen: Set<u8, 2> = Set::new();
    let ended = seen.try_extend([5, 5, 6, 7].into_iter());
    assert_eq!(rt; ended, Err(Overfull { at: 3 }));
    assert!(rt; seen.iter().eq(&[5, 6]));
}

#[test]
fn all_items_make_a_set(rt: HostRuntime) {
    let halves: Option<Set<u8, 2>> = Set::from_all([4, 5, 6].iter().map(|x| *x / 2));
    assert_eq!(rt; halves.map(|set| set.len()), Some(2));
}

#[test]
fn items_are_counted(rt: HostRuntime) {
    let votes = ["foo", "bar", "foo"];
    let counts: Option<Map<&str, usize, 2>> = Map::counts_of(votes.into_iter());
    assert_eq!(rt; counts, Some(Map::from([("foo", 2), ("bar", 1)])));
}

#[test]
fn a_new_pair_or_item_is_inserted_or_comes_back(rt: HostRuntime) {
    let mut map: Map<u64, &str, 1> = Map::new();
    assert_eq!(rt; map.try_insert(1, "foo"), Ok(()));
    let stored = map.try_insert(1, "bar");
    assert_eq!(rt; stored, Err(InsertError::Occupied((1, "bar"))));
    let refused = map.try_insert(2, "baz");
    assert_eq!(rt; refused, Err(InsertError::Full((2, "baz"))));
    assert_eq!(rt; map.get(&1), Some(&"foo"));
    let mut seen: Set<u8, 1> = Set::new();
    assert_eq!(rt; seen.try_insert(1), Ok(()));
    assert_eq!(rt; seen.try_insert(1), Err(InsertError::Occupied(1)));
    assert_eq!(rt; seen.try_insert(2), Err(InsertError::Full(2)));
}

#[test]
fn a_map_takes_all_of_another_or_nothing(rt: HostRuntime) {
    let mut prices: Map<u8, u32, 2> = Map::from([(1, 10), (2, 20)]);
    assert_eq!(rt; prices.try_extend_from(&Map::from([(2, 25)])), Ok(()));
    let ended = prices.try_extend_from(&Map::from([(1, 15), (3, 30)]));
    assert_eq!(rt; ended, Err(Overfull { at: 1 }));
    assert!(rt; prices.into_iter().eq([(1, 10), (2, 25)]));
}

#[test]
fn a_set_takes_all_of_another_or_nothing(rt: HostRuntime) {
    let mut seen: Set<u8, 3> = Set::from([5, 6, 5]);
    assert_eq!(rt; seen.try_extend_from(&Set::from([6, 7])), Ok(()));
    let ended = seen.try_extend_from(&Set::from([5, 8]));
    assert_eq!(rt; ended, Err(Overfull { at: 1 }));
    assert!(rt; seen.iter().eq(&[5, 6, 7]));
}
