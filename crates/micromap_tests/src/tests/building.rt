//! Maps and sets built from items, and what is said of the first that doesn't fit. Maps and sets in another capacity, and
//! a caller's proof: a map goes on in a larger one.
ghost use Rattle.std.specs.Prelude.{[], ◌≡◌, ◌<◌, ◌*◌, nat_eq};
ghost use Rattle.micromap.specs.Pairs.{put};

use micromap::{InsertError, Map, Overfull, Set};
use micromap_testing::{Counted, Counts, counted_map, debugs, displays, holds};

#[test]
fn the_first_misfit_is_named(rt: HostRuntime) {
    let none: [(u8, &str); 0] = [];
    let map: Result<Map<u8, &str, 0>, Overfull> = Map::try_from_iter(none.into_iter());
    assert!(rt; map.is_ok_and(|map| map.is_empty()));
    let map: Result<Map<u8, &str, 0>, Overfull> = Map::try_from_iter([(1, "a")].into_iter());
    assert!(rt; matches!(map, Err(Overfull { at: 0 })));
    let items = [(1, "a"), (1, "b"), (1, "c")];
    let map: Result<Map<u8, &str, 1>, Overfull> = Map::try_from_iter(items.into_iter());
    assert!(rt; map.is_ok_and(|map| map.into_iter().eq([(1, "c")])));
}

#[test]
fn nothing_is_taken_after_a_misfit(rt: HostRuntime) {
    let mut left = [(1, 'a'), (2, 'b'), (1, 'c'), (3, 'd'), (4, 'e')].into_iter();
    let map: Result<Map<u8, char, 2>, Overfull> = Map::try_from_iter(&mut left);
    assert!(rt; matches!(map, Err(Overfull { at: 3 })));
    assert!(rt; left.next() == Some((4, 'e')));
    let mut left = [5, 6, 7].into_iter();
    let set: Result<Set<u8, 1>, Overfull> = Set::try_from_iter(&mut left);
    assert!(rt; matches!(set, Err(Overfull { at: 1 })));
    assert!(rt; left.next() == Some(7));
}

#[test]
fn a_map_is_extended_up_to_the_first_misfit(rt: HostRuntime) {
    let mut map: Map<u8, u8, 2> = Map::new();
    map.checked_insert(1, 10);
    let mut left = [(2, 20), (1, 11), (3, 30), (2, 21)].into_iter();
    assert!(rt; map.try_extend(&mut left) == Err(Overfull { at: 2 }));
    assert!(rt; left.next() == Some((2, 21)));
    assert!(rt; map.drain().eq([(1, 11), (2, 20)]));
}

#[test]
fn a_set_is_extended_up_to_the_first_misfit(rt: HostRuntime) {
    let mut set: Set<i32, 1> = Set::new();
    let mut left = [5, 6, 7].into_iter();
    assert!(rt; set.try_extend(&mut left) == Err(Overfull { at: 1 }));
    assert!(rt; set.iter().eq(&[5]));
    assert!(rt; left.next() == Some(7));
}

#[test]
fn a_misfit_can_be_read(rt: HostRuntime) {
    let misfit = Overfull { at: 3 };
    let text = "item 3 has a new key, and there is no room for it";
    assert!(rt; displays(rt.alloc(), &misfit, text));
    assert!(rt; debugs(rt.alloc(), &misfit, "Overfull { at: 3 }"));
    assert!(rt; misfit == Overfull { at: 3 });
}

#[test]
fn an_error_of_an_insertion_can_be_read(rt: HostRuntime) {
    let stored = InsertError::Occupied((1, 10));
    assert!(rt; displays(rt.alloc(), &stored, "the key is stored already"));
    assert!(rt; debugs(rt.alloc(), &stored, "Occupied((1, 10))"));
    assert!(rt; stored != InsertError::Full((1, 10)));
    let full = InsertError::Full(5);
    assert!(rt;
        displays(
            rt.alloc(),
            &full,
            "the key is new, and there is no room for it"
        )
    );
    assert!(rt; debugs(rt.alloc(), &full, "Full(5)"));
}

#[test]
fn items_that_do_not_fit_are_dropped(rt: HostRuntime) {
    let counts = Counts::new();
    let items = [0, 1, 0, 2, 3].map(|id| Counted::new(id, &counts));
    let set: Result<Set<Counted<'_>, 2>, _> = Set::try_from_iter(items.into_iter());
    assert!(rt; set.is_err());
    assert!(rt; counts.drops.get() == 5);
}

#[test]
fn all_items_or_none_make_a_map(rt: HostRuntime) {
    let items = [(1, 'a'), (2, 'b'), (1, 'c')];
    let map: Option<Map<u8, char, 2>> = Map::from_all(items.into_iter());
    assert!(rt; map.is_some_and(|map| map.into_iter().eq([(1, 'c'), (2, 'b')])));
    let mut left = items.into_iter();
    let map: Option<Map<u8, char, 1>> = Map::from_all(&mut left);
    assert!(rt; map.is_none());
    assert!(rt; left.next().is_none());
    let set: Option<Set<u8, 2>> = Set::from_all([5, 6, 5].into_iter());
    assert!(rt; set.is_some_and(|set| holds(&set, &[5, 6])));
    let set: Option<Set<u8, 1>> = Set::from_all([5, 6, 5].into_iter());
    assert!(rt; set.is_none());
}

#[test]
fn items_that_are_not_in_a_map_are_dropped(rt: HostRuntime) {
    let counts = Counts::new();
    let items = [0, 1, 0, 2, 3].map(|id| Counted::new(id, &counts));
    let set: Option<Set<Counted<'_>, 2>> = Set::from_all(items.into_iter());
    assert!(rt; set.is_none());
    assert!(rt; counts.drops.get() == 5);
}

#[test]
fn a_map_takes_every_item_that_is_lent(rt: HostRuntime) {
    let items = [(1, 'a'), (2, 'b'), (1, 'c')];
    let mut left = items.into_iter();
    let map: Map<u8, char, 1> = Map::from_fitting(&mut left);
    assert!(rt; map.into_iter().eq([(1, 'c')]));
    assert!(rt; left.next().is_none());
}

#[test]
fn every_lent_item_is_counted_or_taken(rt: HostRuntime) {
    let mut left = [1, 2, 1].into_iter();
    let few: Option<Map<u8, usize, 1>> = Map::counts_of(&mut left);
    assert!(rt; few.is_none());
    assert!(rt; left.next().is_none());
    let mut left = [1, 2, 1].into_iter();
    let counts: Option<Map<u8, usize, 2>> = Map::counts_of(&mut left);
    assert!(rt; counts.is_some_and(|map| map.into_iter().eq([(1, 2), (2, 1)])));
    assert!(rt; left.next().is_none());
}

#[test]
fn a_set_takes_every_item_that_is_lent(rt: HostRuntime) {
    let mut left = [5, 6, 5].into_iter();
    let set: Option<Set<u8, 1>> = Set::from_all(&mut left);
    assert!(rt; set.is_none());
    assert!(rt; left.next().is_none());
    let mut left = [5, 6, 5].into_iter();
    let set: Set<u8, 1> = Set::from_fitting(&mut left);
    assert!(rt; holds(&set, &[5]));
    assert!(rt; left.next().is_none());
}

// Puts the pair into a map of twice the capacity, which has all pairs of this one.
fn outgrow<const N: usize, const M: usize>(
    map: Map<u8, u8, N>,
    key: u8,
    value: u8,
) -> Map<u8, u8, M>
    requires some { 0 < N }
    requires twice { M ≡ 2 * N }
    ensures { result ≡ put nat_eq map.entry key value }
{
    let mut larger = match map.into_capacity() {
        Ok(larger) => larger,
        Err(_) => unreachable!(),
    };
    larger.insert(key, value);
    larger
}

// The keys 1 to 3 with ten times their number.
fn three<const N: usize>() -> Map<u8, u8, N> {
    let mut map = Map::new();
    for (key, value) in [(1, 10), (2, 20), (3, 30)] {
        map.checked_insert(key, value);
    }
    map
}

// Whether the map has just these pairs, in this order.
fn has_pairs<const N: usize>(map: &Map<u8, u8, N>, keys: &[u8], values: &[u8]) -> bool {
    map.keys().eq(keys) && map.values().eq(values)
}

#[test]
fn a_map_goes_where_it_fits(rt: HostRuntime) {
    match three::<5>().into_capacity::<3>() {
        Ok(map) => {
            assert!(rt; has_pairs(&map, &[1, 2, 3], &[10, 20, 30]));
            assert!(rt; map.capacity() == 3);
            assert!(rt; !map.fits(&4));
        }
        Err(_) => panic!(rt; "three pairs fit"),
    }
}

#[test]
fn a_map_that_does_not_fit_comes_back(rt: HostRuntime) {
    match three::<5>().into_capacity::<2>() {
        Ok(_) => panic!(rt; "three pairs don't fit"),
        Err(map) => {
            assert!(rt; has_pairs(&map, &[1, 2, 3], &[10, 20, 30]));
            assert!(rt; map.capacity() == 5);
        }
    }
}

#[test]
fn the_smallest_capacities(rt: HostRuntime) {
    let none: Map<u8, u8, 4> = Map::new();
    assert!(rt; none.into_capacity::<0>().is_ok_and(|map| map.is_empty()));
    let one = Map::from([(1, 10)]);
    match one.into_capacity::<1>() {
        Ok(one) => {
            assert!(rt; has_pairs(&one, &[1], &[10]));
            let refused = one.into_capacity::<0>();
            assert!(rt; refused.is_err_and(|one| has_pairs(&one, &[1], &[10])));
        }
        Err(_) => panic!(rt; "one pair fits"),
    }
}

#[test]
fn a_set_goes_where_it_fits(rt: HostRuntime) {
    let set = Set::from([1, 2, 3]);
    match set.into_capacity::<8>() {
        Ok(mut set) => {
            assert!(rt; set.fits(&4));
            assert!(rt; set.insert(4));
            assert!(rt; holds(&set, &[1, 2, 3, 4]));
        }
        Err(_) => panic!(rt; "three items fit"),
    }
    let refused = Set::from([1, 2, 3]).into_capacity::<2>();
    assert!(rt; refused.is_err_and(|set| holds(&set, &[1, 2, 3])));
}

#[test]
fn a_full_map_goes_on_in_a_larger_one(rt: HostRuntime) {
    let full: Map<u8, u8, 3> = three();
    assert!(rt; !full.fits(&4));
    let larger: Map<u8, u8, 6> = outgrow(full, 4, 40);
    assert!(rt; has_pairs(&larger, &[1, 2, 3, 4], &[10, 20, 30, 40]));
    assert!(rt; larger.fits(&5));
}

#[test]
fn another_capacity_drops_nothing_by_itself(rt: HostRuntime) {
    let counts = Counts::new();
    let moved = counted_map([0, 1, 2], &counts).into_capacity::<4>();
    assert!(rt; moved.is_ok());
    assert!(rt; counts.drops.get() == 0);
    drop(moved);
    assert!(rt; counts.drops.replace(0) == 6);
    let refused = counted_map([0, 1, 2], &counts).into_capacity::<2>();
    assert!(rt; refused.is_err());
    assert!(rt; counts.drops.get() == 0);
    drop(refused);
    assert!(rt; counts.drops.replace(0) == 6);
}
