//! Clones and copies of maps and sets, also by the trait and a derived `Clone`, a caller's proof that numbers never lack
//! memory, and operations on two sets in which the clone of an item fails at its turn: both sets stay as they were, and
//! each clone that was made is dropped.
ghost use Rattle.std.specs.Prelude.{◌≡◌, IfOk, Ok};

use micromap::{Map, Set, TextBuf};
use micromap_testing::{Counted, Counts, counted_set, holds};
use std::alloc::{AllocError, Global};

// A copy of a map of numbers.
fn copy_of_numbers<const N: usize>(map: &Map<u8, u64, N>) -> Result<Map<u8, u64, N>, AllocError>
    ensures { result ≡ Ok map.now }
{
    map.clone()
}

#[test]
fn a_clone_goes_its_own_way(rt: HostRuntime) -> Result<(), AllocError> {
    let mut map: Map<u8, u64, 3> = Map::new();
    map.checked_insert(1, 5);
    map.checked_insert(2, 6);
    let mut other = copy_of_numbers(&map)?;
    assert!(rt; other.fits(&3));
    other.insert(3, 7);
    assert!(rt; other.drain().eq([(1, 5), (2, 6), (3, 7)]));
    assert!(rt; map.drain().eq([(1, 5), (2, 6)]));
    Ok(())
}

#[test]
fn a_copy_goes_its_own_way(rt: HostRuntime) {
    let mut map: Map<u8, u64, 2> = Map::from([(2, 5), (1, 6)]);
    let mut other = map.copied();
    other.remove(&2);
    other.checked_insert(3, 7);
    assert!(rt; other.drain().eq([(1, 6), (3, 7)]));
    assert!(rt; map.drain().eq([(2, 5), (1, 6)]));
}

#[test]
fn a_copy_of_a_set_goes_its_own_way(rt: HostRuntime) {
    let mut set: Set<u8, 3> = Set::from([2, 1, 2]);
    let other = set.copied();
    set.checked_insert(3);
    assert!(rt; holds(&set, &[2, 1, 3]));
    assert!(rt; holds(&other, &[2, 1]));
}

// A map whose keys are maps, and a set of maps.
#[derive(Clone, Drop)]
struct Routes {
    prices: Map<Map<u8, u16, 2>, u32, 3>,
    closed: Set<Map<TextBuf, u8, 2>, 2>,
}

// Two clones, by the bound alone.
fn twice<T: Clone + Drop>(value: &T) -> Result<(T, T), AllocError>
    ensures { IfOk result (λ two. T.is_clone value.now two.0 × T.is_clone value.now two.1) }
{
    Ok((value.clone()?, value.clone()?))
}

fn two_routes(alloc: Global) -> Result<Routes, AllocError> {
    let mut prices = Map::new();
    prices.checked_insert(Map::from([(1, 10), (2, 20)]), 7);
    prices.checked_insert(Map::from([(1, 10), (3, 30)]), 8);
    let mut named = Map::new();
    named.checked_insert(TextBuf::new(alloc, "north")?, 1);
    let mut closed = Set::new();
    closed.checked_insert(named);
    Ok(Routes { prices, closed })
}

#[test]
fn a_map_of_maps_is_cloned_by_a_derive(rt: HostRuntime) -> Result<(), AllocError> {
    let routes = two_routes(rt.alloc())?;
    let (mut one, other) = twice(&routes)?;
    one.prices.clear();
    assert!(rt; other.prices == routes.prices);
    assert!(rt; other.closed == routes.closed);
    assert_eq!(rt; other.prices.get(&Map::from([(2, 20), (1, 10)])), Some(&7));
    Ok(())
}

// Keys with even ids, each with the value of the next.
fn two_pairs(counts: &Counts) -> Map<Counted<'_>, Counted<'_>, 2> {
    let mut map = Map::new();
    for id in [0, 2] {
        map.checked_insert(Counted::new(id, counts), Counted::new(id + 1, counts));
    }
    map
}

#[test]
fn a_clone_that_fails_leaves_the_map(rt: HostRuntime) {
    for failing in 0..4 {
        let counts = Counts::with_failing(failing);
        let map = two_pairs(&counts);
        assert!(rt; matches!(map.clone(), Err(AllocError)));
        assert!(rt; counts.drops.get() == counts.clones.get());
        assert!(rt; map.len() == 2);
        assert!(rt; map.keys().map(|key| key.id).eq([0, 2]));
        assert!(rt; map.values().map(|value| value.id).eq([1, 3]));
    }
}

#[test]
fn a_clone_that_fails_leaves_the_set(rt: HostRuntime) {
    for failing in 0..3 {
        let counts = Counts::with_failing(failing);
        let set = counted_set([0, 1, 2], &counts);
        assert!(rt; matches!(set.clone(), Err(AllocError)));
        assert!(rt; counts.drops.get() == counts.clones.get());
        assert!(rt; set.iter().map(|item| item.id).eq([0, 1, 2]));
    }
}

#[test]
fn an_intersection_that_fails_leaves_both_sets(rt: HostRuntime) {
    for failing in 0..4 {
        let counts = Counts::with_failing(failing);
        let first = counted_set([0, 1, 2, 3], &counts);
        let second = counted_set([3, 1], &counts);
        assert!(rt; first.bitand(&second).is_err() == (failing % 2 == 1));
        assert!(rt; counts.drops.get() == counts.clones.get());
        assert!(rt; first.iter().map(|item| item.id).eq([0, 1, 2, 3]));
        assert!(rt; second.iter().map(|item| item.id).eq([3, 1]));
    }
}

#[test]
fn a_difference_that_fails_leaves_both_sets(rt: HostRuntime) {
    for failing in 0..4 {
        let counts = Counts::with_failing(failing);
        let first = counted_set([0, 1, 2, 3], &counts);
        let second = counted_set([3, 1], &counts);
        assert!(rt; first.sub(&second).is_err() == (failing % 2 == 0));
        assert!(rt; counts.drops.get() == counts.clones.get());
        assert!(rt; first.iter().map(|item| item.id).eq([0, 1, 2, 3]));
        assert!(rt; second.iter().map(|item| item.id).eq([3, 1]));
    }
}
