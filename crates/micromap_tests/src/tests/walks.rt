//! The iterators as a user writes them, what they drop, and a caller's proof of a loop over a map.
ghost use Rattle.std.specs.Prelude.{◌≡◌, ◌<◌, ◌^◌, IfOk, IsOk, sum};
ghost use Rattle.std.specs.Iterator.{size};
ghost use Rattle.std.specs.Map.{values_of};

use micromap::Map;
use micromap_testing::{Counted, Counts, counted_map, drops_all, gives};
use std::alloc::AllocError;

// The sum of all values.
fn total<const N: usize>(map: &Map<u8, u64, N>) -> u64
    requires { sum (values_of map.now) < 2 ^ 64 }
    ensures { result ≡ sum (values_of map.now) }
{
    let mut total = 0;
    for value in map.values() {
        total += *value;
    }
    total
}

// The map of three pairs that these tests iterate over.
fn three() -> Map<u8, u64, 3> {
    let mut map = Map::new();
    for (key, value) in [(1, 10), (2, 20), (3, 30)] {
        map.checked_insert(key, value);
    }
    map
}

#[test]
#[tactic(auto, unfolding(micromap_core::specs::Pairs::put))]
fn values_are_summed(rt: HostRuntime) {
    let mut map: Map<u8, u64, 2> = Map::new();
    map.insert(1, 10);
    map.insert(2, 20);
    assert!(rt; total(&map) == 30);
}

#[test]
fn each_walk_gives_every_pair_and_stays_at_its_end(rt: HostRuntime) {
    let mut map = three();
    assert!(rt; gives(map.iter(), &[(&1, &10), (&2, &20), (&3, &30)]));
    assert!(rt; gives(map.keys(), &[&1, &2, &3]));
    assert!(rt; gives(map.values(), &[&10, &20, &30]));
    assert!(rt; gives(three().into_iter(), &[(1, 10), (2, 20), (3, 30)]));
    assert!(rt; gives(three().into_keys(), &[1, 2, 3]));
    assert!(rt; gives(three().into_values(), &[10, 20, 30]));
    assert!(rt; gives(map.drain(), &[(1, 10), (2, 20), (3, 30)]));
}

// Whether no iterator that borrows the map yields anything.
fn nothing_is_lent<const N: usize>(map: &Map<u8, u64, N>) -> bool {
    gives(map.iter(), &[]) && gives(map.keys(), &[]) && gives(map.values(), &[])
}

#[test]
fn a_walk_over_an_empty_map_is_at_its_end(rt: HostRuntime) {
    let mut map: Map<u8, u64, 3> = Map::new();
    assert!(rt; nothing_is_lent(&map));
    assert!(rt; gives(map.drain(), &[]));
    assert!(rt; gives(map.into_iter(), &[]));
    assert!(rt; gives(Map::<u8, u64, 3>::new().into_keys(), &[]));
    assert!(rt; gives(Map::<u8, u64, 3>::new().into_values(), &[]));
    let mut map: Map<u8, u64, 0> = Map::new();
    assert!(rt; nothing_is_lent(&map));
    assert!(rt; gives(map.drain(), &[]));
    assert!(rt; gives(map.into_iter(), &[]));
    assert!(rt; gives(Map::<u8, u64, 0>::new().into_keys(), &[]));
    assert!(rt; gives(Map::<u8, u64, 0>::new().into_values(), &[]));
}

// A function over the standard library's traits.
fn left<I: ExactSizeIterator>(iterator: &I) -> usize
    ensures { result ≡ size (I.remaining iterator.now) }
{
    iterator.len()
}

// The iterator, and a second one that goes on where it stands.
fn twice<I: Iterator + Clone>(iterator: I) -> Result<(I, I), AllocError>
    requires { I.is_infallible iterator }
    ensures succeeds { IsOk result }
    ensures clone { IfOk result (λ both. I.is_clone both.0 both.1) }
{
    let again = iterator.clone()?;
    Ok((iterator, again))
}

#[test]
fn generic_functions_take_the_walks(rt: HostRuntime) -> Result<(), AllocError> {
    let map = three();
    assert!(rt; (left(&map.iter()), left(&three().into_keys())) == (3, 3));
    let (keys, again) = twice(map.keys())?;
    assert!(rt; gives(keys, &[&1, &2, &3]));
    assert!(rt; gives(again, &[&1, &2, &3]));
    Ok(())
}

#[test]
fn a_key_that_is_there_is_an_index(rt: HostRuntime) {
    let mut map = three();
    assert!(rt; map.contains_key(&2));
    if map.contains_key(&2) {
        assert!(rt; map[&2] == 20);
        map[&2] = 21;
    }
    assert!(rt; map.get(&2) == Some(&21));
}

#[test]
fn a_drained_map_is_empty_at_once_and_has_all_its_room(rt: HostRuntime) {
    let mut map = three();
    let mut drained = map.drain();
    assert!(rt; map.is_empty());
    assert!(rt; drained.next() == Some((1, 10)));
    assert!(rt; drained.next() == Some((2, 20)));
    assert!(rt; drained.len() == 1);
    drop(drained);
    assert!(rt; map.is_empty());
    for key in [4, 5, 6] {
        assert!(rt; map.checked_insert(key, 0) == Some(None));
    }
    assert!(rt; map.keys().eq(&[4, 5, 6]));
}

// A full map of three.
fn counted(counts: &Counts) -> Map<Counted<'_>, Counted<'_>, 3> {
    counted_map([0, 1, 2], counts)
}

#[test]
fn a_walk_over_a_map_drops_what_it_owned(rt: HostRuntime) {
    for items in 0..5 {
        let counts = Counts::new();
        assert!(rt; drops_all(counted(&counts).into_iter(), items, &counts, 6));
        assert!(rt; drops_all(counted(&counts).into_keys(), items, &counts, 6));
        assert!(rt; drops_all(counted(&counts).into_values(), items, &counts, 6));
    }
}

#[test]
fn a_drained_map_has_nothing_left_to_drop(rt: HostRuntime) {
    for items in 0..5 {
        let counts = Counts::new();
        let mut map = counted(&counts);
        assert!(rt; drops_all(map.drain(), items, &counts, 6));
        map.checked_insert(Counted::new(9, &counts), Counted::new(9, &counts));
        drop(map);
        assert!(rt; counts.drops.get() == 2);
    }
}
