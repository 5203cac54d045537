//! Comparing maps, and a caller's proof from a `true` of `eq_with`. How many comparisons look-ups and comparisons of maps
//! make, by their contracts and by items whose `==` counts.
ghost use Rattle.std.specs.Prelude.{◌≡◌, [], ◌∷◌, ◌↔◌, nat_eq, IsTrue};
ghost use Rattle.std.specs.Bool.{OnTrue};
ghost use Rattle.micromap.specs.Calls.{run, insert, remove};
ghost use Rattle.micromap.specs.Same.{Same};
ghost use Rattle.std.specs.Option.{option_copied};
ghost use Rattle.micromap.specs.Pairs.{at};
ghost use Rattle.micromap.specs.Steps.{comparison_steps, look_up_steps};

use micromap::{Map, Steps};
use micromap_testing::{Counts, counted_set};

// An edit of a list of attributes: sets one if there is room for it, and removes another.
fn edit<K: Eq + Copy, V: Copy, const N: usize>(
    list: &mut Map<K, V, N>,
    name: K,
    value: V,
    other: &K,
)
    ensures { list.new ≡ (run K.eq N list.old (insert name value ∷ remove other.now ∷ [])).1 }
{
    list.checked_insert(name, value);
    list.remove(other);
}

// The same edit of two lists that compare equal, unless one of them alone has room. They compare equal afterwards too,
// and nothing is compared again to know it.
fn edit_both<K: Eq + Copy, V: Eq + Copy, const N: usize, const M: usize>(
    list: &mut Map<K, V, N>,
    mirror: &mut Map<K, V, M>,
    name: K,
    value: V,
    other: &K,
) -> bool
    ensures { OnTrue result (Same K.eq V.eq list.new mirror.new) }
{
    if !list.eq_with(mirror) || list.fits(&name) != mirror.fits(&name) {
        return false;
    }
    edit(list, name, value, other);
    edit(mirror, name, value, other);
    true
}

#[test]
fn an_edit_of_both_keeps_two_lists_the_same(rt: HostRuntime) {
    let mut list = Map::from([("id", 1), ("class", 2), ("href", 3)]);
    let mut mirror: Map<&str, i32, 4> = Map::new();
    for (name, value) in [("href", 3), ("id", 1), ("class", 2)] {
        mirror.checked_insert(name, value);
    }
    assert!(rt; edit_both(&mut list, &mut mirror, "class", 4, &"id"));
    assert!(rt; list.eq_with(&mirror));
    assert!(rt; list.keys().eq(&["class", "href"]));
    assert!(rt; mirror.keys().eq(&["href", "class"]));
    mirror.remove(&"href");
    assert!(rt; !edit_both(&mut list, &mut mirror, "class", 5, &"id"));
}

#[test]
fn empty_maps_are_the_same_at_any_capacity(rt: HostRuntime) {
    let none: Map<u8, u8, 0> = Map::new();
    let some: Map<u8, u8, 3> = Map::new();
    assert!(rt; none.eq_with(&some));
    assert!(rt; some.eq_with(&none));
    assert!(rt; none.differs_at(&some).is_none());
    let one = Map::from([(1, 10)]);
    assert!(rt; !none.eq_with(&one));
    assert!(rt; none.differs_at(&one) == Some(&1));
}

#[test]
fn a_map_that_has_more_differs_both_ways(rt: HostRuntime) {
    let one = Map::from([(1, 10)]);
    let two = Map::from([(1, 10), (2, 20)]);
    assert!(rt; !one.eq_with(&two));
    assert!(rt; !two.eq_with(&one));
    assert!(rt; one.differs_at(&two) == Some(&2));
    assert!(rt; two.differs_at(&one) == Some(&2));
}

#[test]
fn the_first_key_of_this_map_comes_first(rt: HostRuntime) {
    let two = Map::from([(1, 10), (2, 20)]);
    let other = Map::from([(3, 30)]);
    assert!(rt; two.differs_at(&other) == Some(&1));
    assert!(rt; other.differs_at(&two) == Some(&3));
}

// The value at a key, and the steps that the look-up takes.
fn looked_up<const N: usize>(map: &Map<u8, u8, N>, key: u8) -> (Option<&u8>, u128)
    ensures value { option_copied result.0 ≡ at nat_eq map.now key }
    ensures steps { result.1 ≡ look_up_steps nat_eq map.now key }
{
    // `len` ensures that the length fits.
    let _known = map.len();
    let mut steps = Steps::new();
    let value = map.get_counted(&key, &mut steps);
    (value, steps.count())
}

// Whether two maps are the same, and the steps that the comparison takes.
fn compared<const N: usize, const M: usize>(
    first: &Map<u8, u8, N>,
    second: &Map<u8, u8, M>,
) -> (bool, u128)
    ensures answer { IsTrue result.0 ↔ Same nat_eq nat_eq first.now second.now }
    ensures steps { result.1 ≡ comparison_steps nat_eq nat_eq first.now second.now }
{
    // `len` ensures that the length fits.
    let _known = first.len();
    let mut steps = Steps::new();
    let same = first.eq_with_counted(second, &mut steps);
    (same, steps.count())
}

#[test]
fn a_step_is_counted_whether_the_keys_are_equal_or_not(rt: HostRuntime) {
    let mut steps = Steps::new();
    assert!(rt; steps.same(&1, &1));
    assert!(rt; !steps.same(&1, &2));
    assert!(rt; steps.count() == 2);
}

// A look-up that is counted if the counter has room for it.
fn looked_up_if_counted<'a>(
    map: &'a Map<u8, u8, 3>,
    key: u8,
    steps: &mut Steps,
) -> Option<Option<&'a u8>> {
    if steps.count() <= u128::MAX - 3 && map.len() <= 3 {
        Some(map.get_counted(&key, steps))
    } else {
        None
    }
}

#[test]
fn a_caller_tests_that_a_look_up_can_be_counted(rt: HostRuntime) {
    let map = Map::from([(1, 10), (2, 20), (3, 30)]);
    let mut steps = Steps::new();
    assert!(rt; looked_up_if_counted(&map, 2, &mut steps) == Some(Some(&20)));
    assert!(rt; looked_up_if_counted(&map, 4, &mut steps) == Some(None));
    assert!(rt; steps.count() == 5);
}

// An empty map, if the capacity that is asked for is its own.
fn with_capacity<const N: usize>(capacity: usize) -> Option<Map<u8, u8, N>> {
    if capacity == N {
        Some(Map::with_capacity(capacity))
    } else {
        None
    }
}

#[test]
fn a_caller_tests_the_capacity(rt: HostRuntime) {
    assert!(rt; with_capacity::<3>(3).is_some_and(|map| map.is_empty()));
    assert!(rt; with_capacity::<3>(4).is_none());
}

#[test]
fn a_look_up_stops_at_its_key(rt: HostRuntime) {
    let empty: Map<u8, u8, 4> = Map::new();
    assert!(rt; looked_up(&empty, 5) == (None, 0));
    let three = Map::from([(5, 50), (6, 60), (7, 70)]);
    assert!(rt; looked_up(&three, 5) == (Some(&50), 1));
    assert!(rt; looked_up(&three, 7) == (Some(&70), 3));
    assert!(rt; looked_up(&three, 9) == (None, 3));
}

#[test]
fn a_comparison_stops_at_the_first_pair_that_fails(rt: HostRuntime) {
    let none: Map<u8, u8, 0> = Map::new();
    let empty: Map<u8, u8, 4> = Map::new();
    assert!(rt; compared(&none, &empty) == (true, 0));
    let one = Map::from([(1, 10)]);
    assert!(rt; compared(&one, &Map::from([(1, 10)])) == (true, 1));
    assert!(rt; compared(&one, &Map::from([(1, 11)])) == (false, 1));
    assert!(rt; compared(&one, &empty) == (false, 0));
    let other = Map::from([(3, 30), (1, 10)]);
    assert!(rt; compared(&Map::from([(1, 10), (2, 20)]), &other) == (false, 4));
    assert!(rt; compared(&Map::from([(2, 20), (1, 10)]), &other) == (false, 2));
}

#[test]
fn sets_of_other_lengths_are_not_compared(rt: HostRuntime) {
    let counts = Counts::new();
    let two = counted_set([4, 9], &counts);
    let three = counted_set([1, 2, 4], &counts);
    counts.comparisons.set(0);
    assert!(rt; !three.is_subset(&two));
    assert!(rt; !two.is_superset(&three));
    assert!(rt; !two.eq_with(&three));
    assert!(rt; !three.eq_with(&two));
    assert!(rt; counts.comparisons.get() == 0);
}

#[test]
fn the_shorter_set_is_passed_over(rt: HostRuntime) {
    let counts = Counts::new();
    let two = counted_set([4, 9], &counts);
    let three = counted_set([1, 2, 4], &counts);
    counts.comparisons.set(0);
    assert!(rt; !two.is_disjoint(&three));
    assert!(rt; counts.comparisons.replace(0) == 3);
    assert!(rt; !three.is_disjoint(&two));
    assert!(rt; counts.comparisons.get() == 3);
}

#[test]
fn of_two_sets_one_is_looked_up_in_the_other(rt: HostRuntime) {
    let counts = Counts::new();
    let set = counted_set([1, 2, 4], &counts);
    let turned = counted_set([4, 2, 1], &counts);
    counts.comparisons.set(0);
    assert!(rt; set.eq_with(&turned));
    assert!(rt; counts.comparisons.get() == 6);
}
