//! The rows of maps that are compared, of maps under the same calls, and of look-ups and comparisons that are counted.
use crate::{Call, lockstep};
use micromap::{Map, Steps};

// The order and the capacity of two maps don't matter.
pub(super) fn row_4_equality_ignores_order_and_capacity() -> bool {
    let mut first = Map::from([('a', 97), ('b', 98), ('c', 99)]);
    let mut second = Map::from([('c', 99), ('c', 99), ('c', 99), ('b', 98)]);
    second.fits(&'a')
        && second.insert('a', 97).is_none()
        && second.keys().eq(&['c', 'b', 'a'])
        && second.values().eq(&[99, 98, 97])
        && first.eq_with(&second)
        && first.differs_at(&second).is_none()
        && first.remove(&'c') == Some(99)
        && !first.eq_with(&second)
        && first.differs_at(&second) == Some(&'c')
}

// Two maps of one pair, the second of which has room for another.
fn pair_of_maps() -> (Map<u8, u8, 1>, Map<u8, u8, 2>) {
    let mut second = Map::new();
    second.checked_insert(1, 10);
    (Map::from([(1, 10)]), second)
}

// Room alone tells two maps apart, by calls that aren't fair.
pub(super) fn row_5_room_tells_maps_apart() -> bool {
    let (mut first, mut second) = pair_of_maps();
    first.eq_with(&second) && !lockstep(&mut first, &mut second, &[Call::Insert(2, 20)])
}

// Calls that are fair don't.
pub(super) fn row_6_fair_calls_do_not_tell_maps_apart() -> bool {
    let (mut first, mut second) = pair_of_maps();
    let calls = [
        Call::Insert(1, 11),
        Call::Get(1),
        Call::Remove(1),
        Call::Len,
    ];
    lockstep(&mut first, &mut second, &calls)
        && first.eq_with(&second)
        && first.is_empty()
        && second.is_empty()
}

// One unequal value, which is named from both sides.
pub(super) fn row_20_each_side_names_the_difference() -> bool {
    let first = Map::from([(1, 10), (2, 20)]);
    let second = Map::from([(2, 20), (1, 11)]);
    !first.eq_with(&second)
        && !second.eq_with(&first)
        && first.differs_at(&second) == Some(&1)
        && second.differs_at(&first) == Some(&1)
}

// Maps that are the same stay so, in whatever order each keeps its pairs.
pub(super) fn row_31_maps_that_are_the_same_stay_so() -> bool {
    let mut first = Map::from([(1, 10), (2, 20), (3, 30)]);
    let mut second: Map<u8, u8, 4> = Map::new();
    for (key, value) in [(2, 20), (3, 30), (1, 10)] {
        second.checked_insert(key, value);
    }
    let calls = [
        Call::Remove(1),
        Call::InsertKeyValue(4, 40),
        Call::GetKeyValue(2),
        Call::Contains(1),
        Call::RemoveEntry(3),
        Call::IsEmpty,
    ];
    lockstep(&mut first, &mut second, &calls)
        && has_pairs(&first, &[2, 4], &[20, 40])
        && has_pairs(&second, &[2, 4], &[20, 40])
        && first.eq_with(&second)
}

// Whether the map has these keys with these values, in order.
fn has_pairs<const N: usize>(map: &Map<u8, u8, N>, keys: &[u8], values: &[u8]) -> bool {
    map.keys().eq(keys) && map.values().eq(values)
}

// A look-up costs the index of the key plus one, or the length where the key is missing.
pub(super) fn row_19_steps_of_a_look_up() -> bool {
    let map = Map::from([(5, 50), (6, 60), (7, 70)]);
    let whole = map.len() == 3;
    let mut steps = Steps::new();
    let found = map.get_counted(&6, &mut steps) == Some(&60);
    let after_one = steps.count();
    let missing = map.get_counted(&9, &mut steps).is_none();
    whole && found && after_one == 2 && missing && steps.count() == 5
}

// A comparison costs a look-up of each key, and nothing where the lengths differ.
pub(super) fn row_32_steps_of_a_comparison() -> bool {
    let map = Map::from([(1, 10), (2, 20), (3, 30)]);
    let turned = Map::from([(3, 30), (2, 20), (1, 10)]);
    let shorter = Map::from([(1, 10), (2, 20)]);
    let longer = map.len() > shorter.len();
    let mut steps = Steps::new();
    let same = map.eq_with_counted(&turned, &mut steps);
    let after_one = steps.count();
    let different = !map.eq_with_counted(&shorter, &mut steps);
    longer && same && after_one == 6 && different && steps.count() == 6
}
