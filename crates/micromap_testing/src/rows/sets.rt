//! The rows of sets, of texts, and of the operations on two sets.
use crate::displays;
use micromap::{Map, Overfull, Set};
use std::alloc::{AllocError, Global};
use std::fmt::Display;

// The set of these numbers, where there is room for them.
fn numbers<const N: usize>(items: &[i32]) -> Set<i32, N> {
    let mut set = Set::new();
    for item in items {
        set.checked_insert(*item);
    }
    set
}

// The items are visited from front to end, and the kept ones stay in their order.
pub(super) fn row_8_retain_goes_from_the_front() -> bool {
    let mut set: Set<i32, 4> = numbers(&[1, 2, 3, 4]);
    let visits = [1, 2, 3, 4];
    let mut visited = 0usize;
    let mut in_order = true;
    set.retain(|x| {
        in_order &= visits.get(visited) == Some(x);
        visited = visited.wrapping_add(1);
        *x == 3 || *x == 4
    });
    in_order && visited == visits.len() && set.iter().eq(&[3, 4])
}

// The items before the first misfit are in the set.
pub(super) fn row_14_items_before_the_misfit_stay() -> bool {
    let mut set: Set<i32, 3> = numbers(&[1, 2]);
    let ended = set.try_extend([2, 5, 6, 7].into_iter());
    matches!(ended, Err(Overfull { at: 2 })) && set.iter().eq(&[1, 2, 5])
}

// A full set refuses a new item, and returns one that equals a stored one.
pub(super) fn row_16_a_full_set_refuses_a_new_item() -> bool {
    let mut set: Set<i32, 2> = Set::new();
    set.checked_insert(1).is_none()
        && set.checked_insert(2).is_none()
        && set.checked_insert(3).is_none()
        && set.len() == 2
        && set.checked_insert(2) == Some(2)
}

// The texts of maps and sets; a set passes a width to its items.
pub(super) fn row_17_printed_maps_and_sets(alloc: Global) -> bool {
    let none: Map<u8, u8, 2> = Map::new();
    displays(
        alloc,
        &Map::from([("one", 42), ("two", 16)]),
        "{one: 42, two: 16}",
    ) && displays(alloc, &Map::from([(42, true)]), "{42: true}")
        && displays(alloc, &none, "{}")
        && displays(alloc, &Set::from(["one", "two"]), "{one, two}")
        && displays_wide(alloc, &Set::from([1, 2]), "{  1,   2}")
        && displays_wide(alloc, &Map::from([(1, 2)]), "{1: 2}")
}

// Whether `Display` with a width of 3 prints just this text.
fn displays_wide<T: Display>(alloc: Global, value: &T, text: &str) -> bool {
    format!(in alloc; "{value:>3}").is_ok_and(|printed| printed.as_str() == text)
}

// The hints on the way through a difference, and the members and first hints of the other operations.
pub(super) fn row_15_hints_of_the_operations() -> bool {
    let a = Set::from([1, 2, 3]);
    let d = Set::from([3, 4]);
    hints_narrow(&a, &d) && gives_others(&a, &d)
}

// The hints on the way through the difference of the two.
fn hints_narrow(a: &Set<i32, 3>, d: &Set<i32, 2>) -> bool {
    let mut difference = a.difference(d);
    difference.size_hint() == (1, Some(3))
        && difference.next() == Some(&1)
        && difference.size_hint() == (0, Some(2))
        && difference.next() == Some(&2)
        && difference.size_hint() == (0, Some(1))
        && difference.next().is_none()
        && difference.size_hint() == (0, Some(0))
}

// The first hints of the other operations, and the members.
fn gives_others(a: &Set<i32, 3>, d: &Set<i32, 2>) -> bool {
    let union = a.union(d);
    let symmetric = a.symmetric_difference(d);
    let intersection = a.intersection(d);
    union.size_hint() == (3, Some(5))
        && union.eq(&[3, 4, 1, 2])
        && symmetric.size_hint() == (1, Some(5))
        && symmetric.eq(&[1, 2, 4])
        && intersection.size_hint() == (0, Some(2))
        && intersection.eq(&[3])
}

// Subsets and disjoint sets, and what the union and the intersection count together.
pub(super) fn row_21_subsets_and_disjoint_sets() -> bool {
    let a = Set::from([1, 2]);
    let b = Set::from([2, 3]);
    let none: Set<i32, 0> = Set::new();
    let union = a.union(&b).count();
    let intersection = a.intersection(&b).count();
    !a.is_subset(&b)
        && !a.is_superset(&b)
        && !a.is_disjoint(&b)
        && union == 3
        && intersection == 1
        && none.is_subset(&a)
        && none.is_subset(&b)
        && none.is_disjoint(&a)
        && none.is_disjoint(&b)
}

// The words of one sentence without those of another, and the references to texts without those to equal ones.
pub(super) fn row_22_differences_of_words(alloc: Global) -> Result<bool, AllocError> {
    let surf = words("I love the surf and the sand.");
    let hate = words("I hate the hate and the sand.");
    Ok(surf.difference(&hate).copied().eq(["love", "surf"]) && leaves_the_apple(alloc)?)
}

// The words of a sentence.
fn words(sentence: &str) -> Set<&str, 7> {
    let mut words = Set::new();
    for word in sentence.split(' ') {
        words.checked_insert(word);
    }
    words
}

// Whether the texts of one bowl without those of another are the one that no text of the other equals.
fn leaves_the_apple(alloc: Global) -> Result<bool, AllocError> {
    let apple = String::from_str(alloc, "apple")?;
    let bananas = [
        String::from_str(alloc, "banana")?,
        String::from_str(alloc, "banana")?,
    ];
    let cherry = String::from_str(alloc, "cherry")?;
    let date = String::from_str(alloc, "date")?;
    let [ours, theirs] = &bananas;
    let ours = Set::from([&apple, ours, &cherry]);
    let theirs = Set::from([theirs, &cherry, &date]);
    let mut fruits = ours.difference_ref(&theirs);
    Ok(fruits.next() == Some(&apple) && fruits.next().is_none())
}

// The sets of clones.
pub(super) fn row_23_sets_of_clones() -> Result<bool, AllocError> {
    let less = Set::from([0, 1, 2, 3, 4]).sub(&Set::from([1, 3, 4, 5]))?;
    let shared = Set::from([1, 2, 3]).bitand(&Set::from([2, 3, 4, 5]))?;
    Ok(less.iter().eq(&[0, 2]) && shared.iter().eq(&[2, 3]))
}
