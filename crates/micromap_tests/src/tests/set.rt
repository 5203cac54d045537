//! The set as a user meets it, and two callers' proofs over its items. The modules have the Rust crate's own tests: they
//! are named as its files, and one with the tests of several names them.
ghost use Rattle.std.specs.Prelude.{◌≡◌, ◌==◌, ◌%◌, nat_eq};
ghost use Rattle.micromap.specs.Items.{put_item_if_fits};
ghost use Rattle.std.specs.List.{filter};

mod difference;
mod intersection;
mod made;
mod methods;
mod union;

use micromap::{Overfull, Set, Text};
use micromap_testing::{Counts, Marked, counted_set, drops_all, gives, holds};
use std::alloc::{AllocError, Global};

// The small sets on which each operation is tried.
fn small_sets() -> (Set<i32, 4>, Set<i32, 8>, Set<i32, 0>, Set<i32, 2>) {
    (
        Set::from([1, 1, 2, 3]),
        Set::from([4, 5, 6, 6, 6, 7, 8, 9]),
        Set::from([]),
        Set::from([3, 4]),
    )
}

// The larger ones.
fn larger_sets() -> (Set<i32, 7>, Set<i32, 6>, Set<i32, 12>) {
    (
        Set::from([0, 1, 2, 3, 5, 7, 9]),
        Set::from([2, 5, 6, 7, 8, 10]),
        Set::from([0, 1, 2, 3, 5, 7, 9, 2, 5, 6, 7, 8]),
    )
}

// Whether the items begin with this hint, come in this order, and stay at their end.
fn begins<'a, I: Iterator<Item = &'a i32>>(
    mut items: I,
    lower: usize,
    upper: usize,
    expected: &[i32],
) -> bool
    requires { (left : I) → I.can_next left }
{
    if items.size_hint() != (lower, Some(upper)) {
        return false;
    }
    for item in expected {
        if items.next() != Some(item) {
            return false;
        }
    }
    items.next().is_none() && items.size_hint() == (0, Some(0)) && items.next().is_none()
}

// Puts a number, where there is room for it.
fn note<const N: usize>(seen: &mut Set<u8, N>, number: u8)
    ensures { seen.new ≡ put_item_if_fits nat_eq N seen.old number }
{
    seen.checked_insert(number);
}

// The numbers of a slice, where there is room for them.
fn numbers<const N: usize>(items: &[u8]) -> Set<u8, N> {
    let mut set = Set::new();
    for item in items {
        note(&mut set, *item);
    }
    set
}

#[test]
fn a_full_set_takes_a_stored_item_alone(rt: HostRuntime) {
    let mut set: Set<u8, 3> = numbers(&[1, 2, 3]);
    assert!(rt; set.fits(&2));
    assert!(rt; set.replace(2) == Some(2));
    assert!(rt; set.checked_insert(4).is_none());
    assert!(rt; !set.fits(&4));
    assert!(rt; set.fits(&2));
    assert!(rt; !set.insert_unchecked(2));
    assert!(rt; holds(&set, &[1, 2, 3]));
    set.clear();
    assert!(rt; set.is_empty());
}

#[test]
fn a_stored_item_stays_but_in_replace(rt: HostRuntime) {
    let mut set: Set<Marked, 1> = Set::default();
    assert!(rt; set.checked_insert(Marked::new(1, 'x')).is_none());
    let back = set.checked_insert(Marked::new(1, 'y'));
    assert!(rt; back.map(|item| item.mark) == Some('y'));
    let (third, last) = (Marked::new(1, 'z'), Marked::new(1, 'w'));
    assert!(rt; set.get(&third).map(|item| item.mark) == Some('x'));
    assert!(rt; set.fits(&third));
    let old = set.replace(third);
    assert!(rt; old.map(|item| item.mark) == Some('x'));
    assert!(rt; set.get(&last).map(|item| item.mark) == Some('z'));
    assert!(rt; set.fits(&last));
    assert!(rt; !set.insert(last));
    assert!(rt; set.get(&last).map(|item| item.mark) == Some('z'));
}

#[test]
fn an_item_is_put_if_it_fits(rt: HostRuntime) {
    let mut set: Set<u8, 1> = Set::new();
    assert!(rt; set.put(1));
    assert!(rt; set.put(1));
    assert!(rt; !set.put(2));
    assert_eq!(rt; set.len(), 1);
}

// A set of these texts, which all fit.
fn texts<const N: usize>(alloc: Global, items: &[&str]) -> Result<Set<String, N>, AllocError> {
    let mut set = Set::new();
    for item in items {
        set.checked_insert(String::from_str(alloc, *item)?);
    }
    Ok(set)
}

// Whether the set has just these texts, from the front.
fn lists<const N: usize>(set: &Set<String, N>, items: &[&str]) -> bool {
    gives(set.iter().map(|text| text.as_str()), items)
}

#[test]
fn texts_find_their_items(rt: HostRuntime) -> Result<(), AllocError> {
    let mut set = texts::<3>(rt.alloc(), &["a", "b", "c"])?;
    assert!(rt; set.fits_by(&Text("a")));
    assert!(rt; !set.fits_by(&Text("d")));
    let taken = set.take_by(&Text("a"));
    assert!(rt; taken.is_some_and(|text| text.as_str() == "a"));
    assert!(rt; lists(&set, &["b", "c"]));
    assert!(rt; !set.remove_by(&Text("a")));
    assert!(rt; set.contains_by(&Text("b")));
    assert!(rt;
        set.get_by(&Text("c"))
            .is_some_and(|text| text.as_str() == "c")
    );
    Ok(())
}

// Inserts an item that fits, and returns whether it is new.
fn put<const N: usize>(set: &mut Set<i32, N>, item: i32) -> bool {
    set.fits(&item) && set.insert(item)
}

// Whether an empty set takes two items once each, and is drained of them.
fn fills_and_drains(set: &mut Set<i32, 10>) -> bool {
    let empty = set.capacity() == 10 && set.len() == 0 && set.is_empty() && *set == Set::default();
    let first = put(set, 0) && set.len() == 1 && !put(set, 0) && set.len() == 1;
    let second = put(set, 1) && set.len() == 2;
    let mut drained = set.drain();
    empty
        && first
        && second
        && drained.len() == 2
        && drained.next() == Some(0)
        && drained.len() == 1
        && drained.size_hint() == (1, Some(1))
}

// Whether the first of ten items goes, comes back at the end, and goes again.
fn first_goes_and_comes(set: &mut Set<i32, 10>) -> bool {
    set.take(&0) == Some(0)
        && holds(set, &[1, 2, 3, 4, 5, 6, 7, 8, 9])
        && !set.contains(&10)
        && !set.remove(&0)
        && put(set, 0)
        && holds(set, &[1, 2, 3, 4, 5, 6, 7, 8, 9, 0])
        && set.remove(&0)
        && holds(set, &[1, 2, 3, 4, 5, 6, 7, 8, 9])
}

// Whether the walks over five even numbers say how many are left.
fn walks_on(set: Set<i32, 10>) -> bool {
    let mut items = set.iter();
    if items.next() != Some(&2) || items.len() != 4 || items.size_hint() != (4, Some(4)) {
        return false;
    }
    let mut items = set.into_iter();
    for item in [2, 4, 6] {
        if items.next() != Some(item) {
            return false;
        }
    }
    items.len() == 2 && items.size_hint() == (2, Some(2))
}

// A long run on one set.
#[test]
fn various(rt: HostRuntime) {
    let mut set: Set<i32, 10> = Set::new();
    assert!(rt; fills_and_drains(&mut set));
    set.clear();
    for number in 0..10 {
        assert!(rt; put(&mut set, number));
    }
    assert!(rt; holds(&set, &[0, 1, 2, 3, 4, 5, 6, 7, 8, 9]));
    assert!(rt; set.contains(&0));
    assert!(rt; first_goes_and_comes(&mut set));
    assert!(rt; put(&mut set, 10));
    assert!(rt; holds(&set, &[1, 2, 3, 4, 5, 6, 7, 8, 9, 10]));
    assert!(rt; set.get(&10) == Some(&10));
    assert!(rt; set.get(&11).is_none());
    set.retain(|x| *x % 2 == 0);
    assert!(rt; holds(&set, &[2, 4, 6, 8, 10]));
    assert!(rt; walks_on(set));
}

#[test]
fn test_set_from(rt: HostRuntime) {
    let four = Set::from(['a', 'b', 'c', 'd']);
    let letters = ['a', 'a', 'd', 'b', 'a', 'd', 'c', 'd', 'c'];
    let built: Result<Set<char, 6>, Overfull> = Set::try_from_iter(letters.into_iter());
    assert!(rt; built.is_ok_and(|set| four.eq_with(&set) && holds(&set, &['a', 'd', 'b', 'c'])));
    assert!(rt; four.clone().is_ok_and(|set| set == four));
}

#[test]
fn each_walk_over_a_set_gives_every_item_and_stays_at_its_end(rt: HostRuntime) {
    let mut set: Set<u8, 3> = numbers(&[3, 1, 2]);
    assert!(rt; gives(set.iter(), &[&3, &1, &2]));
    let drained = set.drain();
    assert!(rt; set.is_empty());
    assert!(rt; drained.len() == 3);
    assert!(rt; gives(drained, &[3, 1, 2]));
    assert!(rt; gives(set.iter(), &[]));
    assert!(rt; gives(set.into_iter(), &[]));
    assert!(rt; gives(numbers::<3>(&[3, 1, 2]).into_iter(), &[3, 1, 2]));
    let mut none: Set<u8, 0> = Set::new();
    assert!(rt; gives(none.iter(), &[]));
    assert!(rt; gives(none.drain(), &[]));
    assert!(rt; gives(none.into_iter(), &[]));
}

// Keeps the even numbers.
#[tactic(auto, using(micromap::proofs::Rules::caller))]
fn keep_even<const N: usize>(set: &mut Set<u8, N>)
    ensures { set.new ≡ filter (λ x. x % 2 == 0) set.old }
{
    set.retain(|x| *x % 2 == 0);
}

// Whether `retain` visits `items` from front to end and keeps those of `kept` in their order.
fn retains(items: &[u8], kept: &[u8]) -> bool {
    let mut set: Set<u8, 10> = numbers(items);
    let mut number = 0usize;
    let mut in_order = true;
    set.retain(|item| {
        in_order &= items.get(number) == Some(item);
        number = number.wrapping_add(1);
        kept.contains(item)
    });
    in_order && number == items.len() && holds(&set, kept)
}

#[test]
fn each_item_is_visited_once_in_turn(rt: HostRuntime) {
    let visited: [(&[u8], &[u8]); 4] = [
        (&[1, 2, 3, 4, 5], &[2, 4]),
        (&[9, 1, 2, 3, 4, 5, 6, 7, 8, 10], &[2, 4, 6, 8, 10]),
        (&[1, 2, 3], &[1, 2, 3]),
        (&[1, 2, 3], &[]),
    ];
    for (items, kept) in visited {
        assert!(rt; retains(items, kept));
    }
}

#[test]
fn an_item_at_either_end_is_taken_out(rt: HostRuntime) {
    let mut set = Set::from([3, 1, 2]);
    assert!(rt; set.pop_first() == Some(3));
    assert!(rt; !set.contains(&3));
    set.checked_insert(3);
    assert!(rt; set.iter().eq(&[1, 2, 3]));
    assert!(rt; set.pop_first() == Some(1));
    assert!(rt; set.pop_last() == Some(3));
    assert!(rt; set.pop_last() == Some(2));
    assert!(rt; set.pop_first().is_none());
    assert!(rt; set.pop_last().is_none());
    assert!(rt; set.is_empty());
}

#[test]
fn a_walk_over_a_set_drops_what_it_owned(rt: HostRuntime) {
    for items in 0..5 {
        let counts = Counts::new();
        let mut set = counted_set([0, 1, 2], &counts);
        assert!(rt; drops_all(set.drain(), items, &counts, 3));
        drop(set);
        assert!(rt; counts.drops.get() == 0);
        let set = counted_set([0, 1, 2], &counts);
        assert!(rt; drops_all(set.into_iter(), items, &counts, 3));
    }
}
