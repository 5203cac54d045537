//! The operations on two sets as a user calls them, callers' proofs, the hints of the iterators before each call of `next`,
//! and the clones of a difference of references.
ghost use Rattle.std.specs.Prelude.{◌≡◌, ◌↔◌, ◌==◌, ◌%◌, ◌<◌, filter, length, nat_eq, Ok, IfOk, IsErr};
ghost use Rattle.micromap.specs.Operations.{difference, intersection, union};

use micromap::set::{Difference, Intersection, SymmetricDifference, Union};
use micromap::{Overfull, Set};
use micromap_testing::{Counted, Counts, Marked, counted_set, debugs};
use std::alloc::{AllocError, Global};

// How many of the first numbers the second set lacks.
fn missing<const N: usize, const M: usize>(a: &Set<u8, N>, b: &Set<u8, M>) -> usize
    ensures { result ≡ length (difference nat_eq a.now b.now) }
{
    a.difference(b).count()
}

// The even numbers of either set.
fn evens<const N: usize, const M: usize>(
    alloc: Global,
    a: &Set<u8, N>,
    b: &Set<u8, M>,
) -> Result<Vec<u8>, AllocError>
    ensures { IfOk result (λ v. v.items ≡ filter (λ x. x % 2 == 0) (union nat_eq a.now b.now)) }
{
    a.union(b).copied().filter(|x| *x % 2 == 0).collect(alloc)
}

// The numbers of either set, as a set of any capacity that holds them.
fn joined<const N: usize, const M: usize, const L: usize>(
    a: &Set<u8, N>,
    b: &Set<u8, M>,
) -> Result<Set<u8, L>, Overfull>
    ensures members { IfOk result (λ set. set ≡ union nat_eq a.now b.now) }
    ensures refused { IsErr result ↔ (L < length (union nat_eq a.now b.now)) }
{
    Set::try_from_iter(a.union(b).copied())
}

// A reference that outlives the two sets.
fn first_missing<'a, const N: usize, const M: usize>(
    ours: Set<&'a i32, N>,
    theirs: Set<&'a i32, M>,
) -> Option<&'a i32> {
    ours.difference_ref(&theirs).next()
}

#[test]
fn equal_items_come_from_one_side(rt: HostRuntime) {
    let a = Set::from([Marked::new(1, 'x'), Marked::new(2, 'x')]);
    let b = Set::from([Marked::new(2, 'y'), Marked::new(3, 'y')]);
    assert!(rt; a.intersection(&b).map(|item| item.fields()).eq([(2, 'x')]));
    assert!(rt;
        a.union(&b)
            .map(|item| item.fields())
            .eq([(2, 'y'), (3, 'y'), (1, 'x')])
    );
    assert!(rt;
        a.bitand(&b).is_ok_and(|both| both.iter().map(|item| item.fields()).eq([(2, 'x')]))
    );
}

#[test]
fn a_reference_outlives_its_sets(rt: HostRuntime) {
    let [one, two, again] = &[1, 2, 1];
    assert!(rt; first_missing(Set::from([one, two]), Set::from([again])) == Some(&2));
}

// The sets of the crate's documentation.
#[test]
fn a_union_becomes_a_set(rt: HostRuntime) -> Result<(), Overfull> {
    let a = Set::from([1, 2, 3]);
    let b: Set<u8, 4> = Set::try_from_iter([5, 1, 2, 4].into_iter())?;
    let both: Set<u8, 7> = joined(&a, &b)?;
    assert!(rt; both.iter().eq(&[5, 1, 2, 4, 3]));
    assert!(rt; both.capacity() == 7);
    assert!(rt; a.sub(&b).is_ok_and(|set| set.iter().eq(&[3])));
    assert!(rt; joined::<3, 4, 4>(&a, &b).is_err());
    Ok(())
}

#[test]
fn loops_and_chains(rt: HostRuntime) -> Result<(), AllocError> {
    let a = Set::from([1, 2, 3]);
    let b = Set::from([2, 3, 4, 6]);
    assert!(rt; missing(&a, &b) == 1);
    assert!(rt; evens(rt.alloc(), &a, &b)?.iter().eq(&[2, 4, 6]));
    let mut met = 0;
    for x in a.difference(&b) {
        assert!(rt; met == 0);
        met = *x;
    }
    assert!(rt; met == 1);
    Ok(())
}

// How many members each of the four operations has, of those that come first.
fn members(first: &Set<Counted<'_>, 3>, second: &Set<Counted<'_>, 3>, most: usize) -> [usize; 4] {
    [
        first.difference(second).take(most).count(),
        first.intersection(second).take(most).count(),
        first.union(second).take(most).count(),
        first.symmetric_difference(second).take(most).count(),
    ]
}

// Whether the set has just the items of these ids, from the front.
fn has_ids(set: &Set<Counted<'_>, 3>, ids: &[u8]) -> bool {
    set.len() == ids.len() && set.iter().zip(ids).all(|(item, id)| item.id == *id)
}

#[test]
fn an_operation_leaves_both_sets(rt: HostRuntime) {
    let counts = Counts::new();
    let first = counted_set([0, 1, 2], &counts);
    let mut second = counted_set([0, 1, 2], &counts);
    second.retain(|item| item.id != 1);
    assert!(rt; counts.drops.replace(0) == 1);
    assert!(rt; members(&first, &second, 0) == [0, 0, 0, 0]);
    assert!(rt; members(&first, &second, 1) == [1, 1, 1, 1]);
    assert!(rt; members(&first, &second, 9) == [1, 2, 3, 1]);
    assert!(rt; counts.drops.get() == 0);
    assert!(rt; has_ids(&first, &[0, 1, 2]));
    assert!(rt; has_ids(&second, &[0, 2]));
}

// Whether the items come in this order with these hints, one before each call of `next` that gives an item and one
// before the first `None`, and nothing comes after that.
fn hints<'a, I: Iterator<Item = &'a i32>>(
    mut items: I,
    expected: &[i32],
    hints: &[(usize, usize)],
) -> bool
    requires { (left : I) → I.can_next left }
{
    let mut expected = expected.iter();
    for (lower, upper) in hints {
        if items.size_hint() != (*lower, Some(*upper)) {
            return false;
        }
        if items.next() != expected.next() {
            return false;
        }
    }
    if expected.next().is_some() || items.size_hint() != (0, Some(0)) {
        return false;
    }
    items.next().is_none() && items.next().is_none()
}

#[test]
fn hints_on_the_way(rt: HostRuntime) {
    let a = Set::from([1, 2, 3]);
    let difference: Difference<'_, '_, i32, 3> = a.difference(&a);
    assert!(rt; hints(difference, &[], &[(0, 3)]));
    let intersection: Intersection<'_, i32, 3> = a.intersection(&a);
    assert!(rt; hints(intersection, &[1, 2, 3], &[(0, 3), (0, 2), (0, 1), (0, 0)]));
    let union: Union<'_, i32, 3> = a.union(&a);
    assert!(rt; hints(union, &[1, 2, 3], &[(3, 6), (2, 5), (1, 4), (0, 3)]));
    assert!(rt; hints(a.symmetric_difference(&a), &[], &[(0, 6)]));
    let d = Set::from([3, 4]);
    let apart: SymmetricDifference<'_, i32, 3, 2> = a.symmetric_difference(&d);
    assert!(rt; hints(apart, &[1, 2, 4], &[(1, 5), (0, 4), (0, 3), (0, 0)]));
}

#[test]
fn a_clone_has_the_members_left(rt: HostRuntime) -> Result<(), AllocError> {
    let first = Set::from([1, 2, 3, 4]);
    let second = Set::from([3, 4, 5, 6]);
    let mut difference = first.difference(&second);
    assert!(rt; difference.next() == Some(&1));
    assert!(rt; difference.clone()?.eq(&[2]) && difference.eq(&[2]));
    let mut intersection = first.intersection(&second);
    assert!(rt; intersection.next() == Some(&3));
    assert!(rt; intersection.clone()?.eq(&[4]) && intersection.eq(&[4]));
    let mut union = first.union(&second);
    assert!(rt; union.next() == Some(&3));
    assert!(rt; union.clone()?.eq(&[4, 5, 6, 1, 2]) && union.eq(&[4, 5, 6, 1, 2]));
    let mut either = first.symmetric_difference(&second);
    assert!(rt; either.next() == Some(&1));
    assert!(rt; either.clone()?.eq(&[2, 5, 6]) && either.eq(&[2, 5, 6]));
    Ok(())
}

#[test]
fn references_by_what_they_point_to(rt: HostRuntime) -> Result<(), AllocError> {
    let [one, two, three, again] = &[1, 2, 3, 3];
    let a = Set::from([one, two, three]);
    let b = Set::from([again]);
    let mut difference = a.difference_ref(&b);
    assert!(rt; hints(difference.clone()?, &[1, 2], &[(2, 3), (1, 2), (0, 1)]));
    assert!(rt; difference.next() == Some(&1));
    assert!(rt; debugs(rt.alloc(), &difference, "[2]"));
    assert!(rt; hints(difference.clone()?, &[2], &[(1, 2), (0, 1)]));
    assert!(rt; hints(difference, &[2], &[(1, 2), (0, 1)]));
    Ok(())
}
