//! All items of two sets, and those in one of them alone, from `union` and `symmetric_difference`.
use super::{begins, larger_sets, small_sets};
use micromap::{Overfull, Set};
use micromap_testing::{debugs, holds};
use std::alloc::AllocError;

// Whether a set that is built from the items of both sets has just these.
fn either_has<const N: usize, const M: usize>(
    first: &Set<i32, N>,
    second: &Set<i32, M>,
    items: &[i32],
) -> bool {
    let union: Result<Set<i32, 19>, Overfull> = Set::try_from_iter(first.union(second).copied());
    union.is_ok_and(|set| holds(&set, items))
}

#[test]
fn union_simple(rt: HostRuntime) {
    let (a, b, c) = larger_sets();
    assert!(rt; either_has(&a, &b, &[2, 5, 6, 7, 8, 10, 0, 1, 3, 9]));
    assert!(rt; either_has(&a, &c, &[0, 1, 2, 3, 5, 7, 9, 6, 8]));
    assert!(rt; either_has(&b, &c, &[0, 1, 2, 3, 5, 7, 9, 6, 8, 10]));
}

#[test]
fn union_with_empty_set(rt: HostRuntime) {
    let a = Set::from([1, 2, 3]);
    assert!(rt; either_has(&a, &Set::<i32, 3>::new(), &[1, 2, 3]));
}

#[test]
fn union_with_disjoint_sets(rt: HostRuntime) {
    let a = Set::from([1, 2, 3]);
    assert!(rt; either_has(&a, &Set::from([4, 5, 6]), &[4, 5, 6, 1, 2, 3]));
}

#[test]
fn union_with_subset(rt: HostRuntime) {
    let a = Set::from([1, 2, 3, 4]);
    assert!(rt; either_has(&a, &Set::from([2, 3]), &[2, 3, 1, 4]));
}

#[test]
fn union_with_superset(rt: HostRuntime) {
    let a = Set::from([2, 3]);
    assert!(rt; either_has(&a, &Set::from([1, 2, 3, 4]), &[1, 2, 3, 4]));
}

#[test]
fn union_size_hint(rt: HostRuntime) {
    let (a, b, c, d) = small_sets();
    assert!(rt; begins(a.union(&b), 6, 9, &[4, 5, 6, 7, 8, 9, 1, 2, 3]));
    assert!(rt; begins(a.union(&c), 3, 3, &[1, 2, 3]));
    assert!(rt; begins(a.union(&d), 3, 5, &[3, 4, 1, 2]));
    assert!(rt; begins(b.union(&a), 6, 9, &[1, 2, 3, 4, 5, 6, 7, 8, 9]));
    assert!(rt; begins(b.union(&d), 6, 8, &[3, 4, 5, 6, 7, 8, 9]));
    assert!(rt; begins(c.union(&b), 6, 6, &[4, 5, 6, 7, 8, 9]));
    assert!(rt; begins(d.union(&a), 3, 5, &[1, 2, 3, 4]));
    assert!(rt; begins(d.union(&b), 6, 8, &[4, 5, 6, 7, 8, 9, 3]));
    assert!(rt; begins(d.union(&c), 2, 2, &[3, 4]));
}

#[test]
fn union_default_and_clone(rt: HostRuntime) -> Result<(), AllocError> {
    let a = Set::from([1, 2, 3]);
    let b = Set::from([4, 5, 6]);
    let union = a.union(&b);
    let cloned = union.clone()?;
    assert!(rt; union.count() == cloned.count());
    Ok(())
}

#[test]
fn union_debug_fmt(rt: HostRuntime) {
    let a = Set::from([1, 2, 3]);
    let b = Set::from([4, 5, 6]);
    assert!(rt; debugs(rt.alloc(), &a.union(&b), "[4, 5, 6, 1, 2, 3]"));
}

#[test]
fn union_count_and_fold(rt: HostRuntime) -> Result<(), AllocError> {
    let a = Set::from([1, 2, 3]);
    let b = Set::from([3, 4, 5]);
    let union = a.union(&b);
    assert!(rt; union.clone()?.count() == 5);
    assert!(rt; union.fold(0u32, |sum, item| sum.wrapping_add(*item)) == 15);
    Ok(())
}

#[test]
fn union_combined_test(rt: HostRuntime) -> Result<(), AllocError> {
    let a = Set::from([1, 2, 3]);
    let b = Set::from([3, 4, 5]);
    let union = a.union(&b);
    let cloned = union.clone()?;
    assert!(rt; union.clone()?.count() == cloned.count());
    assert!(rt; debugs(rt.alloc(), &union, "[3, 4, 5, 1, 2]"));
    assert!(rt; union.clone()?.count() == 5);
    assert!(rt; union.fold(0u32, |sum, item| sum.wrapping_add(*item)) == 15);
    Ok(())
}

// Whether a set that is built from the items in one set alone has just these.
fn one_has<const N: usize, const M: usize>(
    first: &Set<i32, N>,
    second: &Set<i32, M>,
    items: &[i32],
) -> bool {
    let one: Result<Set<i32, 19>, Overfull> = Set::try_from_iter(
        first.symmetric_difference(second).copied(),
    );
    one.is_ok_and(|set| holds(&set, items))
}

#[test]
fn symmetric_difference_simple(rt: HostRuntime) {
    let (a, b, c) = larger_sets();
    assert!(rt; one_has(&a, &b, &[0, 1, 3, 9, 6, 8, 10]));
    assert!(rt; one_has(&a, &c, &[6, 8]));
    assert!(rt; one_has(&b, &c, &[10, 0, 1, 3, 9]));
}

#[test]
fn symmetric_difference_with_empty_set(rt: HostRuntime) {
    let a = Set::from([1, 2, 3]);
    assert!(rt; one_has(&a, &Set::<i32, 3>::new(), &[1, 2, 3]));
}

#[test]
fn symmetric_difference_with_disjoint_sets(rt: HostRuntime) {
    let a = Set::from([1, 2, 3]);
    assert!(rt; one_has(&a, &Set::from([4, 5, 6]), &[1, 2, 3, 4, 5, 6]));
}

#[test]
fn symmetric_difference_with_subset(rt: HostRuntime) {
    let a = Set::from([1, 2, 3, 4]);
    assert!(rt; one_has(&a, &Set::from([2, 3]), &[1, 4]));
}

#[test]
fn symmetric_difference_with_superset(rt: HostRuntime) {
    let a = Set::from([2, 3]);
    assert!(rt; one_has(&a, &Set::from([1, 2, 3, 4]), &[1, 4]));
}

#[test]
fn symmetric_difference_size_hint(rt: HostRuntime) {
    let (a, b, c, d) = small_sets();
    assert!(rt;
        begins(
            a.symmetric_difference(&b),
            3,
            9,
            &[1, 2, 3, 4, 5, 6, 7, 8, 9]
        )
    );
    assert!(rt; begins(a.symmetric_difference(&c), 3, 3, &[1, 2, 3]));
    assert!(rt; begins(a.symmetric_difference(&d), 1, 5, &[1, 2, 4]));
    assert!(rt;
        begins(
            b.symmetric_difference(&a),
            3,
            9,
            &[4, 5, 6, 7, 8, 9, 1, 2, 3]
        )
    );
    assert!(rt; begins(b.symmetric_difference(&d), 4, 8, &[5, 6, 7, 8, 9, 3]));
    assert!(rt; begins(c.symmetric_difference(&b), 6, 6, &[4, 5, 6, 7, 8, 9]));
    assert!(rt; begins(d.symmetric_difference(&a), 1, 5, &[4, 1, 2]));
    assert!(rt; begins(d.symmetric_difference(&b), 4, 8, &[3, 5, 6, 7, 8, 9]));
    assert!(rt; begins(d.symmetric_difference(&c), 2, 2, &[3, 4]));
}

// The two sets that share one item.
fn overlapping() -> (Set<u32, 3>, Set<u32, 3>) {
    (Set::from([1, 2, 3]), Set::from([3, 4, 5]))
}

#[test]
fn symmetric_difference_clone(rt: HostRuntime) -> Result<(), AllocError> {
    let (a, b) = overlapping();
    let original = a.symmetric_difference(&b);
    assert!(rt; original.clone()?.eq(original));
    Ok(())
}

#[test]
fn symmetric_difference_fold(rt: HostRuntime) {
    let (a, b) = overlapping();
    let sum = a
        .symmetric_difference(&b)
        .fold(0u32, |sum, item| sum.wrapping_add(*item));
    assert!(rt; sum == 12);
}

#[test]
fn symmetric_difference_fmt_debug(rt: HostRuntime) {
    let (a, b) = overlapping();
    assert!(rt; debugs(rt.alloc(), &a.symmetric_difference(&b), "[1, 2, 4, 5]"));
}
