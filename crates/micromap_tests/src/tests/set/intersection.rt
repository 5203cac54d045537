//! The items of one set that are in another, and the set of them, from `intersection` and `bitand`.
use super::{begins, larger_sets, small_sets};
use micromap::{Overfull, Set};
use micromap_testing::{debugs, holds};
use std::alloc::AllocError;

// Whether a set that is built from the items in both sets has just these.
fn both_have<const N: usize, const M: usize>(
    first: &Set<i32, N>,
    second: &Set<i32, M>,
    items: &[i32],
) -> bool {
    let both: Result<Set<i32, 7>, Overfull> = Set::try_from_iter(
        first.intersection(second).copied(),
    );
    both.is_ok_and(|set| holds(&set, items))
}

#[test]
fn intersection_simple(rt: HostRuntime) {
    let (a, b, c) = larger_sets();
    assert!(rt; both_have(&a, &b, &[2, 5, 7]));
    assert!(rt; both_have(&a, &c, &[0, 1, 2, 3, 5, 7, 9]));
    assert!(rt; both_have(&b, &c, &[2, 5, 6, 7, 8]));
}

#[test]
fn intersection_with_empty_set(rt: HostRuntime) {
    let a = Set::from([1, 2, 3]);
    assert!(rt; both_have(&a, &Set::<i32, 3>::new(), &[]));
}

#[test]
fn intersection_with_disjoint_sets(rt: HostRuntime) {
    let a = Set::from([1, 2, 3]);
    assert!(rt; both_have(&a, &Set::from([4, 5, 6]), &[]));
}

#[test]
fn intersection_with_subset(rt: HostRuntime) {
    let a = Set::from([1, 2, 3, 4]);
    assert!(rt; both_have(&a, &Set::from([2, 3]), &[2, 3]));
}

#[test]
fn intersection_with_superset(rt: HostRuntime) {
    let a = Set::from([2, 3]);
    assert!(rt; both_have(&a, &Set::from([1, 2, 3, 4]), &[2, 3]));
}

#[test]
fn intersection_size_hint(rt: HostRuntime) {
    let (a, b, c, d) = small_sets();
    assert!(rt; begins(a.intersection(&b), 0, 3, &[]));
    assert!(rt; begins(a.intersection(&c), 0, 0, &[]));
    assert!(rt; begins(a.intersection(&d), 0, 2, &[3]));
    assert!(rt; begins(b.intersection(&a), 0, 3, &[]));
    assert!(rt; begins(b.intersection(&d), 0, 2, &[4]));
    assert!(rt; begins(c.intersection(&b), 0, 0, &[]));
    assert!(rt; begins(d.intersection(&a), 0, 2, &[3]));
    assert!(rt; begins(d.intersection(&b), 0, 2, &[4]));
    assert!(rt; begins(d.intersection(&c), 0, 0, &[]));
}

#[test]
fn intersection_clone_fmt_fold(rt: HostRuntime) -> Result<(), AllocError> {
    let a = Set::from([1, 2, 3, 4]);
    let b = Set::from([3, 4, 5, 6]);
    let both = a.intersection(&b);
    assert!(rt; both.clone()?.eq(&[3, 4]));
    assert!(rt; debugs(rt.alloc(), &both, "[3, 4]"));
    assert!(rt; both.fold(0u32, |sum, item| sum.wrapping_add(*item)) == 7);
    Ok(())
}

// Whether both sets have just these items, in the order of the first.
fn bitand_has<const N: usize, const M: usize>(
    first: &Set<i32, N>,
    second: &Set<i32, M>,
    items: &[i32],
) -> bool {
    first.bitand(second).is_ok_and(|set| holds(&set, items))
}

#[test]
fn bitand_with_non_empty_sets(rt: HostRuntime) {
    let a = Set::from([1, 2, 3]);
    assert!(rt; bitand_has(&a, &Set::from([2, 3, 4, 5]), &[2, 3]));
}

#[test]
fn bitand_with_disjoint_sets(rt: HostRuntime) {
    let a = Set::from([1, 2, 3]);
    assert!(rt; bitand_has(&a, &Set::from([4, 5, 6]), &[]));
}

#[test]
fn bitand_with_empty_set(rt: HostRuntime) {
    let a = Set::from([1, 2, 3]);
    assert!(rt; bitand_has(&a, &Set::<i32, 0>::new(), &[]));
}

#[test]
fn bitand_with_self(rt: HostRuntime) {
    let a = Set::from([1, 2, 3]);
    assert!(rt; bitand_has(&a, &a, &[1, 2, 3]));
}

#[test]
fn bitand_with_subset(rt: HostRuntime) {
    let a = Set::from([1, 2, 3]);
    assert!(rt; bitand_has(&a, &Set::from([2, 3]), &[2, 3]));
}
