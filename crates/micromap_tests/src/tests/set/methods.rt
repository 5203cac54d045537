//! The calls on one set, or on two that are compared.
use super::keep_even;
use micromap::Set;
use micromap_testing::holds;

#[test]
fn test_capacity(rt: HostRuntime) {
    let set: Set<i32, 10> = Set::new();
    assert!(rt; set.capacity() == 10);
}

#[test]
fn test_is_empty(rt: HostRuntime) {
    let mut set: Set<i32, 5> = Set::new();
    assert!(rt; set.is_empty());
    set.insert(1);
    assert!(rt; !set.is_empty());
}

#[test]
fn test_len(rt: HostRuntime) {
    let mut set: Set<i32, 5> = Set::new();
    assert!(rt; set.len() == 0);
    set.insert(1);
    assert!(rt; set.len() == 1);
}

#[test]
fn test_clear(rt: HostRuntime) {
    let mut set: Set<i32, 5> = Set::new();
    set.insert(1);
    set.clear();
    assert!(rt; set.is_empty());
}

#[test]
fn test_retain(rt: HostRuntime) {
    let mut set = Set::from([1, 2, 3, 4, 5]);
    keep_even(&mut set);
    assert!(rt; holds(&set, &[2, 4]));
}

#[test]
fn test_contains(rt: HostRuntime) {
    let set = Set::from([1, 2, 3]);
    assert!(rt; set.contains(&1));
    assert!(rt; !set.contains(&4));
}

#[test]
fn test_remove(rt: HostRuntime) {
    let mut set: Set<i32, 5> = Set::new();
    set.insert(2);
    assert!(rt; set.remove(&2));
    assert!(rt; !set.remove(&2));
}

#[test]
fn test_insert(rt: HostRuntime) {
    let mut set: Set<i32, 3> = Set::new();
    assert!(rt; set.insert(2));
    assert!(rt; set.fits(&2));
    assert!(rt; !set.insert(2));
    assert!(rt; set.len() == 1);
}

#[test]
fn test_checked_insert(rt: HostRuntime) {
    let mut set: Set<i32, 2> = Set::new();
    for item in [1, 2, 3] {
        assert!(rt; set.checked_insert(item).is_none());
    }
    assert!(rt; set.len() == 2);
}

#[test]
fn test_insert_unchecked(rt: HostRuntime) {
    let mut set: Set<i32, 3> = Set::new();
    assert!(rt; set.insert_unchecked(1));
    assert!(rt; set.fits(&2));
    assert!(rt; set.insert_unchecked(2));
    assert!(rt; set.fits(&2));
    assert!(rt; !set.insert_unchecked(2));
}

#[test]
fn test_get(rt: HostRuntime) {
    let set = Set::from([1, 2, 3]);
    assert!(rt; set.get(&2) == Some(&2));
    assert!(rt; set.get(&4).is_none());
}

#[test]
fn test_take(rt: HostRuntime) {
    let mut set = Set::from([1, 2, 3]);
    assert!(rt; set.take(&2) == Some(2));
    assert!(rt; set.take(&2).is_none());
}

// Whether the two sets say the same of each other: that they share no item, or that they do.
fn are_disjoint(a: &Set<u32, 3>, b: &Set<u32, 5>, disjoint: bool) -> bool {
    a.is_disjoint(b) == disjoint && b.is_disjoint(a) == disjoint
}

#[test]
fn test_is_disjoint(rt: HostRuntime) {
    let a = Set::from([1, 2, 3]);
    let mut b: Set<u32, 5> = Set::new();
    assert!(rt; are_disjoint(&a, &b, true));
    b.checked_insert(4);
    assert!(rt; are_disjoint(&a, &b, true));
    b.checked_insert(1);
    assert!(rt; are_disjoint(&a, &b, false));
}

#[test]
fn test_is_subset(rt: HostRuntime) {
    let sup = Set::from([1, 2, 3]);
    let mut set: Set<u32, 5> = Set::new();
    assert!(rt; set.is_subset(&sup));
    set.checked_insert(2);
    assert!(rt; set.is_subset(&sup));
    set.checked_insert(4);
    assert!(rt; !set.is_subset(&sup));
}

#[test]
fn test_is_superset(rt: HostRuntime) {
    let sub = Set::from([1, 2]);
    let mut set: Set<u32, 5> = Set::new();
    for item in [0, 1] {
        assert!(rt; !set.is_superset(&sub));
        set.checked_insert(item);
    }
    assert!(rt; !set.is_superset(&sub));
    set.checked_insert(2);
    assert!(rt; set.is_superset(&sub));
    assert!(rt; set.remove(&0));
    assert!(rt; set.is_superset(&sub));
}
