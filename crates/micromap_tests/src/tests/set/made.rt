//! Sets as they are built, extended, compared and printed, from `from`, `extend`, `eq`, `display` and `debug`.
use micromap::{Overfull, Set};
use micromap_testing::{debugs, displays, holds};

#[test]
fn test_from_iter(rt: HostRuntime) -> Result<(), Overfull> {
    let set: Set<u8, 4> = Set::try_from_iter([1, 2, 3, 4].into_iter())?;
    assert!(rt; holds(&set, &[1, 2, 3, 4]));
    for item in [1, 2, 3, 4] {
        assert!(rt; set.contains(&item));
    }
    assert!(rt; !set.contains(&5));
    Ok(())
}

#[test]
fn test_from_array(rt: HostRuntime) {
    let set = Set::from([1, 2, 3, 4]);
    assert!(rt; holds(&set, &[1, 2, 3, 4]));
    for item in [1, 2, 3, 4] {
        assert!(rt; set.contains(&item));
    }
    assert!(rt; !set.contains(&5));
}

// Whether a set of the first numbers takes the second ones, and has just `expected` then.
fn takes(first: &[i32], second: &[i32], expected: &[i32]) -> bool {
    let set: Result<Set<i32, 6>, Overfull> = Set::try_from_iter(first.iter().copied());
    match set {
        Ok(mut set) => set.try_extend(second.iter().copied()).is_ok() && holds(&set, expected),
        Err(_) => false,
    }
}

#[test]
fn extend_set_empty(rt: HostRuntime) {
    assert!(rt; takes(&[], &[1, 2, 3], &[1, 2, 3]));
}

#[test]
fn extend_set_not_empty(rt: HostRuntime) {
    assert!(rt; takes(&[1, 2], &[1, 2, 3], &[1, 2, 3]));
}

#[test]
fn extend_set_overlap(rt: HostRuntime) {
    assert!(rt; takes(&[1, 2, 4], &[2, 3, 5, 6], &[1, 2, 4, 3, 5, 6]));
}

// The same of texts.
fn takes_texts<'a>(first: &[&'a str], second: &[&'a str], expected: &[&'a str]) -> bool {
    let set: Result<Set<&'a str, 6>, Overfull> = Set::try_from_iter(first.iter().copied());
    match set {
        Ok(mut set) => set.try_extend(second.iter().copied()).is_ok() && holds(&set, expected),
        Err(_) => false,
    }
}

#[test]
fn extend_set_with_str_references(rt: HostRuntime) {
    assert!(rt; takes_texts(&[], &["a", "b", "c"], &["a", "b", "c"]));
}

#[test]
fn extend_set_with_str_references_overlap(rt: HostRuntime) {
    assert!(rt; takes_texts(&["a", "b"], &["b", "c", "d"], &["a", "b", "c", "d"]));
}

#[test]
fn extend_set_with_str_references_empty(rt: HostRuntime) {
    assert!(rt; takes_texts(&["a", "b", "c"], &[], &["a", "b", "c"]));
}

#[test]
fn compares_two_sets(rt: HostRuntime) {
    assert!(rt; Set::from([1]) == Set::from([1]));
}

#[test]
fn compares_sets_with_different_order(rt: HostRuntime) {
    assert!(rt; Set::from([1, 2, 3]) == Set::from([3, 2, 1]));
}

#[test]
fn compares_sets_with_different_lengths(rt: HostRuntime) {
    assert!(rt; Set::from([1, 2, 2]) != Set::from([1, 1, 1]));
}

#[test]
fn compares_sets_with_different_elements(rt: HostRuntime) {
    assert!(rt; Set::from([1]) != Set::from([2]));
}

#[test]
fn compares_sets_with_char_elements(rt: HostRuntime) {
    assert!(rt; Set::from(['a', 'b']).eq_with(&Set::from(['a', 'b', 'b'])));
}

#[test]
fn displays_set(rt: HostRuntime) {
    let mut set: Set<&str, 10> = Set::new();
    assert!(rt; displays(rt.alloc(), &set, "{}"));
    set.checked_insert("one");
    set.checked_insert("two");
    assert!(rt; debugs(rt.alloc(), &set, r#"{"one", "two"}"#));
    assert!(rt; displays(rt.alloc(), &set, "{one, two}"));
}

#[test]
fn debugs_set(rt: HostRuntime) {
    assert!(rt; debugs(rt.alloc(), &Set::from(["one", "two"]), r#"{"one", "two"}"#));
}
