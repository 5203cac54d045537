//! The items of one set that another lacks, and the set of them, from `difference` and `sub`.
use super::{begins, small_sets};
use micromap::{Overfull, Set};
use micromap_testing::{debugs, holds};
use std::alloc::{AllocError, Global};
use std::test::Fail;

// The words of a sentence.
fn words(sentence: &str) -> Result<Set<&str, 10>, Overfull> {
    Set::try_from_iter(sentence.split(' '))
}

// Whether the first set alone has just these texts, in its order.
fn first_has<'a, const N: usize, const M: usize>(
    first: &Set<&'a str, N>,
    second: &Set<&'a str, M>,
    items: &[&'a str],
) -> bool {
    first.difference(second).eq(items)
}

// The two sentences whose words are compared.
fn sentences(alloc: Global) -> Result<[String; 2], AllocError> {
    Ok([
        String::from_str(alloc, "I love the surf and the sand.")?,
        String::from_str(alloc, "I hate the hate and the sand.")?,
    ])
}

#[test]
fn difference_ref_lifetime(rt: HostRuntime) -> Result<(), Fail> {
    let [first, second] = sentences(rt.alloc())?;
    let first = words(first.as_str())?;
    let second = words(second.as_str())?;
    assert!(rt; first_has(&first, &second, &["love", "surf"]));
    Ok(())
}

#[test]
fn difference_ref_disjoint(rt: HostRuntime) {
    let a = Set::from(["apple", "banana", "cherry"]);
    let b = Set::from(["date", "elderberry", "fig", "grape"]);
    assert!(rt; first_has(&a, &b, &["apple", "banana", "cherry"]));
}

#[test]
fn difference_ref_with_overlap(rt: HostRuntime) {
    let a = Set::from(["apple", "banana", "cherry"]);
    let b = Set::from(["banana", "cherry", "date"]);
    assert!(rt; first_has(&a, &b, &["apple"]));
}

#[test]
fn difference_ref_complete_overlap(rt: HostRuntime) {
    let a = Set::from(["apple", "banana", "cherry"]);
    let b = Set::from(["apple", "banana", "cherry"]);
    assert!(rt; first_has(&a, &b, &[]));
}

#[test]
fn difference_ref_empty_set(rt: HostRuntime) {
    let a = Set::from(["apple", "banana", "cherry"]);
    let none = Set::from([]);
    assert!(rt; a.difference(&none).copied().size_hint() == (3, Some(3)));
    assert!(rt; first_has(&a, &none, &["apple", "banana", "cherry"]));
}

// The text with an item and a comma after it.
fn joined(mut text: String, item: &str) -> Result<String, AllocError> {
    text.push_str(item)?;
    text.push(',')?;
    Ok(text)
}

#[test]
fn difference_ref_fold(rt: HostRuntime) -> Result<(), AllocError> {
    let a = Set::from(["apple", "banana", "cherry"]);
    let b = Set::from(["banana", "cherry", "date"]);
    let mut items = a.difference(&b).copied();
    let text = items.try_fold(String::new(rt.alloc()), joined)?;
    assert!(rt; text.as_str() == "apple,");
    Ok(())
}

// The four fruits whose references are compared.
fn fruits(alloc: Global) -> Result<[String; 4], AllocError> {
    Ok([
        String::from_str(alloc, "apple")?,
        String::from_str(alloc, "banana")?,
        String::from_str(alloc, "cherry")?,
        String::from_str(alloc, "date")?,
    ])
}

#[test]
fn difference_ref_clone(rt: HostRuntime) -> Result<(), AllocError> {
    let [apple, banana, cherry, date] = &fruits(rt.alloc())?;
    let a = Set::from([apple, banana, cherry]);
    let b = Set::from([banana, cherry, date]);
    let original = a.difference_ref(&b);
    assert!(rt; original.clone()?.eq(original));
    Ok(())
}

#[test]
fn difference_ref_fmt_debug(rt: HostRuntime) -> Result<(), AllocError> {
    let [apple, banana, cherry, date] = &fruits(rt.alloc())?;
    let a = Set::from([apple, banana, cherry]);
    let b = Set::from([banana, cherry, date]);
    assert!(rt; debugs(rt.alloc(), &a.difference_ref(&b), r#"["apple"]"#));
    Ok(())
}

// The words of the first sentence alone, which outlive the sets of words.
fn first_only<'a>(first: &'a str, second: &'a str) -> Result<Set<&'a str, 10>, Overfull> {
    let (first, second) = (words(first)?, words(second)?);
    Set::try_from_iter(first.difference(&second).copied())
}

#[test]
fn difference_lifetime(rt: HostRuntime) -> Result<(), Fail> {
    let [first, second] = sentences(rt.alloc())?;
    let (first, second) = (first.as_str(), second.as_str());
    assert!(rt; first_only(first, second)?.eq_with(&Set::from(["love", "surf"])));
    assert!(rt; first_only(second, first)?.eq_with(&Set::from(["hate"])));
    Ok(())
}

// Whether a set that is built from the items of the first set alone has just these.
fn leaves<const N: usize, const M: usize>(
    first: &Set<u32, N>,
    second: &Set<u32, M>,
    items: &[u32],
) -> bool {
    let left: Result<Set<u32, N>, Overfull> = Set::try_from_iter(first.difference(second).copied());
    left.is_ok_and(|set| holds(&set, items))
}

#[test]
fn difference_disjoint(rt: HostRuntime) {
    let a = Set::from([0, 1, 3, 5, 7]);
    assert!(rt; leaves(&a, &Set::from([2, 4, 6, 8]), &[0, 1, 3, 5, 7]));
}

#[test]
fn difference_with_overlap(rt: HostRuntime) {
    let a = Set::from([1, 3, 5, 7]);
    assert!(rt; leaves(&a, &Set::from([3, 5, 6, 8, 9]), &[1, 7]));
}

#[test]
fn difference_complete_overlap(rt: HostRuntime) {
    let a = Set::from([1, 3, 5, 7]);
    assert!(rt; leaves(&a, &Set::from([1, 3, 5, 7]), &[]));
}

#[test]
fn difference_empty_set(rt: HostRuntime) {
    let a = Set::from([1, 3, 5, 7]);
    assert!(rt; leaves(&a, &Set::from([]), &[1, 3, 5, 7]));
}

#[test]
fn difference_with_empty_first_set(rt: HostRuntime) {
    assert!(rt; leaves(&Set::from([]), &Set::from([2, 4, 6, 8]), &[]));
}

#[test]
fn difference_partial_overlap(rt: HostRuntime) {
    let a = Set::from([1, 2, 3, 4, 5, 6]);
    assert!(rt; leaves(&a, &Set::from([4, 5, 6, 7, 8, 9]), &[1, 2, 3]));
}

#[test]
fn difference_size_hint(rt: HostRuntime) {
    let (a, b, c, d) = small_sets();
    assert!(rt; begins(a.difference(&b), 0, 3, &[1, 2, 3]));
    assert!(rt; begins(a.difference(&c), 3, 3, &[1, 2, 3]));
    assert!(rt; begins(a.difference(&d), 1, 3, &[1, 2]));
    assert!(rt; begins(b.difference(&a), 3, 6, &[4, 5, 6, 7, 8, 9]));
    assert!(rt; begins(b.difference(&d), 4, 6, &[5, 6, 7, 8, 9]));
    assert!(rt; begins(c.difference(&b), 0, 0, &[]));
    assert!(rt; begins(d.difference(&a), 0, 2, &[4]));
    assert!(rt; begins(d.difference(&b), 0, 2, &[3]));
    assert!(rt; begins(d.difference(&c), 2, 2, &[3, 4]));
}

// Whether the numbers 1 to 3 without those of a set are printed as this text.
fn prints<const N: usize>(alloc: Global, other: &Set<u32, N>, text: &str) -> bool {
    debugs(alloc, &Set::from([1, 2, 3]).difference(other), text)
}

#[test]
fn difference_fmt_debug(rt: HostRuntime) {
    assert!(rt; prints(rt.alloc(), &Set::from([3, 4, 5, 6]), "[1, 2]"));
}

#[test]
fn difference_fmt_debug_empty(rt: HostRuntime) {
    assert!(rt; prints(rt.alloc(), &Set::from([1, 2, 3]), "[]"));
}

#[test]
fn difference_fmt_debug_with_empty_other_set(rt: HostRuntime) {
    assert!(rt; prints(rt.alloc(), &Set::from([]), "[1, 2, 3]"));
}

// Whether the first set alone has just these items, in its order.
fn sub_has<const N: usize, const M: usize>(
    first: &Set<i32, N>,
    second: &Set<i32, M>,
    items: &[i32],
) -> bool {
    first.sub(second).is_ok_and(|set| holds(&set, items))
}

#[test]
fn test_sub_with_non_overlapping_sets(rt: HostRuntime) {
    let a = Set::from([1, 2, 3]);
    assert!(rt; sub_has(&a, &Set::from([4, 5, 6]), &[1, 2, 3]));
}

#[test]
fn test_sub_with_overlapping_sets(rt: HostRuntime) {
    let a = Set::from([1, 2, 3, 4]);
    assert!(rt; sub_has(&a, &Set::from([3, 4, 5]), &[1, 2]));
}

#[test]
fn test_sub_with_empty_rhs(rt: HostRuntime) {
    let a = Set::from([1, 2, 3]);
    assert!(rt; sub_has(&a, &Set::from([]), &[1, 2, 3]));
    let expected = Set::from([1, 2, 3, 3, 2, 1]);
    assert!(rt;
        a.sub(&Set::from([]))
            .is_ok_and(|set| set.eq_with(&expected))
    );
}

#[test]
fn test_sub_with_empty_lhs(rt: HostRuntime) {
    assert!(rt; sub_has(&Set::from([]), &Set::from([1, 2, 3]), &[]));
}

#[test]
fn test_sub_with_identical_sets(rt: HostRuntime) {
    let a = Set::from([1, 2, 3]);
    assert!(rt; sub_has(&a, &Set::from([1, 2, 3]), &[]));
}
