//! The examples of calls on a set: making and building one, looking up, inserting and removing an item, iterators,
//! comparisons, and the operations on two.
use micromap::{Set, TextBuf};
use std::alloc::AllocError;

#[test]
fn an_empty_set(rt: HostRuntime) {
    {
        let set: Set<u8, 4> = Set::new();
        assert!(rt; set.is_empty());
        assert_eq!(rt; set.capacity(), 4);
    }
    {
        let set: Set<u8, 4> = Set::default();
        assert!(rt; set.is_empty());
    }
}

#[test]
fn a_set_has_a_length_and_a_capacity(rt: HostRuntime) {
    {
        let mut seen: Set<&str, 2> = Set::new();
        assert!(rt; seen.put("foo") && seen.put("bar") && seen.put("foo"));
        assert!(rt; !seen.put("qux"));
        assert!(rt; seen.contains(&"bar"));
    }
    {
        let mut set: Set<u8, 4> = Set::new();
        set.put(1);
        set.put(1);
        assert_eq!(rt; set.len(), 1);
    }
}

#[test]
fn a_set_is_empty_or_full(rt: HostRuntime) {
    {
        let mut set: Set<u8, 4> = Set::new();
        assert!(rt; set.is_empty());
        set.put(1);
        assert!(rt; !set.is_empty());
    }
    {
        let mut set: Set<u8, 4> = Set::new();
        set.put(1);
        assert_eq!(rt; set.capacity(), 4);
    }
    {
        let mut set = Set::from([1, 2]);
        set.clear();
        assert!(rt; set.is_empty());
        assert!(rt; set.put(3));
    }
}

#[test]
fn of_an_array_or_of_items_that_fit(rt: HostRuntime) {
    {
        let set = Set::from([2, 1, 2]);
        assert_eq!(rt; set.capacity(), 3);
        assert!(rt; set.iter().eq(&[2, 1]));
    }
    {
        let set: Set<u8, 2> = Set::from_fitting([5, 6, 7, 5].into_iter());
        assert!(rt; set.iter().eq(&[5, 6]));
    }
}

#[test]
fn in_another_capacity(rt: HostRuntime) {
    let large = Set::from([1, 2]).into_capacity::<3>();
    assert!(rt; large.is_ok_and(|mut set| set.put(3)));
    let small = Set::from([1, 2]).into_capacity::<1>();
    assert!(rt; small.is_err_and(|set| set.len() == 2));
}

#[test]
fn as_text(rt: HostRuntime) -> Result<(), AllocError> {
    let alloc = rt.alloc();
    let set = Set::from([2, 1]);
    assert_eq!(rt; set.to_string(alloc)?.as_str(), "{2, 1}");
    Ok(())
}

#[test]
fn an_item_by_an_equal_one(rt: HostRuntime) {
    {
        let set = Set::from(["foo", "bar"]);
        assert_eq!(rt; set.get(&"foo"), Some(&"foo"));
        assert_eq!(rt; set.get(&"qux"), None);
    }
    {
        let set = Set::from([1, 2]);
        assert!(rt; set.contains(&2));
        assert!(rt; !set.contains(&3));
    }
    {
        let full = Set::from([1, 2]);
        assert!(rt; full.fits(&2));
        assert!(rt; !full.fits(&3));
    }
}

#[test]
fn an_item_at_an_end(rt: HostRuntime) {
    {
        let mut set = Set::from([2, 1]);
        assert_eq!(rt; set.first(), Some(&2));
        set.clear();
        assert_eq!(rt; set.first(), None);
    }
    {
        let mut set = Set::from([2, 1]);
        assert_eq!(rt; set.last(), Some(&1));
        set.clear();
        assert_eq!(rt; set.last(), None);
    }
}

#[test]
fn an_item_that_fits(rt: HostRuntime) {
    let mut set: Set<u8, 1> = Set::new();
    assert!(rt; set.insert(1));
    if set.fits(&2) {
        set.insert(2);
    }
    assert!(rt; !set.contains(&2));
}

#[test]
fn an_item_in_the_place_of_an_equal_one(rt: HostRuntime) {
    {
        let mut set = Set::from([1, 2]);
        assert!(rt; set.fits(&2));
        assert!(rt; !set.insert_unchecked(2));
    }
    {
        let mut set = Set::from([1, 2]);
        assert!(rt; set.fits(&2));
        assert_eq!(rt; set.replace(2), Some(2));
    }
}

#[test]
fn an_item_is_put_or_refused(rt: HostRuntime) {
    let mut set: Set<u8, 1> = Set::new();
    assert!(rt; set.put(1));
    assert!(rt; set.put(1));
    assert!(rt; !set.put(2));
}

#[test]
fn an_item_removed_by_an_equal_one(rt: HostRuntime) {
    {
        let mut set = Set::from([1, 2, 3]);
        assert_eq!(rt; set.take(&1), Some(1));
        assert_eq!(rt; set.take(&1), None);
        assert!(rt; set.iter().eq(&[2, 3]));
    }
    {
        let mut set = Set::from([1, 2]);
        assert!(rt; set.remove(&1));
        assert!(rt; !set.remove(&1));
    }
}

#[test]
fn an_item_removed_at_an_end(rt: HostRuntime) {
    {
        let mut set = Set::from([2, 1]);
        assert_eq!(rt; set.pop_first(), Some(2));
        assert_eq!(rt; set.pop_first(), Some(1));
        assert_eq!(rt; set.pop_first(), None);
    }
    {
        let mut set = Set::from([2, 1]);
        assert_eq!(rt; set.pop_last(), Some(1));
        assert_eq!(rt; set.pop_last(), Some(2));
        assert_eq!(rt; set.pop_last(), None);
    }
}

#[test]
fn items_that_pass_a_test_are_kept(rt: HostRuntime) {
    let mut set = Set::from([1, 2, 3]);
    set.retain(|item| *item != 2);
    assert!(rt; set.iter().eq(&[1, 3]));
}

#[test]
fn by_reference_or_by_value(rt: HostRuntime) {
    {
        let set = Set::from([2, 1, 2]);
        assert!(rt; set.iter().eq(&[2, 1]));
    }
    {
        let mut set = Set::from([2, 1]);
        assert_eq!(rt; set.drain().next(), Some(2));
        assert!(rt; set.is_empty());
    }
}

#[test]
fn in_a_loop(rt: HostRuntime) {
    {
        let mut largest = 0;
        for item in Set::from([1, 3, 2]) {
            largest = largest.max(item);
        }
        assert_eq!(rt; largest, 3);
    }
    {
        let set = Set::from([1, 3, 2]);
        let mut largest = 0;
        for item in &set {
            largest = largest.max(*item);
        }
        assert!(rt; set.contains(&largest));
    }
}

#[test]
fn the_same_items(rt: HostRuntime) {
    {
        let set = Set::from([1, 2]);
        assert!(rt; set.eq_with(&Set::from([2, 1, 2])));
        assert!(rt; !set.eq_with(&Set::from([1])));
    }
    {
        assert!(rt; Set::from([1, 2]) == Set::from([2, 1]));
        assert!(rt; Set::from([1, 2]) != Set::from([1, 1]));
    }
}

#[test]
fn subsets_and_disjoint_sets(rt: HostRuntime) {
    {
        let set = Set::from([1, 2]);
        assert!(rt; set.is_subset(&Set::from([3, 2, 1])));
        assert!(rt; !set.is_subset(&Set::from([1, 3])));
    }
    {
        let set = Set::from([1, 2]);
        assert!(rt; set.is_superset(&Set::from([2])));
        assert!(rt; !set.is_superset(&Set::from([3])));
    }
    {
        let set = Set::from([1, 2]);
        assert!(rt; set.is_disjoint(&Set::from([3, 4])));
        assert!(rt; !set.is_disjoint(&Set::from([2, 3])));
    }
}

#[test]
fn a_copy_of_a_set(rt: HostRuntime) {
    let mut set = Set::from([1, 2]);
    let before = set.copied();
    set.clear();
    assert!(rt; before.iter().eq(&[1, 2]));
}

#[test]
fn a_clone_of_a_set(rt: HostRuntime) -> Result<(), AllocError> {
    let alloc = rt.alloc();
    let mut names: Set<TextBuf, 2> = Set::new();
    names.put(TextBuf::new(alloc, "Ada")?);
    let clone = names.clone()?;
    names.clear();
    assert!(rt; clone.first().is_some_and(|name| name.is("Ada")));
    Ok(())
}

#[test]
fn of_one_set_without_another(rt: HostRuntime) {
    {
        let first = Set::from([1, 2, 3]);
        let second = Set::from([2, 4]);
        assert!(rt; first.difference(&second).eq(&[1, 3]));
    }
    {
        let first = Set::from([&1, &2, &3]);
        let second = Set::from([&2, &4]);
        assert!(rt; first.difference_ref(&second).eq(&[1, 3]));
    }
}

#[test]
fn of_both_sets(rt: HostRuntime) {
    let first = Set::from([1, 2, 3]);
    let second = Set::from([3, 4, 2]);
    assert!(rt; first.intersection(&second).eq(&[2, 3]));
}

#[test]
fn of_either_set_alone(rt: HostRuntime) {
    let first = Set::from([1, 2, 3]);
    let second = Set::from([2, 4]);
    assert!(rt; first.symmetric_difference(&second).eq(&[1, 3, 4]));
}

#[test]
fn as_a_new_set(rt: HostRuntime) -> Result<(), AllocError> {
    {
        let first = Set::from([1, 2, 3]);
        let both = first.bitand(&Set::from([3, 4, 2]))?;
        assert!(rt; both.iter().eq(&[2, 3]));
    }
    {
        let first = Set::from([1, 2, 3]);
        let rest = first.sub(&Set::from([2, 4]))?;
        assert!(rt; rest.iter().eq(&[1, 3]));
    }
    Ok(())
}
