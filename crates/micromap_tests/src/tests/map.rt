//! The Rust crate's own tests of the map. Modules are named as its files, and one with the tests of several names them.
//! Those of its files `ctors`, `from`, `clone`, `eq`, `display` and `debug` stand here.

mod entry;
mod iterators;
mod methods;

use micromap::{Map, Overfull};
use micromap_testing::{debugs, displays};
use std::alloc::AllocError;
use std::process::Abort;

type Named = Map<&'static str, i32, 10>;

// One pair, whose key is new.
fn one(rt: &impl Abort) -> Named {
    let mut map = Map::new();
    assert!(rt; map.insert("one", 42) == None);
    map
}

// Two pairs.
#[tactic(auto, unfolding(micromap_core::specs::Pairs::put))]
fn two() -> Named {
    let mut map = Map::new();
    map.insert("one", 42);
    map.insert("two", 16);
    map
}

// Three pairs.
#[tactic(auto, unfolding(micromap_core::specs::Pairs::put))]
fn three() -> Named {
    let mut map = Map::new();
    map.insert("one", 1);
    map.insert("two", 3);
    map.insert("three", 5);
    map
}

// Two pairs that are left of three.
fn blanks() -> Named {
    let mut map = three();
    map.remove(&"two");
    map
}

#[test]
fn makes_default_map(rt: HostRuntime) {
    let map: Map<u8, u8, 8> = Map::default();
    assert!(rt; map.len() == 0);
}

#[test]
fn makes_new_map(rt: HostRuntime) {
    let map: Map<u8, u8, 8> = Map::new();
    assert!(rt; map.len() == 0);
}

#[test]
fn makes_map_by_with_capacity(rt: HostRuntime) {
    let map: Map<u8, u8, 8> = Map::with_capacity(8);
    assert!(rt; map.len() == 0);
}

#[test]
fn drops_correctly() {
    let map: Map<Vec<u8>, u8, 8> = Map::new();
    drop(map);
}

// The days of a week, with their numbers.
fn days() -> [(i32, &'static str); 5] {
    [(1, "sun"), (2, "mon"), (3, "tue"), (4, "wed"), (5, "thu")]
}

#[test]
fn from_iter(rt: HostRuntime) -> Result<(), Overfull> {
    let map: Map<i32, &str, 10> = Map::try_from_iter(days().into_iter())?;
    assert!(rt; map.len() == 5);
    Ok(())
}

#[test]
fn from_array(rt: HostRuntime) {
    assert!(rt; Map::from(days()).len() == 5);
}

#[test]
fn array_into_map(rt: HostRuntime) {
    let map: Map<i32, &str, 5> = days().into();
    assert!(rt; map.len() == 5);
}

#[test]
fn from_with_duplicates(rt: HostRuntime) {
    let map = Map::from([(1, "sun"), (2, "mon"), (3, "tue"), (1, "wed"), (2, "thu")]);
    assert!(rt; map.len() == 3);
    assert!(rt; map.get(&2) == Some(&"thu"));
}

#[test]
fn map_can_be_cloned(rt: HostRuntime) -> Result<(), AllocError> {
    let mut map: Map<u8, u8, 16> = Map::new();
    map.insert(0, 42);
    assert!(rt; map.clone()?.get(&0) == Some(&42));
    Ok(())
}

#[test]
fn empty_map_can_be_cloned(rt: HostRuntime) -> Result<(), AllocError> {
    let map: Map<u8, u8, 0> = Map::new();
    assert!(rt; map.clone()?.is_empty());
    Ok(())
}

#[test]
fn compares_two_maps(rt: HostRuntime) {
    let mut first: Map<&str, i32, 5> = Map::new();
    first.insert("first", 42);
    let mut second: Map<&str, i32, 5> = Map::new();
    second.insert("first", 42);
    assert!(rt; first == second);
}

#[test]
fn compares_two_diff_cap_maps(rt: HostRuntime) {
    let mut first = Map::from([('a', 97), ('b', 98), ('c', 99)]);
    let mut second = Map::from([('c', 99), ('c', 99), ('c', 99), ('b', 98)]);
    assert!(rt; second.fits(&'a'));
    second.insert('a', 97);
    assert!(rt; first.eq_with(&second));
    first.remove(&'c');
    assert!(rt; !first.eq_with(&second));
}

#[test]
fn displays_empty_map(rt: HostRuntime) {
    assert!(rt; displays(rt.alloc(), &Map::<&str, i32, 0>::new(), "{}"));
}

#[test]
fn displays_one_item_map(rt: HostRuntime) {
    assert!(rt; displays(rt.alloc(), &Map::from([(42, true)]), "{42: true}"));
}

#[test]
fn displays_map(rt: HostRuntime) {
    let map = Map::from([("one", 42), ("two", 16)]);
    assert!(rt; displays(rt.alloc(), &map, "{one: 42, two: 16}"));
}

#[test]
fn debugs_map(rt: HostRuntime) {
    let map = Map::from([("one", 42), ("two", 16)]);
    assert!(rt; debugs(rt.alloc(), &map, r#"{"one": 42, "two": 16}"#));
}
