//! The texts of maps, sets, iterators and operations, a caller that says the text of a map, and printing to a writer that
//! refuses each text in turn.
ghost use Rattle.std.specs.Prelude.{◌≡◌, Some, IfOk};
ghost use Rattle.std.specs.String.{string_bytes};
ghost use Rattle.micromap.specs.Print.{map_text};

use micromap::{Map, Set};
use micromap_testing::{Refusing, debugs, displays};
use std::alloc::{AllocError, Global};
use std::fmt::{self, Write};

// The text of a map of texts.
#[tactic(auto, using(micromap_core::proofs::Laws::TextLaws::each_map_text))]
fn text_of<const N: usize>(
    alloc: Global,
    map: &Map<String, String, N>,
) -> Result<String, AllocError>
    ensures { IfOk result (λ text. map_text (λ k. Some (string_bytes k)) (λ v. Some (string_bytes v)) map.now ≡ Some (string_bytes text)) }
{
    format!(in alloc; "{map}")
}

#[test]
fn a_map_prints_its_pairs(rt: HostRuntime) {
    let alloc = rt.alloc();
    assert!(rt; displays(alloc, &Map::from([(1, 2), (3, 4)]), "{1: 2, 3: 4}"));
    assert!(rt; text_of::<0>(alloc, &Map::new()).is_ok_and(|text| text.as_str() == "{}"));
    assert!(rt; debugs(alloc, &Map::<u8, u8, 3>::new(), "{}"));
}

#[test]
fn a_map_prints_within_another_and_in_a_box(rt: HostRuntime) -> Result<(), AllocError> {
    let mut lists: Map<char, Map<u8, u8, 2>, 2> = Map::new();
    lists.checked_insert('a', Map::from([(1, 2), (3, 4)]));
    lists.checked_insert('b', Map::new());
    assert!(rt; displays(rt.alloc(), &lists, "{a: {1: 2, 3: 4}, b: {}}"));
    let mut boxed = Box::new(rt.alloc(), lists)?;
    boxed.remove(&'a');
    assert!(rt; displays(rt.alloc(), &boxed, "{b: {}}"));
    Ok(())
}

// The map whose iterators are printed.
fn three() -> Map<u8, char, 3> {
    Map::from([(1, 'a'), (2, 'b'), (3, 'c')])
}

#[test]
fn a_walk_prints_what_is_left(rt: HostRuntime) {
    let alloc = rt.alloc();
    let mut map = three();
    let mut pairs = map.iter();
    pairs.next();
    assert!(rt; debugs(alloc, &pairs, "[(2, 'b'), (3, 'c')]"));
    assert!(rt; debugs(alloc, &map.keys(), "[1, 2, 3]"));
    assert!(rt; debugs(alloc, &map.values(), "['a', 'b', 'c']"));
    let mut drained = map.drain();
    drained.next();
    assert!(rt; debugs(alloc, &drained, "[(2, 'b'), (3, 'c')]"));
}

#[test]
fn an_owning_walk_prints_what_is_left(rt: HostRuntime) {
    let alloc = rt.alloc();
    let mut pairs = three().into_iter();
    pairs.next();
    assert!(rt; debugs(alloc, &pairs, "[(2, 'b'), (3, 'c')]"));
    let mut keys = three().into_keys();
    keys.next();
    assert!(rt; debugs(alloc, &keys, "[2, 3]"));
    let mut values = three().into_values();
    values.next();
    assert!(rt; debugs(alloc, &values, "['b', 'c']"));
}

#[test]
fn an_operation_prints_what_is_left(rt: HostRuntime) {
    let a = Set::from([1, 2, 3]);
    let b = Set::from([3, 4, 5, 6]);
    let mut union = a.union(&b);
    union.next();
    assert!(rt; debugs(rt.alloc(), &union, "[4, 5, 6, 1, 2]"));
}

// How many texts the value is printed in, where a print ends with the first that is refused and returns its error.
fn counted_texts<T: fmt::Display>(value: &T) -> Option<usize> {
    for refused in 0..100 {
        let mut out = Refusing::new(refused);
        match write!(out, "{value}") {
            Ok(()) if out.writes == refused => return Some(refused),
            Err(fmt::Error) if out.writes == refused + 1 => {}
            _ => return None,
        }
    }
    None
}

// Prints as `Debug` does.
#[derive(Drop)]
struct Debugged<'a, T>(&'a T);

impl<T: fmt::Debug> fmt::Display for Debugged<'_, T> {
    fn fmt<W: fmt::Write>(&self, f: &mut fmt::Formatter<W>) -> fmt::Result {
        write!(f, "{:?}", self.0)
    }
}

#[test]
fn a_refused_text_ends_the_printing(rt: HostRuntime) {
    let map = Map::from([(1, 2), (3, 4)]);
    assert!(rt; counted_texts(&map).is_some_and(|texts| texts > 2));
    let set = Set::from([1, 2]);
    assert!(rt; counted_texts(&set).is_some_and(|texts| texts > 2));
}

#[test]
fn a_refused_text_ends_the_printing_of_what_is_left(rt: HostRuntime) {
    let mut map = Map::from([(1, 2), (3, 4)]);
    assert!(rt; counted_texts(&Debugged(&map)).is_some_and(|texts| texts > 2));
    assert!(rt; counted_texts(&Debugged(&map.iter())).is_some_and(|texts| texts > 2));
    assert!(rt; counted_texts(&Debugged(&map.drain())).is_some_and(|texts| texts > 2));
    let first = Set::from([1, 2, 3]);
    let second = Set::from([2, 3, 4]);
    assert!(rt; counted_texts(&Debugged(&first)).is_some_and(|texts| texts > 2));
    assert!(rt; counted_texts(&Debugged(&first.difference(&second))).is_some());
    assert!(rt;
        counted_texts(&Debugged(&first.intersection(&second))).is_some_and(|texts| texts > 2)
    );
    assert!(rt; counted_texts(&Debugged(&first.union(&second))).is_some_and(|texts| texts > 2));
    assert!(rt;
        counted_texts(&Debugged(&first.symmetric_difference(&second))).is_some_and(|texts| texts
            > 2)
    );
}
