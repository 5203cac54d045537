//! The set: a list of at most `N` items, stored as the keys of a map.
#![tactic(auto, using(crate::proofs::Forwarded::forwarded))]

ghost use Rattle.std.specs.Prelude.{◌≡◌, ◌==◌, [], length};
ghost use Rattle.std.specs.Option.{option_map};
ghost use Rattle.micromap.specs.Items.{AreItems, IsItems};

mod build;
mod capacity;
mod clone;
mod closures;
mod compare;
mod insert;
mod iter;
mod lookup;
mod operations;
mod print;
mod probed;
mod relation;
mod remove;
mod stream;
mod texts;

use crate::Map;
pub use iter::{Drain, IntoIter, Iter};
pub use operations::{Difference, DifferenceRef, Intersection, SymmetricDifference, Union};
use std::marker::Model;

/// A set of at most `N` distinct items, which are found by `==`, from the front.
///
/// A contract sees it as the list of its items, from front to end. It is a map with the value `()`, and compares items
/// as a `Map` compares keys.
///
/// ```
/// let mut seen: Set<&str, 2> = Set::new();
/// assert!(rt; seen.put("foo") && seen.put("bar") && seen.put("foo"));
/// assert!(rt; !seen.put("qux"));
/// assert!(rt; seen.contains(&"bar"));
/// ```
#[derive(Drop)]
pub struct Set<T: Eq, const N: usize> {
    map: Map<T, (), N>,
}

// Returns the item of an entry of a set's map.
#[inline]
fn item_of_entry<T>(entry: Option<(T, ())>) -> Option<T>
    ensures { result ≡ option_map (λ e. e.0) entry }
{
    let (item, _) = entry?;
    Some(item)
}

impl<T: Eq, const N: usize> Model for Set<T, N> {
    ghost use Rattle.std.specs.Prelude.{List};
    ghost use Rattle.std.specs.Map.{keys_of};

    ghost Value = { List T };

    ghost view = { λ s. keys_of s.map };
}

impl<T: Eq, const N: usize> Set<T, N> {
    /// Creates an empty set, as `Set::default` does.
    #[inline]
    pub fn new() -> Self
        ensures answer { result ≡ [] }
        ensures content { IsItems T.eq N result }
    {
        Set { map: Map::new() }
    }

    /// Returns the number of items.
    ///
    /// The clause `content` states three facts of the set: its items are distinct, there are at most `N` items, and the
    /// equality of items is lawful (reflexive, symmetric and transitive).
    #[inline]
    pub fn len(&self) -> usize
        ensures answer { result ≡ length self.now }
        ensures content { IsItems T.eq N self.now }
    {
        self.map.len()
    }

    /// Returns `true` if the set has no items.
    #[inline]
    pub fn is_empty(&self) -> bool
        ensures answer { result ≡ (length self.now == 0) }
    {
        self.map.is_empty()
    }

    /// Returns the greatest number of items, which is `N`.
    #[inline]
    pub fn capacity(&self) -> usize
        ensures { result ≡ N }
    {
        self.map.capacity()
    }
}

impl<T: Eq + Drop, const N: usize> Set<T, N> {
    /// Removes and drops every item.
    pub fn clear(&mut self)
        ensures emptied { self.new ≡ [] }
        ensures content { AreItems T.eq N self.old self.new }
    {
        self.map.clear();
    }
}

impl<T: Eq, const N: usize> Default for Set<T, N> {
    ghost is_default = { λ s. (s ≡ []) × IsItems T.eq N s };

    /// Creates an empty set.
    fn default() -> Self {
        Set::new()
    }
}
