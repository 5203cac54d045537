//! The map: a list of at most `N` pairs, stored in the value itself.
ghost use Rattle.std.specs.Prelude.{◌≡◌, ◌==◌, [], length};
ghost use Rattle.micromap_core.specs.Pairs.{AreContents, IsContent};

mod build;
mod capacity;
mod clone;
mod closures;
mod compare;
mod counted;
mod entry;
mod indexed;
mod insert;
mod iter;
mod lookup;
mod print;
mod probed;
mod remove;
mod stream;
mod texts;

pub use entry::{Entry, OccupiedEntry, VacantEntry};
use micromap_walk::Columns;
pub use micromap_walk::{Drain, IntoIter, IntoKeys, IntoValues, Iter, Keys, Values};
use std::marker::Model;

/// A map of at most `N` pairs with distinct keys, which are found by `==`, from the front.
///
/// A contract sees it as the list of its pairs, from front to end. All `N` slots are part of the value, so no call
/// allocates memory of its own.
///
/// A *scan* compares the keys from the front, up to the one that is found. If there are 32 slots or more, of at most 4
/// bytes each, as for `u8`, it compares all keys before that, except in a counted call and in a call by probe that only
/// reads. Unless its text says otherwise, a call that takes a key or a probe makes one scan, one that takes an iterator
/// makes one for each item, and any other compares no key. How many keys are compared isn't proved. What `get_counted`
/// and `eq_with_counted` add to their counter is.
///
/// ```
/// let mut ages: Map<&str, u8, 2> = Map::new();
/// assert!(rt; ages.put("Ada", 36) && ages.put("Alan", 41));
/// assert!(rt; !ages.put("Grace", 85));
/// assert_eq!(rt; ages.get(&"Alan"), Some(&41));
/// ```
#[derive(Drop)]
pub struct Map<K: Eq, V, const N: usize> {
    pairs: Columns<K, V, N>,
}

impl<K: Eq, V, const N: usize> Model for Map<K, V, N> {
    ghost use Rattle.std.specs.Prelude.{List};
    ghost use Rattle.micromap_core.specs.Pairs.{IsContent};

    ghost Value = { List (K × V) };

    ghost view = { λ m. m.pairs };

    ghost invariant = { λ m. IsContent K.eq N m.pairs };
}

impl<K: Eq, V, const N: usize> Map<K, V, N> {
    /// Creates an empty map, as `Map::default` does.
    #[inline]
    pub fn new() -> Self
        ensures answer { result ≡ [] }
        ensures content { IsContent K.eq N result }
    {
        Map {
            pairs: Columns::new(),
        }
    }

    /// Creates an empty map. Requires that `capacity` is `N`.
    #[inline]
    pub fn with_capacity(capacity: usize) -> Self
        requires { capacity ≡ N }
        ensures answer { result ≡ [] }
        ensures content { IsContent K.eq N result }
    {
        prove!(capacity == N);
        Map::new()
    }

    /// Returns the number of pairs.
    ///
    /// The clause `content` states three facts of the map: its keys are distinct (no two are equal), there are at most `N`
    /// pairs, and the equality of keys is lawful (reflexive, symmetric and transitive).
    #[inline]
    pub fn len(&self) -> usize
        ensures answer { result ≡ length self.now }
        ensures content { IsContent K.eq N self.now }
    {
        self.pairs.len()
    }

    /// Returns `true` if the map has no pairs.
    #[inline]
    pub fn is_empty(&self) -> bool
        ensures answer { result ≡ (length self.now == 0) }
    {
        self.len() == 0
    }

    /// Returns the greatest number of pairs, which is `N`.
    #[inline]
    pub fn capacity(&self) -> usize
        ensures { result ≡ N }
    {
        N
    }
}

impl<K: Eq + Drop, V: Drop, const N: usize> Map<K, V, N> {
    /// Removes and drops every pair.
    pub fn clear(&mut self)
        ensures emptied { self.new ≡ [] }
        ensures content { AreContents K.eq N self.old self.new }
    {
        self.pairs.clear();
    }
}

impl<K: Eq, V, const N: usize> Default for Map<K, V, N> {
    ghost is_default = { λ m. (m ≡ []) × IsContent K.eq N m };

    /// Creates an empty map.
    fn default() -> Self {
        Map::new()
    }
}
