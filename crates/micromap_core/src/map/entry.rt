//! The entry of a key in a map: the stored pair, or the key itself if it is new.
//!
//! `Map::entry` makes an entry. Each call that returns one ensures that it is sound: an occupied entry has the index of
//! a pair, and the key of a vacant entry is new. A call that needs this requires it. In a clause, `self.exit.0.now` is
//! the map behind the reference that the entry held, after the entry is consumed.
ghost use Rattle.std.specs.Prelude.{◌≡◌};

mod methods;
mod occupied;
mod vacant;

use crate::Map;

/// The entry of a key, which the map has or lacks. Its calls but `has_room` require that it is sound. None compares a
/// key.
pub type Entry<'a, K, V, const N: usize> = EntryIn<'a, K, Map<K, V, N>>;

/// An entry whose key is stored. Its calls require that it is sound. None compares a key.
pub type OccupiedEntry<'a, K, V, const N: usize> = OccupiedIn<'a, Map<K, V, N>>;

/// An entry whose key is new. It holds the key. Its calls `insert` and `insert_entry` require that it is sound. None
/// compares a key.
pub type VacantEntry<'a, K, V, const N: usize> = VacantIn<'a, K, Map<K, V, N>>;

/// Internal: write `Entry<'a, K, V, N>`. It is generic over the map, since a struct over `K`, `V` and `N` that holds a
/// `&mut Map<K, V, N>` couldn't return this reference.
#[derive(Drop)]
pub enum EntryIn<'a, K, M> {
    Occupied(OccupiedIn<'a, M>),
    Vacant(VacantIn<'a, K, M>),
}

/// Internal: write `OccupiedEntry<'a, K, V, N>`.
pub struct OccupiedIn<'a, M> {
    map: &'a mut M,
    index: usize,
}

/// Internal: write `VacantEntry<'a, K, V, N>`.
pub struct VacantIn<'a, K, M> {
    map: &'a mut M,
    key: K,
}

impl<'a, M> Drop for OccupiedIn<'a, M> {
    /// Leaves the map unchanged.
    fn drop(self)
        ensures { self.exit.0.now ≡ self.entry.map.now }
    {
        let OccupiedIn { map: _, index: _ } = self;
    }
}

impl<'a, K: Drop, M> Drop for VacantIn<'a, K, M> {
    /// Leaves the map unchanged.
    fn drop(self)
        ensures { self.exit.0.now ≡ self.entry.map.now }
    {
        let VacantIn { map: _, key: _ } = self;
    }
}
