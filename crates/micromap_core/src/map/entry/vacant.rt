//! The calls of `VacantEntry`.
ghost use Rattle.std.specs.Prelude.{◌≡◌, Some, IsTrue};
ghost use Rattle.std.specs.Borrow.{sem};
ghost use Rattle.micromap_core.specs.Entry.{Occupied, Vacant, entry_key, entry_pairs, entry_has_room, IsSound, IsWritten, entry_lends};

use super::{OccupiedEntry, OccupiedIn, VacantIn};
use crate::Map;

impl<'a, K: Eq, V, const N: usize> VacantIn<'a, K, Map<K, V, N>> {
    /// Returns a reference to the held key.
    pub fn key(&self) -> &K
        ensures { entry_key (Vacant self.now) ≡ Some result.now }
    {
        &self.key
    }

    /// Returns the held key by value. The map is unchanged.
    pub fn into_key(self) -> K
        ensures answer { entry_key (Vacant self.entry) ≡ Some result }
        ensures pairs { self.exit.0.now ≡ entry_pairs (Vacant self.entry) }
    {
        let VacantIn { map: _, key } = self;
        key
    }

    /// Returns `true` if the map has room.
    pub fn has_room(&self) -> bool
        ensures { result ≡ entry_has_room N (Vacant self.now) }
    {
        self.map.has_room()
    }
}

impl<'a, K: Eq + Drop, V: Drop, const N: usize> VacantIn<'a, K, Map<K, V, N>> {
    /// Inserts the held key with `value`, and returns a mutable reference to the value.
    ///
    /// Requires `has_room()`. The pair goes last.
    ///
    /// ```
    /// let mut map: Map<u8, char, 1> = Map::new();
    /// if let Entry::Vacant(entry) = map.entry(1) {
    ///     if entry.has_room() {
    ///         entry.insert('a');
    ///     }
    /// }
    /// assert_eq!(rt; map.get(&1), Some(&'a'));
    /// ```
    pub fn insert(self, value: V) -> &'a mut V
        requires sound { IsSound K.eq (Vacant self) }
        requires room { IsTrue (entry_has_room N (Vacant self)) }
        ensures* writes_back { sem 𝓛 (entry_lends K.row V.row N.row K.eq (Vacant self.entry) result) }
        ensures answer { result.now ≡ value }
    {
        let VacantIn { map, key } = self;
        let index = map.len();
        map.push_pair(key, value);
        map.value_at_mut(index)
    }

    /// Inserts the held key with `value`, and returns its occupied entry.
    ///
    /// Requires `has_room()`. The pair goes last.
    pub fn insert_entry(self, value: V) -> OccupiedEntry<'a, K, V, N>
        requires sound { IsSound K.eq (Vacant self) }
        requires room { IsTrue (entry_has_room N (Vacant self)) }
        ensures written { IsWritten K.eq (Vacant self.entry) value (Occupied result) }
    {
        let VacantIn { map, key } = self;
        let index = map.len();
        map.push_pair(key, value);
        OccupiedIn { map, index }
    }
}
