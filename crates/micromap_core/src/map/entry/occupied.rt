//! The calls of `OccupiedEntry`.
ghost use Rattle.std.specs.Prelude.{◌≡◌, Some};
ghost use Rattle.std.specs.Borrow.{sem};
ghost use Rattle.micromap_core.specs.Entry.{Occupied, entry_key, entry_value, entry_taken, IsSound, IsWritten, entry_lends, occupied_lends};

use super::OccupiedIn;
use crate::Map;

impl<'a, K: Eq, V, const N: usize> OccupiedIn<'a, Map<K, V, N>> {
    /// Returns a reference to the stored key.
    pub fn key(&self) -> &K
        requires { IsSound K.eq (Occupied self.now) }
        ensures { entry_key (Occupied self.now) ≡ Some result.now }
    {
        self.map.pair_at(self.index).0
    }

    /// Returns a reference to the value.
    pub fn get(&self) -> &V
        requires { IsSound K.eq (Occupied self.now) }
        ensures { entry_value (Occupied self.now) ≡ Some result.now }
    {
        self.map.pair_at(self.index).1
    }

    /// Returns a mutable reference to the value, which borrows the entry.
    ///
    /// ```
    /// let mut map = Map::from([(1, 'a')]);
    /// if let Entry::Occupied(mut entry) = map.entry(1) {
    ///     *entry.get_mut() = 'b';
    /// }
    /// assert_eq!(rt; map.get(&1), Some(&'b'));
    /// ```
    #[tactic(auto, unfolding(crate::specs::Entry::entry_put))]
    pub fn get_mut(&mut self) -> &mut V
        requires { IsSound K.eq (Occupied self.old) }
        ensures* writes_back { sem 𝓛 (occupied_lends K.row V.row N.row K.eq self.entry result) }
        ensures answer { entry_value (Occupied self.old) ≡ Some result.now }
    {
        let index = self.index;
        self.map.value_at_mut(index)
    }

    /// Converts the entry into a mutable reference to the value, which lives as long as the map's borrow.
    #[tactic(auto, unfolding(crate::specs::Entry::entry_put))]
    pub fn into_mut(self) -> &'a mut V
        requires { IsSound K.eq (Occupied self) }
        ensures* writes_back { sem 𝓛 (entry_lends K.row V.row N.row K.eq (Occupied self.entry) result) }
        ensures answer { entry_value (Occupied self.entry) ≡ Some result.now }
    {
        let OccupiedIn { map, index } = self;
        map.value_at_mut(index)
    }

    /// Sets the value, and returns the old value.
    pub fn insert(&mut self, value: V) -> V
        requires { IsSound K.eq (Occupied self.old) }
        ensures old { entry_value (Occupied self.old) ≡ Some result }
        ensures written { IsWritten K.eq (Occupied self.old) value (Occupied self.new) }
    {
        let index = self.index;
        self.map.replace_value_at(index, value)
    }
}

impl<'a, K: Eq + Drop, V: Drop, const N: usize> OccupiedIn<'a, Map<K, V, N>> {
    /// Removes the pair, and returns its value. The others keep their order: those behind it move up by one.
    ///
    /// ```
    /// let mut map = Map::from([(1, 'a'), (2, 'b')]);
    /// if let Entry::Occupied(entry) = map.entry(1) {
    ///     assert_eq!(rt; entry.remove(), 'a');
    /// }
    /// assert!(rt; map.keys().eq(&[2]));
    /// ```
    pub fn remove(self) -> V
        requires { IsSound K.eq (Occupied self) }
        ensures answer { entry_value (Occupied self.entry) ≡ Some result }
        ensures pairs { self.exit.0.now ≡ entry_taken (Occupied self.entry) }
    {
        let OccupiedIn { map, index } = self;
        let (_key, value) = map.take_at(index);
        value
    }

    /// Removes the pair as `remove` does, and returns the stored key and its value.
    pub fn remove_entry(self) -> (K, V)
        requires { IsSound K.eq (Occupied self) }
        ensures key { entry_key (Occupied self.entry) ≡ Some result.0 }
        ensures value { entry_value (Occupied self.entry) ≡ Some result.1 }
        ensures pairs { self.exit.0.now ≡ entry_taken (Occupied self.entry) }
    {
        let OccupiedIn { map, index } = self;
        map.take_at(index)
    }
}
