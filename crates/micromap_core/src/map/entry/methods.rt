//! `Map::entry` and the calls of `Entry`. A clause `writes_back` says what the map holds after the returned borrow
//! ends.
ghost use Rattle.std.specs.Prelude.{◌≡◌, Some, None, IsTrue, unwrap_or};
ghost use Rattle.std.specs.Borrow.{sem, Bor, MutBor};
ghost use Rattle.std.specs.Map.Calls.{ModifiesValue};
ghost use Rattle.std.specs.Option.{UnwrapsOrElse};
ghost use Rattle.micromap_core.specs.Entry.{Occupied, AnswersOfKey, entry_key, entry_value, entry_has_room, IsSound, IsEntryOf, IsWritten, IsModified, entry_lends};

use super::{Entry, EntryIn, OccupiedEntry, OccupiedIn, VacantIn};
use crate::Map;

impl<K: Eq, V, const N: usize> Map<K, V, N> {
    /// Returns the entry of `key`.
    ///
    /// If an equal key is stored, the entry is occupied, and `key` is dropped. Else it is vacant, and holds `key`.
    ///
    /// ```
    /// let mut counts: Map<char, u32, 13> = Map::new();
    /// for letter in "sets".chars() {
    ///     if counts.fits(&letter) {
    ///         counts
    ///             .entry(letter)
    ///             .and_modify(|count| *count = count.saturating_add(1))
    ///             .or_insert(1);
    ///     }
    /// }
    /// counts.retain(|_, count| *count > 1);
    /// assert!(rt; counts.into_iter().eq([('s', 2)]));
    /// ```
    #[inline]
    pub fn entry(&mut self, key: K) -> Entry<'_, K, V, N>
    where
        K: Drop,
        ensures entry { IsEntryOf K.eq self.entry key result }
    {
        match self.index_of(&key) {
            Some(index) => Entry::Occupied(OccupiedIn { map: self, index }),
            None => Entry::Vacant(VacantIn { map: self, key }),
        }
    }
}

impl<'a, K: Eq, V, const N: usize> EntryIn<'a, K, Map<K, V, N>> {
    /// Returns a reference to the stored key, or to the held key if the entry is vacant.
    ///
    /// ```
    /// let mut map = Map::from([(1, 'a')]);
    /// assert_eq!(rt; *map.entry(1).key(), 1);
    /// assert_eq!(rt; *map.entry(2).key(), 2);
    /// ```
    pub fn key(&self) -> &K
        requires { IsSound K.eq self.now }
        ensures { entry_key self.now ≡ Some result.now }
    {
        match self {
            EntryIn::Occupied(entry) => entry.key(),
            EntryIn::Vacant(entry) => entry.key(),
        }
    }

    /// Returns `true` if the entry is occupied or the map has room.
    ///
    /// ```
    /// let mut full = Map::from([(1, 'a')]);
    /// assert!(rt; full.entry(1).has_room());
    /// assert!(rt; !full.entry(2).has_room());
    /// ```
    pub fn has_room(&self) -> bool
        ensures { result ≡ entry_has_room N self.now }
    {
        match self {
            EntryIn::Occupied(_) => true,
            EntryIn::Vacant(entry) => entry.has_room(),
        }
    }

    /// Calls `f` on the value of an occupied entry, and returns the entry.
    ///
    /// ```
    /// let mut map = Map::from([(1, 'a')]);
    /// map.entry(1).and_modify(|value| *value = 'b');
    /// map.entry(2).and_modify(|value| *value = 'c');
    /// assert!(rt; map.into_iter().eq([(1, 'b')]));
    /// ```
    pub fn and_modify<F: FnOnce(&mut V)>(self, f: F) -> Self
        requires sound { IsSound K.eq self }
        requires callable { (p : MutBor V) → entry_value self ≡ Some p.now → F.pre f p }
        ensures modified { IsModified K.eq (ModifiesValue F.FnOnce f) self.entry result }
    {
        match self {
            EntryIn::Occupied(mut entry) => {
                f(entry.get_mut());
                EntryIn::Occupied(entry)
            }
            EntryIn::Vacant(entry) => EntryIn::Vacant(entry),
        }
    }
}

impl<'a, K: Eq + Drop, V: Drop, const N: usize> EntryIn<'a, K, Map<K, V, N>> {
    /// Inserts `default` if the entry is vacant, and returns a mutable reference to the value.
    ///
    /// Requires `has_room()`. A new pair goes last.
    ///
    /// ```
    /// let mut map: Map<u8, char, 1> = Map::new();
    /// for default in ['a', 'b'] {
    ///     if map.fits(&1) {
    ///         map.entry(1).or_insert(default);
    ///     }
    /// }
    /// assert_eq!(rt; map.get(&1), Some(&'a'));
    /// ```
    pub fn or_insert(self, default: V) -> &'a mut V
        requires sound { IsSound K.eq self }
        requires room { IsTrue (entry_has_room N self) }
        ensures* writes_back { sem 𝓛 (entry_lends K.row V.row N.row K.eq self.entry result) }
        ensures answer { result.now ≡ unwrap_or (entry_value self.entry) default }
    {
        self.or_insert_with(|| default)
    }

    /// Inserts the result of `default` if the entry is vacant, and returns a mutable reference to the value.
    ///
    /// Requires `has_room()`. A new pair goes last. For an occupied entry `default` isn't called.
    pub fn or_insert_with<F: FnOnce() -> V>(self, default: F) -> &'a mut V
        requires sound { IsSound K.eq self }
        requires room { IsTrue (entry_has_room N self) }
        requires callable { entry_value self ≡ None → F.pre default }
        ensures* writes_back { sem 𝓛 (entry_lends K.row V.row N.row K.eq self.entry result) }
        ensures answer { UnwrapsOrElse (entry_value self.entry) (F.post default) result.now }
    {
        self.or_insert_with_key(|_| default())
    }

    /// Does what `or_insert_with` does, with a closure that gets the held key.
    ///
    /// Requires `has_room()`.
    ///
    /// ```
    /// let mut halves: Map<u8, u8, 4> = Map::new();
    /// if halves.fits(&6) {
    ///     halves.entry(6).or_insert_with_key(|n| *n / 2);
    /// }
    /// assert_eq!(rt; halves.get(&6), Some(&3));
    /// ```
    pub fn or_insert_with_key<F: FnOnce(&K) -> V>(self, default: F) -> &'a mut V
        requires sound { IsSound K.eq self }
        requires room { IsTrue (entry_has_room N self) }
        requires callable { entry_value self ≡ None
            → (p : Bor K) → entry_key self ≡ Some p.now → F.pre default p }
        ensures* writes_back { sem 𝓛 (entry_lends K.row V.row N.row K.eq self.entry result) }
        ensures answer { UnwrapsOrElse (entry_value self.entry)
            (AnswersOfKey F.FnOnce default (entry_key self.entry)) result.now }
    {
        match self {
            EntryIn::Occupied(entry) => entry.into_mut(),
            EntryIn::Vacant(entry) => {
                let value = default(entry.key());
                entry.insert(value)
            }
        }
    }

    /// Does what `or_insert` does, with the default value.
    ///
    /// Requires `has_room()`.
    ///
    /// ```
    /// let mut counts: Map<char, u8, 4> = Map::new();
    /// if counts.fits(&'a') {
    ///     counts.entry('a').or_default();
    /// }
    /// assert_eq!(rt; counts.get(&'a'), Some(&0));
    /// ```
    pub fn or_default(self) -> &'a mut V
    where
        V: Default,
        requires sound { IsSound K.eq self }
        requires room { IsTrue (entry_has_room N self) }
        ensures* writes_back { sem 𝓛 (entry_lends K.row V.row N.row K.eq self.entry result) }
        ensures answer { UnwrapsOrElse (entry_value self.entry) V.is_default result.now }
    {
        self.or_insert_with(|| V::default())
    }

    /// Sets the value, and returns the occupied entry.
    ///
    /// Requires `has_room()`. A stored key stays. A held one goes last with the value.
    ///
    /// ```
    /// let mut map = Map::from([(1, 'a')]);
    /// if map.fits(&1) {
    ///     assert_eq!(rt; *map.entry(1).insert_entry('b').key(), 1);
    /// }
    /// assert_eq!(rt; map.get(&1), Some(&'b'));
    /// ```
    pub fn insert_entry(self, value: V) -> OccupiedEntry<'a, K, V, N>
        requires sound { IsSound K.eq self }
        requires room { IsTrue (entry_has_room N self) }
        ensures written { IsWritten K.eq self.entry value (Occupied result) }
    {
        match self {
            EntryIn::Occupied(mut entry) => {
                drop(entry.insert(value));
                entry
            }
            EntryIn::Vacant(entry) => entry.insert_entry(value),
        }
    }
}
