//! Looking up a key, and the pairs at both ends.
#![tactic(auto, using(crate::proofs::Opened::opened_map))]

ghost use Rattle.std.specs.Prelude.{◌≡◌, ◌-◌, length, Some, IsTrue, slice_get, unwrap_or};
ghost use Rattle.std.specs.Borrow.{sem};
ghost use Rattle.std.specs.Map.Iter.{deref_pair};
ghost use Rattle.std.specs.Option.{option_copied, option_copied_mut, option_map};
ghost use Rattle.micromap_core.specs.Pairs.{at, pair, has, fits};
ghost use Rattle.micromap_core.specs.Lends.{lends_at, lends_at_if};

use super::Map;
use std::ops::{Index, IndexMut};

impl<K: Eq, V, const N: usize> Map<K, V, N> {
    /// Returns a reference to the value of `key`, or `None` if the key is missing.
    ///
    /// ```
    /// let map = Map::from([(1, 'a'), (2, 'b')]);
    /// assert_eq!(rt; map.get(&2), Some(&'b'));
    /// assert_eq!(rt; map.get(&3), None);
    /// ```
    #[inline]
    pub fn get(&self, key: &K) -> Option<&V>
        ensures answer { option_copied result ≡ at K.eq self.now key.now }
    {
        let index = self.index_of(key)?;
        Some(self.pair_at(index).1)
    }

    /// Returns a mutable reference to the value of `key`, or `None` if the key is missing.
    ///
    /// After the borrow ends the map has what was written, and all else is unchanged.
    ///
    /// ```
    /// let mut map = Map::from([(1, 'a'), (2, 'b')]);
    /// if let Some(value) = map.get_mut(&2) {
    ///     *value = 'c';
    /// }
    /// assert_eq!(rt; map.get(&2), Some(&'c'));
    /// ```
    #[inline]
    pub fn get_mut(&mut self, key: &K) -> Option<&mut V>
        ensures* writes_back { sem 𝓛 (lends_at_if K.row V.row N.row K.eq self.entry key.now result) }
        ensures answer { option_copied_mut result ≡ at K.eq self.old key.now }
    {
        match self.index_of(key) {
            Some(index) => Some(self.value_at_mut(index)),
            None => None,
        }
    }

    /// Returns references to the stored key and its value, or `None` if the key is missing.
    #[inline]
    pub fn get_key_value(&self, key: &K) -> Option<(&K, &V)>
        ensures answer { option_map deref_pair result ≡ pair K.eq self.now key.now }
    {
        let index = self.index_of(key)?;
        Some(self.pair_at(index))
    }

    /// Returns references to the first key and its value, or `None` if the map is empty.
    ///
    /// ```
    /// let mut map = Map::from([(2, 'b'), (1, 'a')]);
    /// assert_eq!(rt; map.first(), Some((&2, &'b')));
    /// map.clear();
    /// assert_eq!(rt; map.first(), None);
    /// ```
    #[inline]
    pub fn first(&self) -> Option<(&K, &V)>
        ensures answer { option_map deref_pair result ≡ slice_get self.now 0 }
    {
        match self.len() {
            0 => None,
            _ => Some(self.pair_at(0)),
        }
    }

    /// Returns references to the last key and its value, or `None` if the map is empty.
    #[inline]
    pub fn last(&self) -> Option<(&K, &V)>
        ensures answer { option_map deref_pair result ≡ slice_get self.now (length self.now - 1) }
    {
        match self.len() {
            0 => None,
            len => Some(self.pair_at(len - 1)),
        }
    }

    /// Returns `true` if a stored key equals `key`.
    ///
    /// ```
    /// let map = Map::from([(1, 'a'), (2, 'b')]);
    /// assert!(rt; map.contains_key(&2));
    /// assert!(rt; !map.contains_key(&3));
    /// ```
    #[inline]
    pub fn contains_key(&self, key: &K) -> bool
        ensures answer { result ≡ has K.eq self.now key.now }
    {
        self.index_of(key).is_some()
    }

    /// Returns `true` if a pair with this key can be inserted: an equal key is stored, or there is room. Compares no key
    /// if there is room.
    ///
    /// ```
    /// let full = Map::from([(1, 'a'), (2, 'b')]);
    /// assert!(rt; full.fits(&2));
    /// assert!(rt; !full.fits(&3));
    /// ```
    #[inline]
    pub fn fits(&self, key: &K) -> bool
        ensures answer { result ≡ fits K.eq N self.now key.now }
    {
        self.has_room() || self.contains_key(key)
    }

    /// Returns a reference to the value of `key`, as `map[&key]` does.
    ///
    /// Requires `contains_key(key)`.
    ///
    /// ```
    /// let map = Map::from([(1, 'a'), (2, 'b')]);
    /// assert!(rt; map.contains_key(&2));
    /// assert_eq!(rt; *map.index(&2), 'b');
    /// ```
    #[inline]
    pub fn index(&self, key: &K) -> &V
        requires { IsTrue (has K.eq self.now key.now) }
        ensures answer { at K.eq self.now key.now ≡ Some result.now }
    {
        match self.index_of(key) {
            Some(index) => self.pair_at(index).1,
            None => unreachable!(),
        }
    }

    /// Returns a mutable reference to the value of `key`, as `map[&key]` does where it is written to.
    ///
    /// Requires `contains_key(key)`.
    #[inline]
    pub fn index_mut(&mut self, key: &K) -> &mut V
        requires { IsTrue (has K.eq self.old key.now) }
        ensures* writes_back { sem 𝓛 (lends_at K.row V.row N.row K.eq self.entry key.now result) }
        ensures answer { at K.eq self.old key.now ≡ Some result.now }
    {
        match self.index_of(key) {
            Some(index) => self.value_at_mut(index),
            None => unreachable!(),
        }
    }
}

impl<K: Eq, V: Copy, const N: usize> Map<K, V, N> {
    /// Returns a copy of the value of `key`, or `default` if the key is missing.
    ///
    /// ```
    /// let counts = Map::from([("foo", 3), ("bar", 1)]);
    /// assert_eq!(rt; counts.get_or(&"foo", 0), 3);
    /// assert_eq!(rt; counts.get_or(&"qux", 0), 0);
    /// ```
    #[inline]
    pub fn get_or(&self, key: &K, default: V) -> V
        ensures answer { result ≡ unwrap_or (at K.eq self.now key.now) default }
    {
        self.get(key).copied().unwrap_or(default)
    }
}

/// `map[&key]` is the value of a key. Requires `contains_key(key)`.
impl<'k, K: Eq, V, const N: usize> Index<&'k K> for Map<K, V, N> {
    type Output = V;

    ghost can_index = { λ pairs key. IsTrue (has K.eq pairs key.now) };

    ghost index_gives = { λ pairs key value. at K.eq pairs key.now ≡ Some value };

    #[inline]
    fn index(&self, key: &'k K) -> &V {
        self.index(key)
    }
}

/// `map[&key]` can be written too, as by `index_mut`.
impl<'k, K: Eq, V, const N: usize> IndexMut<&'k K> for Map<K, V, N> {
    #[inline]
    fn index_mut(&mut self, key: &'k K) -> &mut V
        requires { IsTrue (has K.eq self.old key.now) }
        ensures* writes_back { sem 𝓛 (lends_at K.row V.row N.row K.eq self.entry key.now result) }
        ensures answer { at K.eq self.old key.now ≡ Some result.now }
    {
        self.index_mut(key)
    }
}
