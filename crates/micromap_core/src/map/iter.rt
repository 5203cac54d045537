//! The iterators over a map, by reference and by value, from the front.
//!
//! A contract sees an iterator as the list of the items left. It says that whatever runs it to its end meets just
//! these, in order.
//!
//! An iterator by value is larger than the map. So a caller that is generic in `K` and `V`, and holds one, must know that
//! it fits in memory, which the conditions of `specs/Memory` say. `pop_first` asks for nothing of the kind.
ghost use Rattle.std.specs.Prelude.{◌≡◌, []};
ghost use Rattle.std.specs.Map.{keys_of, values_of};
ghost use Rattle.std.specs.Map.Iter.{GivesInOrder, ShowsInOrder, deref, deref_pair};
ghost use Rattle.micromap_core.specs.Pairs.{AreContents, IsContent};

use super::{Drain, IntoIter, IntoKeys, IntoValues, Iter, Keys, Map, Values};
use std::mem;

impl<K: Eq, V, const N: usize> Map<K, V, N> {
    /// Returns an iterator over the pairs by reference, from the front.
    ///
    /// ```
    /// let map = Map::from([(2, 'b'), (1, 'a')]);
    /// let mut pairs = map.iter();
    /// assert_eq!(rt; pairs.next(), Some((&2, &'b')));
    /// assert_eq!(rt; pairs.len(), 1);
    /// ```
    #[inline]
    pub fn iter(&self) -> Iter<'_, K, V>
        ensures answer { result ≡ self.now }
        ensures runs { ShowsInOrder (deref_pair {K = K} {X = V}) }
        ensures content { IsContent K.eq N self.now }
    {
        self.pairs.iter()
    }

    /// Returns an iterator over the keys by reference, from the front.
    ///
    /// ```
    /// let map = Map::from([(2, 'b'), (1, 'a')]);
    /// assert!(rt; map.keys().eq(&[2, 1]));
    /// ```
    #[inline]
    pub fn keys(&self) -> Keys<'_, K, V>
        ensures answer { result ≡ keys_of self.now }
        ensures runs { ShowsInOrder (deref {X = K}) }
        ensures content { IsContent K.eq N self.now }
    {
        self.pairs.keys()
    }

    /// Returns an iterator over the values by reference, from the front.
    #[inline]
    pub fn values(&self) -> Values<'_, K, V>
        ensures answer { result ≡ values_of self.now }
        ensures runs { ShowsInOrder (deref {X = V}) }
        ensures content { IsContent K.eq N self.now }
    {
        self.pairs.values()
    }

    /// Returns an iterator over the keys by value, from the front. A caller that is generic in `K` and `V` requires
    /// `IntoKeysFits K.row V.row N.row`.
    #[inline]
    pub fn into_keys(self) -> IntoKeys<K, V, N>
        ensures answer { result ≡ keys_of self }
        ensures runs { GivesInOrder K }
        ensures content { IsContent K.eq N self }
    {
        let Map { pairs } = self;
        pairs.into_keys()
    }

    /// Returns an iterator over the values by value, from the front. A caller that is generic in `K` and `V` requires
    /// `IntoValuesFits K.row V.row N.row`.
    #[inline]
    pub fn into_values(self) -> IntoValues<K, V, N>
        ensures answer { result ≡ values_of self }
        ensures runs { GivesInOrder V }
        ensures content { IsContent K.eq N self }
    {
        let Map { pairs } = self;
        pairs.into_values()
    }
}

impl<K: Eq + Drop, V: Drop, const N: usize> Map<K, V, N> {
    /// Removes all pairs, and returns an iterator over them by value, from the front.
    ///
    /// The map is empty as soon as the call returns. A caller that is generic in `K` and `V` requires `IntoIterFits
    /// K.row V.row N.row`.
    ///
    /// ```
    /// let mut map = Map::from([(2, 'b'), (1, 'a')]);
    /// assert_eq!(rt; map.drain().next(), Some((2, 'b')));
    /// assert!(rt; map.is_empty());
    /// ```
    #[inline]
    pub fn drain(&mut self) -> Drain<K, V, N>
        ensures answer { result ≡ self.old }
        ensures emptied { self.new ≡ [] }
        ensures runs { GivesInOrder (K × V) }
        ensures content { AreContents K.eq N self.old self.new }
    {
        mem::take(self).into_iter()
    }
}

/// A loop over a map yields its pairs by value, from the front. A caller that is generic in `K` and `V` requires
/// `IntoIterFits K.row V.row N.row`.
impl<K: Eq + Drop, V: Drop, const N: usize> IntoIterator for Map<K, V, N> {
    type Item = (K, V);

    type IntoIter = IntoIter<K, V, N>;

    ghost into_iter_gives = { λ m walk. (walk ≡ m) × GivesInOrder (K × V) × IsContent K.eq N m };

    fn into_iter(self) -> IntoIter<K, V, N> {
        let Map { pairs } = self;
        pairs.into_iter()
    }
}

/// A loop over a reference to a map yields references to its keys and values, from the front.
///
/// ```
/// let map = Map::from([(1, 10), (2, 20)]);
/// let mut largest = 0;
/// for (_, value) in &map {
///     largest = largest.max(*value);
/// }
/// assert_eq!(rt; map.get(&2), Some(&largest));
/// ```
impl<'a, K: Eq, V, const N: usize> IntoIterator for &'a Map<K, V, N> {
    type Item = (&'a K, &'a V);

    type IntoIter = Iter<'a, K, V>;

    ghost into_iter_gives = { λ m walk. (walk ≡ m.now) × ShowsInOrder (deref_pair {K = K} {X = V}) × IsContent K.eq N m.now };

    fn into_iter(self) -> Iter<'a, K, V> {
        self.iter()
    }
}
