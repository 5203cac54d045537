//! Removing a pair.
#![tactic(auto, using(crate::proofs::Opened::opened_map))]

ghost use Rattle.std.specs.Prelude.{◌≡◌, ◌-◌, drop, length, slice_get, take};
ghost use Rattle.micromap_core.specs.Pairs.{AreContents, at, pair, take_out};

use super::Map;

impl<K: Eq + Drop, V: Drop, const N: usize> Map<K, V, N> {
    /// Removes the pair of `key`, and returns its value, or `None` if the key is missing.
    ///
    /// The others keep their order: those behind it move up by one. After `None` the map is unchanged.
    ///
    /// ```
    /// let mut map = Map::from([(1, 'a'), (2, 'b'), (3, 'c')]);
    /// assert_eq!(rt; map.remove(&1), Some('a'));
    /// assert_eq!(rt; map.remove(&1), None);
    /// assert!(rt; map.keys().eq(&[2, 3]));
    /// ```
    #[inline]
    #[tactic(auto, unfolding(crate::specs::Pairs::take_out))]
    pub fn remove(&mut self, key: &K) -> Option<V>
        ensures answer { result ≡ at K.eq self.old key.now }
        ensures pairs { self.new ≡ take_out K.eq self.old key.now }
        ensures content { AreContents K.eq N self.old self.new }
    {
        let (_key, value) = self.take(key)?;
        Some(value)
    }

    /// Removes the pair of `key`, as `remove` does, and returns the stored key and its value, or `None` if the key is
    /// missing.
    #[inline]
    #[tactic(auto, unfolding(crate::specs::Pairs::take_out))]
    pub fn remove_entry(&mut self, key: &K) -> Option<(K, V)>
        ensures answer { result ≡ pair K.eq self.old key.now }
        ensures pairs { self.new ≡ take_out K.eq self.old key.now }
        ensures content { AreContents K.eq N self.old self.new }
    {
        self.take(key)
    }

    /// Removes the first pair, and returns it, or `None` if the map is empty. Each other pair moves up by one.
    ///
    /// ```
    /// let mut map = Map::from([(2, 'b'), (1, 'a')]);
    /// assert_eq!(rt; map.pop_first(), Some((2, 'b')));
    /// assert_eq!(rt; map.pop_first(), Some((1, 'a')));
    /// assert_eq!(rt; map.pop_first(), None);
    /// ```
    #[inline]
    #[tactic(auto, unfolding(crate::specs::Pairs::without_at))]
    pub fn pop_first(&mut self) -> Option<(K, V)>
        ensures answer { result ≡ slice_get self.old 0 }
        ensures pairs { self.new ≡ drop 1 self.old }
        ensures content { AreContents K.eq N self.old self.new }
    {
        match self.len() {
            0 => None,
            _ => Some(self.take_at(0)),
        }
    }

    /// Removes the last pair, and returns it, or `None` if the map is empty. The others stay where they are.
    #[inline]
    pub fn pop_last(&mut self) -> Option<(K, V)>
        ensures answer { result ≡ slice_get self.old (length self.old - 1) }
        ensures pairs { self.new ≡ take (length self.old - 1) self.old }
        ensures content { AreContents K.eq N self.old self.new }
    {
        match self.len() {
            0 => None,
            len => Some(self.take_at(len - 1)),
        }
    }
}
