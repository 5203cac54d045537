//! The keyed calls by probe. Each call does what its plain form does at the one stored key that matches, or at a
//! missing key if none matches.
ghost use Rattle.std.specs.Prelude.{◌≡◌, Some, IsTrue, is_some, unwrap_or};
ghost use Rattle.std.specs.Borrow.{sem};
ghost use Rattle.std.specs.Map.{lookup, lookup_entry, remove_entry};
ghost use Rattle.std.specs.Map.Iter.{deref_pair};
ghost use Rattle.std.specs.Option.{option_copied, option_copied_mut, option_map};
ghost use Rattle.micromap_core.specs.Lends.{lends_matched, lends_matched_if};
ghost use Rattle.micromap_core.specs.Pairs.{AreContents, fits_by};

use super::Map;
use crate::probe::Probe;

impl<K: Eq, V, const N: usize> Map<K, V, N> {
    /// Returns a reference to the value of the key that matches, or `None` if none does.
    ///
    /// ```
    /// let mut ages: Map<TextBuf, u8, 4> = Map::new();
    /// ages.checked_insert(TextBuf::new(alloc, "Ada")?, 7);
    /// assert_eq!(rt; ages.get_by(&Text("Ada")), Some(&7));
    /// ```
    #[inline]
    pub fn get_by<P: Probe<K>>(&self, probe: &P) -> Option<&V>
        ensures answer { option_copied result ≡ lookup (P.matches probe.now) self.now }
    {
        let (_, value) = self.find(probe)?;
        Some(value)
    }

    /// Returns a mutable reference to the value of the key that matches, or `None` if none does.
    ///
    /// After the borrow ends the map has what was written, and all else is unchanged.
    #[inline]
    pub fn get_mut_by<P: Probe<K>>(&mut self, probe: &P) -> Option<&mut V>
        ensures* writes_back { sem 𝓛 (lends_matched_if K.row V.row N.row K.eq self.entry
            (P.matches probe.now) result) }
        ensures answer { option_copied_mut result ≡ lookup (P.matches probe.now) self.old }
    {
        match self.index_of(probe) {
            Some(index) => Some(self.value_at_mut(index)),
            None => None,
        }
    }

    /// Returns references to the key that matches and its value, or `None` if none does.
    #[inline]
    pub fn get_key_value_by<P: Probe<K>>(&self, probe: &P) -> Option<(&K, &V)>
        ensures answer { option_map deref_pair result ≡ lookup_entry (P.matches probe.now) self.now }
    {
        self.find(probe)
    }

    /// Returns `true` if a stored key matches.
    #[inline]
    pub fn contains_key_by<P: Probe<K>>(&self, probe: &P) -> bool
        ensures answer { result ≡ is_some (lookup (P.matches probe.now) self.now) }
    {
        self.find(probe).is_some()
    }

    /// Returns `true` if a pair whose key matches can be inserted: a stored key matches, or there is room. No key need
    /// be made to ask. Compares no key if there is room.
    #[inline]
    pub fn fits_by<P: Probe<K>>(&self, probe: &P) -> bool
        ensures answer { result ≡ fits_by (P.matches probe.now) N self.now }
    {
        self.has_room() || self.contains_key_by(probe)
    }

    /// Returns a reference to the value of the key that matches.
    ///
    /// Requires `contains_key_by(probe)`.
    #[inline]
    pub fn index_by<P: Probe<K>>(&self, probe: &P) -> &V
        requires { IsTrue (is_some (lookup (P.matches probe.now) self.now)) }
        ensures answer { lookup (P.matches probe.now) self.now ≡ Some result.now }
    {
        match self.find(probe) {
            Some((_, value)) => value,
            None => unreachable!(),
        }
    }

    /// Returns a mutable reference to the value of the key that matches.
    ///
    /// Requires `contains_key_by(probe)`.
    #[inline]
    pub fn index_mut_by<P: Probe<K>>(&mut self, probe: &P) -> &mut V
        requires { IsTrue (is_some (lookup (P.matches probe.now) self.old)) }
        ensures* writes_back { sem 𝓛 (lends_matched K.row V.row N.row K.eq self.entry
            (P.matches probe.now) result) }
        ensures answer { lookup (P.matches probe.now) self.old ≡ Some result.now }
    {
        match self.index_of(probe) {
            Some(index) => self.value_at_mut(index),
            None => unreachable!(),
        }
    }
}

impl<K: Eq, V: Copy, const N: usize> Map<K, V, N> {
    /// Returns a copy of the value of the key that matches, or `default` if none does.
    #[inline]
    pub fn get_or_by<P: Probe<K>>(&self, probe: &P, default: V) -> V
        ensures answer { result ≡ unwrap_or (lookup (P.matches probe.now) self.now) default }
    {
        self.get_by(probe).copied().unwrap_or(default)
    }
}

impl<K: Eq + Drop, V: Drop, const N: usize> Map<K, V, N> {
    /// Removes the pair of the key that matches, as `remove` does, and returns its value, or `None` if none matches.
    #[inline]
    pub fn remove_by<P: Probe<K>>(&mut self, probe: &P) -> Option<V>
        ensures answer { result ≡ lookup (P.matches probe.now) self.old }
        ensures pairs { self.new ≡ remove_entry (P.matches probe.now) self.old }
        ensures content { AreContents K.eq N self.old self.new }
    {
        let (_key, value) = self.take(probe)?;
        Some(value)
    }

    /// Removes the pair of the key that matches, as `remove` does, and returns the stored key and its value, or `None`
    /// if none matches.
    #[inline]
    pub fn remove_entry_by<P: Probe<K>>(&mut self, probe: &P) -> Option<(K, V)>
        ensures answer { result ≡ lookup_entry (P.matches probe.now) self.old }
        ensures pairs { self.new ≡ remove_entry (P.matches probe.now) self.old }
        ensures content { AreContents K.eq N self.old self.new }
    {
        self.take(probe)
    }
}
