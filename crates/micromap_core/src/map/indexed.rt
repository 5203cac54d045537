//! The pairs by their index, and the scans of the calls by a key or a probe.
#![tactic(auto, using(crate::proofs::Opened::opened_map))]

ghost use Rattle.std.specs.Prelude.{◌≡◌, ◌∷◌, [], ◌++◌, ◌<◌, length, Some, None, IfNone, slice_get};
ghost use Rattle.std.specs.Borrow.{sem};
ghost use Rattle.std.specs.List.{list_any};
ghost use Rattle.std.specs.Map.{keys_of, lookup, lookup_entry, remove_entry};
ghost use Rattle.std.specs.Map.Iter.{deref_pair};
ghost use Rattle.std.specs.Option.{IfSome, option_map};
ghost use Rattle.micromap_core.specs.Found.{FoundAt, NotFound};
ghost use Rattle.micromap_core.specs.Lends.{lends_value_at};
ghost use Rattle.micromap_core.specs.Pairs.{AreContents, IsContent, first_index, has_room, index_of, pair, put, put_key, with_value_at, without_at};

use super::Map;
use crate::probe::Probe;
use std::mem;

impl<K: Eq, V, const N: usize> Map<K, V, N> {
    /// Returns the index of the first pair whose key the probe matches, and ensures what follows from it. This is the
    /// scan of every call by a key but the counted ones, and of every call that changes a map.
    ///
    /// Many small keys are first compared all at once. Only if one matches are they compared in turn.
    #[inline]
    pub(crate) fn index_of<P: Probe<K>>(&self, probe: &P) -> Option<usize>
        ensures answer { result ≡ first_index (P.matches probe.now) self.now }
        ensures found { IfSome result (FoundAt (P.matches probe.now) self.now) }
        ensures missing { IfNone result (NotFound (P.matches probe.now) self.now) }
        ensures content { IsContent K.eq N self.now }
    {
        if self.pairs.has_many_small_keys() && !self.has_match(probe) {
            return None;
        }
        let mut index = 0;
        for key in self.pairs.keys() {
            if probe.matches(key) {
                return Some(index);
            }
            index += 1;
        }
        None
    }

    // Returns `true` if the probe matches a key. Compares every key: without an exit the compiler makes vector code of the
    // loop.
    #[inline]
    fn has_match<P: Probe<K>>(&self, probe: &P) -> bool
        ensures answer { result ≡ list_any (P.matches probe.now) (keys_of self.now) }
        ensures content { IsContent K.eq N self.now }
    {
        let mut found = false;
        for key in self.pairs.keys() {
            found |= probe.matches(key);
        }
        found
    }

    /// Returns the first pair whose key the probe matches. This is the scan of every call by probe that only reads. It
    /// has no count on the way, which costs less for keys that are texts: the number of keys left gives the index.
    #[inline]
    pub(crate) fn find<P: Probe<K>>(&self, probe: &P) -> Option<(&K, &V)>
        ensures pair { option_map deref_pair result ≡ lookup_entry (P.matches probe.now) self.now }
        ensures value { option_map (λ p. p.1.now) result ≡ lookup (P.matches probe.now) self.now }
        ensures content { IsContent K.eq N self.now }
    {
        let mut keys = self.pairs.keys();
        while let Some(key) = keys.next() {
            if probe.matches(key) {
                let index = self.len() - keys.len() - 1;
                return Some(self.pair_at(index));
            }
        }
        None
    }

    /// Returns `true` if there is room for one more pair.
    #[inline]
    pub(crate) fn has_room(&self) -> bool
        ensures answer { result ≡ has_room N self.now }
        ensures content { IsContent K.eq N self.now }
    {
        self.len() < N
    }

    /// Returns the pair at `index`.
    #[inline]
    pub(crate) fn pair_at(&self, index: usize) -> (&K, &V)
        requires { index < length self.now }
        ensures { slice_get self.now index ≡ Some (result.0.now, result.1.now) }
    {
        self.pairs.pair_at(index)
    }

    /// Returns a mutable reference to the value at `index`.
    #[inline]
    pub(crate) fn value_at_mut(&mut self, index: usize) -> &mut V
        requires { index < length self.old }
        ensures* writes_back { sem 𝓛 (lends_value_at K.row V.row N.row K.eq self.entry index result) }
        ensures value { option_map (λ p. p.1) (slice_get self.old index) ≡ Some result.now }
        ensures content { (v : V) → IsContent K.eq N (with_value_at self.old index v) }
    {
        self.pairs.value_at_mut(index)
    }

    /// Sets the value at `index`, and returns the old value.
    #[inline]
    pub(crate) fn replace_value_at(&mut self, index: usize, value: V) -> V
        requires { index < length self.old }
        ensures old { option_map (λ p. p.1) (slice_get self.old index) ≡ Some result }
        ensures pairs { self.new ≡ with_value_at self.old index value }
        ensures content { IsContent K.eq N self.new }
    {
        mem::replace(self.value_at_mut(index), value)
    }

    /// Replaces the key at `index` and its value, and returns the old pair.
    #[inline]
    pub(crate) fn put_key_at(&mut self, index: usize, key: K, value: V) -> (K, V)
        requires { index_of K.eq self.old key ≡ Some index }
        ensures old { pair K.eq self.old key ≡ Some result }
        ensures pairs { self.new ≡ put_key K.eq self.old key value }
        ensures content { IsContent K.eq N self.new }
    {
        self.pairs.replace_at(index, key, value)
    }
}

impl<K: Eq + Drop, V: Drop, const N: usize> Map<K, V, N> {
    /// Inserts a pair with a new key last.
    #[inline]
    pub(crate) fn push_pair(&mut self, key: K, value: V)
        requires new { index_of K.eq self.old key ≡ None }
        requires room { length self.old < N }
        ensures pairs { self.new ≡ self.old ++ (key, value) ∷ [] }
        ensures put { self.new ≡ put K.eq self.old key value }
        ensures put_key { self.new ≡ put_key K.eq self.old key value }
        ensures content { IsContent K.eq N self.new }
    {
        self.pairs.push(key, value);
    }

    /// Removes and returns the first pair whose key the probe matches. Those behind it move up by one.
    #[inline]
    pub(crate) fn take<P: Probe<K>>(&mut self, probe: &P) -> Option<(K, V)>
        ensures pair { result ≡ lookup_entry (P.matches probe.now) self.old }
        ensures value { option_map (λ p. p.1) result ≡ lookup (P.matches probe.now) self.old }
        ensures pairs { self.new ≡ remove_entry (P.matches probe.now) self.old }
        ensures content { AreContents K.eq N self.old self.new }
    {
        let index = self.index_of(probe)?;
        Some(self.take_at(index))
    }

    /// Removes and returns the pair at `index`. Those behind it move up by one.
    #[inline]
    pub(crate) fn take_at(&mut self, index: usize) -> (K, V)
        requires { index < length self.old }
        ensures answer { slice_get self.old index ≡ Some result }
        ensures pairs { self.new ≡ without_at self.old index }
        ensures content { IsContent K.eq N self.new }
    {
        self.pairs.remove(index)
    }
}
