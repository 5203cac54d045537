//! Comparing two maps, whose capacities may differ.
ghost use Rattle.std.specs.Prelude.{◌≡◌, ◌↔◌, IsTrue, IsFalse, IsNone, IfSome};
ghost use Rattle.std.specs.Bool.{OnTrue};
ghost use Rattle.std.specs.Cmp.{partial_equiv_from_equiv};
ghost use Rattle.std.specs.Option.{option_copied};
ghost use Rattle.micromap_core.specs.Fair.{NoneTellsApart, SameForGood, ToldApart};
ghost use Rattle.micromap_core.specs.Pairs.{IsContent};
ghost use Rattle.micromap_core.specs.Same.{same_at, is_same, Same, first_unequal, first_missing, first_difference};
ghost use Rattle.micromap_core.specs.SameLaws.{is_same_equiv};

use super::Map;

impl<K: Eq, V: Eq, const N: usize> Map<K, V, N> {
    /// Returns `true` if the two maps are the same: each pair of either has an equal key with an equal value in the
    /// other. Neither order nor capacity matters. `==` is `eq_with` within one type.
    ///
    /// The result is `true` exactly if no fair list of keyed calls tells the two maps apart. Keyed calls are `get`,
    /// `get_key_value`, `contains_key`, `insert`, `insert_key_value`, `remove`, `remove_entry`, `len`, `is_empty` and
    /// `clear`. A list is fair if none of its calls inserts a key that neither map has while only one of them has room.
    /// After `true`, every fair list has results that agree, and leaves the two maps the same. A proof that two maps
    /// stay the same cites the clause `outlasts` and the law `fair_where_fits`. For a single change it cites `same_put`,
    /// `same_put_key` or `same_take_out`, which a search finds by the ruleset `comparison`.
    ///
    /// Compares no key if the lengths differ. Else it makes one scan of `other` for each key of this map, up to and
    /// including the first that `other` lacks or has with an unequal value.
    ///
    /// ```
    /// let map = Map::from([(1, 'a'), (2, 'b')]);
    /// assert!(rt; map.eq_with(&Map::from([(2, 'b'), (1, 'a'), (1, 'a')])));
    /// assert!(rt; !map.eq_with(&Map::from([(1, 'a')])));
    /// ```
    pub fn eq_with<const M: usize>(&self, other: &Map<K, V, M>) -> bool
        ensures answer { IsTrue result ↔ Same K.eq V.eq self.now other.now }
        ensures each { IsTrue result ↔ ((k : K) → IsTrue (same_at K.eq V.eq self.now other.now k)) }
        ensures told_apart { IsFalse result ↔ ToldApart K.eq V.eq N M self.now other.now }
        ensures outlasts { OnTrue result (SameForGood K.eq V.eq N M self.now other.now) }
    {
        // Both have the same number of keys, and `other` has each key of this map. So `other` has no other key.
        self.len() == other.len() && self.first_unequal(other).is_none()
    }

    /// Returns a reference to a stored key at which `get` on the two maps doesn't agree, or `None` if the maps are the
    /// same.
    ///
    /// It is the first key of this map that `other` lacks or has with an unequal value, or else the first of `other`
    /// that this map lacks. Each key that is tried costs one scan of the other map.
    ///
    /// ```
    /// let first = Map::from([(1, 10), (2, 20)]);
    /// let second = Map::from([(2, 20), (1, 11)]);
    /// assert_eq!(rt; first.differs_at(&second), Some(&1));
    /// ```
    pub fn differs_at<'a, const M: usize>(&'a self, other: &'a Map<K, V, M>) -> Option<&'a K>
        ensures answer { option_copied result ≡ first_difference K.eq V.eq self.now other.now }
        ensures none { IsNone result ↔ Same K.eq V.eq self.now other.now }
        ensures differs { IfSome result (λ k. IsFalse (same_at K.eq V.eq self.now other.now k.now)) }
    {
        // What is true of the other map, for the contract: `len` ensures it.
        let _known = other.len();
        match self.first_unequal(other) {
            Some(key) => Some(key),
            None => other.first_missing(self),
        }
    }

    // Returns a reference to the first key that `other` lacks or has with an unequal value.
    fn first_unequal<const M: usize>(&self, other: &Map<K, V, M>) -> Option<&K>
        ensures answer { option_copied result ≡ first_unequal K.eq V.eq self.now other.now }
        ensures content { IsContent K.eq N self.now }
    {
        for (key, value) in self {
            if other.get(key) != Some(value) {
                return Some(key);
            }
        }
        None
    }

    // Returns a reference to the first key that `other` lacks.
    fn first_missing<const M: usize>(&self, other: &Map<K, V, M>) -> Option<&K>
        ensures { option_copied result ≡ first_missing K.eq V.eq self.now other.now }
    {
        for key in self.keys() {
            if !other.contains_key(key) {
                return Some(key);
            }
        }
        None
    }
}

/// `==` is `eq_with` within one type.
impl<K: Eq, V: Eq, const N: usize> PartialEq for Map<K, V, N> {
    ghost eq = { is_same K.eq V.eq };

    ghost laws = { partial_equiv_from_equiv (is_same_equiv K.Eq.laws V.Eq.laws) };

    /// Says what `eq_with` says. Since the capacities are the same, the result is `true` exactly if no list whatever of keyed
    /// calls tells the two maps apart.
    fn eq(&self, other: &Map<K, V, N>) -> bool
        ensures answer { result ≡ is_same K.eq V.eq self.now other.now }
        ensures each { IsTrue result ↔ ((k : K) → IsTrue (same_at K.eq V.eq self.now other.now k)) }
        ensures none_tells_apart { IsTrue result ↔ NoneTellsApart K.eq V.eq N self.now other.now }
        ensures outlasts { OnTrue result (SameForGood K.eq V.eq N N self.now other.now) }
    {
        self.eq_with(other)
    }
}

impl<K: Eq, V: Eq, const N: usize> Eq for Map<K, V, N> {
    ghost laws = { is_same_equiv K.Eq.laws V.Eq.laws };
}
