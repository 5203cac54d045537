//! The calls that pass each value to a closure by mutable reference.
//!
//! A contract says what the closure was called on, in which order, and that each value is what its call left. It
//! doesn't say what the closure's captures hold afterwards. Each call requires that the closure may be called so, which
//! the texts of the calls don't repeat.
ghost use Rattle.std.specs.Prelude.{◌≡◌, ◌≤◌, length, map};
ghost use Rattle.std.specs.Map.{keys_of};
ghost use Rattle.std.specs.Map.Calls.{CallableOnEachPair, RetainsPairs};
ghost use Rattle.std.specs.Set.{distinct_count};
ghost use Rattle.micromap_core.specs.Closures.{AcceptsPair, CalledOnPair, IsSublist, MayUpdateAll, MayUpdateDisjoint, UpdatesAll, UpdatesDisjoint};
ghost use Rattle.micromap_core.specs.Pairs.{AreContents, has};

use super::Map;

impl<K: Eq + Drop, V: Drop, const N: usize> Map<K, V, N> {
    /// Keeps the pairs for which `keep` returns `true`, with the values that it left, and drops the others.
    ///
    /// The kept pairs stay in their order. `keep` is called once on each pair, from front to end. Moves each kept pair
    /// at most once.
    ///
    /// ```
    /// let mut map = Map::from([(1, 10), (2, 20), (3, 30)]);
    /// map.retain(|key, value| *key == 1 || *value == 30);
    /// assert!(rt; map.keys().eq(&[1, 3]));
    /// ```
    pub fn retain<F: FnMut(&K, &mut V) -> bool>(&mut self, keep: F)
        requires { CallableOnEachPair (CalledOnPair F.FnMut) (AcceptsPair F.FnMut) keep self.old }
        ensures pairs { RetainsPairs (CalledOnPair F.FnMut) keep self.old self.new }
        ensures order { IsSublist (keys_of self.new) (keys_of self.old) }
        ensures shorter { length self.new ≤ length self.old }
        ensures content { AreContents K.eq N self.old self.new }
    {
        self.pairs.retain(keep);
    }
}

impl<K: Eq, V, const N: usize> Map<K, V, N> {
    /// Calls `update` on each key and its value, from front to end.
    ///
    /// Keys, order and length stay.
    ///
    /// ```
    /// let mut map: Map<u8, u8, 2> = Map::from([(1, 10), (2, 20)]);
    /// map.update_all(|key, value| *value = value.saturating_sub(*key));
    /// assert!(rt; map.values().eq(&[9, 18]));
    /// ```
    pub fn update_all<F: FnMut(&K, &mut V)>(&mut self, update: F)
        requires { MayUpdateAll F.FnMut update self.old }
        ensures pairs { UpdatesAll F.FnMut update self.old self.new }
        ensures same_keys { keys_of self.new ≡ keys_of self.old }
        ensures content { AreContents K.eq N self.old self.new }
    {
        self.pairs.update_all(update);
    }

    /// Calls `update` on the value of each of `keys` that is stored, and returns which of them are stored.
    ///
    /// Requires that `keys` are distinct by `==`, stored or not. `update` gets a key's position in `keys` and its value,
    /// in the order of `keys`. No other value changes. Makes one scan for each key.
    ///
    /// ```
    /// let mut map: Map<u8, usize, 2> = Map::from([(1, 10), (2, 20)]);
    /// let found = map.update_disjoint(&[2, 9], |position, value| *value = position);
    /// assert_eq!(rt; found, [true, false]);
    /// ```
    pub fn update_disjoint<const J: usize, F: FnMut(usize, &mut V)>(
        &mut self,
        keys: &[K; J],
        mut update: F,
    ) -> [bool; J]
        // The number of distinct keys is computed if the keys are written out, so that such a call needs no proof.
        requires distinct { distinct_count K.eq keys.now ≡ J }
        requires callable { MayUpdateDisjoint K.eq F.FnMut update self.old keys.now }
        ensures answer { result ≡ map (has K.eq self.old) keys.now }
        ensures pairs { UpdatesDisjoint K.eq F.FnMut update self.old keys.now self.new }
        ensures same_keys { keys_of self.new ≡ keys_of self.old }
        ensures content { AreContents K.eq N self.old self.new }
    {
        // What is true of the map, for the contract: `len` ensures it.
        let _known = self.len();
        let mut found = [false; J];
        for (position, key) in keys.iter().enumerate() {
            found[position] = match self.get_mut(key) {
                Some(value) => {
                    update(position, value);
                    true
                }
                None => false,
            };
        }
        found
    }
}
