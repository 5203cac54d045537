//! A look-up and a comparison that count the comparisons of keys. `Steps::same` makes each of these.
ghost use Rattle.std.specs.Prelude.{◌≡◌, ◌↔◌, ◌+◌, ◌*◌, ◌^◌, ◌<◌, ◌≤◌, length, IsTrue, IsFalse};
ghost use Rattle.std.specs.Bool.{OnTrue};
ghost use Rattle.std.specs.List.{list_all};
ghost use Rattle.std.specs.Option.{option_copied};
ghost use Rattle.micromap_core.specs.Fair.{SameForGood, ToldApart};
ghost use Rattle.micromap_core.specs.Pairs.{at, index_of};
ghost use Rattle.micromap_core.specs.Same.{Same, has_value};
ghost use Rattle.micromap_core.specs.Steps.{look_up_steps, total_steps, comparison_steps};

use super::Map;
use crate::steps::Steps;

impl<K: Eq, V, const N: usize> Map<K, V, N> {
    /// Returns what `get` returns, and adds the number of keys compared to `steps`.
    ///
    /// Requires `steps.count() + len() < 2^128`. Adds the index of the key plus one, or the length if the key is
    /// missing.
    ///
    /// ```
    /// let map = Map::from([(1, 'a'), (2, 'b'), (3, 'c')]);
    /// let mut steps = Steps::new();
    /// assert_eq!(rt; map.get_counted(&2, &mut steps), Some(&'b'));
    /// assert_eq!(rt; steps.count(), 2);
    /// ```
    pub fn get_counted(&self, key: &K, steps: &mut Steps) -> Option<&V>
        requires { steps.old + length self.now < 2 ^ 128 }
        ensures answer { option_copied result ≡ at K.eq self.now key.now }
        ensures count { steps.new ≡ steps.old + look_up_steps K.eq self.now key.now }
        ensures bounded { steps.new ≤ steps.old + length self.now }
    {
        let index = self.index_counted(key, steps)?;
        Some(self.pair_at(index).1)
    }

    // Returns the index of the key, by a scan of the keys alone.
    fn index_counted(&self, key: &K, steps: &mut Steps) -> Option<usize>
        requires { steps.old + length self.now < 2 ^ 128 }
        ensures index { result ≡ index_of K.eq self.now key.now }
        ensures count { steps.new ≡ steps.old + look_up_steps K.eq self.now key.now }
    {
        let mut index = 0;
        for stored in self.keys() {
            if steps.same(key, stored) {
                return Some(index);
            }
            index += 1;
        }
        None
    }
}

impl<K: Eq, V: Eq, const N: usize> Map<K, V, N> {
    /// Returns what `eq_with` returns, and adds the number of keys compared to `steps`.
    ///
    /// Requires `steps.count() + len() * len() < 2^128`, at any length of `other`. Adds what `get_counted` on `other`
    /// adds for each key that `eq_with` looks up there.
    pub fn eq_with_counted<const M: usize>(&self, other: &Map<K, V, M>, steps: &mut Steps) -> bool
        requires { steps.old + length self.now * length self.now < 2 ^ 128 }
        ensures answer { IsTrue result ↔ Same K.eq V.eq self.now other.now }
        ensures told_apart { IsFalse result ↔ ToldApart K.eq V.eq N M self.now other.now }
        ensures outlasts { OnTrue result (SameForGood K.eq V.eq N M self.now other.now) }
        ensures count { steps.new ≡ steps.old + comparison_steps K.eq V.eq self.now other.now }
        ensures bounded { steps.new ≤ steps.old + length self.now * length self.now }
    {
        self.len() == other.len() && self.is_within_counted(other, steps)
    }

    // Returns `true` if `other` has an equal value at each key. Looks up each key, up to the first at which it hasn't.
    fn is_within_counted<const M: usize>(&self, other: &Map<K, V, M>, steps: &mut Steps) -> bool
        requires { steps.old + length self.now * length other.now < 2 ^ 128 }
        ensures answer { result ≡ list_all (has_value K.eq V.eq other.now) self.now }
        ensures count { steps.new ≡ steps.old + total_steps K.eq V.eq other.now self.now }
    {
        for (key, value) in self {
            if !other.has_value_counted(key, value, steps) {
                return false;
            }
        }
        true
    }

    // Returns `true` if there is an equal value at the key, by one look-up.
    #[tactic(auto, using(crate::proofs::Laws::SameLemmas::found_value))]
    fn has_value_counted(&self, key: &K, value: &V, steps: &mut Steps) -> bool
        requires { steps.old + length self.now < 2 ^ 128 }
        ensures answer { result ≡ has_value K.eq V.eq self.now (key.now, value.now) }
        ensures count { steps.new ≡ steps.old + look_up_steps K.eq self.now key.now }
    {
        self.get_counted(key, steps) == Some(value)
    }
}
