//! The keys and the values of a map, each in slots of their own. A pair is a key and the value at the same index.
#![tactic(auto, using(crate::proofs::Opened::opened_columns))]

ghost use Rattle.std.specs.Prelude.{◌≡◌, ◌-◌, ◌<◌, ◌≤◌, [], ◌∷◌, ◌++◌, length, take, Some, slice_get, slice_set};
ghost use Rattle.std.specs.Borrow.{sem};
ghost use Rattle.std.specs.List.{remove, swap, zip, AllZip};
ghost use Rattle.std.specs.Map.{keys_of, values_of};
ghost use Rattle.std.specs.Map.Calls.{CallableOnEachPair, RetainsPairs};
ghost use Rattle.std.specs.Option.{IfSome, option_map};
ghost use Rattle.micromap_walk.specs.Closures.{AcceptsPair, CalledOnPair, MayUpdateAll, UpdatesAll, VisitsAt};
ghost use Rattle.micromap_walk.specs.Lends.{lends_value_in};

use super::Slots;
use crate::{IntoIter, IntoKeys, IntoValues, Iter, Keys, Values, hint};
use arrayvec::ArrayVec;
use std::marker::Model;
use std::mem;

// The most bytes of a column of keys whose scan is faster if it is unrolled: 2 slots of `u64`, or 8 of `u16`.
const MOST_UNROLLED: usize = 40;
// From this number of slots on, small keys are compared faster all at once than one after the other. The comment of `Map`
// names it too.
const MANY_KEYS: usize = 32;
// The most bytes of a slot with a small key. The comment of `Map` names it too.
const SMALL_SLOT: usize = 4;

/// A list of at most `N` pairs. A contract sees it as that list, from front to end.
#[derive(Drop)]
pub struct Columns<K, V, const N: usize> {
    keys: Slots<K, N>,
    values: Slots<V, N>,
}

impl<K, V, const N: usize> Model for Columns<K, V, N> {
    ghost use Rattle.std.specs.Prelude.{List, ◌≡◌, length};
    ghost use Rattle.std.specs.List.{zip};

    ghost Value = { List (K × V) };

    ghost view = { λ c. zip c.keys c.values };

    ghost invariant = { λ c. length c.keys ≡ length c.values };
}

impl<K, V, const N: usize> Columns<K, V, N> {
    /// Creates an empty list. It is one literal, since the compiler makes faster code of it than of a call for each column.
    #[inline]
    pub fn new() -> Self
        ensures { result ≡ [] }
    {
        Columns {
            keys: Slots {
                slots: ArrayVec::new(),
            },
            values: Slots {
                slots: ArrayVec::new(),
            },
        }
    }

    /// Returns the number of pairs.
    #[inline]
    pub fn len(&self) -> usize
        ensures answer { result ≡ length self.now }
        ensures bounded { length self.now ≤ N }
    {
        self.keys.len()
    }

    /// Returns `true` if there are slots for many keys, and each is small, so that comparing all keys at once is faster
    /// than comparing one after the other.
    #[inline]
    pub fn has_many_small_keys(&self) -> bool {
        // The bytes of the length vanish in the division.
        MANY_KEYS <= N && mem::size_of_val(&self.keys) / N <= SMALL_SLOT
    }

    /// Returns an iterator over the pairs by reference, from the front.
    #[inline]
    pub fn iter(&self) -> Iter<'_, K, V>
        ensures { result ≡ self.now }
    {
        let len = self.len();
        hint::equal(self.values.len(), len);
        hint::at_most(len, N);
        Iter::over(self.keys.as_slice(), self.values.as_slice())
    }

    /// Returns an iterator over the keys by reference, from the front.
    #[inline]
    pub fn keys(&self) -> Keys<'_, K, V>
        ensures { result ≡ keys_of self.now }
    {
        if mem::size_of_val(&self.keys) <= MOST_UNROLLED {
            hint::at_most(self.keys.len(), N);
        }
        Keys::over(self.keys.as_slice())
    }

    /// Returns an iterator over the values by reference, from the front.
    #[inline]
    pub fn values(&self) -> Values<'_, K, V>
        ensures { result ≡ values_of self.now }
    {
        Values::over(self.values.as_slice())
    }

    /// Returns an iterator over the pairs by value, from the front.
    #[inline]
    pub fn into_iter(self) -> IntoIter<K, V, N>
        ensures { result ≡ self }
    {
        let Columns { keys, values } = self;
        IntoIter::over(keys.into_array_vec(), values.into_array_vec())
    }

    /// Returns an iterator over the keys by value, from the front.
    #[inline]
    pub fn into_keys(self) -> IntoKeys<K, V, N>
        ensures { result ≡ keys_of self }
    {
        IntoKeys::over(self.into_iter())
    }

    /// Returns an iterator over the values by value, from the front.
    #[inline]
    pub fn into_values(self) -> IntoValues<K, V, N>
        ensures { result ≡ values_of self }
    {
        IntoValues::over(self.into_iter())
    }

    /// Returns references to the key and the value at `index`.
    #[inline]
    pub fn pair_at(&self, index: usize) -> (&K, &V)
        requires { index < length self.now }
        ensures { slice_get self.now index ≡ Some (result.0.now, result.1.now) }
    {
        (self.keys.item_at(index), self.values.item_at(index))
    }

    /// Returns a mutable reference to the value at `index`.
    #[inline]
    pub fn value_at_mut(&mut self, index: usize) -> &mut V
        requires { index < length self.old }
        ensures* writes_back { sem 𝓛 (lends_value_in K.row V.row N.row self.entry index result) }
        ensures value { option_map (λ p. p.1) (slice_get self.old index) ≡ Some result.now }
    {
        hint::below(index, self.values.len());
        self.values.item_at_mut(index)
    }

    // Calls `visit` on the pair at `index`.
    #[inline]
    fn visit_at<R, F: FnMut(&K, &mut V) -> R>(&mut self, index: usize, visit: &mut F) -> R
        requires within { index < length self.old }
        requires callable { IfSome (slice_get self.old index) (λ p. AcceptsPair F.FnMut visit.old p.0 p.1) }
        ensures { VisitsAt F.FnMut visit.old self.old index result visit.new self.new }
    {
        hint::below(index, self.values.len());
        visit(self.keys.item_at(index), self.values.item_at_mut(index))
    }

    /// Calls `update` on each key and its value, from front to end.
    #[inline]
    pub fn update_all<F: FnMut(&K, &mut V)>(&mut self, mut update: F)
        requires { MayUpdateAll F.FnMut update self.old }
        ensures { UpdatesAll F.FnMut update self.old self.new }
    {
        for index in 0..self.len() {
            self.visit_at(index, &mut update);
        }
    }

    /// Replaces the pair at `index`, and returns the old one.
    #[inline]
    pub fn replace_at(&mut self, index: usize, key: K, value: V) -> (K, V)
        requires { index < length self.old }
        ensures old { slice_get self.old index ≡ Some result }
        ensures pairs { self.new ≡ slice_set self.old index (key, value) }
    {
        hint::below(index, self.values.len());
        (
            mem::replace(self.keys.item_at_mut(index), key),
            mem::replace(self.values.item_at_mut(index), value),
        )
    }

    // Swaps two pairs.
    #[inline]
    fn swap(&mut self, a: usize, b: usize)
        requires a_in_bounds { a < length self.old }
        requires b_in_bounds { b < length self.old }
        ensures { self.new ≡ swap self.old a b }
    {
        self.keys.swap(a, b);
        self.values.swap(a, b);
    }
}

impl<K: Copy, V: Copy, const N: usize> Columns<K, V, N> {
    /// Returns the same pairs in columns of their own. Copies each column of a full list at once, else pair after pair.
    ///
    /// A slice whose length isn't known would be copied after a test whether it overlaps. Such a test takes the address of
    /// the copy, which the compiler could then no longer build in its place.
    #[inline]
    pub fn copied(&self) -> Self
        ensures { result ≡ self.now }
    {
        let len = self.len();
        hint::equal(self.values.len(), len);
        if len == N {
            return Columns {
                keys: self.keys.copied_full(),
                values: self.values.copied_full(),
            };
        }
        let mut copy = Columns::new();
        for index in 0..len {
            let (key, value) = self.pair_at(index);
            copy.push_at(index, *key, *value);
        }
        copy
    }
}

impl<K: Drop, V: Drop, const N: usize> Columns<K, V, N> {
    /// Returns the same pairs in `M` slots of each column. Moves each once.
    #[inline]
    pub fn into_capacity<const M: usize>(self) -> Columns<K, V, M>
        requires { length self ≤ M }
        ensures { result ≡ self }
    {
        let Columns { keys, values } = self;
        Columns {
            keys: keys.into_capacity(),
            values: values.into_capacity(),
        }
    }

    /// Returns the pairs with what each key is converted into, in the same order.
    #[inline]
    pub fn converted_keys<L: From<K> + Drop>(self) -> Columns<L, V, N>
        ensures keys { AllZip L.from_gives (keys_of self) (keys_of result) }
        ensures values { values_of result ≡ values_of self }
    {
        let Columns { keys, values } = self;
        Columns {
            keys: keys.converted(),
            values,
        }
    }

    /// Inserts a pair last.
    #[inline]
    pub fn push(&mut self, key: K, value: V)
        requires { length self.old < N }
        ensures { self.new ≡ self.old ++ (key, value) ∷ [] }
    {
        let len = self.len();
        self.keys.push(key);
        hint::equal(self.values.len(), len);
        self.values.push(value);
    }

    /// Inserts a pair last, at `index`, which must be the number of pairs. So the compiler need not read that number.
    #[inline]
    pub fn push_at(&mut self, index: usize, key: K, value: V)
        requires last { index ≡ length self.old }
        requires room { length self.old < N }
        ensures { self.new ≡ self.old ++ (key, value) ∷ [] }
    {
        hint::equal(self.len(), index);
        self.push(key, value);
    }

    /// Removes and returns the pair at `index`. Those behind it move up by one.
    #[inline]
    pub fn remove(&mut self, index: usize) -> (K, V)
        requires { index < length self.old }
        ensures answer { slice_get self.old index ≡ Some result }
        ensures pairs { self.new ≡ remove self.old index }
    {
        let len = self.len();
        let key = self.keys.remove(index);
        hint::equal(self.values.len(), len);
        let value = self.values.remove(index);
        (key, value)
    }

    // Removes and drops the last pair.
    #[inline]
    fn drop_last(&mut self)
        requires { 0 < length self.old }
        ensures { self.new ≡ take (length self.old - 1) self.old }
    {
        hint::equal(self.values.len(), self.len());
        self.keys.drop_last();
        self.values.drop_last();
    }

    // Keeps the first `len` pairs, and drops the others, from the end.
    #[inline]
    fn truncate(&mut self, len: usize)
        ensures { self.new ≡ take len self.old }
    {
        while self.len() > len {
            self.drop_last();
        }
    }

    /// Keeps the pairs for which `keep` returns `true`, in their order, and drops the others.
    ///
    /// Each kept pair is swapped with the first one that isn't kept, if there is one. Those that aren't kept are dropped at
    /// the end. So no slot is ever empty.
    #[inline]
    pub fn retain<F: FnMut(&K, &mut V) -> bool>(&mut self, mut keep: F)
        requires { CallableOnEachPair (CalledOnPair F.FnMut) (AcceptsPair F.FnMut) keep self.old }
        ensures { RetainsPairs (CalledOnPair F.FnMut) keep self.old self.new }
    {
        let mut kept = 0;
        for index in 0..self.len() {
            if self.visit_at(index, &mut keep) {
                self.swap(kept, index);
                kept += 1;
            }
        }
        self.truncate(kept);
    }

    /// Removes and drops every pair.
    #[inline]
    pub fn clear(&mut self)
        ensures { self.new ≡ [] }
    {
        self.keys.clear();
        self.values.clear();
    }
}
