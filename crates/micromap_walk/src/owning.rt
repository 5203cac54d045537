//! The iterators that yield pairs, keys or values by value, from the front.
#![tactic(auto, using(crate::proofs::Opened::opened))]

ghost use Rattle.std.specs.Prelude.{◌≡◌, ◌<◌, ◌+◌, [], ◌∷◌, IfSome, Some, drop, length};
ghost use Rattle.std.specs.Iterator.{UpTo, at_most};
ghost use Rattle.std.specs.Iterator.SizeHint.{IsWithinCount};
ghost use Rattle.std.specs.List.{zip};
ghost use Rattle.std.specs.Map.{keys_of, values_of};
ghost use Rattle.std.specs.Map.Iter.{TakesFirst};
ghost use Rattle.micromap_walk.specs.Filled.{items_of, AreFilled};

use crate::Iter;
use crate::slot::into_item;
use arrayvec::ArrayVec;
use std::iter::FusedIterator;
use std::marker::Model;
use std::mem;

/// An iterator over the pairs of a map by value, from the front. Pairs that aren't taken are dropped with it.
#[derive(Drop)]
pub struct IntoIter<K, V, const N: usize> {
    keys: ArrayVec<Option<K>, N>,
    values: ArrayVec<Option<V>, N>,
    // The number of pairs yielded. As many slots in front are empty. With an index for each column, a caller that is
    // generic in `N` couldn't show that the iterator fits in memory.
    front: usize,
}

/// An iterator over the pairs that a map had, as `Map::drain` returns it.
pub type Drain<K, V, const N: usize> = IntoIter<K, V, N>;

impl<K, V, const N: usize> Model for IntoIter<K, V, N> {
    ghost use Rattle.std.specs.Prelude.{List, drop};
    ghost use Rattle.std.specs.List.{zip};
    ghost use Rattle.micromap_walk.specs.Filled.{items_of, AreLeft};

    ghost Value = { List (K × V) };

    ghost view = { λ walk. zip (items_of (drop walk.front walk.keys.items)) (items_of (drop walk.front walk.values.items)) };

    ghost invariant = { λ walk. AreLeft walk.front walk.keys.items walk.values.items };
}

impl<K, V, const N: usize> IntoIter<K, V, N> {
    /// Creates an iterator over the pairs in `keys` and `values`. No slot may be empty, and the two columns must have
    /// the same length.
    #[inline]
    pub(crate) fn over(keys: ArrayVec<Option<K>, N>, values: ArrayVec<Option<V>, N>) -> Self
        requires keys { AreFilled keys.items }
        requires values { AreFilled values.items }
        requires equal { length keys.items ≡ length values.items }
        ensures { result ≡ zip (items_of keys.items) (items_of values.items) }
    {
        IntoIter {
            keys,
            values,
            front: 0,
        }
    }

    /// Creates an iterator over references to the pairs left.
    #[inline]
    pub(crate) fn as_iter(&self) -> Iter<'_, K, V>
        ensures { result ≡ self.now }
    {
        let (keys, values) = (self.keys.as_slice(), self.values.as_slice());
        Iter::over(&keys[self.front..], &values[self.front..])
    }
}

// Takes the item out of the slot at `index`, which is empty from then on.
#[inline]
fn take_slot<X: Drop, const N: usize>(slots: &mut ArrayVec<Option<X>, N>, index: usize) -> X
    requires filled { AreFilled (drop index slots.old.items) }
    requires within { index < length slots.old.items }
    ensures items { items_of (drop index slots.old.items)
        ≡ result ∷ items_of (drop (index + 1) slots.new.items) }
    ensures filled { AreFilled (drop (index + 1) slots.new.items) }
    ensures len { length slots.new.items ≡ length slots.old.items }
{
    into_item(mem::take(&mut slots.as_mut_slice()[index]))
}

impl<K: Drop, V: Drop, const N: usize> Iterator for IntoIter<K, V, N> {
    type Item = (K, V);

    ghost next_gives = { TakesFirst (λ p. p) };

    ghost remaining = { λ left. at_most (length left) };

    #[inline]
    fn next(&mut self) -> Option<(K, V)> {
        let index = self.front;
        if index == self.keys.len() {
            return None;
        }
        self.front = index + 1;
        Some((
            take_slot(&mut self.keys, index),
            take_slot(&mut self.values, index),
        ))
    }

    #[inline]
    fn size_hint(&self) -> (usize, Option<usize>)
        ensures lower { IsWithinCount result.0 (at_most (length self.now)) }
        ensures upper { IfSome result.1 (UpTo (at_most (length self.now))) }
        ensures exact { result ≡ (length self.now, Some (length self.now)) }
    {
        let len = self.len();
        (len, Some(len))
    }
}

impl<K: Drop, V: Drop, const N: usize> FusedIterator for IntoIter<K, V, N> {}

impl<K: Drop, V: Drop, const N: usize> ExactSizeIterator for IntoIter<K, V, N> {
    #[inline]
    fn len(&self) -> usize {
        self.keys.len() - self.front
    }
}

impl<K, V, const N: usize> Default for IntoIter<K, V, N> {
    ghost is_default = { λ left. left ≡ [] };

    fn default() -> Self {
        IntoIter::over(ArrayVec::new(), ArrayVec::new())
    }
}

/// An iterator over the keys of a map by value, from the front. Pairs that aren't taken are dropped with it.
#[derive(Drop)]
pub struct IntoKeys<K, V, const N: usize> {
    pub(crate) pairs: IntoIter<K, V, N>,
}

impl<K, V, const N: usize> Model for IntoKeys<K, V, N> {
    ghost use Rattle.std.specs.Prelude.{List};
    ghost use Rattle.std.specs.Map.{keys_of};

    ghost Value = { List K };

    ghost view = { λ walk. keys_of walk.pairs };
}

impl<K, V, const N: usize> IntoKeys<K, V, N> {
    /// Creates an iterator over the keys of the pairs that `pairs` yields.
    #[inline]
    pub(crate) fn over(pairs: IntoIter<K, V, N>) -> Self
        ensures { result ≡ keys_of pairs }
    {
        IntoKeys { pairs }
    }
}

impl<K: Drop, V: Drop, const N: usize> Iterator for IntoKeys<K, V, N> {
    type Item = K;

    ghost next_gives = { TakesFirst (λ p. p) };

    ghost remaining = { λ left. at_most (length left) };

    #[inline]
    fn next(&mut self) -> Option<K> {
        let (key, _value) = self.pairs.next()?;
        Some(key)
    }

    #[inline]
    fn size_hint(&self) -> (usize, Option<usize>)
        ensures lower { IsWithinCount result.0 (at_most (length self.now)) }
        ensures upper { IfSome result.1 (UpTo (at_most (length self.now))) }
        ensures exact { result ≡ (length self.now, Some (length self.now)) }
    {
        self.pairs.size_hint()
    }
}

impl<K: Drop, V: Drop, const N: usize> FusedIterator for IntoKeys<K, V, N> {}

impl<K: Drop, V: Drop, const N: usize> ExactSizeIterator for IntoKeys<K, V, N> {
    #[inline]
    fn len(&self) -> usize {
        self.pairs.len()
    }
}

impl<K, V, const N: usize> Default for IntoKeys<K, V, N> {
    ghost is_default = { λ left. left ≡ [] };

    fn default() -> Self {
        IntoKeys::over(IntoIter::default())
    }
}

/// An iterator over the values of a map by value, from the front. Pairs that aren't taken are dropped with it.
#[derive(Drop)]
pub struct IntoValues<K, V, const N: usize> {
    pub(crate) pairs: IntoIter<K, V, N>,
}

impl<K, V, const N: usize> Model for IntoValues<K, V, N> {
    ghost use Rattle.std.specs.Prelude.{List};
    ghost use Rattle.std.specs.Map.{values_of};

    ghost Value = { List V };

    ghost view = { λ walk. values_of walk.pairs };
}

impl<K, V, const N: usize> IntoValues<K, V, N> {
    /// Creates an iterator over the values of the pairs that `pairs` yields.
    #[inline]
    pub(crate) fn over(pairs: IntoIter<K, V, N>) -> Self
        ensures { result ≡ values_of pairs }
    {
        IntoValues { pairs }
    }
}

impl<K: Drop, V: Drop, const N: usize> Iterator for IntoValues<K, V, N> {
    type Item = V;

    ghost next_gives = { TakesFirst (λ p. p) };

    ghost remaining = { λ left. at_most (length left) };

    #[inline]
    fn next(&mut self) -> Option<V> {
        let (_key, value) = self.pairs.next()?;
        Some(value)
    }

    #[inline]
    fn size_hint(&self) -> (usize, Option<usize>)
        ensures lower { IsWithinCount result.0 (at_most (length self.now)) }
        ensures upper { IfSome result.1 (UpTo (at_most (length self.now))) }
        ensures exact { result ≡ (length self.now, Some (length self.now)) }
    {
        self.pairs.size_hint()
    }
}

impl<K: Drop, V: Drop, const N: usize> FusedIterator for IntoValues<K, V, N> {}

impl<K: Drop, V: Drop, const N: usize> ExactSizeIterator for IntoValues<K, V, N> {
    #[inline]
    fn len(&self) -> usize {
        self.pairs.len()
    }
}

impl<K, V, const N: usize> Default for IntoValues<K, V, N> {
    ghost is_default = { λ left. left ≡ [] };

    fn default() -> Self {
        IntoValues::over(IntoIter::default())
    }
}
