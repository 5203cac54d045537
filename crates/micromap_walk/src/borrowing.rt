//! The iterators that borrow pairs, keys or values, from the front.
#![tactic(auto, using(crate::proofs::Opened::opened))]

ghost use Rattle.std.specs.Prelude.{◌≡◌, ⊤, IfSome, Some, [], length};
ghost use Rattle.std.specs.Iterator.{UpTo, at_most};
ghost use Rattle.std.specs.Iterator.SizeHint.{IsWithinCount};
ghost use Rattle.std.specs.List.{zip};
ghost use Rattle.std.specs.Map.Iter.{TakesFirst, deref, deref_pair};
ghost use Rattle.micromap_walk.specs.Filled.{items_of, AreFilled};

use crate::slot::{into_item, item_of};
use std::alloc::AllocError;
use std::iter::FusedIterator;
use std::marker::{Model, PhantomData};
use std::slice;

/// An iterator over references to the items of one column, from the front. Each public iterator here has one or two of
/// these.
#[derive(Drop)]
pub(crate) struct ColumnIter<'a, X> {
    slots: slice::Iter<'a, Option<X>>,
}

impl<'a, X> Model for ColumnIter<'a, X> {
    ghost use Rattle.std.specs.Prelude.{List};
    ghost use Rattle.std.specs.Slice.Iter.{iter_rest};
    ghost use Rattle.micromap_walk.specs.Filled.{items_of, AreFilled};

    ghost Value = { List X };

    ghost view = { λ walk. items_of (iter_rest walk.slots) };

    ghost invariant = { λ walk. AreFilled (iter_rest walk.slots) };
}

impl<'a, X> ColumnIter<'a, X> {
    /// Creates an iterator over the items in `slots`. No slot may be empty.
    #[inline]
    pub(crate) fn over(slots: &'a [Option<X>]) -> Self
        requires { AreFilled slots.now }
        ensures { result ≡ items_of slots.now }
    {
        ColumnIter {
            slots: slots.iter(),
        }
    }

    /// Returns the number of items left.
    #[inline]
    pub(crate) fn len(&self) -> usize
        ensures { result ≡ length self.now }
    {
        self.slots.len()
    }

    /// Creates an iterator over the items left.
    #[inline]
    pub(crate) fn as_iter(&self) -> ColumnIter<'_, X>
        ensures { result ≡ self.now }
    {
        ColumnIter::over(self.slots.as_slice())
    }
}

impl<'a, X> Clone for ColumnIter<'a, X> {
    ghost is_clone = { λ walk new. new ≡ walk };

    ghost is_infallible = { λ _. ⊤ };

    #[inline]
    fn clone(&self) -> Result<Self, AllocError> {
        Ok(ColumnIter {
            slots: self.slots.clone()?,
        })
    }
}

impl<'a, X> Iterator for ColumnIter<'a, X> {
    type Item = &'a X;

    ghost next_gives = { TakesFirst deref };

    ghost remaining = { λ left. at_most (length left) };

    #[inline]
    fn next(&mut self) -> Option<&'a X> {
        let slot = self.slots.next()?;
        Some(item_of(slot))
    }

    #[inline]
    fn size_hint(&self) -> (usize, Option<usize>)
        ensures lower { IsWithinCount result.0 (at_most (length self.now)) }
        ensures upper { IfSome result.1 (UpTo (at_most (length self.now))) }
        ensures exact { result ≡ (length self.now, Some (length self.now)) }
    {
        let left = self.len();
        (left, Some(left))
    }
}

/// An iterator over the pairs of a map as `(&K, &V)`, from the front.
#[derive(Drop)]
pub struct Iter<'a, K, V> {
    pub(crate) keys: ColumnIter<'a, K>,
    pub(crate) values: ColumnIter<'a, V>,
}

impl<'a, K, V> Model for Iter<'a, K, V> {
    ghost use Rattle.std.specs.Prelude.{List, ◌≡◌, length};
    ghost use Rattle.std.specs.List.{zip};

    ghost Value = { List (K × V) };

    ghost view = { λ walk. zip walk.keys walk.values };

    ghost invariant = { λ walk. length walk.keys ≡ length walk.values };
}

impl<'a, K, V> Iter<'a, K, V> {
    /// Creates an iterator over the pairs in `keys` and `values`. No slot may be empty, and the two slices must have
    /// the same length.
    #[inline]
    pub(crate) fn over(keys: &'a [Option<K>], values: &'a [Option<V>]) -> Self
        requires keys { AreFilled keys.now }
        requires values { AreFilled values.now }
        requires equal { length keys.now ≡ length values.now }
        ensures { result ≡ zip (items_of keys.now) (items_of values.now) }
    {
        Iter {
            keys: ColumnIter::over(keys),
            values: ColumnIter::over(values),
        }
    }

    /// Creates an iterator over the pairs left.
    #[inline]
    pub(crate) fn as_iter(&self) -> Iter<'_, K, V>
        ensures { result ≡ self.now }
    {
        Iter {
            keys: self.keys.as_iter(),
            values: self.values.as_iter(),
        }
    }
}

impl<'a, K, V> Iterator for Iter<'a, K, V> {
    type Item = (&'a K, &'a V);

    ghost next_gives = { TakesFirst deref_pair };

    ghost remaining = { λ left. at_most (length left) };

    #[inline]
    fn next(&mut self) -> Option<(&'a K, &'a V)> {
        let key = self.keys.next()?;
        let value = into_item(self.values.next());
        Some((key, value))
    }

    #[inline]
    fn size_hint(&self) -> (usize, Option<usize>)
        ensures lower { IsWithinCount result.0 (at_most (length self.now)) }
        ensures upper { IfSome result.1 (UpTo (at_most (length self.now))) }
        ensures exact { result ≡ (length self.now, Some (length self.now)) }
    {
        let len = self.len();
        (len, Some(len))
    }
}

impl<'a, K, V> FusedIterator for Iter<'a, K, V> {}

impl<'a, K, V> ExactSizeIterator for Iter<'a, K, V> {
    #[inline]
    fn len(&self) -> usize {
        self.keys.len()
    }
}

/// A clone has the same items left. The result is always `Ok`.
impl<'a, K, V> Clone for Iter<'a, K, V> {
    ghost is_clone = { λ walk new. new ≡ walk };

    ghost is_infallible = { λ _. ⊤ };

    #[inline]
    fn clone(&self) -> Result<Self, AllocError> {
        Ok(Iter {
            keys: self.keys.clone()?,
            values: self.values.clone()?,
        })
    }
}

impl<'a, K, V> Default for Iter<'a, K, V> {
    ghost is_default = { λ left. left ≡ [] };

    fn default() -> Self {
        Iter::over(&[], &[])
    }
}

/// An iterator over references to the keys of a map, from the front.
#[derive(Drop)]
pub struct Keys<'a, K, V> {
    pub(crate) keys: ColumnIter<'a, K>,
    // With a `PhantomData<&'a V>` the check doesn't cover a closure that compares two of these.
    _values: PhantomData<V>,
}

impl<'a, K, V> Model for Keys<'a, K, V> {
    ghost use Rattle.std.specs.Prelude.{List};

    ghost Value = { List K };

    ghost view = { λ walk. walk.keys };
}

impl<'a, K, V> Keys<'a, K, V> {
    /// Creates an iterator over the keys in `keys`. No slot may be empty.
    #[inline]
    pub(crate) fn over(keys: &'a [Option<K>]) -> Self
        requires { AreFilled keys.now }
        ensures { result ≡ items_of keys.now }
    {
        Keys {
            keys: ColumnIter::over(keys),
            _values: PhantomData,
        }
    }
}

impl<'a, K, V> Iterator for Keys<'a, K, V> {
    type Item = &'a K;

    ghost next_gives = { TakesFirst deref };

    ghost remaining = { λ left. at_most (length left) };

    #[inline]
    fn next(&mut self) -> Option<&'a K> {
        self.keys.next()
    }

    #[inline]
    fn size_hint(&self) -> (usize, Option<usize>)
        ensures lower { IsWithinCount result.0 (at_most (length self.now)) }
        ensures upper { IfSome result.1 (UpTo (at_most (length self.now))) }
        ensures exact { result ≡ (length self.now, Some (length self.now)) }
    {
        self.keys.size_hint()
    }
}

impl<'a, K, V> FusedIterator for Keys<'a, K, V> {}

impl<'a, K, V> ExactSizeIterator for Keys<'a, K, V> {
    #[inline]
    fn len(&self) -> usize {
        self.keys.len()
    }
}

/// A clone has the same items left. The result is always `Ok`.
impl<'a, K, V> Clone for Keys<'a, K, V> {
    ghost is_clone = { λ walk new. new ≡ walk };

    ghost is_infallible = { λ _. ⊤ };

    #[inline]
    fn clone(&self) -> Result<Self, AllocError> {
        Ok(Keys {
            keys: self.keys.clone()?,
            _values: PhantomData,
        })
    }
}

impl<'a, K, V> Default for Keys<'a, K, V> {
    ghost is_default = { λ left. left ≡ [] };

    fn default() -> Self {
        Keys::over(&[])
    }
}

/// An iterator over references to the values of a map, from the front.
#[derive(Drop)]
pub struct Values<'a, K, V> {
    pub(crate) values: ColumnIter<'a, V>,
    _keys: PhantomData<K>,
}

// The methods are those of `Keys` again: a macro would hide their contracts, and a generic type would show in them.
impl<'a, K, V> Model for Values<'a, K, V> {
    ghost use Rattle.std.specs.Prelude.{List};

    ghost Value = { List V };

    ghost view = { λ walk. walk.values };
}

impl<'a, K, V> Values<'a, K, V> {
    /// Creates an iterator over the values in `values`. No slot may be empty.
    #[inline]
    pub(crate) fn over(values: &'a [Option<V>]) -> Self
        requires { AreFilled values.now }
        ensures { result ≡ items_of values.now }
    {
        Values {
            values: ColumnIter::over(values),
            _keys: PhantomData,
        }
    }
}

impl<'a, K, V> Iterator for Values<'a, K, V> {
    type Item = &'a V;

    ghost next_gives = { TakesFirst deref };

    ghost remaining = { λ left. at_most (length left) };

    #[inline]
    fn next(&mut self) -> Option<&'a V> {
        self.values.next()
    }

    #[inline]
    fn size_hint(&self) -> (usize, Option<usize>)
        ensures lower { IsWithinCount result.0 (at_most (length self.now)) }
        ensures upper { IfSome result.1 (UpTo (at_most (length self.now))) }
        ensures exact { result ≡ (length self.now, Some (length self.now)) }
    {
        self.values.size_hint()
    }
}

impl<'a, K, V> FusedIterator for Values<'a, K, V> {}

impl<'a, K, V> ExactSizeIterator for Values<'a, K, V> {
    #[inline]
    fn len(&self) -> usize {
        self.values.len()
    }
}

/// A clone has the same items left. The result is always `Ok`.
impl<'a, K, V> Clone for Values<'a, K, V> {
    ghost is_clone = { λ walk new. new ≡ walk };

    ghost is_infallible = { λ _. ⊤ };

    #[inline]
    fn clone(&self) -> Result<Self, AllocError> {
        Ok(Values {
            values: self.values.clone()?,
            _keys: PhantomData,
        })
    }
}

impl<'a, K, V> Default for Values<'a, K, V> {
    ghost is_default = { λ left. left ≡ [] };

    fn default() -> Self {
        Values::over(&[])
    }
}
