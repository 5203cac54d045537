//! A source over the pairs of a slice.
ghost use Rattle.std.specs.Prelude.{◌≡◌, None};

use super::EntrySource;
use std::convert::Infallible;
use std::marker::Model;
use std::slice;

/// A source that yields copies of the pairs of a slice, from the front. It never fails.
#[derive(Drop)]
pub struct SliceSource<'a, K, V> {
    left: slice::Iter<'a, (K, V)>,
}

impl<'a, K, V> Model for SliceSource<'a, K, V> {
    ghost use Rattle.std.specs.Prelude.{List};
    ghost use Rattle.std.specs.Slice.Iter.{iter_rest};

    ghost Value = { List (K × V) };

    ghost view = { λ s. iter_rest s.left };
}

impl<'a, K, V> SliceSource<'a, K, V> {
    /// Creates a source over the pairs of `entries`.
    ///
    /// ```
    /// let mut source = SliceSource::over(&[(1, 'a')]);
    /// assert!(rt; source.next_entry() == Ok(Some((1, 'a'))));
    /// assert!(rt; source.next_entry() == Ok(None));
    /// ```
    pub fn over(entries: &'a [(K, V)]) -> Self
        ensures { result ≡ entries.now }
    {
        SliceSource {
            left: entries.iter(),
        }
    }

    /// Returns the pairs left.
    pub fn left(&self) -> &[(K, V)]
        ensures { result.now ≡ self.now }
    {
        self.left.as_slice()
    }
}

impl<'a, K: Copy, V: Copy> EntrySource<K, V> for SliceSource<'a, K, V> {
    type Error = Infallible;

    ghost left = { λ s. s };

    ghost faults = { λ _. 0 };

    ghost last_fault = { λ _. None };

    fn faults(&self) -> u128 {
        0
    }

    fn next_entry(&mut self) -> Result<Option<(K, V)>, Infallible> {
        Ok(self.left.next().copied())
    }
}
