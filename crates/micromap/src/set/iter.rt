//! The iterators over a set, by reference and by value, from the front.
ghost use Rattle.std.specs.Prelude.{◌≡◌, []};
ghost use Rattle.std.specs.Map.Iter.{GivesInOrder, ShowsInOrder, deref};
ghost use Rattle.micromap.specs.Items.{AreItems, IsItems};

use super::Set;
use crate::map;
use std::mem;

/// An iterator over the items of a set by reference, from the front.
pub type Iter<'a, T> = map::Keys<'a, T, ()>;

/// An iterator over the items of a set by value, from the front. Items that aren't taken are dropped with it.
pub type IntoIter<T, const N: usize> = map::IntoKeys<T, (), N>;

/// An iterator over the items that a set had, as `Set::drain` returns it.
pub type Drain<T, const N: usize> = IntoIter<T, N>;

impl<T: Eq, const N: usize> Set<T, N> {
    /// Returns an iterator over the items by reference, from the front.
    ///
    /// ```
    /// let set = Set::from([2, 1, 2]);
    /// assert!(rt; set.iter().eq(&[2, 1]));
    /// ```
    #[inline]
    pub fn iter(&self) -> Iter<'_, T>
        ensures answer { result ≡ self.now }
        ensures runs { ShowsInOrder (deref {X = T}) }
        ensures content { IsItems T.eq N self.now }
    {
        self.map.keys()
    }
}

impl<T: Eq + Drop, const N: usize> Set<T, N> {
    /// Removes all items, and returns an iterator over them by value, from the front.
    ///
    /// A caller that is generic in `T` requires `SetIntoIterFits T.row N.row`, or calls `pop_first`.
    #[inline]
    pub fn drain(&mut self) -> Drain<T, N>
        ensures answer { result ≡ self.old }
        ensures emptied { self.new ≡ [] }
        ensures runs { GivesInOrder T }
        ensures content { AreItems T.eq N self.old self.new }
    {
        mem::take(self).into_iter()
    }
}

/// A loop over a set yields its items by value, from the front. A caller that is generic in `T` requires
/// `SetIntoIterFits T.row N.row`.
impl<T: Eq + Drop, const N: usize> IntoIterator for Set<T, N> {
    type Item = T;

    type IntoIter = IntoIter<T, N>;

    ghost into_iter_gives = { λ s walk. (walk ≡ s) × GivesInOrder T × IsItems T.eq N s };

    fn into_iter(self) -> IntoIter<T, N> {
        let Set { map } = self;
        map.into_keys()
    }
}

/// A loop over a reference to a set yields references to its items, from the front.
impl<'a, T: Eq, const N: usize> IntoIterator for &'a Set<T, N> {
    type Item = &'a T;

    type IntoIter = Iter<'a, T>;

    ghost into_iter_gives = { λ s walk. (walk ≡ s.now) × ShowsInOrder (deref {X = T}) × IsItems T.eq N s.now };

    fn into_iter(self) -> Iter<'a, T> {
        self.iter()
    }
}
