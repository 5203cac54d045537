//! The difference of two sets of references, by what they point to.
ghost use Rattle.std.specs.Prelude.{◌≡◌, ⊤, ◌≤◌, IfSome, length};
ghost use Rattle.std.specs.Borrow.{Bor};
ghost use Rattle.std.specs.Iterator.{UpTo, item_count};
ghost use Rattle.std.specs.Iterator.Runs.{YieldsInOrder};
ghost use Rattle.std.specs.Iterator.SizeHint.{IsWithinCount};
ghost use Rattle.std.specs.List.{IsDistinct};
ghost use Rattle.std.specs.Map.Iter.{deref};
ghost use Rattle.std.specs.Ordering.{on};
ghost use Rattle.micromap.specs.Operations.{difference, difference_hint, difference_remaining, difference_advanced, GivesNext};

use super::difference::DifferenceIn;
use crate::Set;
use std::alloc::AllocError;
use std::fmt;
use std::iter::FusedIterator;
use std::marker::Model;

/// The iterator of `Set::difference_ref`. It costs what a `Difference` costs.
pub type DifferenceRef<'a, 's, T, const M: usize> = DifferenceRefIn<'s, &'a T, Set<&'a T, M>>;

/// Internal: write `DifferenceRef<'a, 's, T, M>`.
#[derive(Drop)]
pub struct DifferenceRefIn<'s, R: Eq, O> {
    items: DifferenceIn<'s, 's, R, O>,
}

impl<'s, R: Eq, O> Model for DifferenceRefIn<'s, R, O> {
    ghost use Rattle.micromap.specs.Operations.{Walk};

    ghost Value = { Walk R O };

    ghost view = { λ d. d.items };
}

/// A clone has the same items left. The result is always `Ok`.
impl<'s, R: Eq, O> Clone for DifferenceRefIn<'s, R, O> {
    ghost is_clone = { λ walk new. new ≡ walk };

    ghost is_infallible = { λ _. ⊤ };

    #[inline]
    fn clone(&self) -> Result<Self, AllocError> {
        Ok(DifferenceRefIn {
            items: self.items.clone()?,
        })
    }
}

impl<'a, 's, T: Eq, const M: usize> Iterator for DifferenceRefIn<'s, &'a T, Set<&'a T, M>> {
    type Item = &'a T;

    ghost next_gives = { GivesNext (λ r. r) (difference_remaining (on deref T.eq)) (difference_advanced (on deref T.eq)) };

    ghost remaining = { item_count (difference_remaining (on deref T.eq)) };

    fn next(&mut self) -> Option<&'a T> {
        let item = self.items.next()?;
        Some(*item)
    }

    fn size_hint(&self) -> (usize, Option<usize>)
        ensures lower { IsWithinCount result.0 (item_count (difference_remaining (on deref T.eq)) self.now) }
        ensures upper { IfSome result.1 (UpTo (item_count (difference_remaining (on deref T.eq)) self.now)) }
        ensures exact { result ≡ difference_hint self.now }
    {
        self.items.size_hint()
    }
}

impl<'a, 's, T: Eq, const M: usize> FusedIterator for DifferenceRefIn<'s, &'a T, Set<&'a T, M>> {}

/// Prints the list of the members left.
impl<'a, 's, T: Eq + fmt::Debug, const M: usize> fmt::Debug
    for DifferenceRefIn<'s, &'a T, Set<&'a T, M>> {
    fn fmt<W: fmt::Write>(&self, f: &mut fmt::Formatter<W>) -> fmt::Result {
        f.debug_list().entries(self.clone().unwrap()).finish()
    }
}

impl<'a, T: Eq, const N: usize> Set<&'a T, N> {
    /// Returns an iterator over the references of this set to items that have no equal one behind a reference of
    /// `other`, in their order.
    ///
    /// The references live as long as the items, and may outlive both sets. It costs what `difference` costs.
    ///
    /// ```
    /// let first = Set::from([&1, &2, &3]);
    /// let second = Set::from([&2, &4]);
    /// assert!(rt; first.difference_ref(&second).eq(&[1, 3]));
    /// ```
    pub fn difference_ref<'s, const M: usize>(
        &'s self,
        other: &'s Set<&'a T, M>,
    ) -> DifferenceRef<'a, 's, T, M>
        ensures walk { result ≡ record { rest = self.now; other = other.now } }
        ensures items { difference_remaining (on deref T.eq) result
            ≡ difference (on deref T.eq) self.now other.now }
        ensures bounded { length (difference_remaining (on deref T.eq) result) ≤ N }
        ensures unique { IsDistinct (on deref T.eq) (difference (on deref T.eq) self.now other.now) }
        ensures runs { let left = difference_remaining (on deref T.eq) in
            YieldsInOrder (GivesNext (λ (r : Bor T). r) left (difference_advanced (on deref T.eq))) left }
    {
        DifferenceRefIn {
            items: self.difference(other),
        }
    }
}
