//! The items of one set with an equal one in another.
ghost use Rattle.std.specs.Prelude.{◌≡◌, ⊤, ◌≤◌, IfSome, length};
ghost use Rattle.std.specs.Iterator.{UpTo, item_count};
ghost use Rattle.std.specs.Iterator.SizeHint.{IsWithinCount};
ghost use Rattle.std.specs.List.{IsDistinct};
ghost use Rattle.std.specs.Map.Iter.{deref};
ghost use Rattle.micromap.specs.Extend.{distinct};
ghost use Rattle.micromap.specs.Operations.{intersection, intersection_hint, intersection_remaining, intersection_advanced, GivesMembers, GivesNext};

use super::{Wanted, next_where};
use crate::Set;
use crate::set::Iter;
use std::alloc::AllocError;
use std::fmt;
use std::iter::FusedIterator;
use std::marker::Model;

/// The iterator of `Set::intersection`. It goes on as a `Difference` does, but for a member it makes a scan up to the
/// equal item.
pub type Intersection<'a, T, const M: usize> = IntersectionIn<'a, T, Set<T, M>>;

/// Internal: write `Intersection<'a, T, M>`.
#[derive(Drop)]
pub struct IntersectionIn<'a, T: Eq, O> {
    rest: Iter<'a, T>,
    other: &'a O,
}

impl<'a, T: Eq, O> Model for IntersectionIn<'a, T, O> {
    ghost use Rattle.std.specs.List.{IsDistinct};
    ghost use Rattle.micromap.specs.Operations.{Walk};

    ghost Value = { Walk T O };

    ghost view = { λ i. record { rest = i.rest; other = i.other.now } };

    ghost invariant = { λ i. IsDistinct T.eq i.rest };
}

/// A clone has the same items left. The result is always `Ok`.
impl<'a, T: Eq, O> Clone for IntersectionIn<'a, T, O> {
    ghost is_clone = { λ walk new. new ≡ walk };

    ghost is_infallible = { λ _. ⊤ };

    #[inline]
    fn clone(&self) -> Result<Self, AllocError> {
        Ok(IntersectionIn {
            rest: self.rest.clone()?,
            other: self.other,
        })
    }
}

impl<'a, T: Eq, const M: usize> Iterator for IntersectionIn<'a, T, Set<T, M>> {
    type Item = &'a T;

    ghost next_gives = { GivesNext deref (intersection_remaining T.eq) (intersection_advanced T.eq) };

    ghost remaining = { item_count (intersection_remaining T.eq) };

    fn next(&mut self) -> Option<&'a T> {
        next_where(&mut self.rest, self.other, Wanted::Common)
    }

    fn size_hint(&self) -> (usize, Option<usize>)
        ensures lower { IsWithinCount result.0 (item_count (intersection_remaining T.eq) self.now) }
        ensures upper { IfSome result.1 (UpTo (item_count (intersection_remaining T.eq) self.now)) }
        ensures exact { result ≡ intersection_hint self.now }
    {
        (0, Some(self.rest.len().min(self.other.len())))
    }
}

impl<'a, T: Eq, const M: usize> FusedIterator for IntersectionIn<'a, T, Set<T, M>> {}

/// Prints the list of the members left.
impl<'a, T: Eq + fmt::Debug, const M: usize> fmt::Debug for IntersectionIn<'a, T, Set<T, M>> {
    fn fmt<W: fmt::Write>(&self, f: &mut fmt::Formatter<W>) -> fmt::Result {
        f.debug_list().entries(self.clone().unwrap()).finish()
    }
}

impl<T: Eq, const N: usize> Set<T, N> {
    /// Returns an iterator over the items of this set that have an equal one in `other`, in their order.
    ///
    /// All calls of `next` together make one scan of `other` for each item of this set.
    ///
    /// ```
    /// let first = Set::from([1, 2, 3]);
    /// let second = Set::from([3, 4, 2]);
    /// assert!(rt; first.intersection(&second).eq(&[2, 3]));
    /// ```
    #[tactic(auto, unfolding(crate::specs::Operations::intersection_remaining))]
    pub fn intersection<'a, const M: usize>(
        &'a self,
        other: &'a Set<T, M>,
    ) -> Intersection<'a, T, M>
        ensures walk { result ≡ record { rest = self.now; other = other.now } }
        ensures items { intersection_remaining T.eq result ≡ intersection T.eq self.now other.now }
        ensures bounded { length (intersection_remaining T.eq result) ≤ N }
        ensures unique { IsDistinct T.eq (intersection T.eq self.now other.now) }
        ensures builds { let xs = intersection T.eq self.now other.now in distinct T.eq xs ≡ xs }
        ensures runs { GivesMembers (intersection_remaining T.eq) (intersection_advanced T.eq) }
    {
        IntersectionIn {
            rest: self.iter(),
            other,
        }
    }
}
