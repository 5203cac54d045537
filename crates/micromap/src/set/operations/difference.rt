//! The items of one set without an equal one in another.
ghost use Rattle.std.specs.Prelude.{◌≡◌, ⊤, ◌≤◌, IfSome, length};
ghost use Rattle.std.specs.Iterator.{UpTo, item_count};
ghost use Rattle.std.specs.Iterator.SizeHint.{IsWithinCount};
ghost use Rattle.std.specs.List.{IsDistinct};
ghost use Rattle.std.specs.Map.Iter.{deref};
ghost use Rattle.micromap.specs.Extend.{distinct};
ghost use Rattle.micromap.specs.Operations.{difference, difference_hint, difference_remaining, difference_advanced, GivesMembers, GivesNext};

use super::{Wanted, next_where};
use crate::Set;
use crate::set::Iter;
use std::alloc::AllocError;
use std::fmt;
use std::iter::FusedIterator;
use std::marker::Model;

/// The iterator of `Set::difference`.
///
/// A call of `next` goes through the set up to and including the next member, or to its end. It makes one scan of the
/// other set for each item passed: for a member a scan of the whole set.
pub type Difference<'a, 'b, T, const M: usize> = DifferenceIn<'a, 'b, T, Set<T, M>>;

/// Internal: write `Difference<'a, 'b, T, M>`. It is generic over the whole other set, since nothing bounds the size of a
/// `Set<T, M>` for any `M`.
#[derive(Drop)]
pub struct DifferenceIn<'a, 'b, T: Eq, O> {
    rest: Iter<'a, T>,
    other: &'b O,
}

impl<'a, 'b, T: Eq, O> Model for DifferenceIn<'a, 'b, T, O> {
    ghost use Rattle.std.specs.List.{IsDistinct};
    ghost use Rattle.micromap.specs.Operations.{Walk};

    ghost Value = { Walk T O };

    ghost view = { λ d. record { rest = d.rest; other = d.other.now } };

    ghost invariant = { λ d. IsDistinct T.eq d.rest };
}

/// A clone has the same items left. The result is always `Ok`.
impl<'a, 'b, T: Eq, O> Clone for DifferenceIn<'a, 'b, T, O> {
    ghost is_clone = { λ walk new. new ≡ walk };

    ghost is_infallible = { λ _. ⊤ };

    #[inline]
    fn clone(&self) -> Result<Self, AllocError> {
        Ok(DifferenceIn {
            rest: self.rest.clone()?,
            other: self.other,
        })
    }
}

impl<'a, 'b, T: Eq, const M: usize> Iterator for DifferenceIn<'a, 'b, T, Set<T, M>> {
    type Item = &'a T;

    ghost next_gives = { GivesNext deref (difference_remaining T.eq) (difference_advanced T.eq) };

    ghost remaining = { item_count (difference_remaining T.eq) };

    fn next(&mut self) -> Option<&'a T> {
        next_where(&mut self.rest, self.other, Wanted::Missing)
    }

    fn size_hint(&self) -> (usize, Option<usize>)
        ensures lower { IsWithinCount result.0 (item_count (difference_remaining T.eq) self.now) }
        ensures upper { IfSome result.1 (UpTo (item_count (difference_remaining T.eq) self.now)) }
        ensures exact { result ≡ difference_hint self.now }
    {
        let rest = self.rest.len();
        (rest.saturating_sub(self.other.len()), Some(rest))
    }
}

impl<'a, 'b, T: Eq, const M: usize> FusedIterator for DifferenceIn<'a, 'b, T, Set<T, M>> {}

/// Prints the list of the members left.
impl<'a, 'b, T: Eq + fmt::Debug, const M: usize> fmt::Debug for DifferenceIn<'a, 'b, T, Set<T, M>> {
    fn fmt<W: fmt::Write>(&self, f: &mut fmt::Formatter<W>) -> fmt::Result {
        f.debug_list().entries(self.clone().unwrap()).finish()
    }
}

impl<T: Eq, const N: usize> Set<T, N> {
    /// Returns an iterator over the items of this set that have no equal one in `other`, in their order.
    ///
    /// All calls of `next` together make one scan of `other` for each item of this set.
    ///
    /// ```
    /// let first = Set::from([1, 2, 3]);
    /// let second = Set::from([2, 4]);
    /// assert!(rt; first.difference(&second).eq(&[1, 3]));
    /// ```
    #[tactic(auto, unfolding(crate::specs::Operations::difference_remaining))]
    pub fn difference<'a, 'b, const M: usize>(
        &'a self,
        other: &'b Set<T, M>,
    ) -> Difference<'a, 'b, T, M>
        ensures walk { result ≡ record { rest = self.now; other = other.now } }
        ensures items { difference_remaining T.eq result ≡ difference T.eq self.now other.now }
        ensures bounded { length (difference_remaining T.eq result) ≤ N }
        ensures unique { IsDistinct T.eq (difference T.eq self.now other.now) }
        ensures builds { let xs = difference T.eq self.now other.now in distinct T.eq xs ≡ xs }
        ensures runs { GivesMembers (difference_remaining T.eq) (difference_advanced T.eq) }
    {
        DifferenceIn {
            rest: self.iter(),
            other,
        }
    }
}
