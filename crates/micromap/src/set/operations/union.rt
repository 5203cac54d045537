//! The items of either of two sets.
ghost use Rattle.std.specs.Prelude.{◌≡◌, ⊤, ◌+◌, ◌≤◌, IfSome, length};
ghost use Rattle.std.specs.Iterator.{UpTo, item_count};
ghost use Rattle.std.specs.Iterator.SizeHint.{IsWithinCount};
ghost use Rattle.std.specs.List.{IsDistinct};
ghost use Rattle.std.specs.Map.Iter.{deref};
ghost use Rattle.micromap.specs.Extend.{distinct};
ghost use Rattle.micromap.specs.Operations.{union, union_hint, union_remaining, union_advanced, GivesMembers, GivesNext};

use super::difference::DifferenceIn;
use super::hint_of_both;
use crate::Set;
use crate::set::Iter;
use std::alloc::AllocError;
use std::fmt;
use std::iter::FusedIterator;
use std::marker::Model;

/// The iterator of `Set::union`. The other set's items come first, without a comparison. Then come those of a
/// `Difference`.
pub type Union<'a, T, const M: usize> = UnionIn<'a, T, Set<T, M>>;

/// Internal: write `Union<'a, T, M>`.
#[derive(Drop)]
pub struct UnionIn<'a, T: Eq, O> {
    others: Iter<'a, T>,
    beyond: DifferenceIn<'a, 'a, T, O>,
}

impl<'a, T: Eq, O> Model for UnionIn<'a, T, O> {
    ghost use Rattle.micromap.specs.Operations.{UnionWalk};

    ghost Value = { UnionWalk T O };

    ghost view = { λ u. record { others = u.others; beyond = u.beyond } };
}

/// A clone has the same items left. The result is always `Ok`.
impl<'a, T: Eq, O> Clone for UnionIn<'a, T, O> {
    ghost is_clone = { λ walk new. new ≡ walk };

    ghost is_infallible = { λ _. ⊤ };

    #[inline]
    fn clone(&self) -> Result<Self, AllocError> {
        Ok(UnionIn {
            others: self.others.clone()?,
            beyond: self.beyond.clone()?,
        })
    }
}

impl<'a, T: Eq, const M: usize> Iterator for UnionIn<'a, T, Set<T, M>> {
    type Item = &'a T;

    ghost next_gives = { GivesNext deref (union_remaining T.eq) (union_advanced T.eq) };

    ghost remaining = { item_count (union_remaining T.eq) };

    #[tactic(auto, unfolding(crate::specs::Operations::union_remaining, crate::specs::Operations::union_advanced))]
    fn next(&mut self) -> Option<&'a T> {
        match self.others.next() {
            Some(x) => Some(x),
            None => self.beyond.next(),
        }
    }

    #[tactic(auto, unfolding(crate::specs::Operations::union_remaining))]
    fn size_hint(&self) -> (usize, Option<usize>)
        ensures lower { IsWithinCount result.0 (item_count (union_remaining T.eq) self.now) }
        ensures upper { IfSome result.1 (UpTo (item_count (union_remaining T.eq) self.now)) }
        ensures exact { result ≡ union_hint self.now }
    {
        hint_of_both(self.others.size_hint(), self.beyond.size_hint())
    }
}

impl<'a, T: Eq, const M: usize> FusedIterator for UnionIn<'a, T, Set<T, M>> {}

/// Prints the list of the members left.
impl<'a, T: Eq + fmt::Debug, const M: usize> fmt::Debug for UnionIn<'a, T, Set<T, M>> {
    fn fmt<W: fmt::Write>(&self, f: &mut fmt::Formatter<W>) -> fmt::Result {
        f.debug_list().entries(self.clone().unwrap()).finish()
    }
}

impl<T: Eq, const N: usize> Set<T, N> {
    /// Returns an iterator over the items of `other`, then over those of this set that have no equal one in `other`,
    /// each in their order.
    ///
    /// All calls of `next` together make one scan of `other` for each item of this set.
    ///
    /// ```
    /// let first = Set::from([1, 2]);
    /// let second = Set::from([2, 3]);
    /// assert!(rt; first.union(&second).copied().eq([2, 3, 1]));
    /// ```
    #[tactic(auto, unfolding(crate::specs::Operations::union, crate::specs::Operations::union_remaining))]
    pub fn union<'a, const M: usize>(&'a self, other: &'a Set<T, M>) -> Union<'a, T, M>
        ensures walk { result ≡ record {
          others = other.now;
          beyond = record { rest = self.now; other = other.now };
        } }
        ensures items { union_remaining T.eq result ≡ union T.eq self.now other.now }
        ensures bounded { length (union_remaining T.eq result) ≤ N + M }
        ensures unique { IsDistinct T.eq (union T.eq self.now other.now) }
        ensures builds { let xs = union T.eq self.now other.now in distinct T.eq xs ≡ xs }
        ensures runs { GivesMembers (union_remaining T.eq) (union_advanced T.eq) }
    {
        UnionIn {
            others: other.iter(),
            beyond: self.difference(other),
        }
    }
}
