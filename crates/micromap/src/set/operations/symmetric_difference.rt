//! The items of either of two sets without an equal one in the other.
ghost use Rattle.std.specs.Prelude.{◌≡◌, ⊤, ◌+◌, ◌≤◌, IfSome, length};
ghost use Rattle.std.specs.Iterator.{UpTo, item_count};
ghost use Rattle.std.specs.Iterator.SizeHint.{IsWithinCount};
ghost use Rattle.std.specs.List.{IsDistinct};
ghost use Rattle.std.specs.Map.Iter.{deref};
ghost use Rattle.micromap.specs.Extend.{distinct};
ghost use Rattle.micromap.specs.Operations.{symmetric_difference, symmetric_hint, symmetric_remaining, symmetric_advanced, GivesMembers, GivesNext};

use super::difference::DifferenceIn;
use super::hint_of_both;
use crate::Set;
use std::alloc::AllocError;
use std::fmt;
use std::iter::FusedIterator;
use std::marker::Model;

/// The iterator of `Set::symmetric_difference`: one `Difference` and then the other. It costs what they cost.
pub type SymmetricDifference<'a, T, const N: usize, const M: usize> = SymmetricDifferenceIn<
    'a,
    T,
    Set<T, M>,
    Set<T, N>,
>;

/// Internal: write `SymmetricDifference<'a, T, N, M>`.
#[derive(Drop)]
pub struct SymmetricDifferenceIn<'a, T: Eq, O, P> {
    first: DifferenceIn<'a, 'a, T, O>,
    second: DifferenceIn<'a, 'a, T, P>,
}

impl<'a, T: Eq, O, P> Model for SymmetricDifferenceIn<'a, T, O, P> {
    ghost use Rattle.micromap.specs.Operations.{TwoWalks};

    ghost Value = { TwoWalks T O P };

    ghost view = { λ s. record { first = s.first; second = s.second } };
}

/// A clone has the same items left. The result is always `Ok`.
impl<'a, T: Eq, O, P> Clone for SymmetricDifferenceIn<'a, T, O, P> {
    ghost is_clone = { λ walk new. new ≡ walk };

    ghost is_infallible = { λ _. ⊤ };

    #[inline]
    fn clone(&self) -> Result<Self, AllocError> {
        Ok(SymmetricDifferenceIn {
            first: self.first.clone()?,
            second: self.second.clone()?,
        })
    }
}

impl<'a, T: Eq, const N: usize, const M: usize> Iterator
    for SymmetricDifferenceIn<'a, T, Set<T, M>, Set<T, N>> {
    type Item = &'a T;

    ghost next_gives = { GivesNext deref (symmetric_remaining T.eq) (symmetric_advanced T.eq) };

    ghost remaining = { item_count (symmetric_remaining T.eq) };

    #[tactic(auto, unfolding(crate::specs::Operations::symmetric_remaining, crate::specs::Operations::symmetric_advanced))]
    fn next(&mut self) -> Option<&'a T> {
        match self.first.next() {
            Some(x) => Some(x),
            None => self.second.next(),
        }
    }

    #[tactic(auto, unfolding(crate::specs::Operations::symmetric_remaining))]
    fn size_hint(&self) -> (usize, Option<usize>)
        ensures lower { IsWithinCount result.0 (item_count (symmetric_remaining T.eq) self.now) }
        ensures upper { IfSome result.1 (UpTo (item_count (symmetric_remaining T.eq) self.now)) }
        ensures exact { result ≡ symmetric_hint self.now }
    {
        hint_of_both(self.first.size_hint(), self.second.size_hint())
    }
}

impl<'a, T: Eq, const N: usize, const M: usize> FusedIterator
    for SymmetricDifferenceIn<'a, T, Set<T, M>, Set<T, N>> {}

/// Prints the list of the members left.
impl<'a, T: Eq + fmt::Debug, const N: usize, const M: usize> fmt::Debug
    for SymmetricDifferenceIn<'a, T, Set<T, M>, Set<T, N>> {
    fn fmt<W: fmt::Write>(&self, f: &mut fmt::Formatter<W>) -> fmt::Result {
        f.debug_list().entries(self.clone().unwrap()).finish()
    }
}

impl<T: Eq, const N: usize> Set<T, N> {
    /// Returns an iterator over the items of this set that have no equal one in `other`, then over those of `other` that
    /// have none in this set, each in their order.
    ///
    /// All calls of `next` together make one scan of each set for each item of the other.
    ///
    /// ```
    /// let first = Set::from([1, 2, 3]);
    /// let second = Set::from([2, 4]);
    /// assert!(rt; first.symmetric_difference(&second).eq(&[1, 3, 4]));
    /// ```
    #[tactic(auto, unfolding(crate::specs::Operations::symmetric_difference, crate::specs::Operations::symmetric_remaining))]
    pub fn symmetric_difference<'a, const M: usize>(
        &'a self,
        other: &'a Set<T, M>,
    ) -> SymmetricDifference<'a, T, N, M>
        ensures walk { result ≡ record {
          first = record { rest = self.now; other = other.now };
          second = record { rest = other.now; other = self.now };
        } }
        ensures items { symmetric_remaining T.eq result ≡ symmetric_difference T.eq self.now other.now }
        ensures bounded { length (symmetric_remaining T.eq result) ≤ N + M }
        ensures unique { IsDistinct T.eq (symmetric_difference T.eq self.now other.now) }
        ensures builds { let xs = symmetric_difference T.eq self.now other.now in distinct T.eq xs ≡ xs }
        ensures runs { GivesMembers (symmetric_remaining T.eq) (symmetric_advanced T.eq) }
    {
        SymmetricDifferenceIn {
            first: self.difference(other),
            second: other.difference(self),
        }
    }
}
