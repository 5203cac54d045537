//! The operators `&` and `-` of Rust's set, as calls: a set of the clones of an intersection or a difference.
ghost use Rattle.std.specs.Prelude.{◌≡◌, All, IsOk, IfOk, filter};
ghost use Rattle.std.specs.List.{AllZip};
ghost use Rattle.std.specs.Set.{ClonesAreEqual};
ghost use Rattle.micromap.specs.Clones.{AreIdentical};
ghost use Rattle.micromap.specs.Items.{IsItems};
ghost use Rattle.micromap.specs.Operations.{difference, intersection, passes};

use super::{Wanted, next_where};
use crate::Set;
use std::alloc::AllocError;

impl<T: Eq + Clone + Drop, const N: usize> Set<T, N> {
    /// Returns a set of the clones of the items that have an equal one in `other`, in their order.
    ///
    /// Requires that an item's clone is equal to the item. The result is `Err` only if the clone of a member is. Then
    /// the clones made so far are dropped. It costs what `intersection` costs, and for each member one scan of those before
    /// it.
    ///
    /// ```
    /// let first = Set::from([1, 2, 3]);
    /// let both = first.bitand(&Set::from([3, 4, 2]))?;
    /// assert!(rt; both.iter().eq(&[2, 3]));
    /// ```
    pub fn bitand<const M: usize>(&self, other: &Set<T, M>) -> Result<Self, AllocError>
        requires { ClonesAreEqual T.eq T.is_clone }
        ensures clones { IfOk result (AllZip T.is_clone (intersection T.eq self.now other.now)) }
        ensures same { AreIdentical T.is_clone
            → IfOk result (λ new. new ≡ intersection T.eq self.now other.now) }
        ensures content { IfOk result (IsItems T.eq N) }
        ensures succeeds { All T.is_infallible (intersection T.eq self.now other.now) → IsOk result }
    {
        self.clones_where(other, Wanted::Common)
    }

    /// Returns a set of the clones of the items that have no equal one in `other`, in their order.
    ///
    /// Requires that an item's clone is equal to the item. It fails as `bitand` does. It costs what `difference` costs,
    /// and for each member one scan of those before it.
    ///
    /// ```
    /// let first = Set::from([1, 2, 3]);
    /// let rest = first.sub(&Set::from([2, 4]))?;
    /// assert!(rt; rest.iter().eq(&[1, 3]));
    /// ```
    pub fn sub<const M: usize>(&self, other: &Set<T, M>) -> Result<Self, AllocError>
        requires { ClonesAreEqual T.eq T.is_clone }
        ensures clones { IfOk result (AllZip T.is_clone (difference T.eq self.now other.now)) }
        ensures same { AreIdentical T.is_clone
            → IfOk result (λ new. new ≡ difference T.eq self.now other.now) }
        ensures content { IfOk result (IsItems T.eq N) }
        ensures succeeds { All T.is_infallible (difference T.eq self.now other.now) → IsOk result }
    {
        self.clones_where(other, Wanted::Missing)
    }

    // Returns a set of the clones of the items that are wanted.
    #[inline]
    fn clones_where<const M: usize>(
        &self,
        other: &Set<T, M>,
        wanted: Wanted,
    ) -> Result<Self, AllocError>
        requires { ClonesAreEqual T.eq T.is_clone }
        ensures clones { IfOk result (AllZip T.is_clone (filter (passes T.eq wanted other.now) self.now)) }
        ensures same { AreIdentical T.is_clone
            → IfOk result (λ new. new ≡ filter (passes T.eq wanted other.now) self.now) }
        ensures content { IfOk result (IsItems T.eq N) }
        ensures succeeds { All T.is_infallible (filter (passes T.eq wanted other.now) self.now) → IsOk result }
    {
        let mut rest = self.iter();
        let mut kept: Self = Set::new();
        while let Some(x) = next_where(&mut rest, other, wanted) {
            kept.insert(x.clone()?);
        }
        // What is true of the set, for the contract: `len` ensures it.
        let _known = kept.len();
        Ok(kept)
    }
}
