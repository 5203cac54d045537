//! Cloning and copying a set.
ghost use Rattle.std.specs.Prelude.{◌≡◌, All, IsOk, IfOk};
ghost use Rattle.std.specs.List.{AllZip};
ghost use Rattle.std.specs.Set.{ClonesAreEqual};
ghost use Rattle.micromap.specs.Clones.{AreIdentical};
ghost use Rattle.micromap.specs.Items.{IsItems};
ghost use Rattle.micromap_core.specs.SameLaws.{clones_have_equal_items};

use super::Set;
use micromap_core::EqualClone;
use std::alloc::AllocError;

impl<T: Eq + Clone + Drop, const N: usize> Set<T, N> {
    /// Returns a set of the clones of all items, in the same order.
    ///
    /// Requires that an item's clone is equal to the item. The result is `Err` only if the clone of an item is. Then
    /// the clones made so far are dropped.
    pub fn clone(&self) -> Result<Self, AllocError>
        requires { ClonesAreEqual T.eq T.is_clone }
        ensures clones { IfOk result (AllZip T.is_clone self.now) }
        ensures same { AreIdentical T.is_clone → IfOk result (λ new. new ≡ self.now) }
        ensures content { IfOk result (IsItems T.eq N) }
        ensures succeeds { All T.is_infallible self.now → IsOk result }
    {
        let map = self.map.clone()?;
        Ok(Set { map })
    }
}

impl<T: Eq + Copy, const N: usize> Set<T, N> {
    /// Returns a copy of this set: the same items, in the same order.
    pub fn copied(&self) -> Self
        ensures answer { result ≡ self.now }
        ensures content { IsItems T.eq N result }
    {
        Set {
            map: self.map.copied(),
        }
    }
}

/// The trait is for what is generic, as the clone of a map of sets. `set.clone()` is the call above.
impl<T: EqualClone, const N: usize> Clone for Set<T, N> {
    ghost is_clone = { λ items new. (AreIdentical T.is_equal_clone → new ≡ items) × AllZip T.is_equal_clone items new × IsItems T.eq N new };

    ghost is_infallible = { All T.never_fails };

    fn clone(&self) -> Result<Self, AllocError> {
        let map = Clone::clone(&self.map)?;
        Ok(Set { map })
    }
}

impl<T: EqualClone, const N: usize> EqualClone for Set<T, N> {
    ghost is_equal_clone = { AllZip T.is_equal_clone };

    ghost never_fails = { All T.never_fails };

    ghost clones_are_equal = { clones_have_equal_items T.Eq.laws T.EqualClone.clones_are_equal };

    fn equal_clone(&self) -> Result<Self, AllocError> {
        Clone::clone(self)
    }
}
