//! Keys of which an equal clone can be made.
#![tactic(auto)]

ghost use Rattle.std.specs.Prelude.{◌≡◌, ⊤};
ghost use Rattle.std.specs.Result.{MatchResult};
ghost use Rattle.std.specs.Set.{ClonesAreEqual};
ghost use Rattle.std.proofs.lemmas.Cmp.{nat_list_eq_equiv};
ghost use Rattle.micromap_core.specs.Clones.{copies_are_equal};

use crate::text_buf::TextBuf;
use std::alloc::AllocError;

/// A key whose clone is known to equal it, which `Clone` alone doesn't say.
///
/// Each `Copy` key is one, by its copy, and so are a `TextBuf`, a set of such items, and a map of such keys and values. A
/// map or a set of such keys has the trait `Clone`. A type of std that isn't `Copy`, as `String`, can't be one.
pub trait EqualClone: Eq + Drop {
    /// Whether the second value is a clone of the first.
    ghost is_equal_clone: { Self → Self → Type 0 };

    /// Whether the clone of a value is always `Ok`.
    ghost never_fails: { Self → Type 0 };

    /// Returns a clone that equals this key, or `Err` if there is no memory for it.
    fn equal_clone(&self) -> Result<Self, AllocError>
        ensures { MatchResult result (is_equal_clone self.now) (λ _. ¬ never_fails self.now) };

    ghost clones_are_equal: { ClonesAreEqual Self.eq is_equal_clone };
}

impl<K: Eq + Copy> EqualClone for K {
    ghost is_equal_clone = { λ key new. new ≡ key };

    ghost never_fails = { λ _. ⊤ };

    ghost clones_are_equal = { copies_are_equal K.Eq.laws };

    #[inline]
    fn equal_clone(&self) -> Result<K, AllocError> {
        Ok(*self)
    }
}

impl EqualClone for TextBuf {
    ghost is_equal_clone = { λ text new. new ≡ text };

    ghost never_fails = { λ _. ⊥ };

    ghost clones_are_equal = { copies_are_equal nat_list_eq_equiv };

    fn equal_clone(&self) -> Result<TextBuf, AllocError> {
        self.clone()
    }
}
