//! Cloning and copying a map.
ghost use Rattle.std.specs.Prelude.{◌≡◌, ◌≤◌, [], All, IsOk, IfOk};
ghost use Rattle.std.specs.List.{AllZip};
ghost use Rattle.std.specs.Result.{MatchResult};
ghost use Rattle.std.specs.Set.{ClonesAreEqual};
ghost use Rattle.micromap_core.specs.Clones.{AreIdentical, IsPairClone};
ghost use Rattle.micromap_core.specs.EqualClones.{clones_have_equal_pairs};
ghost use Rattle.micromap_core.specs.Pairs.{IsContent};

use super::Map;
use crate::equal_clone::EqualClone;
use std::alloc::AllocError;

impl<K: Eq + Clone + Drop, V: Clone + Drop, const N: usize> Map<K, V, N> {
    /// Returns a map of the clones of all pairs, in the same order.
    ///
    /// Requires that a key's clone is equal to the key. The result is `Err` only if the clone of a key or a value is.
    /// Then the clones made so far are dropped.
    ///
    /// ```
    /// let mut names: Map<u8, TextBuf, 2> = Map::new();
    /// names.put(1, TextBuf::new(alloc, "Ada")?);
    /// let mut clone = names.clone()?;
    /// names.clear();
    /// assert!(rt; clone.remove(&1).is_some_and(|name| name.is("Ada")));
    /// ```
    pub fn clone(&self) -> Result<Self, AllocError>
        requires { ClonesAreEqual K.eq K.is_clone }
        ensures clones { IfOk result (AllZip (IsPairClone K.is_clone V.is_clone) self.now) }
        ensures same { AreIdentical K.is_clone → AreIdentical V.is_clone
            → IfOk result (λ new. new ≡ self.now) }
        ensures content { IfOk result (IsContent K.eq N) }
        ensures succeeds { All (λ p. K.is_infallible p.0 × V.is_infallible p.1) self.now → IsOk result }
    {
        let mut clone = Map::new();
        match self.clone_into::<ByClone, ByClone>(&mut clone) {
            Ok(()) => Ok(clone),
            Err(refused) => Err(refused),
        }
    }
}

impl<K: Eq + Drop, V: Drop, const N: usize> Map<K, V, N> {
    // Puts the clones of all pairs into an empty map, with keys that are made by `C` and values by `D`. If it returned the
    // map, a clone would be copied once more.
    #[inline]
    fn clone_into<C: CloneBy<K>, D: CloneBy<V>>(&self, clone: &mut Self) -> Result<(), AllocError>
        requires equal { ClonesAreEqual K.eq C.is_made }
        requires empty { clone.old ≡ [] }
        ensures clones { IfOk result (λ _. AllZip (IsPairClone C.is_made D.is_made) self.now clone.new) }
        ensures same { AreIdentical C.is_made → AreIdentical D.is_made
            → IfOk result (λ _. clone.new ≡ self.now) }
        ensures content { IsContent K.eq N clone.new }
        ensures succeeds { All (λ p. C.is_infallible p.0 × D.is_infallible p.1) self.now → IsOk result }
    {
        let len = self.len();
        for index in 0..clone_turns::<N>(len) {
            if index < len {
                let (key, value) = self.pair_at(index);
                let key = C::of(key)?;
                let value = D::of(value)?;
                clone.pairs.push_at(index, key, value);
            }
        }
        Ok(())
    }
}

// A way to make the clones of keys, or of values.
pub(crate) trait CloneBy<T> {
    ghost is_made: { T → T → Type 0 };

    ghost is_infallible: { T → Type 0 };

    fn of(item: &T) -> Result<T, AllocError>
        ensures { MatchResult result (is_made item.now) (λ _. ¬ is_infallible item.now) };
}

pub(crate) struct ByClone;

impl<T: Clone> CloneBy<T> for ByClone {
    ghost is_made = { T.is_clone };

    ghost is_infallible = { T.is_infallible };

    #[inline]
    fn of(item: &T) -> Result<T, AllocError> {
        item.clone()
    }
}

pub(crate) struct ByEqualClone;

impl<T: EqualClone> CloneBy<T> for ByEqualClone {
    ghost is_made = { T.is_equal_clone };

    ghost is_infallible = { T.never_fails };

    #[inline]
    fn of(item: &T) -> Result<T, AllocError> {
        item.equal_clone()
    }
}

impl<K: Eq + Copy, V: Copy, const N: usize> Map<K, V, N> {
    /// Returns a copy of this map: the same pairs, in the same order.
    ///
    /// ```
    /// let mut map = Map::from([(1, 'a'), (2, 'b')]);
    /// let before = map.copied();
    /// map.clear();
    /// assert!(rt; before.keys().eq(&[1, 2]));
    /// ```
    pub fn copied(&self) -> Self
        ensures answer { result ≡ self.now }
        ensures content { IsContent K.eq N result }
    {
        Map {
            pairs: self.pairs.copied(),
        }
    }
}

/// The trait is for what is generic, as the clone of a map of maps. `map.clone()` is the call above.
impl<K: EqualClone, V: Clone, const N: usize> Clone for Map<K, V, N> {
    ghost is_clone = { λ pairs new. (AreIdentical K.is_equal_clone → AreIdentical V.is_clone → new ≡ pairs) × AllZip (IsPairClone K.is_equal_clone V.is_clone) pairs new × IsContent K.eq N new };

    ghost is_infallible = { All (λ p. K.never_fails p.0 × V.is_infallible p.1) };

    fn clone(&self) -> Result<Self, AllocError> {
        let mut clone = Map::new();
        match self.clone_into::<ByEqualClone, ByClone>(&mut clone) {
            Ok(()) => Ok(clone),
            Err(refused) => Err(refused),
        }
    }
}

/// The clone of a map equals it if the clones of its keys and values do. So a map can be the key of another.
impl<K: EqualClone, V: EqualClone, const N: usize> EqualClone for Map<K, V, N> {
    ghost is_equal_clone = { AllZip (IsPairClone K.is_equal_clone V.is_equal_clone) };

    ghost never_fails = { All (λ p. K.never_fails p.0 × V.never_fails p.1) };

    ghost clones_are_equal = { clones_have_equal_pairs K.Eq.laws V.Eq.laws K.EqualClone.clones_are_equal V.EqualClone.clones_are_equal };

    fn equal_clone(&self) -> Result<Self, AllocError> {
        let mut clone = Map::new();
        match self.clone_into::<ByEqualClone, ByEqualClone>(&mut clone) {
            Ok(()) => Ok(clone),
            Err(refused) => Err(refused),
        }
    }
}

// The number of turns in which `len` pairs are cloned. With at most 16 slots it is `N`, and each turn tests the length, so
// that the loop is unrolled. With more it is the length.
#[inline]
fn clone_turns<const N: usize>(len: usize) -> usize
    requires { len ≤ N }
    ensures all { len ≤ result }
    ensures bounded { result ≤ N }
{
    if N > 16 { len } else { N }
}
