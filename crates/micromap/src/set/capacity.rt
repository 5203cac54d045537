//! A set in another capacity.
ghost use Rattle.std.specs.Prelude.{◌≡◌, ◌<◌, ◌↔◌, length, IsErr, IfOk, IfErr};
ghost use Rattle.micromap.specs.Items.{IsItems};

use super::Set;

impl<T: Eq + Drop, const N: usize> Set<T, N> {
    /// Returns this set with the capacity `M`, or this set unchanged as an `Err` if there are more than `M` items.
    ///
    /// Moves each item once.
    pub fn into_capacity<const M: usize>(self) -> Result<Set<T, M>, Self>
        ensures refuses { IsErr result ↔ (M < length self) }
        ensures items { IfOk result (λ set. set ≡ self) }
        ensures unchanged { IfErr result (λ set. set ≡ self) }
        ensures content { IsItems T.eq N self × IfOk result (IsItems T.eq M) }
    {
        let Set { map } = self;
        match map.into_capacity() {
            Ok(map) => Ok(Set { map }),
            Err(map) => Err(Set { map }),
        }
    }
}
