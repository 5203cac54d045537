//! A map in another capacity.
ghost use Rattle.std.specs.Prelude.{◌≡◌, ◌<◌, ◌↔◌, length, IsErr, IfOk, IfErr};
ghost use Rattle.micromap_core.specs.Pairs.{IsContent};

use super::Map;

impl<K: Eq + Drop, V: Drop, const N: usize> Map<K, V, N> {
    /// Returns this map with the capacity `M`, or this map unchanged as an `Err` if there are more than `M` pairs.
    ///
    /// Moves each pair once.
    ///
    /// ```
    /// let large = Map::from([(1, 'a'), (2, 'b')]).into_capacity::<3>();
    /// assert!(rt; large.is_ok_and(|mut map| map.put(3, 'c')));
    /// let small = Map::from([(1, 'a'), (2, 'b')]).into_capacity::<1>();
    /// assert!(rt; small.is_err_and(|map| map.len() == 2));
    /// ```
    pub fn into_capacity<const M: usize>(self) -> Result<Map<K, V, M>, Self>
        ensures refuses { IsErr result ↔ (M < length self) }
        ensures pairs { IfOk result (λ map. map ≡ self) }
        ensures unchanged { IfErr result (λ map. map ≡ self) }
        ensures content { IsContent K.eq N self × IfOk result (IsContent K.eq M) }
    {
        if self.len() > M {
            return Err(self);
        }
        let Map { pairs } = self;
        Ok(Map {
            pairs: pairs.into_capacity(),
        })
    }
}
