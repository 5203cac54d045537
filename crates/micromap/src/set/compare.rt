//! Comparing two sets, whose capacities may differ.
ghost use Rattle.std.specs.Prelude.{◌≡◌, ◌↔◌, IsTrue};
ghost use Rattle.std.specs.Cmp.{partial_equiv_from_equiv};
ghost use Rattle.micromap.specs.Operations.{HaveEquals};
ghost use Rattle.micromap.specs.Same.{have_equal_items, HaveEqualItems};
ghost use Rattle.micromap.specs.SameLaws.{have_equal_items_equiv};

use super::Set;
use super::operations::Wanted;

impl<T: Eq, const N: usize> Set<T, N> {
    /// Returns `true` if each item of either set has an equal one in the other. Neither order nor capacity matters. `==`
    /// is `eq_with` within one type.
    ///
    /// Compares no item if the lengths differ. Else it costs what `is_subset` costs.
    ///
    /// ```
    /// let set = Set::from([1, 2]);
    /// assert!(rt; set.eq_with(&Set::from([2, 1, 2])));
    /// assert!(rt; !set.eq_with(&Set::from([1])));
    /// ```
    pub fn eq_with<const M: usize>(&self, other: &Set<T, M>) -> bool
        ensures answer { IsTrue result ↔ HaveEqualItems T.eq self.now other.now }
        ensures members { IsTrue result ↔ HaveEquals T.eq self.now other.now }
    {
        // Both have the same number of items, and `other` has each item of this set. So `other` has no other item.
        self.len() == other.len() && self.all_are(other, Wanted::Common)
    }
}

/// `==` is `eq_with` within one type.
impl<T: Eq, const N: usize> PartialEq for Set<T, N> {
    ghost eq = { have_equal_items T.eq };

    ghost laws = { partial_equiv_from_equiv (have_equal_items_equiv T.Eq.laws) };

    /// Says what `eq_with` says.
    fn eq(&self, other: &Set<T, N>) -> bool
        ensures answer { result ≡ have_equal_items T.eq self.now other.now }
        ensures members { IsTrue result ↔ HaveEquals T.eq self.now other.now }
    {
        self.eq_with(other)
    }
}

impl<T: Eq, const N: usize> Eq for Set<T, N> {
    ghost laws = { have_equal_items_equiv T.Eq.laws };
}
