//! Subsets and disjoint sets. The two sets may have different capacities.
ghost use Rattle.std.specs.Prelude.{◌≡◌, ◌↔◌, [], not, IsTrue};
ghost use Rattle.std.specs.List.{list_all};
ghost use Rattle.std.specs.Set.{is_member};
ghost use Rattle.micromap.specs.Operations.{difference, intersection, passes, IsDisjoint, IsSubset};

use super::Set;
use super::operations::{Wanted, is_wanted};

impl<T: Eq, const N: usize> Set<T, N> {
    /// Returns `true` if each item of this set has an equal one in `other`.
    ///
    /// Compares no item if this set has more items. Else it makes one scan of `other` for each item, up to the first
    /// that has no equal one.
    ///
    /// ```
    /// let set = Set::from([1, 2]);
    /// assert!(rt; set.is_subset(&Set::from([3, 2, 1])));
    /// assert!(rt; !set.is_subset(&Set::from([1, 3])));
    /// ```
    pub fn is_subset<const M: usize>(&self, other: &Set<T, M>) -> bool
        ensures answer { result ≡ list_all (is_member T.eq other.now) self.now }
        ensures members { IsTrue result ↔ IsSubset T.eq self.now other.now }
        ensures nothing_beyond { IsTrue result ↔ (difference T.eq self.now other.now ≡ []) }
    {
        // With fewer items in `other`, not each of these can have an equal one.
        if self.len() > other.len() {
            return false;
        }
        self.all_are(other, Wanted::Common)
    }

    /// Returns `true` if each item of `other` has an equal one in this set. It costs what `other.is_subset(self)` costs.
    pub fn is_superset<const M: usize>(&self, other: &Set<T, M>) -> bool
        ensures answer { result ≡ list_all (is_member T.eq self.now) other.now }
        ensures members { IsTrue result ↔ IsSubset T.eq other.now self.now }
    {
        other.is_subset(self)
    }

    /// Returns `true` if no item of this set has an equal one in `other`.
    ///
    /// Makes one scan of the longer set for each item of the shorter, up to the first that has an equal one. If both
    /// are equally long, it takes the items of this set.
    ///
    /// ```
    /// let set = Set::from([1, 2]);
    /// assert!(rt; set.is_disjoint(&Set::from([3, 4])));
    /// assert!(rt; !set.is_disjoint(&Set::from([2, 3])));
    /// ```
    pub fn is_disjoint<const M: usize>(&self, other: &Set<T, M>) -> bool
        ensures answer { result ≡ list_all (λ x. not (is_member T.eq other.now x)) self.now }
        ensures swapped { result ≡ list_all (λ x. not (is_member T.eq self.now x)) other.now }
        ensures members { IsTrue result ↔ IsDisjoint T.eq self.now other.now }
        ensures nothing_common { IsTrue result ↔ (intersection T.eq self.now other.now ≡ []) }
    {
        if self.len() <= other.len() {
            self.all_are(other, Wanted::Missing)
        } else {
            other.all_are(self, Wanted::Missing)
        }
    }

    // Returns `true` if all items are wanted, by a scan of `other` for each.
    #[inline(always)]
    pub(super) fn all_are<const M: usize>(&self, other: &Set<T, M>, wanted: Wanted) -> bool
        ensures { result ≡ list_all (passes T.eq wanted other.now) self.now }
    {
        for x in self {
            if !is_wanted(wanted, x, other) {
                return false;
            }
        }
        true
    }
}
