//! Looking up an item, and the items at both ends.
ghost use Rattle.std.specs.Prelude.{◌≡◌, ◌-◌, length, slice_get};
ghost use Rattle.std.specs.Option.{option_copied};
ghost use Rattle.std.specs.Set.{is_member};
ghost use Rattle.micromap.specs.Items.{find_item, item_fits};

use super::Set;

impl<T: Eq, const N: usize> Set<T, N> {
    /// Returns a reference to the stored item that equals `item`, or `None` if there is none.
    ///
    /// ```
    /// let set = Set::from(["foo", "bar"]);
    /// assert_eq!(rt; set.get(&"foo"), Some(&"foo"));
    /// assert_eq!(rt; set.get(&"qux"), None);
    /// ```
    #[inline]
    pub fn get(&self, item: &T) -> Option<&T>
        ensures answer { option_copied result ≡ find_item T.eq self.now item.now }
    {
        let (stored, _) = self.map.get_key_value(item)?;
        Some(stored)
    }

    /// Returns a reference to the first item, or `None` if the set is empty.
    #[inline]
    pub fn first(&self) -> Option<&T>
        ensures answer { option_copied result ≡ slice_get self.now 0 }
    {
        let (item, _) = self.map.first()?;
        Some(item)
    }

    /// Returns a reference to the last item, or `None` if the set is empty.
    #[inline]
    pub fn last(&self) -> Option<&T>
        ensures answer { option_copied result ≡ slice_get self.now (length self.now - 1) }
    {
        let (item, _) = self.map.last()?;
        Some(item)
    }

    /// Returns `true` if a stored item equals `item`.
    ///
    /// ```
    /// let set = Set::from([1, 2]);
    /// assert!(rt; set.contains(&2));
    /// assert!(rt; !set.contains(&3));
    /// ```
    #[inline]
    pub fn contains(&self, item: &T) -> bool
        ensures answer { result ≡ is_member T.eq self.now item.now }
    {
        self.map.contains_key(item)
    }

    /// Returns `true` if the item can be inserted: an equal one is stored, or there is room. Compares no item if there
    /// is room.
    #[inline]
    pub fn fits(&self, item: &T) -> bool
        ensures answer { result ≡ item_fits T.eq N self.now item.now }
    {
        self.map.fits(item)
    }
}
