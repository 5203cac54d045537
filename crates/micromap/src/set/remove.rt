//! Removing an item.
ghost use Rattle.std.specs.Prelude.{◌≡◌, ◌-◌, drop, length, slice_get, take};
ghost use Rattle.std.specs.Set.{is_member};
ghost use Rattle.micromap.specs.Items.{AreItems, find_item, take_item};

use super::{Set, item_of_entry};

impl<T: Eq + Drop, const N: usize> Set<T, N> {
    /// Removes the item that equals `item`, and returns it, or `None` if there is none.
    ///
    /// The others keep their order: those behind it move up by one. After `None` the set is unchanged.
    ///
    /// ```
    /// let mut set = Set::from([1, 2, 3]);
    /// assert_eq!(rt; set.take(&1), Some(1));
    /// assert_eq!(rt; set.take(&1), None);
    /// assert!(rt; set.iter().eq(&[2, 3]));
    /// ```
    #[inline]
    pub fn take(&mut self, item: &T) -> Option<T>
        ensures answer { result ≡ find_item T.eq self.old item.now }
        ensures items { self.new ≡ take_item T.eq self.old item.now }
        ensures content { AreItems T.eq N self.old self.new }
    {
        item_of_entry(self.map.remove_entry(item))
    }

    /// Removes the item that equals `item`, as `take` does, and returns `true` if there was one.
    ///
    /// ```
    /// let mut set = Set::from([1, 2]);
    /// assert!(rt; set.remove(&1));
    /// assert!(rt; !set.remove(&1));
    /// ```
    #[inline]
    pub fn remove(&mut self, item: &T) -> bool
        ensures answer { result ≡ is_member T.eq self.old item.now }
        ensures items { self.new ≡ take_item T.eq self.old item.now }
        ensures content { AreItems T.eq N self.old self.new }
    {
        self.take(item).is_some()
    }

    /// Removes the first item, and returns it, or `None` if the set is empty. Each other item moves up by one.
    #[inline]
    pub fn pop_first(&mut self) -> Option<T>
        ensures answer { result ≡ slice_get self.old 0 }
        ensures items { self.new ≡ drop 1 self.old }
        ensures content { AreItems T.eq N self.old self.new }
    {
        item_of_entry(self.map.pop_first())
    }

    /// Removes the last item, and returns it, or `None` if the set is empty. The others stay where they are.
    #[inline]
    pub fn pop_last(&mut self) -> Option<T>
        ensures answer { result ≡ slice_get self.old (length self.old - 1) }
        ensures items { self.new ≡ take (length self.old - 1) self.old }
        ensures content { AreItems T.eq N self.old self.new }
    {
        item_of_entry(self.map.pop_last())
    }
}
