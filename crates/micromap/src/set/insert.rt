//! Inserting an item.
ghost use Rattle.std.specs.Prelude.{◌≡◌, length, nat_lt, Some, None, Ok, Err, IsTrue, not, if◌then◌else◌};
ghost use Rattle.std.specs.Set.{is_member};
ghost use Rattle.micromap_core.specs.declared.insert_error.InsertError.TheVariants.{Occupied, Full};
ghost use Rattle.micromap.specs.Items.{AreItems, put_item, put_item_if_fits, replace_item, find_item, item_fits};

use super::{Set, item_of_entry};
use crate::InsertError;

impl<T: Eq + Drop, const N: usize> Set<T, N> {
    /// Inserts the item, and returns `true` if it is new.
    ///
    /// Requires `fits(&item)`. A stored item stays. A new item goes last.
    ///
    /// ```
    /// let mut set: Set<u8, 1> = Set::new();
    /// assert!(rt; set.insert(1));
    /// if set.fits(&2) {
    ///     set.insert(2);
    /// }
    /// assert!(rt; !set.contains(&2));
    /// ```
    #[inline]
    pub fn insert(&mut self, item: T) -> bool
        requires { IsTrue (item_fits T.eq N self.old item) }
        ensures answer { result ≡ not (is_member T.eq self.old item) }
        ensures items { self.new ≡ put_item T.eq self.old item }
        ensures content { AreItems T.eq N self.old self.new }
    {
        self.map.insert(item, ()).is_none()
    }

    /// Does what `insert` does, and requires the same. It is safe, and kept for ported code.
    #[inline]
    pub fn insert_unchecked(&mut self, item: T) -> bool
        requires { IsTrue (item_fits T.eq N self.old item) }
        ensures answer { result ≡ not (is_member T.eq self.old item) }
        ensures items { self.new ≡ put_item T.eq self.old item }
        ensures content { AreItems T.eq N self.old self.new }
    {
        self.insert(item)
    }

    /// Inserts the item in the place of an equal one, which it returns, or else last, and returns `None`.
    ///
    /// Requires `fits(&item)`.
    ///
    /// ```
    /// let mut set = Set::from([1, 2]);
    /// assert!(rt; set.fits(&2));
    /// assert_eq!(rt; set.replace(2), Some(2));
    /// ```
    #[inline]
    pub fn replace(&mut self, item: T) -> Option<T>
        requires { IsTrue (item_fits T.eq N self.old item) }
        ensures old { result ≡ find_item T.eq self.old item }
        ensures items { self.new ≡ replace_item T.eq self.old item }
        ensures content { AreItems T.eq N self.old self.new }
    {
        item_of_entry(self.map.insert_key_value(item, ()))
    }

    /// Inserts the item if it fits. Returns `Some(item)` if an equal one is stored, else `None`, inserted or refused.
    ///
    /// A stored item stays. A new item goes last, or is dropped if the set is full. `try_insert` tells the two apart.
    ///
    /// ```
    /// let mut seen: Set<u8, 2> = Set::new();
    /// assert_eq!(rt; seen.checked_insert(1), None);
    /// assert_eq!(rt; seen.checked_insert(1), Some(1));
    /// ```
    #[inline]
    pub fn checked_insert(&mut self, item: T) -> Option<T>
        ensures answer { result ≡ (if is_member T.eq self.old item then Some item else None) }
        ensures items { self.new ≡ put_item_if_fits T.eq N self.old item }
        ensures content { AreItems T.eq N self.old self.new }
    {
        match self.try_insert(item) {
            Err(InsertError::Occupied(item)) => Some(item),
            _ => None,
        }
    }

    /// Inserts the item as `checked_insert` does, and returns `true` if it fits.
    ///
    /// ```
    /// let mut set: Set<u8, 1> = Set::new();
    /// assert!(rt; set.put(1));
    /// assert!(rt; set.put(1));
    /// assert!(rt; !set.put(2));
    /// ```
    #[inline]
    pub fn put(&mut self, item: T) -> bool
        ensures answer { result ≡ item_fits T.eq N self.old item }
        ensures items { self.new ≡ put_item_if_fits T.eq N self.old item }
        ensures content { AreItems T.eq N self.old self.new }
    {
        self.map.put(item, ())
    }

    /// Inserts the item last if it is new and there is room. Returns `Err(Occupied(item))` if an equal one is stored,
    /// and `Err(Full(item))` if the item is new and the set is full.
    ///
    /// After an `Err` the set is unchanged.
    ///
    /// ```
    /// let mut seen: Set<u8, 1> = Set::new();
    /// assert_eq!(rt; seen.try_insert(1), Ok(()));
    /// assert_eq!(rt; seen.try_insert(1), Err(InsertError::Occupied(1)));
    /// assert_eq!(rt; seen.try_insert(2), Err(InsertError::Full(2)));
    /// ```
    #[inline]
    pub fn try_insert(&mut self, item: T) -> Result<(), InsertError<T>>
        ensures answer { result ≡ (if is_member T.eq self.old item then Err (Occupied item)
            else if nat_lt (length self.old) N then Ok tt else Err (Full item)) }
        ensures items { self.new ≡ put_item_if_fits T.eq N self.old item }
        ensures content { AreItems T.eq N self.old self.new }
    {
        match self.map.try_insert(item, ()) {
            Ok(()) => Ok(()),
            Err(InsertError::Occupied((item, _))) => Err(InsertError::Occupied(item)),
            Err(InsertError::Full((item, _))) => Err(InsertError::Full(item)),
        }
    }
}
