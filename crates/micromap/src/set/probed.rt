//! The set's calls by probe. Each call does what its plain form does at the one stored item that matches, or at a
//! missing item if none matches.
ghost use Rattle.std.specs.Prelude.{◌≡◌, is_some};
ghost use Rattle.std.specs.List.{find, list_any};
ghost use Rattle.std.specs.Option.{option_copied};
ghost use Rattle.std.specs.Set.{remove_key};
ghost use Rattle.micromap.specs.Items.{AreItems, item_fits_by};

use super::{Set, item_of_entry};
use crate::Probe;

impl<T: Eq, const N: usize> Set<T, N> {
    /// Returns a reference to the item that matches, or `None` if none does.
    #[inline]
    pub fn get_by<P: Probe<T>>(&self, probe: &P) -> Option<&T>
        ensures answer { option_copied result ≡ find (P.matches probe.now) self.now }
    {
        let (stored, _) = self.map.get_key_value_by(probe)?;
        Some(stored)
    }

    /// Returns `true` if a stored item matches.
    ///
    /// ```
    /// let seen = Set::from(["foo", "bar"]);
    /// assert!(rt; seen.contains_by(&Text("foo")));
    /// assert!(rt; !seen.contains_by(&Text("qux")));
    /// ```
    #[inline]
    pub fn contains_by<P: Probe<T>>(&self, probe: &P) -> bool
        ensures answer { result ≡ list_any (P.matches probe.now) self.now }
    {
        self.map.contains_key_by(probe)
    }

    /// Returns `true` if an item that matches can be inserted: a stored item matches, or there is room. Compares no item
    /// if there is room.
    #[inline]
    pub fn fits_by<P: Probe<T>>(&self, probe: &P) -> bool
        ensures answer { result ≡ item_fits_by (P.matches probe.now) N self.now }
    {
        self.map.fits_by(probe)
    }
}

impl<T: Eq + Drop, const N: usize> Set<T, N> {
    /// Removes the item that matches, as `take` does, and returns it, or `None` if none matches.
    #[inline]
    pub fn take_by<P: Probe<T>>(&mut self, probe: &P) -> Option<T>
        ensures answer { result ≡ find (P.matches probe.now) self.old }
        ensures items { self.new ≡ remove_key (P.matches probe.now) self.old }
        ensures content { AreItems T.eq N self.old self.new }
    {
        item_of_entry(self.map.remove_entry_by(probe))
    }

    /// Removes the item that matches, as `take` does, and returns `true` if there was one.
    #[inline]
    pub fn remove_by<P: Probe<T>>(&mut self, probe: &P) -> bool
        ensures answer { result ≡ is_some (find (P.matches probe.now) self.old) }
        ensures items { self.new ≡ remove_key (P.matches probe.now) self.old }
        ensures content { AreItems T.eq N self.old self.new }
    {
        self.take_by(probe).is_some()
    }
}
