//! Building a set from an array or an iterator, and extending it. Of equal items the first is stored. Items are in the
//! order in which they first came.
ghost use Rattle.std.specs.Prelude.{◌≡◌, ◌↔◌, ◌<◌, ◌≤◌, [], fold, length, Some, IfSome, IfOk, OnOk, IfErr, OnErr, IsErr, IsNone, IsTrue};
ghost use Rattle.std.specs.Bool.{then_some};
ghost use Rattle.std.specs.Iterator.{IsFinite, UpTo};
ghost use Rattle.std.specs.Set.{distinct_count};
ghost use Rattle.micromap.specs.Build.{most_items, AllItems, ItemsUpTo, TakesAll};
ghost use Rattle.micromap.specs.Extend.{all_items_fit, distinct, put_all_items, put_item_or_refuse, ItemMisfitIn, PutsAllItems, PutsItemsBefore};
ghost use Rattle.micromap.specs.Items.{AreItems, IsItems, put_item_if_fits};

use super::Set;
use crate::Overfull;

impl<T: Eq + Drop, const N: usize> Set<T, N> {
    /// Inserts the items of an iterator one after the other, as `insert` does, or returns the position of the first that
    /// doesn't fit.
    ///
    /// Requires that the iterator ends, after fewer than `usize::MAX` items. After an `Err` the set is full, and has all
    /// items before that position. The item at it is dropped, and no later item is taken.
    ///
    /// ```
    /// let mut seen: Set<u8, 2> = Set::new();
    /// let ended = seen.try_extend([5, 5, 6, 7].into_iter());
    /// assert_eq!(rt; ended, Err(Overfull { at: 3 }));
    /// assert!(rt; seen.iter().eq(&[5, 6]));
    /// ```
    pub fn try_extend<I: Iterator<Item = T>>(&mut self, items: I) -> Result<(), Overfull>
        requires can { I.can_next items }
        requires ends { UpTo (I.remaining items) most_items }
        ensures whole { OnOk result (AllItems I.next_gives items (PutsAllItems T.eq N self.old self.new)) }
        ensures misfit { IfErr result (ItemsUpTo I.next_gives items (PutsItemsBefore T.eq N self.old self.new)) }
        ensures full { OnErr result (length self.new ≡ N) }
        ensures content { AreItems T.eq N self.old self.new }
    {
        // What is true of the set, for the contract: `len` ensures it.
        let _known = self.len();
        let mut position = 0;
        for x in items {
            if !self.put(x) {
                return Err(Overfull { at: position });
            }
            position += 1;
        }
        Ok(())
    }

    /// Creates a set of an iterator's items as `try_extend` inserts them, or returns the position of the first that
    /// doesn't fit.
    ///
    /// Requires that the iterator ends, after fewer than `usize::MAX` items. The result is `Err` exactly if more than
    /// `N` of the items are distinct. Then all items are dropped.
    ///
    /// ```
    /// let first = Set::from([1, 2]);
    /// let second = Set::from([2, 3]);
    ///
    /// let both: Set<i32, 4> = Set::try_from_iter(first.union(&second).copied())?;
    /// assert_eq!(rt; both.len(), 3);
    /// ```
    pub fn try_from_iter<I: Iterator<Item = T>>(items: I) -> Result<Self, Overfull>
        requires can { I.can_next items }
        requires ends { UpTo (I.remaining items) most_items }
        ensures whole { IfOk result (λ set. AllItems I.next_gives items (PutsAllItems T.eq N [] set)) }
        ensures misfit { IfErr result (ItemsUpTo I.next_gives items (ItemMisfitIn T.eq N [])) }
        ensures few { OnOk result (AllItems I.next_gives items (λ taken. distinct_count T.eq taken ≤ N)) }
        ensures many { IfErr result
            (ItemsUpTo I.next_gives items (λ taken _. N < distinct_count T.eq taken)) }
        ensures full { IfErr result (λ e. N ≤ e.at) }
        ensures content { IfOk result (IsItems T.eq N) }
    {
        let mut set = Set::new();
        set.try_extend(items)?;
        Ok(set)
    }

    // Inserts those of the items that fit, and returns whether all did.
    #[inline]
    #[tactic(auto, unfolding(crate::specs::Extend::put_item_or_refuse))]
    fn extend_fitting<I: Iterator<Item = T>>(&mut self, items: I) -> bool
        requires can { I.can_next items }
        requires ends { IsFinite (I.remaining items) }
        ensures built { TakesAll I.next_gives items (λ xs.
            (then_some result self.new ≡ fold (put_item_or_refuse T.eq N) (Some self.old) xs)
            × (self.new ≡ fold (put_item_if_fits T.eq N) self.old xs)) }
        ensures content { AreItems T.eq N self.old self.new }
    {
        // What is true of the set, for the contract: `len` ensures it.
        let _known = self.len();
        let mut all_fit = true;
        for x in items {
            all_fit &= self.put(x);
        }
        all_fit
    }

    /// Creates a set of all items of an iterator, as `insert` inserts them, or returns `None` if more than `N` of them
    /// are distinct.
    ///
    /// Requires that the iterator ends. Takes every item, even after one that doesn't fit.
    ///
    /// ```
    /// let halves: Option<Set<u8, 2>> = Set::from_all([4, 5, 6].iter().map(|x| *x / 2));
    /// assert_eq!(rt; halves.map(|set| set.len()), Some(2));
    /// ```
    pub fn from_all<I: Iterator<Item = T>>(items: I) -> Option<Self>
        requires can { I.can_next items }
        requires ends { IsFinite (I.remaining items) }
        ensures built { TakesAll I.next_gives items (λ xs. result ≡ fold (put_item_or_refuse T.eq N) (Some []) xs) }
        ensures many { AllItems I.next_gives items (λ taken. IsNone result ↔ (N < distinct_count T.eq taken)) }
        ensures content { IfSome result (IsItems T.eq N) }
    {
        let mut whole = Set::new();
        if whole.extend_fitting(items) {
            Some(whole)
        } else {
            None
        }
    }

    /// Creates a set of those items of an iterator that fit, as `checked_insert` inserts them. Requires that the
    /// iterator ends.
    pub fn from_fitting<I: Iterator<Item = T>>(items: I) -> Self
        requires can { I.can_next items }
        requires ends { IsFinite (I.remaining items) }
        ensures built { TakesAll I.next_gives items (λ xs. result ≡ fold (put_item_if_fits T.eq N) [] xs) }
        ensures content { IsItems T.eq N result }
    {
        let mut fitting = Set::new();
        fitting.extend_fitting(items);
        fitting
    }
}

impl<T: Eq + Copy, const N: usize> Set<T, N> {
    /// Inserts all items of another set, one after the other, as `insert` does. If they don't all fit, inserts none, and
    /// returns the position of the first that doesn't.
    ///
    /// The result is `Err` exactly if the two sets together have more than `N` distinct items. It costs what
    /// `Map::try_extend_from` costs.
    pub fn try_extend_from<const M: usize>(&mut self, other: &Set<T, M>) -> Result<(), Overfull>
        ensures items { OnOk result (self.new ≡ put_all_items T.eq self.old other.now) }
        ensures many { IsErr result ↔ (N < length (put_all_items T.eq self.old other.now)) }
        ensures misfit { IfErr result (λ e. ItemMisfitIn T.eq N self.old other.now e.at) }
        ensures unchanged { OnErr result (self.new ≡ self.old) }
        ensures content { AreItems T.eq N self.old self.new }
    {
        self.map.try_extend_from(&other.map)
    }
}

impl<T: Eq + Copy, const N: usize> From<[T; N]> for Set<T, N> {
    ghost from_gives = { λ items set. (set ≡ distinct T.eq items) × IsTrue (all_items_fit T.eq N items) × IsItems T.eq N set };

    /// Creates a set of the items of an array, which all fit: each distinct item as it first came. Makes one scan for
    /// each item.
    ///
    /// ```
    /// let set = Set::from([2, 1, 2]);
    /// assert_eq!(rt; set.capacity(), 3);
    /// assert!(rt; set.iter().eq(&[2, 1]));
    /// ```
    fn from(items: [T; N]) -> Self {
        let mut set = Set::new();
        for index in 0..N {
            set.insert(items[index]);
        }
        set
    }
}
