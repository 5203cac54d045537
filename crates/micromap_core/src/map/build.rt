//! Building a map from an array or an iterator, and extending it. Keys are in the order in which they first came. Each
//! key has the value of its last item.
ghost use Rattle.std.specs.Prelude.{◌≡◌, ◌↔◌, ◌<◌, ◌≤◌, [], fold, length, Some, IsTrue, IfSome, IfOk, OnOk, IfErr, OnErr, IsErr, IsNone};
ghost use Rattle.std.specs.Bool.{then_some};
ghost use Rattle.std.specs.Iterator.{IsFinite, UpTo};
ghost use Rattle.std.specs.Map.{keys_of};
ghost use Rattle.std.specs.Option.{unwrap_or};
ghost use Rattle.std.specs.Set.{distinct_count};
ghost use Rattle.micromap_core.specs.Build.{all_fit, build, count_one, count_or_refuse, most_items, put_all, put_fitting, put_or_refuse, put_pair_if_fits, AllItems, ItemsUpTo, MisfitIn, PutsAll, PutsBefore, TakesAll};
ghost use Rattle.micromap_core.specs.Pairs.{at, fits, AreContents, IsContent, IsUnique};

use super::Map;
use crate::overfull::Overfull;
use micromap_walk::Columns;

impl<K: Eq + Copy, V: Copy, const N: usize> From<[(K, V); N]> for Map<K, V, N> {
    ghost from_gives = { λ items map. (map ≡ build K.eq items) × IsTrue (all_fit K.eq N items) × IsContent K.eq N map };

    /// Creates a map of the items of an array, which all fit: each distinct key as it first came, with the value of its
    /// last item.
    ///
    /// Compares any two keys at most once. If some are equal, makes one scan for each item as well.
    ///
    /// ```
    /// let map = Map::from([(1, 'a'), (2, 'b'), (1, 'c')]);
    /// assert_eq!(rt; map.capacity(), 3);
    /// assert!(rt; map.into_iter().eq([(1, 'c'), (2, 'b')]));
    /// ```
    fn from(items: [(K, V); N]) -> Self {
        if !are_distinct(&items) {
            return from_repeated(items);
        }
        let mut pairs = Columns::new();
        for index in 0..N {
            let item = items[index];
            pairs.push(item.0, item.1);
        }
        Map { pairs }
    }
}

// Returns `true` if no two items have equal keys. A row of comparisons has no early exit, so that the compiler can make
// several at once.
#[inline]
fn are_distinct<K: Eq, V, const N: usize>(items: &[(K, V); N]) -> bool
    ensures { IsTrue result → IsUnique K.eq items.now }
{
    let mut rest = items.as_slice().iter();
    while let Some(item) = rest.next() {
        let mut repeated = false;
        for later in rest.as_slice() {
            repeated |= item.0 == later.0;
        }
        if repeated {
            return false;
        }
    }
    true
}

// Inserts the items of an array one after the other. It stands apart, so that no branch of `from` writes to the map that
// is made without a scan: such a map is built in registers or in its place.
#[inline(never)]
fn from_repeated<K: Eq + Copy, V: Copy, const N: usize>(items: [(K, V); N]) -> Map<K, V, N>
    ensures made { result ≡ build K.eq items }
    ensures fit { IsTrue (all_fit K.eq N items) }
    ensures content { IsContent K.eq N result }
{
    let mut map = Map::new();
    for index in 0..N {
        let item = items[index];
        map.insert(item.0, item.1);
    }
    map
}

impl<K: Eq + Drop, V: Drop, const N: usize> Map<K, V, N> {
    /// Inserts the items of an iterator one after the other, as `insert` does, or returns the position of the first that
    /// doesn't fit.
    ///
    /// Requires that the iterator ends, after fewer than `usize::MAX` items. After an `Err`, the map is full, and has
    /// all items before that position. The item at it is dropped, and no later item is taken.
    ///
    /// ```
    /// let mut map: Map<u8, char, 2> = Map::new();
    /// let ended = map.try_extend([(1, 'a'), (2, 'b'), (1, 'c'), (3, 'd')].into_iter());
    /// assert_eq!(rt; ended, Err(Overfull { at: 3 }));
    /// assert!(rt; map.into_iter().eq([(1, 'c'), (2, 'b')]));
    /// ```
    pub fn try_extend<I: Iterator<Item = (K, V)>>(&mut self, items: I) -> Result<(), Overfull>
        requires can { I.can_next items }
        requires ends { UpTo (I.remaining items) most_items }
        ensures whole { OnOk result (AllItems I.next_gives items (PutsAll K.eq N self.old self.new)) }
        ensures misfit { IfErr result (ItemsUpTo I.next_gives items (PutsBefore K.eq N self.old self.new)) }
        ensures full { OnErr result (length self.new ≡ N) }
        ensures content { AreContents K.eq N self.old self.new }
    {
        // What is true of the map, for the contract: `len` ensures it.
        let _known = self.len();
        let mut position = 0;
        for (key, value) in items {
            if !self.put(key, value) {
                return Err(Overfull { at: position });
            }
            position += 1;
        }
        Ok(())
    }

    /// Creates a map of an iterator's items as `try_extend` inserts them, or returns the position of the first that
    /// doesn't fit.
    ///
    /// Requires that the iterator ends, after fewer than `usize::MAX` items. The result is `Err` exactly if the items
    /// have more than `N` distinct keys. Then all items are dropped.
    ///
    /// ```
    /// let items = [(1, 'a'), (2, 'b'), (1, 'c')];
    /// let map: Result<Map<u8, char, 2>, Overfull> = Map::try_from_iter(items.into_iter());
    /// assert!(rt; map.is_ok_and(|map| map.get(&1) == Some(&'c')));
    /// let small: Result<Map<u8, char, 1>, Overfull> = Map::try_from_iter(items.into_iter());
    /// assert!(rt; matches!(small, Err(Overfull { at: 1 })));
    /// ```
    pub fn try_from_iter<I: Iterator<Item = (K, V)>>(items: I) -> Result<Self, Overfull>
        requires can { I.can_next items }
        requires ends { UpTo (I.remaining items) most_items }
        ensures whole { IfOk result (λ map. AllItems I.next_gives items (PutsAll K.eq N [] map)) }
        ensures misfit { IfErr result (ItemsUpTo I.next_gives items (MisfitIn K.eq N [])) }
        ensures few { OnOk result
            (AllItems I.next_gives items (λ taken. distinct_count K.eq (keys_of taken) ≤ N)) }
        ensures many { IfErr result
            (ItemsUpTo I.next_gives items (λ taken _. N < distinct_count K.eq (keys_of taken))) }
        ensures full { IfErr result (λ e. N ≤ e.at) }
        ensures content { IfOk result (IsContent K.eq N) }
    {
        let mut map = Map::new();
        map.try_extend(items)?;
        Ok(map)
    }

    // Inserts those of the items that fit, and returns whether all did.
    #[inline]
    #[tactic(auto, unfolding(crate::specs::Build::put_or_refuse))]
    fn extend_fitting<I: Iterator<Item = (K, V)>>(&mut self, items: I) -> bool
        requires can { I.can_next items }
        requires ends { IsFinite (I.remaining items) }
        ensures built { TakesAll I.next_gives items (λ xs.
            (then_some result self.new ≡ fold (put_or_refuse K.eq N) (Some self.old) xs)
            × (self.new ≡ fold (put_pair_if_fits K.eq N) self.old xs)) }
        ensures content { AreContents K.eq N self.old self.new }
    {
        // What is true of the map if there is no item, for the contract: `len` ensures it.
        let _known = self.len();
        let mut all_fit = true;
        for (key, value) in items {
            all_fit &= self.put(key, value);
        }
        all_fit
    }

    /// Creates a map of all items of an iterator, as `insert` inserts them, or returns `None` if they have more than `N`
    /// distinct keys.
    ///
    /// Requires that the iterator ends. Takes every item, even after one that doesn't fit.
    ///
    /// ```
    /// let items = [(1, 'a'), (2, 'b'), (1, 'c')];
    /// let map: Option<Map<u8, char, 2>> = Map::from_all(items.into_iter());
    /// assert!(rt; map.is_some_and(|map| map.get(&1) == Some(&'c')));
    /// let small: Option<Map<u8, char, 1>> = Map::from_all(items.into_iter());
    /// assert!(rt; small.is_none());
    /// ```
    pub fn from_all<I: Iterator<Item = (K, V)>>(items: I) -> Option<Self>
        requires can { I.can_next items }
        requires ends { IsFinite (I.remaining items) }
        ensures built { TakesAll I.next_gives items (λ xs. result ≡ fold (put_or_refuse K.eq N) (Some []) xs) }
        ensures many { AllItems I.next_gives items (λ taken.
            IsNone result ↔ (N < distinct_count K.eq (keys_of taken))) }
        ensures content { IfSome result (IsContent K.eq N) }
    {
        let mut whole = Map::new();
        if whole.extend_fitting(items) {
            Some(whole)
        } else {
            None
        }
    }

    /// Creates a map of those items of an iterator that fit, as `checked_insert` inserts them. Requires that the
    /// iterator ends.
    ///
    /// ```
    /// let items = [(1, 'a'), (2, 'b'), (1, 'c')];
    /// let map: Map<u8, char, 1> = Map::from_fitting(items.into_iter());
    /// assert!(rt; map.into_iter().eq([(1, 'c')]));
    /// ```
    pub fn from_fitting<I: Iterator<Item = (K, V)>>(items: I) -> Self
        requires can { I.can_next items }
        requires ends { IsFinite (I.remaining items) }
        ensures built { TakesAll I.next_gives items (λ xs. result ≡ fold (put_pair_if_fits K.eq N) [] xs) }
        ensures content { IsContent K.eq N result }
    {
        let mut fitting = Map::new();
        fitting.extend_fitting(items);
        fitting
    }
}

impl<K: Eq + Copy, V: Copy, const N: usize> Map<K, V, N> {
    /// Inserts all pairs of another map, one after the other, as `insert` does. If they don't all fit, inserts none, and
    /// returns the position of the first that doesn't.
    ///
    /// The result is `Err` exactly if the two maps together have more than `N` distinct keys. Works on a copy of this
    /// map if there might not be room for all, and makes one scan for each pair of `other`.
    ///
    /// ```
    /// let mut prices: Map<u8, u32, 2> = Map::from([(1, 10), (2, 20)]);
    /// assert_eq!(rt; prices.try_extend_from(&Map::from([(2, 25)])), Ok(()));
    /// let ended = prices.try_extend_from(&Map::from([(1, 15), (3, 30)]));
    /// assert_eq!(rt; ended, Err(Overfull { at: 1 }));
    /// assert!(rt; prices.into_iter().eq([(1, 10), (2, 25)]));
    /// ```
    pub fn try_extend_from<const M: usize>(&mut self, other: &Map<K, V, M>) -> Result<(), Overfull>
        ensures pairs { OnOk result (self.new ≡ put_all K.eq self.old other.now) }
        ensures many { IsErr result ↔ (N < length (put_all K.eq self.old other.now)) }
        ensures misfit { IfErr result (λ e. MisfitIn K.eq N self.old other.now e.at) }
        ensures unchanged { OnErr result (self.new ≡ self.old) }
        ensures content { AreContents K.eq N self.old self.new }
    {
        if other.len() <= N - self.len() {
            return self.put_each(other);
        }
        let mut all = self.copied();
        all.put_each(other)?;
        *self = all;
        Ok(())
    }

    // Inserts the pairs of another map one after the other, or returns the position of the first that doesn't fit.
    #[inline]
    fn put_each<const M: usize>(&mut self, other: &Map<K, V, M>) -> Result<(), Overfull>
        ensures pairs { OnOk result (self.new ≡ put_all K.eq self.old other.now) }
        ensures many { IsErr result ↔ (N < length (put_all K.eq self.old other.now)) }
        ensures misfit { IfErr result (λ e. MisfitIn K.eq N self.old other.now e.at) }
        ensures content { AreContents K.eq N self.old self.new }
    {
        // What is true of the map if `other` is empty, for the contract: `len` ensures it.
        let _known = self.len();
        let mut position = 0;
        for (key, value) in other {
            if !self.put(*key, *value) {
                return Err(Overfull { at: position });
            }
            position += 1;
        }
        Ok(())
    }
}

impl<K: Eq + Drop, const N: usize> Map<K, usize, N> {
    /// Creates a map of an iterator's distinct items, as they first came, each with the number of times that it came, or
    /// returns `None` if more than `N` are distinct.
    ///
    /// Requires that the iterator ends, after fewer than `usize::MAX` items. Takes every item, even after one that
    /// doesn't fit.
    ///
    /// ```
    /// let votes = ["foo", "bar", "foo"];
    /// let counts: Option<Map<&str, usize, 2>> = Map::counts_of(votes.into_iter());
    /// assert_eq!(rt; counts, Some(Map::from([("foo", 2), ("bar", 1)])));
    /// ```
    #[tactic(auto, unfolding(crate::specs::Build::count_or_refuse))]
    pub fn counts_of<I: Iterator<Item = K>>(items: I) -> Option<Self>
        requires can { I.can_next items }
        requires ends { UpTo (I.remaining items) most_items }
        ensures built { TakesAll I.next_gives items (λ xs. result ≡ fold (count_or_refuse K.eq N) (Some []) xs) }
        ensures many { AllItems I.next_gives items (λ taken. IsNone result ↔ (N < distinct_count K.eq taken)) }
        ensures content { IfSome result (IsContent K.eq N) }
    {
        let mut counts = Map::new();
        let mut all_fit = true;
        for item in items {
            all_fit &= counts.count(item);
        }
        if all_fit { Some(counts) } else { None }
    }

    // Counts the item if it fits, and returns whether it does.
    #[inline]
    #[tactic(auto, using(crate::proofs::Opened::opened_map))]
    fn count(&mut self, item: K) -> bool
        requires { unwrap_or (at K.eq self.old item) 0 ≤ most_items }
        ensures answer { result ≡ fits K.eq N self.old item }
        ensures counts { self.new ≡ put_fitting (fits K.eq N) (count_one K.eq) self.old item }
        ensures content { IsContent K.eq N self.new }
    {
        match self.index_of(&item) {
            Some(index) => {
                *self.value_at_mut(index) += 1;
                true
            }
            None if self.has_room() => {
                self.push_pair(item, 1);
                true
            }
            None => false,
        }
    }
}
