//! A cache that keeps what was used last: where it is full, a new key drops the least recently used one.
//!
//! The pairs stand in the order of their last use, so the first is the least recently used. Keys are compared by `==`
//! alone. A contract sees the cache as the list of its pairs, from the least recently used one on.
ghost use Rattle.std.specs.Prelude.{◌≡◌, ◌↔◌, ◌<◌, [], length, IsFalse, IsTrue, Some};
ghost use Rattle.std.specs.Borrow.{sem};
ghost use Rattle.std.specs.Map.Iter.{ShowsInOrder, deref_pair};
ghost use Rattle.std.specs.Option.{option_copied};
ghost use Rattle.micromap.specs.Pairs.{IsContent, at, fits, has, take_out};
ghost use Rattle.micromap_examples.specs.Recency.{displaced, last_keys, put_last, used, uses};
ghost use Rattle.micromap_examples.specs.CacheLends.{ends_as};

use micromap::Map;
use micromap::map::Iter;
use std::marker::Model;

/// At most `N` values by their keys.
#[derive(Drop)]
pub struct LruCache<K: Eq, V, const N: usize> {
    pairs: Map<K, V, N>,
}

impl<K: Eq, V, const N: usize> Model for LruCache<K, V, N> {
    ghost use Rattle.std.specs.Prelude.{List};

    ghost Value = { List (K × V) };

    ghost view = { λ cache. cache.pairs };
}

/// A call that uses a key.
#[derive(Debug, Clone, Copy, PartialEq, Eq)]
pub enum Call<K, V> {
    /// `get` of a key.
    Get(K),
    /// `put` of a pair.
    Put(K, V),
}

impl<K: Eq, V, const N: usize> LruCache<K, V, N> {
    /// Creates an empty cache.
    pub fn new() -> Self
        ensures { result ≡ [] }
    {
        LruCache { pairs: Map::new() }
    }

    /// Returns the number of pairs.
    pub fn len(&self) -> usize
        ensures answer { result ≡ length self.now }
        ensures content { IsContent K.eq N self.now }
    {
        self.pairs.len()
    }

    /// Returns `true` if there is no pair.
    pub fn is_empty(&self) -> bool
        ensures { IsTrue result ↔ self.now ≡ [] }
    {
        self.pairs.is_empty()
    }

    /// Returns the greatest number of pairs.
    pub fn capacity(&self) -> usize
        ensures { result ≡ N }
    {
        N
    }

    /// Returns the value of a key, and leaves the order as it is.
    pub fn peek(&self, key: &K) -> Option<&V>
        ensures { option_copied result ≡ at K.eq self.now key.now }
    {
        self.pairs.get(key)
    }

    /// Returns an iterator over the pairs, from the least recently used one on.
    pub fn iter(&self) -> Iter<'_, K, V>
        ensures answer { result ≡ self.now }
        ensures runs { ShowsInOrder (deref_pair {K = K} {X = V}) }
        ensures content { IsContent K.eq N self.now }
    {
        self.pairs.iter()
    }
}

impl<K: Eq + Drop, V: Drop, const N: usize> LruCache<K, V, N> {
    /// Returns the value of a key, whose pair becomes the most recently used one, or `None` if the key is missing.
    pub fn get(&mut self, key: &K) -> Option<&V>
        ensures* pairs { sem 𝓛 (ends_as K.row V.row N.row K.eq self.entry (used K.eq self.old key.now)) }
        ensures answer { option_copied result ≡ at K.eq self.old key.now }
    {
        if !renew(&mut self.pairs, key) {
            return None;
        }
        let (_key, value) = self.pairs.last()?;
        Some(value)
    }

    /// Stores a pair, which becomes the most recently used one, and returns the pair that leaves, if any.
    ///
    /// That is the pair that had its key. If the key is new and there is no room, it is the least recently used pair, and
    /// at capacity 0 the new pair itself.
    #[tactic(auto, using(micromap_core::proofs::Laws::MapLaws::map_laws))]
    pub fn put(&mut self, key: K, value: V) -> Option<(K, V)>
        ensures answer { result ≡ displaced K.eq N self.old key value }
        ensures pairs { self.new ≡ put_last K.eq N self.old key value }
        ensures found { 0 < N → at K.eq self.new key ≡ Some value }
        ensures content { IsContent K.eq N self.new }
    {
        if !self.pairs.fits(&key) {
            return push_out(&mut self.pairs, key, value);
        }
        let replaced = self.pairs.remove_entry(&key);
        self.pairs.insert(key, value);
        replaced
    }

    /// Removes the pair of a key, and returns its value, or `None` if the key is missing.
    pub fn remove(&mut self, key: &K) -> Option<V>
        ensures answer { result ≡ at K.eq self.old key.now }
        ensures pairs { self.new ≡ take_out K.eq self.old key.now }
    {
        self.pairs.remove(key)
    }
}

impl<K: Eq + Copy, V: Copy, const N: usize> LruCache<K, V, N> {
    /// Makes the calls one after the other.
    ///
    /// The cache then has the last `N` distinct keys that were used, in the order of their last use. What it had before
    /// counts as used in its order. A `get` of a key that isn't there uses none.
    pub fn run(&mut self, calls: &[Call<K, V>])
        ensures { self.new ≡ last_keys K.eq N (uses K.eq N self.old calls.now) }
    {
        let _known = self.len();
        for call in calls {
            match *call {
                Call::Get(key) => {
                    self.get(&key);
                }
                Call::Put(key, value) => {
                    self.put(key, value);
                }
            }
        }
    }
}

// Puts the pair of a key last, and returns whether there is one.
#[tactic(auto, using(micromap::proofs::Rules::caller, crate::proofs::RecencyLemmas::fits_found))]
fn renew<K: Eq + Drop, V: Drop, const N: usize>(pairs: &mut Map<K, V, N>, key: &K) -> bool
    ensures answer { result ≡ has K.eq pairs.old key.now }
    ensures pairs { pairs.new ≡ used K.eq pairs.old key.now }
{
    match pairs.remove_entry(key) {
        Some((stored, value)) => {
            pairs.insert(stored, value);
            true
        }
        None => false,
    }
}

// Puts a pair that doesn't fit in the place of the first, which it returns; or returns the pair itself if there is none.
#[tactic(auto, using(micromap_core::proofs::Laws::MapLaws::map_laws, crate::proofs::RecencyLemmas::put_refused))]
fn push_out<K: Eq + Drop, V: Drop, const N: usize>(
    pairs: &mut Map<K, V, N>,
    key: K,
    value: V,
) -> Option<(K, V)>
    requires { IsFalse (fits K.eq N pairs.old key) }
    ensures answer { result ≡ displaced K.eq N pairs.old key value }
    ensures pairs { pairs.new ≡ put_last K.eq N pairs.old key value }
    ensures found { 0 < N → at K.eq pairs.new key ≡ Some value }
    ensures content { IsContent K.eq N pairs.new }
{
    let Some(oldest) = pairs.pop_first() else {
        return Some((key, value));
    };
    pairs.insert(key, value);
    Some(oldest)
}
