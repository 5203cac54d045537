//! The ten keyed calls of a map, for every type of keys and values: each returns and leaves what `Calls` says of it.
//!
//! `lockstep` performs these calls on keys and values that are `Copy`, since it hands each to two maps.
ghost use Rattle.std.specs.Prelude.{◌≡◌, IsTrue};
ghost use Rattle.std.specs.Map.Iter.{deref_pair};
ghost use Rattle.std.specs.Option.{option_copied, option_map};
ghost use Rattle.micromap.specs.Calls.{answer, after, insert, insert_key_value, get, get_key_value, contains, remove, remove_entry, len, is_empty, clear, value, entry, truth, number, done};
ghost use Rattle.micromap.specs.Pairs.{fits};

use micromap::Map;

/// `Map::insert` returns and leaves what `Calls` says of `insert`.
pub fn insert<K: Eq + Drop, V: Drop, const N: usize>(
    map: &mut Map<K, V, N>,
    key: K,
    new: V,
) -> Option<V>
    requires { IsTrue (fits K.eq N map.old key) }
    ensures answer { answer K.eq N map.old (insert key new) ≡ value result }
    ensures after { map.new ≡ after K.eq N map.old (insert key new) }
{
    map.insert(key, new)
}

/// `Map::insert_key_value` returns and leaves what `Calls` says of `insert_key_value`.
pub fn insert_key_value<K: Eq + Drop, V: Drop, const N: usize>(
    map: &mut Map<K, V, N>,
    key: K,
    new: V,
) -> Option<(K, V)>
    requires { IsTrue (fits K.eq N map.old key) }
    ensures answer { answer K.eq N map.old (insert_key_value key new) ≡ entry result }
    ensures after { map.new ≡ after K.eq N map.old (insert_key_value key new) }
{
    map.insert_key_value(key, new)
}

/// `Map::get` returns what `Calls` says of `get`.
pub fn get<'a, K: Eq, V, const N: usize>(map: &'a Map<K, V, N>, key: &K) -> Option<&'a V>
    ensures { answer K.eq N map.now (get key.now) ≡ value (option_copied result) }
{
    map.get(key)
}

/// `Map::get_key_value` returns what `Calls` says of `get_key_value`.
pub fn get_key_value<'a, K: Eq, V, const N: usize>(
    map: &'a Map<K, V, N>,
    key: &K,
) -> Option<(&'a K, &'a V)>
    ensures { answer K.eq N map.now (get_key_value key.now) ≡ entry (option_map deref_pair result) }
{
    map.get_key_value(key)
}

/// `Map::contains_key` returns what `Calls` says of `contains`.
pub fn contains_key<K: Eq, V, const N: usize>(map: &Map<K, V, N>, key: &K) -> bool
    ensures { answer K.eq N map.now (contains key.now) ≡ truth result }
{
    map.contains_key(key)
}

/// `Map::remove` returns and leaves what `Calls` says of `remove`.
pub fn remove<K: Eq + Drop, V: Drop, const N: usize>(map: &mut Map<K, V, N>, key: &K) -> Option<V>
    ensures answer { answer K.eq N map.old (remove key.now) ≡ value result }
    ensures after { map.new ≡ after K.eq N map.old (remove key.now) }
{
    map.remove(key)
}

/// `Map::remove_entry` returns and leaves what `Calls` says of `remove_entry`.
pub fn remove_entry<K: Eq + Drop, V: Drop, const N: usize>(
    map: &mut Map<K, V, N>,
    key: &K,
) -> Option<(K, V)>
    ensures answer { answer K.eq N map.old (remove_entry key.now) ≡ entry result }
    ensures after { map.new ≡ after K.eq N map.old (remove_entry key.now) }
{
    map.remove_entry(key)
}

/// `Map::len` returns what `Calls` says of `len`.
pub fn len<K: Eq, V, const N: usize>(map: &Map<K, V, N>) -> usize
    ensures { answer K.eq N map.now len ≡ number result }
{
    map.len()
}

/// `Map::is_empty` returns what `Calls` says of `is_empty`.
pub fn is_empty<K: Eq, V, const N: usize>(map: &Map<K, V, N>) -> bool
    ensures { answer K.eq N map.now is_empty ≡ truth result }
{
    map.is_empty()
}

/// `Map::clear` leaves what `Calls` says of `clear`.
pub fn clear<K: Eq + Drop, V: Drop, const N: usize>(map: &mut Map<K, V, N>)
    ensures answer { answer K.eq N map.old clear ≡ done }
    ensures after { map.new ≡ after K.eq N map.old clear }
{
    map.clear();
}
