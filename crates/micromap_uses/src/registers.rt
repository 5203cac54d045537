//! A struct of one's own around a map, generic in key and value.
#![tactic(auto, using(micromap::proofs::Rules::calls))]

ghost use Rattle.std.specs.Prelude.{◌≡◌, ◌↔◌, [], IsTrue, length};
ghost use Rattle.std.specs.Option.{option_copied};
ghost use Rattle.micromap.specs.Pairs.{IsContent, at, fits, put_if_fits, take_out};

use micromap::Map;
use std::marker::Model;

/// Values by keys of any type.
#[derive(Drop)]
pub struct Register<K: Eq, V, const N: usize> {
    entries: Map<K, V, N>,
}

impl<K: Eq, V, const N: usize> Model for Register<K, V, N> {
    ghost use Rattle.std.specs.Prelude.{List};

    ghost Value = { List (K × V) };

    ghost view = { λ r. r.entries };
}

impl<K: Eq, V, const N: usize> Register<K, V, N> {
    /// Creates an empty register.
    pub fn new() -> Self
        ensures { result ≡ [] }
    {
        Register {
            entries: Map::new(),
        }
    }

    /// Returns the number of values.
    /// A caller knows from this call that keys are distinct and fit, as from `len` of a map.
    pub fn len(&self) -> usize
        ensures answer { result ≡ length self.now }
        ensures content { IsContent K.eq N self.now }
    {
        self.entries.len()
    }

    /// Returns `true` if there is no value.
    pub fn is_empty(&self) -> bool
        ensures { IsTrue result ↔ self.now ≡ [] }
    {
        self.entries.is_empty()
    }

    /// Returns the value of a key.
    pub fn get(&self, key: &K) -> Option<&V>
        ensures { option_copied result ≡ at K.eq self.now key.now }
    {
        self.entries.get(key)
    }
}

impl<K: Eq + Drop, V: Drop, const N: usize> Register<K, V, N> {
    /// Puts a value if it fits, and returns `true` if it did.
    pub fn put(&mut self, key: K, value: V) -> bool
        ensures answer { result ≡ fits K.eq N self.old key }
        ensures entries { self.new ≡ put_if_fits K.eq N self.old key value }
    {
        self.entries.put(key, value)
    }

    /// Removes the value of a key, and returns it.
    pub fn remove(&mut self, key: &K) -> Option<V>
        ensures answer { result ≡ at K.eq self.old key.now }
        ensures entries { self.new ≡ take_out K.eq self.old key.now }
    {
        self.entries.remove(key)
    }
}
