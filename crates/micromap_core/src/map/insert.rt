//! Inserting a pair.
#![tactic(auto, using(crate::proofs::Opened::opened_map))]

ghost use Rattle.std.specs.Prelude.{◌≡◌, Some, None, Ok, Err, IsTrue, if◌then◌else◌};
ghost use Rattle.micromap_core.specs.declared.insert_error.InsertError.TheVariants.{Occupied, Full};
ghost use Rattle.micromap_core.specs.Pairs.{AreContents, at, pair, fits, has, has_room, put, put_if_fits, put_key};

use super::Map;
use crate::InsertError;

impl<K: Eq + Drop, V: Drop, const N: usize> Map<K, V, N> {
    /// Inserts the pair, and returns the old value, or `None` if the key is new.
    ///
    /// Requires `fits(&key)`. A stored key stays, and its value is replaced. A new pair goes last.
    ///
    /// ```
    /// let mut map: Map<u8, char, 1> = Map::new();
    /// assert_eq!(rt; map.insert(1, 'a'), None);
    /// if map.fits(&1) {
    ///     assert_eq!(rt; map.insert(1, 'b'), Some('a'));
    /// }
    /// assert_eq!(rt; map.get(&1), Some(&'b'));
    /// ```
    #[inline]
    pub fn insert(&mut self, key: K, value: V) -> Option<V>
        requires { IsTrue (fits K.eq N self.old key) }
        ensures old { result ≡ at K.eq self.old key }
        ensures pairs { self.new ≡ put K.eq self.old key value }
        ensures content { AreContents K.eq N self.old self.new }
    {
        match self.index_of(&key) {
            Some(index) => Some(self.replace_value_at(index, value)),
            None => {
                self.push_pair(key, value);
                None
            }
        }
    }

    /// Does what `insert` does, and requires the same. It is safe, and kept for ported code.
    #[inline]
    pub fn insert_unchecked(&mut self, key: K, value: V) -> Option<V>
        requires { IsTrue (fits K.eq N self.old key) }
        ensures old { result ≡ at K.eq self.old key }
        ensures pairs { self.new ≡ put K.eq self.old key value }
        ensures content { AreContents K.eq N self.old self.new }
    {
        self.insert(key, value)
    }

    /// Inserts the pair, and returns the old pair, or `None` if the key is new.
    ///
    /// Requires `fits(&key)`. A stored pair is replaced, with its key. A new pair goes last.
    ///
    /// ```
    /// let mut map = Map::from([(1, 'a'), (2, 'b')]);
    /// assert!(rt; map.fits(&2));
    /// assert_eq!(rt; map.insert_key_value(2, 'c'), Some((2, 'b')));
    /// ```
    #[inline]
    pub fn insert_key_value(&mut self, key: K, value: V) -> Option<(K, V)>
        requires { IsTrue (fits K.eq N self.old key) }
        ensures old { result ≡ pair K.eq self.old key }
        ensures pairs { self.new ≡ put_key K.eq self.old key value }
        ensures content { AreContents K.eq N self.old self.new }
    {
        match self.index_of(&key) {
            Some(index) => Some(self.put_key_at(index, key, value)),
            None => {
                self.push_pair(key, value);
                None
            }
        }
    }

    /// Inserts the pair if it fits. Returns `Some(Some(old))` at a stored key, `Some(None)` at a new one, else `None`.
    ///
    /// A stored key stays, and its value is replaced, in a full map too. A new pair goes last, or is dropped if the map
    /// is full.
    ///
    /// ```
    /// let mut map: Map<u64, &str, 2> = Map::new();
    /// assert_eq!(rt; map.checked_insert(1, "foo"), Some(None));
    /// assert_eq!(rt; map.checked_insert(2, "bar"), Some(None));
    /// assert_eq!(rt; map.checked_insert(1, "baz"), Some(Some("foo")));
    /// assert_eq!(rt; map.checked_insert(3, "qux"), None);
    /// ```
    #[inline]
    pub fn checked_insert(&mut self, key: K, value: V) -> Option<Option<V>>
        ensures answer { result ≡ (if fits K.eq N self.old key then Some (at K.eq self.old key) else None) }
        ensures pairs { self.new ≡ put_if_fits K.eq N self.old key value }
        ensures content { AreContents K.eq N self.old self.new }
    {
        match self.index_of(&key) {
            Some(index) => Some(Some(self.replace_value_at(index, value))),
            None if self.has_room() => {
                self.push_pair(key, value);
                Some(None)
            }
            None => None,
        }
    }

    /// Inserts the pair as `checked_insert` does, and returns `true` if it fits.
    ///
    /// ```
    /// let mut map: Map<u8, char, 1> = Map::new();
    /// assert!(rt; map.put(1, 'a'));
    /// assert!(rt; map.put(1, 'b'));
    /// assert!(rt; !map.put(2, 'c'));
    /// assert_eq!(rt; map.get(&1), Some(&'b'));
    /// ```
    #[inline]
    pub fn put(&mut self, key: K, value: V) -> bool
        ensures answer { result ≡ fits K.eq N self.old key }
        ensures pairs { self.new ≡ put_if_fits K.eq N self.old key value }
        ensures content { AreContents K.eq N self.old self.new }
    {
        match self.index_of(&key) {
            Some(index) => {
                self.replace_value_at(index, value);
                true
            }
            None if self.has_room() => {
                self.push_pair(key, value);
                true
            }
            None => false,
        }
    }

    /// Inserts the pair last if its key is new and there is room. Returns `Err(Occupied((key, value)))` if an equal key
    /// is stored, and `Err(Full((key, value)))` if the key is new and the map is full.
    ///
    /// After an `Err` the map is unchanged.
    ///
    /// ```
    /// let mut map: Map<u64, &str, 1> = Map::new();
    /// assert_eq!(rt; map.try_insert(1, "foo"), Ok(()));
    /// let stored = map.try_insert(1, "bar");
    /// assert_eq!(rt; stored, Err(InsertError::Occupied((1, "bar"))));
    /// let refused = map.try_insert(2, "baz");
    /// assert_eq!(rt; refused, Err(InsertError::Full((2, "baz"))));
    /// ```
    #[inline]
    pub fn try_insert(&mut self, key: K, value: V) -> Result<(), InsertError<(K, V)>>
        ensures answer { result ≡ (if has K.eq self.old key then Err (Occupied (key, value))
            else if has_room N self.old then Ok tt else Err (Full (key, value))) }
        ensures pairs { self.new ≡ (if has K.eq self.old key then self.old
            else put_if_fits K.eq N self.old key value) }
        ensures content { AreContents K.eq N self.old self.new }
    {
        match self.index_of(&key) {
            Some(_) => Err(InsertError::Occupied((key, value))),
            None if self.has_room() => {
                self.push_pair(key, value);
                Ok(())
            }
            None => Err(InsertError::Full((key, value))),
        }
    }
}
