//! Writing a map's pairs to a sink, and reading a map from a source.
ghost use Rattle.std.specs.Prelude.{◌≡◌, ◌<◌, ◌++◌, Ok, OnOk, IfErr, OnErr};
ghost use Rattle.micromap_core.specs.Pairs.{IsContent};
ghost use Rattle.micromap_core.specs.Stream.{most_faults, stream_of, Faultless, Faults, TakesBeginning, MapReads};

use super::Map;
use crate::stream::{EntrySink, EntrySource, ReadFault};

impl<K: Eq, V, const N: usize> Map<K, V, N> {
    /// Writes the pairs to the sink, from the front, up to the sink's first error, which is returned. Requires
    /// `sink.faults() < u128::MAX`.
    ///
    /// ```
    /// let map = Map::from([(1, 'a'), (2, 'b')]);
    /// let mut sink = VecSink::new(alloc);
    /// map.write_entries(&mut sink)?;
    /// assert!(rt; sink.entries() == [(1, 'a'), (2, 'b')].as_slice());
    /// ```
    pub fn write_entries<S: EntrySink<K, V>>(&self, sink: &mut S) -> Result<(), S::Error>
        requires { S.faults sink.old < most_faults }
        ensures whole { OnOk result (S.taken sink.new ≡ S.taken sink.old ++ self.now) }
        ensures faultless { OnOk result (Faultless S.faults S.last_fault sink.old sink.new) }
        ensures beginning { OnErr result (TakesBeginning (S.taken sink.old) self.now (S.taken sink.new)) }
        ensures fault { IfErr result (Faults S.faults S.last_fault sink.old sink.new) }
    {
        for (key, value) in self {
            sink.entry(key, value)?;
        }
        Ok(())
    }
}

impl<K: Eq + Drop, V: Drop, const N: usize> Map<K, V, N> {
    /// Creates a map of the pairs left in the source, as `insert` inserts them.
    ///
    /// Requires `source.faults() < u128::MAX`. Ends with the source, at its first error, or at the first pair that
    /// doesn't fit, and takes nothing after that. After an `Err` the pairs taken are dropped. Makes one scan for each
    /// pair.
    ///
    /// ```
    /// let pairs = [(1, 'a'), (1, 'b'), (2, 'c')];
    /// let map: Result<Map<u8, char, 2>, _> = Map::read_entries(&mut SliceSource::over(&pairs));
    /// assert!(rt; map.is_ok_and(|map| map.get(&1) == Some(&'b')));
    /// let small: Result<Map<u8, char, 1>, _> = Map::read_entries(&mut SliceSource::over(&pairs));
    /// assert!(rt; matches!(small, Err(ReadFault::TooMany)));
    /// ```
    pub fn read_entries<S: EntrySource<K, V>>(source: &mut S) -> Result<Self, ReadFault<S::Error>>
        requires { S.faults source.old < most_faults }
        ensures reads { let stream = stream_of S.left S.faults S.last_fault in
            MapReads K.eq N (stream source.old) (stream source.new) result }
        ensures round_trip { IsContent K.eq N (S.left source.old)
            → S.faults source.new ≡ S.faults source.old → result ≡ Ok (S.left source.old) }
    {
        let mut map = Map::new();
        loop {
            match source.next_entry() {
                Ok(Some((key, value))) => {
                    if map.checked_insert(key, value).is_none() {
                        return Err(ReadFault::TooMany);
                    }
                }
                Ok(None) => return Ok(map),
                Err(fault) => return Err(ReadFault::Source(fault)),
            }
        }
    }
}
