//! Writing a set's items to a sink, and reading a set from a source, as the keys of pairs with the value `()`.
ghost use Rattle.std.specs.Prelude.{◌≡◌, ◌<◌, ◌++◌, Ok, OnOk, IfOk, IfErr, OnErr};
ghost use Rattle.std.specs.Map.{keys_of};
ghost use Rattle.micromap.specs.SetStream.{entries_of, SetReads};
ghost use Rattle.micromap.specs.Items.{IsItems};
ghost use Rattle.micromap.specs.Stream.{most_faults, stream_of, Faultless, Faults, TakesBeginning};

use super::Set;
use crate::Map;
use crate::stream::{EntrySink, EntrySource, ReadFault};

impl<T: Eq, const N: usize> Set<T, N> {
    /// Writes the items to the sink, from the front, up to the sink's first error, which is returned. Requires
    /// `sink.faults() < u128::MAX`.
    pub fn write_entries<S: EntrySink<T, ()>>(&self, sink: &mut S) -> Result<(), S::Error>
        requires { S.faults sink.old < most_faults }
        ensures whole { OnOk result (S.taken sink.new ≡ S.taken sink.old ++ entries_of self.now) }
        ensures faultless { OnOk result (Faultless S.faults S.last_fault sink.old sink.new) }
        ensures beginning { OnErr result
            (TakesBeginning (S.taken sink.old) (entries_of self.now) (S.taken sink.new)) }
        ensures fault { IfErr result (Faults S.faults S.last_fault sink.old sink.new) }
    {
        self.map.write_entries(sink)
    }
}

impl<T: Eq + Drop, const N: usize> Set<T, N> {
    /// Creates a set of the items left in the source, as `insert` inserts them.
    ///
    /// Requires `source.faults() < u128::MAX`. Ends and drops as `Map::read_entries` does. Makes one scan for each item.
    pub fn read_entries<S: EntrySource<T, ()>>(source: &mut S) -> Result<Self, ReadFault<S::Error>>
        requires { S.faults source.old < most_faults }
        ensures reads { let stream = stream_of S.left S.faults S.last_fault in
            SetReads T.eq N (stream source.old) (stream source.new) result }
        ensures content { IfOk result (IsItems T.eq N) }
        ensures round_trip { let items = keys_of (S.left source.old) in
            IsItems T.eq N items → S.faults source.new ≡ S.faults source.old → result ≡ Ok items }
    {
        match Map::read_entries(source) {
            Ok(map) => Ok(Set { map }),
            Err(fault) => Err(fault),
        }
    }
}
