//! Maps and sets written to sinks and read from sources, what stands after a fault of either, and a caller that is
//! proved to read back what it wrote.
ghost use Rattle.std.specs.Prelude.{◌≡◌, IfOk, IfSome, Some, None, if◌then◌else◌, length, nat_eq, nat_le};
ghost use Rattle.std.specs.Map.{keys_of};
ghost use Rattle.micromap.specs.Extend.{distinct};

use micromap::stream::{EntrySink, EntrySource, ReadFault, SliceSource, VecSink};
use micromap::{Map, Set};
use micromap_testing::{debugs, displays};
use std::alloc::{AllocError, Global};
use std::fmt;

// A fault of the two streams below, with the number of pairs that were taken or left.
#[derive(Debug, Clone, Copy, PartialEq, Eq)]
enum Fault {
    Memory,
    At(usize),
}

impl fmt::Display for Fault {
    fn fmt<W: fmt::Write>(&self, f: &mut fmt::Formatter<W>) -> fmt::Result {
        match self {
            Fault::Memory => f.write_str("no memory"),
            Fault::At(entries) => write!(f, "refused at {entries}"),
        }
    }
}

// A sink that refuses each pair while it has taken this many.
#[derive(Drop)]
struct RefusingSink {
    taken: Vec<(u8, u8)>,
    refuses_at: usize,
    faults: u128,
    last_fault: Option<Fault>,
}

impl RefusingSink {
    fn new(alloc: Global, refuses_at: usize) -> Result<Self, AllocError>
        ensures { IfOk result (λ s. s.faults ≡ 0) }
    {
        Ok(RefusingSink {
            taken: Vec::with_capacity(alloc, 8)?,
            refuses_at,
            faults: 0,
            last_fault: None,
        })
    }
}

impl EntrySink<u8, u8> for RefusingSink {
    type Error = Fault;

    ghost taken = { λ s. s.taken.items };

    ghost faults = { λ s. s.faults };

    ghost last_fault = { λ s. s.last_fault };

    fn faults(&self) -> u128 {
        self.faults
    }

    fn entry(&mut self, key: &u8, value: &u8) -> Result<(), Fault> {
        let fault = if self.taken.len() == self.refuses_at {
            Fault::At(self.refuses_at)
        } else if self.taken.push((*key, *value)).is_ok() {
            return Ok(());
        } else {
            Fault::Memory
        };
        self.faults += 1;
        self.last_fault = Some(fault);
        Err(fault)
    }
}

// A source that refuses to give a pair while it has this many left.
#[derive(Drop)]
struct RefusingSource<'a, V> {
    left: &'a [(u8, V)],
    refuses_at: usize,
    fault: u8,
    faults: u128,
    last_fault: Option<u8>,
}

impl<'a, V: Copy> EntrySource<u8, V> for RefusingSource<'a, V> {
    type Error = u8;

    ghost left = { λ s. s.left.now };

    ghost faults = { λ s. s.faults };

    ghost last_fault = { λ s. s.last_fault };

    fn faults(&self) -> u128 {
        self.faults
    }

    fn next_entry(&mut self) -> Result<Option<(u8, V)>, u8> {
        if self.left.len() == self.refuses_at {
            let fault = self.fault;
            self.faults += 1;
            self.last_fault = Some(fault);
            return Err(fault);
        }
        match self.left.split_first() {
            Some((entry, rest)) => {
                self.left = rest;
                Ok(Some(*entry))
            }
            None => Ok(None),
        }
    }
}

// The pairs of the map in another capacity, by way of a list, or `None` where they don't fit.
fn in_capacity<const N: usize, const M: usize>(
    alloc: Global,
    map: &Map<u8, u8, N>,
) -> Result<Option<Map<u8, u8, M>>, AllocError>
    ensures { IfOk result (λ read. read ≡ (if nat_le (length map.now) M then Some map.now else None)) }
{
    if map.len() > M {
        return Ok(None);
    }
    let mut sink = VecSink::new(alloc);
    map.write_entries(&mut sink)?;
    Ok(Map::read_entries(&mut SliceSource::over(sink.entries())).ok())
}

// The distinct items of the entries, or `None` where they don't fit.
fn items_of<const N: usize>(entries: &[(u8, ())]) -> Option<Set<u8, N>>
    ensures { IfSome result (λ set. set ≡ distinct nat_eq (keys_of entries.now)) }
{
    match Set::read_entries(&mut SliceSource::over(entries)) {
        Ok(set) => Some(set),
        Err(_) => None,
    }
}

#[test]
fn what_was_written_is_read_in_any_capacity_that_holds_it(
    rt: HostRuntime,
) -> Result<(), AllocError> {
    let alloc = rt.alloc();
    let map: Map<u8, u8, 4> = [(3, 30), (1, 10), (3, 30), (1, 10)].into();
    let tight: Option<Map<u8, u8, 2>> = in_capacity(alloc, &map)?;
    assert!(rt; tight.is_some_and(|mut tight| tight.drain().eq([(3, 30), (1, 10)])));
    let wide: Option<Map<u8, u8, 5>> = in_capacity(alloc, &map)?;
    assert!(rt; wide.is_some_and(|mut wide| wide.drain().eq([(3, 30), (1, 10)])));
    let small: Option<Map<u8, u8, 1>> = in_capacity(alloc, &map)?;
    assert!(rt; small.is_none());
    Ok(())
}

#[test]
fn a_repeated_key_has_its_last_value(rt: HostRuntime) {
    let mut source = SliceSource::over(&[(1, "a"), (1, "b")]);
    match Map::<u8, &str, 1>::read_entries(&mut source) {
        Ok(mut map) => assert!(rt; map.drain().eq([(1, "b")])),
        Err(_) => assert!(rt; false),
    }
}

#[test]
fn an_empty_source_fits_everywhere(rt: HostRuntime) {
    let mut source: SliceSource<'_, u8, u8> = SliceSource::over(&[]);
    assert!(rt; Map::<u8, u8, 0>::read_entries(&mut source).is_ok_and(|map| map.is_empty()));
    let mut source: SliceSource<'_, u8, ()> = SliceSource::over(&[]);
    assert!(rt; Set::<u8, 0>::read_entries(&mut source).is_ok_and(|set| set.is_empty()));
    assert!(rt;
        items_of::<2>(&[(1, ()), (2, ()), (1, ())]).is_some_and(|set| set.iter().eq(&[1, 2]))
    );
}

#[test]
fn the_less_room_the_more_is_left(rt: HostRuntime) {
    let mut source = SliceSource::over(&[(1, "a"), (2, "b"), (3, "c")]);
    let two: Result<Map<u8, &str, 2>, _> = Map::read_entries(&mut source);
    assert!(rt; matches!(two, Err(ReadFault::TooMany)));
    assert!(rt; source.left().is_empty());
    let mut source = SliceSource::over(&[(1, "a"), (2, "b"), (3, "c")]);
    let one: Result<Map<u8, &str, 1>, _> = Map::read_entries(&mut source);
    assert!(rt; matches!(one, Err(ReadFault::TooMany)));
    assert!(rt; source.left() == [(3, "c")].as_slice());
    let mut source = SliceSource::over(&[(1, "a"), (2, "b"), (3, "c")]);
    let none: Result<Map<u8, &str, 0>, _> = Map::read_entries(&mut source);
    assert!(rt; matches!(none, Err(ReadFault::TooMany)));
    assert!(rt; source.left() == [(2, "b"), (3, "c")].as_slice());
}

#[test]
fn a_sink_may_fail_at_each_entry(rt: HostRuntime) -> Result<(), AllocError> {
    let map: Map<u8, u8, 3> = [(1, 10), (2, 20), (3, 30)].into();
    for taken in 0..4 {
        let mut sink = RefusingSink::new(rt.alloc(), taken)?;
        let written = map.write_entries(&mut sink);
        if taken < 3 {
            assert!(rt; written == Err(Fault::At(taken)));
        } else {
            assert!(rt; written == Ok(()));
        }
        assert!(rt;
            sink.taken
                .iter()
                .eq([(1, 10), (2, 20), (3, 30)].iter().take(taken))
        );
    }
    Ok(())
}

#[test]
fn a_source_may_fail_at_each_call(rt: HostRuntime) {
    for left in 0..5 {
        let mut source = RefusingSource {
            left: &[(1, 'a'), (2, 'b'), (3, 'c')],
            refuses_at: left,
            fault: 7,
            faults: 0,
            last_fault: None,
        };
        let map: Result<Map<u8, char, 3>, _> = Map::read_entries(&mut source);
        if left < 4 {
            assert!(rt; matches!(map, Err(ReadFault::Source(7))));
            assert!(rt; source.left.len() == left);
        } else {
            assert!(rt; map.is_ok_and(|mut map| map.drain().eq([(1, 'a'), (2, 'b'), (3, 'c')])));
        }
    }
}

#[test]
fn a_set_is_written_as_keys_with_no_value(rt: HostRuntime) -> Result<(), AllocError> {
    let set: Set<u8, 4> = [7, 5, 7, 6].into();
    let mut sink = VecSink::new(rt.alloc());
    set.write_entries(&mut sink)?;
    assert!(rt; sink.entries() == [(7, ()), (5, ()), (6, ())].as_slice());
    assert!(rt; sink.faults() == 0);
    let read: Result<Set<u8, 3>, _> = Set::read_entries(&mut SliceSource::over(sink.entries()));
    assert!(rt; read.is_ok_and(|read| read.iter().eq(&[7, 5, 6])));
    assert!(rt; sink.into_entries().len() == 3);
    Ok(())
}

#[test]
fn a_fault_says_whose_it_is(rt: HostRuntime) {
    let alloc = rt.alloc();
    let source: ReadFault<Fault> = ReadFault::Source(Fault::At(2));
    let again = source;
    assert!(rt; source == again);
    assert!(rt; source != ReadFault::TooMany);
    assert!(rt; displays(alloc, &source, "the source failed: refused at 2"));
    assert!(rt; debugs(alloc, &source, "Source(At(2))"));
    let many: ReadFault<Fault> = ReadFault::TooMany;
    assert!(rt;
        displays(
            alloc,
            &many,
            "a pair has a new key, and there is no room for it"
        )
    );
}
