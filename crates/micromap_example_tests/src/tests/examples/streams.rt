//! Maps and sets written to sinks and read from sources.
use micromap::stream::{EntrySink, EntrySource, ReadFault, SliceSource, VecSink};
use micromap::{Map, Set};
use std::alloc::AllocError;

#[test]
fn a_map_is_written(rt: HostRuntime) -> Result<(), AllocError> {
    let alloc = rt.alloc();
    let map = Map::from([(1, 'a'), (2, 'b')]);
    let mut sink = VecSink::new(alloc);
    map.write_entries(&mut sink)?;
    assert!(rt; sink.entries() == [(1, 'a'), (2, 'b')].as_slice());
    Ok(())
}

#[test]
fn a_map_is_read(rt: HostRuntime) {
    let pairs = [(1, 'a'), (1, 'b'), (2, 'c')];
    let map: Result<Map<u8, char, 2>, _> = Map::read_entries(&mut SliceSource::over(&pairs));
    assert!(rt; map.is_ok_and(|map| map.get(&1) == Some(&'b')));
    let small: Result<Map<u8, char, 1>, _> = Map::read_entries(&mut SliceSource::over(&pairs));
    assert!(rt; matches!(small, Err(ReadFault::TooMany)));
}

#[test]
fn a_set_is_written(rt: HostRuntime) -> Result<(), AllocError> {
    let alloc = rt.alloc();
    let mut sink = VecSink::new(alloc);
    Set::from([2, 1]).write_entries(&mut sink)?;
    assert!(rt; sink.entries() == [(2, ()), (1, ())].as_slice());
    Ok(())
}

#[test]
fn a_set_is_read(rt: HostRuntime) {
    let items = [(2, ()), (1, ()), (2, ())];
    let set: Result<Set<u8, 2>, _> = Set::read_entries(&mut SliceSource::over(&items));
    assert!(rt; set.is_ok_and(|set| set.iter().eq(&[2, 1])));
    let small: Result<Set<u8, 1>, _> = Set::read_entries(&mut SliceSource::over(&items));
    assert!(rt; matches!(small, Err(ReadFault::TooMany)));
}

#[test]
fn a_sink_stores_pairs(rt: HostRuntime) -> Result<(), AllocError> {
    let alloc = rt.alloc();
    {
        let sink: VecSink<u8, char> = VecSink::new(alloc);
        assert!(rt; sink.entries().is_empty());
    }
    {
        let mut sink = VecSink::new(alloc);
        sink.entry(&1, &'a')?;
        assert!(rt; sink.entries() == [(1, 'a')].as_slice());
    }
    {
        let mut sink = VecSink::new(alloc);
        sink.entry(&1, &'a')?;
        assert_eq!(rt; sink.into_entries().len(), 1);
    }
    Ok(())
}

#[test]
fn a_source_yields_pairs(rt: HostRuntime) {
    {
        let mut source = SliceSource::over(&[(1, 'a')]);
        assert!(rt; source.next_entry() == Ok(Some((1, 'a'))));
        assert!(rt; source.next_entry() == Ok(None));
    }
    {
        let mut source = SliceSource::over(&[(1, 'a'), (2, 'b')]);
        assert!(rt; source.next_entry().is_ok());
        assert!(rt; source.left() == [(2, 'b')].as_slice());
    }
}
