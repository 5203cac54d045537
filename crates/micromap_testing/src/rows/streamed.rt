//! The rows of reading a map from a source and writing one to a sink, and of JSON.
use micromap::stream::SliceSource;
use micromap::{
    EntrySink, JsonFault, Map, ReadFault, Set, map_from_json, map_to_json, set_from_json,
    set_to_json,
};
use std::alloc::{AllocError, Global};
use std::convert::Infallible;

type Read<const N: usize> = Result<Map<u8, &'static str, N>, ReadFault<Infallible>>;

// A misfit ends the reading, and what comes after it is left.
pub(super) fn row_25_a_misfit_ends_the_reading() -> bool {
    let pairs = [(1, "a"), (2, "b"), (1, "c"), (3, "d"), (4, "e")];
    let mut source = SliceSource::over(&pairs);
    let small: Read<2> = Map::read_entries(&mut source);
    let left = source.left() == [(4, "e")].as_slice();
    let large: Read<4> = Map::read_entries(&mut SliceSource::over(&pairs));
    let Ok(mut whole) = large else {
        return false;
    };
    matches!(small, Err(ReadFault::TooMany))
        && left
        && whole.drain().eq([(1, "c"), (2, "b"), (3, "d"), (4, "e")])
}

// There was no room for a second pair.
#[derive(Clone, Copy, PartialEq, Eq)]
struct Full;

// A sink that takes one pair.
#[derive(Drop)]
struct OnePair {
    taken: Option<(u8, u8)>,
    faults: u128,
    last_fault: Option<Full>,
}

impl EntrySink<u8, u8> for OnePair {
    ghost use Rattle.std.specs.Option.{option_to_list};

    type Error = Full;

    ghost taken = { λ s. option_to_list s.taken };

    ghost faults = { λ s. s.faults };

    ghost last_fault = { λ s. s.last_fault };

    fn faults(&self) -> u128 {
        self.faults
    }

    fn entry(&mut self, key: &u8, value: &u8) -> Result<(), Full> {
        if self.taken.is_some() {
            self.faults += 1;
            self.last_fault = Some(Full);
            return Err(Full);
        }
        self.taken = Some((*key, *value));
        Ok(())
    }
}

// A sink that fails has what came before.
pub(super) fn row_26_a_failing_sink_has_what_came_before() -> bool {
    let map = Map::from([(1, 10), (2, 20), (3, 30)]);
    let mut sink = OnePair {
        taken: None,
        faults: 0,
        last_fault: None,
    };
    map.write_entries(&mut sink) == Err(Full) && sink.taken == Some((1, 10))
}

// Whether the reading returns this fault.
fn fails<T: Drop>(read: Result<T, JsonFault>, fault: JsonFault) -> bool {
    read.err() == Some(fault)
}

// An object is read, or the first fault in their order is returned.
pub(super) fn row_18_an_object_is_read_or_its_first_fault(
    alloc: Global,
) -> Result<bool, AllocError> {
    let letters = "{\"a\":1,\"b\":2,\"c\":3}";
    let mut wanted: Map<String, i64, 3> = Map::new();
    for (name, value) in [("a", 1), ("b", 2), ("c", 3)] {
        wanted.checked_insert(String::from_str(alloc, name)?, value);
    }
    let Ok(map) = map_from_json::<3>(alloc, letters) else {
        return Ok(false);
    };
    Ok(
        map.eq_with(&wanted)
            && fails(map_from_json::<2>(alloc, letters), JsonFault::TooMany)
            && fails(map_from_json::<2>(alloc, "[1]"), JsonFault::NotObject)
            && fails(
                map_from_json::<2>(alloc, "{\"a\":\"x\"}"),
                JsonFault::NotWhole,
            )
            && fails(map_from_json::<2>(alloc, "{\"a\":"), JsonFault::BadText)
            && fails(map_from_json::<2>(alloc, ""), JsonFault::BadText)
            && fails(
                map_from_json::<1>(alloc, "{\"a\":\"x\",\"b\":1}"),
                JsonFault::NotWhole,
            ),
    )
}

// A map and a set are written, and a set is read.
pub(super) fn row_27_json_of_a_map_and_a_set(alloc: Global) -> Result<bool, AllocError> {
    let mut map: Map<String, i64, 2> = Map::new();
    let mut set: Set<String, 2> = Set::new();
    for (name, value) in [("b", 2), ("a", 1)] {
        map.checked_insert(String::from_str(alloc, name)?, value);
        set.checked_insert(String::from_str(alloc, name)?);
    }
    let (Ok(object), Ok(array), Ok(read)) = (
        map_to_json(alloc, &map),
        set_to_json(alloc, &set),
        set_from_json::<2>(alloc, "[\"b\",\"a\",\"b\"]"),
    ) else {
        return Ok(false);
    };
    Ok(
        object.as_str() == "{\"a\":1,\"b\":2}"
            && array.as_str() == "[\"b\",\"a\"]"
            && read.iter().eq(set.iter())
            && fails(
                set_from_json::<1>(alloc, "[\"b\",\"a\",\"b\"]"),
                JsonFault::TooMany,
            )
            && fails(set_from_json::<2>(alloc, "[\"a\",1]"), JsonFault::NotText)
            && fails(set_from_json::<2>(alloc, "{\"a\":1}"), JsonFault::NotArray),
    )
}
