//! A map and a set of fixed capacity that find their keys and items by `==` alone.
#![tactic(auto)]

pub mod json;
pub mod set;

pub use json::{JsonFault, map_from_json, map_to_json, set_from_json, set_to_json};
pub use micromap_core::map::{Entry, OccupiedEntry, VacantEntry};
pub use micromap_core::stream::{EntrySink, EntrySource, ReadFault};
pub use micromap_core::{
    EqualClone, InsertError, Map, Overfull, Probe, Steps, Text, TextBuf, map, stream,
};
pub use set::Set;
