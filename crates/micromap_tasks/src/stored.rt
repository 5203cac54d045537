//! A map that is kept in a file as JSON.

use micromap::{JsonFault, Map, Text, map_from_json, map_to_json};
use std::alloc::AllocError;
use std::rt::Files;
use std::{fs, io};

/// Why a file wasn't changed.
#[derive(Debug, Drop)]
pub enum StoreFault {
    /// The file can't be read or written.
    File(io::Error),
    /// The text isn't that of a map, or there is no memory for it.
    Text(JsonFault),
    /// There is no room for another name.
    Full,
}

impl From<io::Error> for StoreFault {
    fn from(error: io::Error) -> Self {
        StoreFault::File(error)
    }
}

impl From<JsonFault> for StoreFault {
    fn from(fault: JsonFault) -> Self {
        StoreFault::Text(fault)
    }
}

impl From<AllocError> for StoreFault {
    fn from(_refused: AllocError) -> Self {
        StoreFault::Text(JsonFault::Memory)
    }
}

/// Adds an amount to the number of a name in a file of JSON, as `{"bread": 3}`, and returns the sum.
/// It reads the whole file, changes the map, and writes the whole file. A sum stays within `i64`. After an error of reading
/// or of the text the file is as before.
pub fn add_in_file<R: Files + AllocGlobal>(
    rt: &R,
    path: &str,
    name: &str,
    amount: i64,
) -> Result<i64, StoreFault> {
    let text = fs::read_to_string(rt, path)?;
    let mut numbers: Map<String, i64, 8> = map_from_json(rt.alloc(), text.as_str())?;
    let sum = numbers.get_or_by(&Text(name), 0).saturating_add(amount);
    if !numbers.put(String::from_str(rt.alloc(), name)?, sum) {
        return Err(StoreFault::Full);
    }
    let text = map_to_json(rt.alloc(), &numbers)?;
    fs::write(rt, path, text.as_str())?;
    Ok(sum)
}
