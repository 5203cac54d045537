//! Maps and sets as texts.

use micromap::{Map, Set};
use std::alloc::{AllocError, Global};

/// Prints a map: `{bread: 3, milk: 2}`.
pub fn text_of_map(alloc: Global, levels: &Map<&str, u8, 8>) -> Result<String, AllocError> {
    format!(in alloc; "{levels}")
}

/// Prints a map with quotation marks around texts: `{"bread": 3, "milk": 2}`.
pub fn debug_text_of_map(alloc: Global, levels: &Map<&str, u8, 8>) -> Result<String, AllocError> {
    format!(in alloc; "{levels:?}")
}

/// Prints a set: `{bread, milk}`.
pub fn text_of_set(alloc: Global, names: &Set<&str, 8>) -> Result<String, AllocError> {
    format!(in alloc; "{names}")
}

/// Prints a set with quotation marks around texts: `{"bread", "milk"}`.
pub fn debug_text_of_set(alloc: Global, names: &Set<&str, 8>) -> Result<String, AllocError> {
    format!(in alloc; "{names:?}")
}

/// Prints a line for each pair.
pub fn lines_of(alloc: Global, levels: &Map<&str, u8, 8>) -> Result<String, AllocError> {
    let mut lines = String::new(alloc);
    for (name, level) in levels {
        let line = format!(in alloc; "{name} = {level}\n")?;
        lines.push_str(line.as_str())?;
    }
    Ok(lines)
}
