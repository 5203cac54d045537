//! Names in any case, as of headers.

use micromap::{Map, Text};
use std::alloc::{AllocError, Global};

/// The values of headers by their names, which are in lowercase.
pub type Headers = Map<String, String, 8>;

/// Sets the value at a name in whatever case, and returns whether there is room for it.
pub fn set_header(
    alloc: Global,
    headers: &mut Headers,
    name: &str,
    value: &str,
) -> Result<bool, AllocError> {
    let name = name.to_ascii_lowercase(alloc)?;
    let value = String::from_str(alloc, value)?;
    Ok(headers.put(name, value))
}

/// Finds the value of a name in whatever case.
pub fn header_of<'a>(
    alloc: Global,
    headers: &'a Headers,
    name: &str,
) -> Result<Option<&'a str>, AllocError> {
    let name = name.to_ascii_lowercase(alloc)?;
    match headers.get_by(&Text(name.as_str())) {
        Some(value) => Ok(Some(value.as_str())),
        None => Ok(None),
    }
}

/// Removes a name in whatever case, and returns whether it was there.
pub fn remove_header(alloc: Global, headers: &mut Headers, name: &str) -> Result<bool, AllocError> {
    let name = name.to_ascii_lowercase(alloc)?;
    Ok(headers.remove_by(&Text(name.as_str())).is_some())
}
