//! Maps of texts to whole numbers, and sets of texts, as JSON. `serde_json` reads and writes the text. The contracts
//! say what it says of a text.
ghost use Rattle.std.specs.Prelude.{◌≡◌, Some};
ghost use Rattle.micromap.specs.Json.{code, message};
ghost use Rattle.micromap.specs.declared.json.JsonFault.TheVariants.{Memory};

mod read;
mod write;

pub use read::{map_from_json, set_from_json};
use std::alloc::AllocError;
use std::error::Error;
use std::fmt;
pub use write::{map_to_json, set_to_json};

/// Why a text wasn't read or written. All but `Memory` are tested in this order, each over the whole text. The first
/// that applies is returned.
#[derive(Debug, Clone, Copy, PartialEq, Eq)]
pub enum JsonFault {
    /// The text isn't JSON as `serde_json` reads it.
    BadText,
    /// For a map, the text isn't an object.
    NotObject,
    /// For a set, the text isn't an array.
    NotArray,
    /// Some member's value isn't a whole number that fits `i64`. A float never is, not even `1.0`.
    NotWhole,
    /// Some element isn't a text.
    NotText,
    /// There are more distinct names or texts than there is room for.
    TooMany,
    /// A request for memory was refused.
    Memory,
}

impl JsonFault {
    /// Returns the fault's number, from 1 in this order.
    pub fn code(&self) -> u8
        ensures { result ≡ code self.now }
    {
        match self {
            JsonFault::BadText => 1,
            JsonFault::NotObject => 2,
            JsonFault::NotArray => 3,
            JsonFault::NotWhole => 4,
            JsonFault::NotText => 5,
            JsonFault::TooMany => 6,
            JsonFault::Memory => 7,
        }
    }
}

impl fmt::Display for JsonFault {
    ghost output = { λ fault. Some (message fault) };

    fn fmt<W: fmt::Write>(&self, f: &mut fmt::Formatter<W>) -> fmt::Result {
        f.write_str(match self {
            JsonFault::BadText => "the text is not JSON",
            JsonFault::NotObject => "the text is not an object",
            JsonFault::NotArray => "the text is not an array",
            JsonFault::NotWhole => "a value is not a whole number of 64 bits",
            JsonFault::NotText => "an element is not a text",
            JsonFault::TooMany => "there are more distinct texts than there is room for",
            JsonFault::Memory => "a request for memory was refused",
        })
    }
}

impl Error for JsonFault {}

impl From<AllocError> for JsonFault {
    ghost from_gives = { λ _ fault. fault ≡ Memory };

    fn from(_refused: AllocError) -> Self {
        JsonFault::Memory
    }
}
