//! The error of an insertion that replaces nothing.
use std::error::Error;
use std::fmt;

/// Why `try_insert` didn't insert. It holds what was passed: the pair of a map, or the item of a set.
#[derive(Debug, Clone, Copy, PartialEq, Eq, Drop)]
pub enum InsertError<P> {
    /// An equal key, or an equal item, is stored already.
    Occupied(P),
    /// The key or the item is new, and there is no room for it.
    Full(P),
}

impl<P> fmt::Display for InsertError<P> {
    ghost use Rattle.micromap_core.specs.Print.{insert_error_text};

    ghost output = { insert_error_text };

    fn fmt<W: fmt::Write>(&self, f: &mut fmt::Formatter<W>) -> fmt::Result {
        f.write_str(match self {
            InsertError::Occupied(_) => "the key is stored already",
            InsertError::Full(_) => "the key is new, and there is no room for it",
        })
    }
}

impl<P: fmt::Debug + Drop> Error for InsertError<P> {}
