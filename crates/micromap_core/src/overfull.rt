//! The error of items that don't all fit.
use std::error::Error;
use std::fmt;

/// The error of items that have more distinct keys than there is room for.
#[derive(Debug, Clone, Copy, PartialEq, Eq)]
pub struct Overfull {
    /// The position of the first item that didn't fit, counted from 0 over all items.
    pub at: usize,
}

impl fmt::Display for Overfull {
    ghost use Rattle.std.specs.Prelude.{Some, codes, ◌++◌};
    ghost use Rattle.std.specs.Fmt.{decimal};

    ghost output = { λ e. Some (codes "item " ++ decimal e.at ++ codes " has a new key, and there is no room for it") };

    fn fmt<W: fmt::Write>(&self, f: &mut fmt::Formatter<W>) -> fmt::Result {
        let at = self.at;
        write!(f, "item {at} has a new key, and there is no room for it")
    }
}

impl Error for Overfull {}
