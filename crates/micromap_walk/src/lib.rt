//! The pairs of a map of fixed capacity, in two columns of slots, and the iterators over them, from the front.
//!
//! A slot is an `Option`, and each of a map is filled. Only an iterator by value empties the slots that it goes past. No
//! other crate knows that: a contract sees the pairs as a list.
//!
//! A contract sees an iterator as the list of the items left. `next` returns the first of them, and `None` ever after
//! the last.
#![tactic(auto)]

mod borrowing;
mod hint;
mod owning;
mod print;
mod slot;
mod slots;

pub use borrowing::{Iter, Keys, Values};
pub use owning::{Drain, IntoIter, IntoKeys, IntoValues};
pub use slots::Columns;
