//! What the tests and the programs beside the library share: a key whose `==` reads one of its fields, with two probes,
//! elements that count what is done with them, a writer that refuses a write, checks of a whole iterator, of a whole set
//! and of a printed text, two maps under one list of keyed calls, and the worked rows, with the lines that say whether
//! they are ok.
#![tactic(auto)]

mod calls;
mod counted;
mod expected;
pub mod keyed;
mod marked;
mod refusing;
mod report;
mod rows;

pub use calls::{Call, lockstep};
pub use counted::{Counted, Counts, counted_map, counted_set, drops_all};
pub use expected::{debugs, displays, gives, holds};
pub use marked::{Digit, Id, Marked};
pub use refusing::Refusing;
pub use rows::run_rows;
