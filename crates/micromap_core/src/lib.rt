//! A map of fixed capacity that finds its keys by `==` alone: no hash, no order on keys, no heap.
#![tactic(auto)]

mod equal_clone;
mod insert_error;
pub mod map;
mod overfull;
mod probe;
mod steps;
pub mod stream;
mod text_buf;

pub use equal_clone::EqualClone;
pub use insert_error::InsertError;
pub use map::Map;
pub use overfull::Overfull;
pub use probe::{Probe, Text};
pub use steps::Steps;
pub use text_buf::TextBuf;
