//! The examples of the library's comments, line for line, and such lines for the other calls; a few are in `readme`. Where a
//! test has several, each stands in a block of its own.

mod entries;
mod map;
mod set;
mod streams;
mod texts;
