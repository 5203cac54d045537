//! Tests by subject: what no contract says, callers that are proved, and the tests of the Rust crate.

mod building;
mod capacities;
mod cloning;
mod comparison;
mod entries;
mod json;
mod keyed;
mod lockstep;
mod map;
mod memory;
mod operations;
mod printing;
mod set;
mod streams;
mod texts;
mod walks;
