//! Tests of examples. Each subject has a module.

mod examples;
mod readme;
mod uses;
