//! Tests of the examples: of the small libraries of `micromap_examples`, of the examples of doc comments, and of the
//! README's program.
#![tactic(auto)]

#[cfg(test)]
mod tests;
