//! Callers of `micromap`, by task.
#![tactic(auto)]

pub mod any_capacity;
pub mod balances;
pub mod basics;
pub mod change;
pub mod count;
pub mod find;
pub mod groups;
pub mod make;
pub mod merge;
pub mod own_types;
pub mod registers;
pub mod scopes;
pub mod texts;
pub mod words;
