//! The second halves of WHEN_A_CHECK_FAILS.md: what one writes in the place of what the check refuses.
//! The first half of each is an edit of `must-fail/`.
#![tactic(auto)]

pub mod calls;
pub mod chains;
pub mod limits;
pub mod loops;
pub mod returns;
