//! Functions over maps and sets, by task, as one writes them who wants no contract: none has a clause, and each is proved
//! to be safe and to return.
#![tactic(auto)]

pub mod chosen;
pub mod counters;
pub mod faults;
pub mod graphs;
pub mod headers;
pub mod history;
pub mod nested;
pub mod numbers;
pub mod printed;
pub mod sorted;
pub mod stacks;
pub mod states;
pub mod stored;
pub mod walked;
