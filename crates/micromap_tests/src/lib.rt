//! Tests of the map, of the set, and of what both have: keyed calls, calls by probe or with a closure, entries,
//! iterators, the operations on two sets with their hints, and what each call drops; building, another capacity, clones,
//! comparison, printing, owned texts, streams and JSON; counted calls, two maps in lockstep, and the calls that ask for no
//! memory.
#![tactic(auto)]

#[cfg(test)]
mod tests;
