//! Small libraries over the map and the set, as their users would write them. Each is proved from the public contracts
//! and the exported laws alone, and may be copied.
#![tactic(auto, using(micromap::proofs::Rules::caller))]

pub mod attributes;
pub mod board;
pub mod frame;
pub mod graph;
pub mod headers;
pub mod lru_cache;
pub mod order;
pub mod permissions;
pub mod request;
pub mod scopes;
pub mod stock;
pub mod votes;
