//! A search that gives up.

ghost use Rattle.std.specs.Prelude.{◌≡◌, IfSome, count_by, nat_eq, unwrap_or};
ghost use Rattle.micromap.specs.Pairs.{at};

use micromap::Map;

/// Counts the votes for each name, or returns `None` if the names don't fit.
#[tactic(auto, using(micromap_core::proofs::Laws::MapLaws::map_laws, std::proofs::lemmas::Grind::common_steps))]
pub fn search_gives_up(votes: &[u8]) -> Option<Map<u8, usize, 8>>
    ensures { IfSome result (λ counts. (name : _) → unwrap_or (at nat_eq counts name) 0 ≡ count_by (nat_eq name) votes.now) }
{
    let mut counts = Map::new();
    for vote in votes {
        if !counts.fits(vote) {
            return None;
        }
        *counts.entry(*vote).or_insert(0) += 1;
    }
    Some(counts)
}
