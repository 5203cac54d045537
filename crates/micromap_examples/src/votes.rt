//! Votes: how many each name has, counted by entry, and which name has the most.
ghost use Rattle.std.specs.Prelude.{◌≡◌, ◌↔◌, ◌<◌, ◌≤◌, [], count_by, nat_eq, unwrap_or, IsNone};
ghost use Rattle.std.specs.List.{All, Contains};
ghost use Rattle.std.specs.Option.{IfSome};
ghost use Rattle.std.specs.Set.{distinct_count};
ghost use Rattle.micromap.specs.Build.{counts};
ghost use Rattle.micromap.specs.Pairs.{at};

use micromap::Map;

/// A name, by its number in a list of names.
pub type Name = u32;

/// Returns each name with its number of votes, or `None` if the votes have more than `N` distinct names.
#[tactic(auto, using(micromap::proofs::Rules::caller))]
pub fn tally<const N: usize>(votes: &[Name]) -> Option<Map<Name, usize, N>>
    ensures tally { IfSome result (λ tally. tally ≡ counts nat_eq votes.now) }
    ensures counts { IfSome result (λ counts. (name : _) → unwrap_or (at nat_eq counts name) 0 ≡ count_by (nat_eq name) votes.now) }
    ensures refused { IsNone result ↔ (N < distinct_count nat_eq votes.now) }
{
    let mut counts = Map::new();
    for name in votes {
        if !counts.fits(name) {
            return None;
        }
        *counts.entry(*name).or_insert(0) += 1;
    }
    let _known = counts.len();
    Some(counts)
}

/// Returns a name with the most votes, and their number, or `None` if there is no name.
pub fn winner<const N: usize>(counts: &Map<Name, usize, N>) -> Option<(Name, usize)>
    ensures none { IsNone result ↔ (counts.now ≡ []) }
    ensures counted { IfSome result (Contains counts.now) }
    ensures most { IfSome result (λ winner. All (λ other. other.1 ≤ winner.1) counts.now) }
{
    let (name, votes) = counts.iter().max_by_key(|pair| *pair.1)?;
    Some((*name, *votes))
}
