//! Functions that serve maps of any capacity.
//!
//! Write one only if it must serve several capacities: its check takes up to six times as long.
#![tactic(auto, using(micromap::proofs::Rules::caller))]

ghost use Rattle.std.specs.Prelude.{◌≡◌, ◌<◌, ◌≤◌, [], IfSome, IsFalse, count_by, filter, length, nat_eq, not, slice_get, unwrap_or, Some};
ghost use Rattle.std.specs.Bool.{OnTrue};
ghost use Rattle.micromap.specs.Build.{put_all};
ghost use Rattle.micromap.specs.Memory.{IntoIterFits, MapFits};
ghost use Rattle.micromap.specs.Pairs.{at, has};

use micromap::Map;

/// Puts pairs into a map in a loop, until one doesn't fit.
/// If it returns `false`, the map and the list have more than `N` distinct keys together. Of the map the contract says
/// nothing then.
#[tactic(auto, using(micromap::proofs::Rules::loops))]
pub fn put_each<K: Eq + Copy + Drop, const N: usize>(
    map: &mut Map<K, u8, N>,
    items: &[(K, u8)],
) -> bool
    ensures put { OnTrue result (map.new ≡ put_all K.eq map.old items.now) }
    ensures refused { IsFalse result → N < length (put_all K.eq map.old items.now) }
{
    for item in items {
        if !map.put(item.0, item.1) {
            return false;
        }
    }
    true
}

/// Counts the votes for each name, under an invariant of one's own, or returns `None` if the names don't fit.
/// Under `caller` the search gives up at one of its limits. The laws of one file are enough.
#[tactic(auto, using(micromap_core::proofs::Laws::MapLaws::map_laws, std::proofs::lemmas::Grind::common_steps))]
pub fn count_votes<const N: usize>(votes: &[u8]) -> Option<Map<u8, usize, N>>
    ensures { IfSome result (λ counts. (name : _) → unwrap_or (at nat_eq counts name) 0 ≡ count_by (nat_eq name) votes.now) }
{
    let mut counts = Map::new();
    for vote in votes {
        if !counts.fits(vote) {
            return None;
        }
        *counts.entry(*vote).or_insert(0) += 1;
    }
    Some(counts)
}

/// Counts the distinct keys of a list in a local map, or returns `None` if they don't fit.
/// The map has to fit in memory. The contract says only that the keys are at most `N`. For numbers `requires { N ≤ 1000 }`
/// serves, and for a set `SetFits`.
#[tactic(auto)]
pub fn count_keys<K: Eq + Copy, V: Copy, const N: usize>(pairs: &[(K, V)]) -> Option<usize>
    requires { MapFits K.row V.row N.row K.eq }
    ensures { IfSome result (λ count. count ≤ N) }
{
    let mut seen: Map<K, V, N> = Map::new();
    for (key, value) in pairs {
        seen.checked_insert(*key, *value)?;
    }
    Some(seen.len())
}

/// Takes all pairs out by an iterator by value, which has to fit in memory, and returns the first.
/// `into_iter` goes the same way, `into_keys` under `IntoKeysFits`, `into_values` under `IntoValuesFits`, and a set's
/// `into_iter` under `SetIntoIterFits`.
pub fn first_drained<K: Eq + Drop, V: Drop, const N: usize>(
    map: &mut Map<K, V, N>,
) -> Option<(K, V)>
    requires { IntoIterFits K.row V.row N.row }
    ensures first { IfSome result (λ p. slice_get map.old 0 ≡ Some p) }
    ensures emptied { map.new ≡ [] }
{
    let first = map.drain().next()?;
    Some(first)
}

/// Copies the pairs whose keys another map lacks, by a closure that says what it returns.
/// In its clauses `other.entry.now` is the map behind a captured reference.
#[tactic(auto, using(micromap_core::proofs::Laws::LoopLaws::closure_laws))]
pub fn lacking_any<const N: usize, const M: usize>(
    pairs: &Map<u8, u32, N>,
    other: &Map<u8, u32, M>,
) -> Map<u8, u32, N>
    ensures { result ≡ filter (λ p. not (has nat_eq other.now p.0)) pairs.now }
{
    let mut lacking = pairs.copied();
    lacking.retain(
        |key: &u8, value: &mut u32| -> bool
            ensures answer { result ≡ not (has nat_eq other.entry.now key.now) }
            ensures same { value.new ≡ value.old }
        { !other.contains_key(key) },
    );
    lacking
}
