//! Making a map or a set of a list, or of another map.
#![tactic(auto, using(micromap::proofs::Rules::caller))]

ghost use Rattle.std.specs.Prelude.{◌≡◌, ◌↔◌, ◌<◌, [], List, ℕ, IfOk, IfSome, IsErr, IsNone, filter, fold, length, map, nat_eq, nat_le, nat_lt};
ghost use Rattle.std.specs.List.{zip};
ghost use Rattle.std.specs.Map.{keys_of, values_of};
ghost use Rattle.std.specs.Set.{distinct_count};
ghost use Rattle.micromap.specs.Build.{build, build_or_refuse};
ghost use Rattle.micromap.specs.Extend.{distinct, distinct_or_refuse};
ghost use Rattle.micromap.specs.Pairs.{put_if_fits};

use micromap::{Map, Overfull, Set};
use std::alloc::{AllocError, Global};

/// Makes a map of a list of pairs, or returns an error.
/// Of equal keys the last one's value stands. The contract leaves open when there is an error, which `whole_or_none`
/// says. Two lists go the same way, by `a.iter().chain(b.iter()).copied()`, and are `a.now ++ b.now` then.
pub fn map_of_list(list: &[(u8, u8)]) -> Result<Map<u8, u8, 16>, Overfull>
    ensures { IfOk result (λ m. m ≡ build nat_eq list.now) }
{
    Ok(Map::try_from_iter(list.iter().copied())?)
}

// What `whole_or_none` returns, in the word of `from_all`. The law of that word serves a caller.
fn whole(list: &[(u8, u8)]) -> Option<Map<u8, u8, 16>>
    ensures { result ≡ build_or_refuse nat_eq 16 list.now }
{
    Map::from_all(list.iter().map(|p| *p))
}

/// Makes a map of all pairs of a list, or returns `None` exactly if they have more than 16 distinct keys.
pub fn whole_or_none(list: &[(u8, u8)]) -> Option<Map<u8, u8, 16>>
    ensures made { IfSome result (λ m. m ≡ build nat_eq list.now) }
    ensures refused { IsNone result ↔ (16 < distinct_count nat_eq (keys_of list.now)) }
{
    whole(list)
}

// What `zeros_or_none` returns, in the word of `from_all`.
fn zeros(list: &[u8]) -> Option<Map<u8, u8, 16>>
    ensures { result ≡ build_or_refuse nat_eq 16 (map (λ key. (key, 0)) list.now) }
{
    Map::from_all(list.iter().map(|key| (*key, 0)))
}

/// Makes a map of keys, each with the same start value, or returns `None` exactly if there are too many.
/// Another value goes the same way: `(key, [])` stands for `(*key, Set::new())`.
pub fn zeros_or_none(list: &[u8]) -> Option<Map<u8, u8, 16>>
    ensures made { IfSome result (λ m. m ≡ build nat_eq (map (λ key. (key, 0)) list.now)) }
    ensures refused { IsNone result ↔ (16 < distinct_count nat_eq list.now) }
{
    zeros(list)
}

// What `unique` returns, in the word of `from_all`.
fn whole_set(list: &[u8]) -> Option<Set<u8, 16>>
    ensures { result ≡ distinct_or_refuse nat_eq 16 list.now }
{
    Set::from_all(list.iter().map(|x| *x))
}

/// Makes a set of the distinct items of a list, or returns `None` exactly if there are more than 16.
/// Each stands where it first came.
pub fn unique(list: &[u8]) -> Option<Set<u8, 16>>
    ensures made { IfSome result (λ s. s ≡ distinct nat_eq list.now) }
    ensures refused { IsNone result ↔ (16 < distinct_count nat_eq list.now) }
{
    whole_set(list)
}

/// Makes a map of a list of keys and a list of values, without the pairs that don't fit.
pub fn zipped(keys: &[u8], values: &[u8]) -> Map<u8, u8, 16>
    ensures { result ≡ fold (λ (m : List (ℕ × ℕ)) (p : ℕ × ℕ). put_if_fits nat_eq 16 m p.0 p.1) [] (zip keys.now values.now) }
{
    Map::from_fitting(keys.iter().zip(values.iter()).map(|(k, v)| (*k, *v)))
}

// Makes a map with key and value exchanged. Of equal values the last one's key stands.
fn exchanged(codes: &Map<u8, u16, 16>) -> Option<Map<u16, u8, 16>>
    ensures { result ≡ build_or_refuse nat_eq 16 (map (λ p. (p.1, p.0)) codes.now) }
{
    Map::from_all(codes.iter().map(|(k, v)| (*v, *k)))
}

/// Makes a map with key and value exchanged, or returns `None` exactly if two values are equal.
/// `exchanged` alone serves where the last one's key may stand.
#[tactic(auto, using(micromap::proofs::Rules::calls, crate::proofs::ExchangeLaws::count_exchanged))]
pub fn inverted(codes: &Map<u8, u16, 16>) -> Option<Map<u16, u8, 16>>
    ensures inverted { IfSome result (λ m. m ≡ map (λ p. (p.1, p.0)) codes.now) }
    ensures refused { IsNone result ↔ (distinct_count nat_eq (values_of codes.now) < length codes.now) }
{
    let count = codes.len();
    let inverted = exchanged(codes)?;
    if inverted.len() == count {
        Some(inverted)
    } else {
        None
    }
}

/// Splits a map into the pairs that pass a test and the others.
pub fn parted(pairs: &Map<u8, u32, 16>, limit: u32) -> (Map<u8, u32, 16>, Map<u8, u32, 16>)
    ensures above { result.0 ≡ filter (λ p. nat_lt limit p.1) pairs.now }
    ensures others { result.1 ≡ filter (λ p. nat_le p.1 limit) pairs.now }
{
    let mut above = pairs.copied();
    above.retain(|_, value| *value > limit);
    let mut others = pairs.copied();
    others.retain(|_, value| *value <= limit);
    (above, others)
}

/// Copies the pairs that pass into a map of another capacity, or returns an error exactly if they don't all fit.
/// The error is the copy in the old capacity, of which the contract says nothing. Into a capacity that is known to
/// be enough the search proves that there is none, as in `outgrow` of `micromap_tests/src/tests/building.rt`.
pub fn above_in(pairs: &Map<u8, u32, 32>, limit: u32) -> Result<Map<u8, u32, 8>, Map<u8, u32, 32>>
    ensures made { IfOk result (λ m. m ≡ filter (λ p. nat_lt limit p.1) pairs.now) }
    ensures refused { IsErr result ↔ (8 < length (filter (λ p. nat_lt limit p.1) pairs.now)) }
{
    let mut above = pairs.copied();
    above.retain(|_, value| *value > limit);
    above.into_capacity()
}

/// Makes a map of the same keys with values of another type.
/// If the values have the same type, `update_all` makes them in a copy.
pub fn sizes(groups: &Map<u8, Set<u16, 8>, 16>) -> Map<u8, usize, 16>
    ensures { result ≡ map (λ p. (p.0, length p.1)) groups.now }
{
    let mut sizes = Map::new();
    for (group, members) in groups {
        sizes.insert(*group, members.len());
    }
    sizes
}

/// Makes a set of the keys whose value passes a test.
/// Without the line of `retain` it has all keys. Of a map of sets see `empty_groups`.
pub fn keys_over(amounts: &Map<u8, u8, 16>, limit: u8) -> Set<u8, 16>
    ensures { result ≡ keys_of (filter (λ p. nat_lt limit p.1) amounts.now) }
{
    let mut over = amounts.copied();
    over.retain(|_, amount| *amount > limit);
    match Set::try_from_iter(over.keys().copied()) {
        Ok(keys) => keys,
        Err(_) => unreachable!(),
    }
}

/// Lists the keys whose value passes a test in a `Vec`, which can then be sorted.
pub fn list_of_keys_above(
    alloc: Global,
    pairs: &Map<u8, u32, 16>,
    limit: u32,
) -> Result<Vec<u8>, AllocError>
    ensures { IfOk result (λ v. v.items ≡ map (λ p. p.0) (filter (λ p. nat_lt limit p.1) pairs.now)) }
{
    pairs
        .iter()
        .filter(|(_, v)| **v > limit)
        .map(|(k, _)| *k)
        .collect(alloc)
}
