//! Asking, and finding what is stored.
#![tactic(auto, using(micromap::proofs::Rules::calls))]

ghost use Rattle.std.specs.Prelude.{◌≡◌, ◌+◌, ◌-◌, ◌==◌, IfSome, IsFalse, IsNone, IsTrue, Some, length, max, nat_eq, nat_lt, not, slice_get, unwrap_or};
ghost use Rattle.std.specs.List.{find, list_all, list_any, range_with_len, reduce};
ghost use Rattle.std.specs.Map.{values_of};
ghost use Rattle.std.specs.Option.{option_map};
ghost use Rattle.std.specs.Set.{is_member};
ghost use Rattle.micromap.specs.Pairs.{at, pair};

use micromap::{Map, Set};

/// Returns whether a value passes a test.
/// Whether all pass is asked by `all`, and said by `list_all`. Keys go the same way, by `keys()`, and pairs by `iter()`.
pub fn any_value(pairs: &Map<u8, u32, 16>, x: u32) -> bool
    ensures { result ≡ list_any (λ v. v == x) (values_of pairs.now) }
{
    pairs.values().any(|v| *v == x)
}

/// Returns whether a set has all items of a list.
/// Whether a map has all as keys goes the same way, by `contains_key` and `has`.
pub fn all_stored(set: &Set<u8, 16>, list: &[u8]) -> bool
    ensures { result ≡ list_all (is_member nat_eq set.now) list.now }
{
    list.iter().all(|x| set.contains(x))
}

/// Finds the greatest value, or returns `None` if there is no pair.
/// The least goes the same way, by `min()`. By `copied()` in the place of `map` the search doesn't find it. Of signed
/// values it finds neither: take `max_by_key`, as `winner` does. An `unwrap_or` behind it stands in a second function.
pub fn greatest(pairs: &Map<u8, u32, 16>) -> Option<u32>
    ensures { result ≡ reduce max (values_of pairs.now) }
{
    pairs.values().map(|v| *v).max()
}

/// Finds a pair that passes a test, or tells that no key has one.
/// It is the first, which the contract leaves open. The loop stands in the place of a `find_map`, of which the search
/// finds no proof.
pub fn over(amounts: &Map<u8, u8, 16>, limit: u8) -> Option<(u8, u8)>
    ensures found { IfSome result (λ p. at nat_eq amounts.now p.0 ≡ Some p.1) }
    ensures over { IfSome result (λ p. IsTrue (nat_lt limit p.1)) }
    ensures none { IsNone result → (k p : _) → pair nat_eq amounts.now k ≡ Some p → IsFalse (nat_lt limit p.1) }
{
    for (key, amount) in amounts {
        if *amount > limit {
            return Some((*key, *amount));
        }
    }
    None
}

/// Adds up the values of two keys, with a default where a key is missing.
pub fn pieces(stock: &Map<u8, u16, 16>, one: u8, other: u8) -> u32
    ensures { result ≡ unwrap_or (at nat_eq stock.now one) 0 + unwrap_or (at nat_eq stock.now other) 0 }
{
    u32::from(stock.get_or(&one, 0)) + u32::from(stock.get_or(&other, 0))
}

/// Finds the first key and the last value, which are the oldest and the newest.
/// The pair at an index is `readings.iter().nth(index)`, as `option_map deref_pair result ≡ slice_get readings.now index`.
pub fn oldest_and_newest(readings: &Map<u8, u16, 16>) -> (Option<u8>, Option<u16>)
    ensures oldest { result.0 ≡ option_map (λ p. p.0) (slice_get readings.now 0) }
    ensures newest { result.1 ≡ option_map (λ p. p.1) (slice_get readings.now (length readings.now - 1)) }
{
    let oldest = readings.first().map(|(key, _)| *key);
    let newest = readings.last().map(|(_, value)| *value);
    (oldest, newest)
}

/// Finds the least free number, as the next id or colour, or 255 if all below it are used.
/// The loop over a range stands in the place of `find`, behind which `unwrap_or` isn't found. A test of more than one
/// look-up is a function of its own, whose clause says it by an `unfoldable` word.
pub fn least_free(used: &Set<u8, 16>) -> u8
    ensures { result ≡ unwrap_or (find (λ n. not (is_member nat_eq used.now n)) (range_with_len 0 255)) 255 }
{
    for number in 0..255_u8 {
        if !used.contains(&number) {
            return number;
        }
    }
    255
}
