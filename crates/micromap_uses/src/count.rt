//! Counting, adding up, and totals by key.
#![tactic(auto, using(micromap::proofs::Rules::calls))]

ghost use Rattle.std.specs.Prelude.{◌≡◌, ◌↔◌, ◌&&◌, ◌+◌, ◌-◌, ◌<◌, ◌^◌, ◌≤◌, ℕ, [], IfSome, IsFalse, IsNone, None, Option, Some, count_by, fold, if◌then◌else◌, length, nat_eq, nat_lt, sum, unwrap_or};
ghost use Rattle.std.specs.Bool.{OnTrue};
ghost use Rattle.std.specs.List.{All, Contains};
ghost use Rattle.std.specs.Map.{values_of};
ghost use Rattle.std.specs.Option.{option_and_then};
ghost use Rattle.std.specs.Set.{distinct_count};
ghost use Rattle.micromap.specs.Build.{counts, counts_or_refuse, merged};
ghost use Rattle.micromap.specs.Merges.{sum_up_to};
ghost use Rattle.micromap.specs.Pairs.{at, fits, put};

use micromap::Map;
use micromap::map::Values;

// What `counts_or_none` returns, in the word of `counts_of`.
fn all_counts(list: &[u8]) -> Option<Map<u8, usize, 16>>
    ensures { result ≡ counts_or_refuse nat_eq 16 list.now }
{
    Map::counts_of(list.iter().map(|x| *x))
}

/// Counts how often each item of a list comes, or returns `None` exactly if there are more than 16 distinct ones.
/// What a function makes of those that pass goes the same way, by `filter` and another `map`. A list of `&str` is counted
/// by `count_words`.
pub fn counts_or_none(list: &[u8]) -> Option<Map<u8, usize, 16>>
    ensures counted { IfSome result (λ m. m ≡ counts nat_eq list.now) }
    ensures refused { IsNone result ↔ (16 < distinct_count nat_eq list.now) }
{
    all_counts(list)
}

/// Counts one more of a key by its entry, if that fits.
/// It returns `false` if the key has no room, or if its count is the greatest number.
pub fn count_once(counts: &mut Map<char, u8, 16>, letter: char) -> bool
    ensures answer { result ≡ (fits nat_eq 16 counts.old letter && nat_lt (unwrap_or (at nat_eq counts.old letter) 0) 255) }
    ensures counts { counts.new ≡ (if result then put nat_eq counts.old letter (unwrap_or (at nat_eq counts.old letter) 0 + 1) else counts.old) }
{
    let entry = counts.entry(letter);
    if !entry.has_room() {
        return false;
    }
    let count = entry.or_insert(0);
    if *count == u8::MAX {
        return false;
    }
    *count += 1;
    true
}

/// Counts the pairs that pass a test.
/// Values alone go the same way, by `values()`, and a set's items by `iter()`.
pub fn count_pairs(pairs: &Map<u8, u32, 16>, limit: u32) -> usize
    ensures { result ≡ count_by (λ p. nat_lt limit p.1 && nat_lt p.0 9) pairs.now }
{
    pairs.iter().filter(|(k, v)| **v > limit && **k < 9).count()
}

// Adds up in a wider type what an iterator yields. The number of values bounds the sum.
fn total_wide<K>(values: Values<'_, K, u32>) -> u64
    requires { length values ≤ 2 ^ 32 }
    ensures { result ≡ sum values.entry }
{
    values.map(|v| *v as u64).sum()
}

/// Adds up the values of a map, in a type that has room for the sum.
/// The sum stands in a function of its own: in one function the search doesn't find that it fits.
pub fn total(pairs: &Map<u8, u32, 16>) -> u64
    ensures { result ≡ sum (values_of pairs.now) }
{
    total_wide(pairs.values())
}

/// Adds up what a map has for each key of a list, as the price of a basket.
/// It returns `None` if a key is missing or the sum doesn't fit.
pub fn price_of(prices: &Map<u8, u32, 16>, basket: &[u8]) -> Option<u32>
    ensures { result ≡ fold
        (λ (sum : Option ℕ) (k : ℕ). option_and_then (λ s. option_and_then (λ p. if nat_lt (s + p) (2 ^ 32) then Some (s + p) else None) (at nat_eq prices.now k)) sum)
        (Some 0) basket.now }
{
    basket.iter().fold(Some(0), |sum: Option<u32>, k| {
        let so_far = sum?;
        let price = prices.get(k)?;
        so_far.checked_add(*price)
    })
}

/// Adds each amount of a list to the total of its key.
/// A total stays at the greatest number. New keys go last, in the order in which each first came. It returns `false`, and
/// nothing changes, exactly if there would be more than 16 keys. From an empty map it makes the totals of the list.
pub fn add_amounts(totals: &mut Map<u8, u32, 16>, amounts: &[(u8, u32)]) -> bool
    ensures totals { OnTrue result (totals.new ≡ merged nat_eq (sum_up_to (2 ^ 32 - 1)) totals.old amounts.now) }
    ensures refused { IsFalse result ↔ (16 < length (merged nat_eq (sum_up_to (2 ^ 32 - 1)) totals.old amounts.now)) }
    ensures unchanged { IsFalse result → totals.new ≡ totals.old }
{
    let mut sums = totals.copied();
    for (number, amount) in amounts {
        let total = sums.get(number).copied().unwrap_or(0);
        if !sums.put(*number, total.saturating_add(*amount)) {
            return false;
        }
    }
    *totals = sums;
    true
}

/// Finds a key with the greatest value, as the winner of a vote, or returns `None` exactly if there is no pair.
/// Of several such keys the contract leaves open which it is.
pub fn winner(counts: &Map<u8, usize, 16>) -> Option<(u8, usize)>
    ensures none { IsNone result ↔ (counts.now ≡ []) }
    ensures counted { IfSome result (Contains counts.now) }
    ensures most { IfSome result (λ winner. All (λ other. other.1 ≤ winner.1) counts.now) }
{
    let (key, votes) = counts.iter().max_by_key(|pair| *pair.1)?;
    Some((*key, *votes))
}
