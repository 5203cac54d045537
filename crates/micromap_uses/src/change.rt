//! Changing a map or a set in place.
#![tactic(auto, using(micromap::proofs::Rules::calls))]

ghost use Rattle.std.specs.Prelude.{◌≡◌, ◌&&◌, ◌*◌, ◌-◌, ◌<◌, ◌^◌, ◌≤◌, ◌↔◌, [], IfSome, IsFalse, IsNone, IsTrue, None, Some, count_by, drop, filter, if◌then◌else◌, length, map, min, nat_eq, nat_le, nat_lt, not, slice_get, true};
ghost use Rattle.std.specs.Bool.{OnTrue};
ghost use Rattle.std.specs.List.{All, Contains, list_all};
ghost use Rattle.std.specs.Map.{values_of};
ghost use Rattle.std.specs.Option.{option_map_or};
ghost use Rattle.micromap.specs.Items.{item_fits, put_item};
ghost use Rattle.micromap.specs.Pairs.{at, fits, has, has_room, pair, put, take_out};

use micromap::{Entry, Map, Set};

// Keeps the pairs that pass a test.
fn keep(pairs: &mut Map<u8, u32, 16>, limit: u32)
    ensures { pairs.new ≡ filter (λ p. nat_lt limit p.1) pairs.old }
{
    pairs.retain(|_, value| *value > limit);
}

/// Keeps the pairs that pass a test, and returns how many went.
/// A set's items go the same way, by `|item|`. The `retain` is a function of its own: beside it the search doesn't find the
/// count.
pub fn keep_above(pairs: &mut Map<u8, u32, 16>, limit: u32) -> usize
    ensures went { result ≡ count_by (λ p. nat_le p.1 limit) pairs.old }
    ensures kept { pairs.new ≡ filter (λ p. nat_lt limit p.1) pairs.old }
{
    let count = pairs.len();
    keep(pairs, limit);
    count - pairs.len()
}

/// Changes all values.
/// Of signed values the closure says `ensures { value.new ≡ int_min value.old most }`, with `int_min` of `std.specs.Int`.
pub fn cap(pairs: &mut Map<u8, u8, 16>, most: u8)
    ensures { pairs.new ≡ map (λ p. (p.0, min p.1 most)) pairs.old }
{
    pairs.update_all(|_, value| *value = (*value).min(most));
}

/// Takes one from all values and drops those that are 0 then, as a timer that expires.
pub fn tick(timers: &mut Map<u8, u8, 16>)
    ensures { timers.new ≡ filter (λ p. nat_lt 0 p.1) (map (λ p. (p.0, p.1 - 1)) timers.old) }
{
    timers.update_all(|_, turns| *turns = turns.saturating_sub(1));
    timers.retain(|_, turns| *turns > 0);
}

/// Sets a value that is within a limit, so that a bound of all values is kept.
/// It returns whether it did. Otherwise nothing changes. The law that a `put` keeps the bound is in the line `tactic`.
#[tactic(auto, using(micromap_core::proofs::Laws::MapLaws::map_laws, crate::proofs::ValueLaws::all_values_put))]
pub fn set_within(levels: &mut Map<u8, u8, 16>, key: u8, level: u8) -> bool
    requires { list_all (λ v. nat_le v 100) (values_of levels.old) ≡ true }
    ensures bounded { list_all (λ v. nat_le v 100) (values_of levels.new) ≡ true }
    ensures answer { result ≡ (nat_le level 100 && fits nat_eq 16 levels.old key) }
    ensures levels { levels.new ≡ (if result then put nat_eq levels.old key level else levels.old) }
{
    level <= 100 && levels.put(key, level)
}

// Returns whether each amount times a factor fits.
fn can_scale(amounts: &Map<u8, u32, 16>, factor: u32) -> bool
    ensures { result ≡ list_all (λ v. nat_lt (v * factor) (2 ^ 32)) (values_of amounts.now) }
{
    amounts.values().all(|v| v.checked_mul(factor).is_some())
}

/// Changes all values, or none if one doesn't fit then.
/// If all products fit, `min` in the clause `scaled` changes nothing.
pub fn scale(amounts: &mut Map<u8, u32, 16>, factor: u32) -> bool
    ensures answer { result ≡ list_all (λ v. nat_lt (v * factor) (2 ^ 32)) (values_of amounts.old) }
    ensures scaled { IsTrue result → amounts.new ≡ map (λ p. (p.0, min (p.1 * factor) (2 ^ 32 - 1))) amounts.old }
    ensures unchanged { IsFalse result → amounts.new ≡ amounts.old }
{
    if !can_scale(amounts, factor) {
        return false;
    }
    amounts.update_all(|_, v| *v = v.saturating_mul(factor));
    true
}

/// Sets a value if the old one passes a test, or if the key is new and fits, by a `match` on the entry.
/// It returns whether it did.
pub fn raise_any(levels: &mut Map<u8, u8, 16>, key: u8, limit: u8, value: u8) -> bool
    ensures answer { result ≡ option_map_or (λ old. nat_lt old limit) (at nat_eq levels.old key) (has_room 16 levels.old) }
    ensures levels { levels.new ≡ (if result then put nat_eq levels.old key value else levels.old) }
{
    match levels.entry(key) {
        Entry::Occupied(mut entry) if *entry.get() < limit => {
            entry.insert(value);
            true
        }
        Entry::Occupied(_entry) => false,
        Entry::Vacant(entry) if entry.has_room() => {
            entry.insert(value);
            true
        }
        Entry::Vacant(_entry) => false,
    }
}

/// Renames a key: moves its value to a key that must be new.
/// It returns whether the old key was stored and the new one wasn't. Otherwise nothing changes. The pair goes last.
pub fn reissue(leases: &mut Map<u8, u8, 16>, from: u8, to: u8) -> bool
    ensures answer { result ≡ (has nat_eq leases.old from && not (has nat_eq leases.old to)) }
    ensures missing { IsTrue result → pair nat_eq leases.old to ≡ None }
    ensures moved { IsTrue result → leases.new ≡ option_map_or (λ value. put nat_eq (take_out nat_eq leases.old from) to value) (at nat_eq leases.old from) leases.old }
    ensures unchanged { IsFalse result → leases.new ≡ leases.old }
{
    if leases.contains_key(&to) {
        return false;
    }
    match leases.remove(&from) {
        Some(value) => {
            leases.insert(to, value);
            true
        }
        None => false,
    }
}

/// Makes two changes, both or none, as for an edge and its way back.
/// It returns `false`, and nothing changes, exactly if they don't both fit. The changes are made in a copy. A map of sets
/// can't be `copied()`: there, test both changes first, and then make them.
pub fn put_edge(map: &mut Map<u8, u8, 16>, one: u8, other: u8) -> bool
    ensures put { OnTrue result (map.new ≡ put nat_eq (put nat_eq map.old one other) other one) }
    ensures refused { IsFalse result ↔ (16 < length (put nat_eq (put nat_eq map.old one other) other one)) }
    ensures unchanged { IsFalse result → map.new ≡ map.old }
{
    let mut copy = map.copied();
    if !copy.put(one, other) || !copy.put(other, one) {
        return false;
    }
    *map = copy;
    true
}

/// Takes the first pair out, as from a queue, or returns `None` if there is none.
/// Its key had its value, and isn't found then. `pop_last` takes the last one.
pub fn take_first(queue: &mut Map<u8, u32, 16>) -> Option<(u8, u32)>
    ensures first { result ≡ slice_get queue.old 0 }
    ensures found { IfSome result (λ p. at nat_eq queue.old p.0 ≡ Some p.1) }
    ensures gone { IfSome result (λ p. IsFalse (has nat_eq queue.new p.0)) }
    ensures others { queue.new ≡ drop 1 queue.old }
{
    queue.pop_first()
}

/// Adds an item to a set of the 8 newest, and takes out the oldest if there is no room.
/// An item that is there already takes none out. The contract leaves the result open, which is the item that went.
pub fn add_newest(newest: &mut Set<u8, 8>, item: u8) -> Option<u8>
    ensures { newest.new ≡ put_item nat_eq (if item_fits nat_eq 8 newest.old item then newest.old else drop 1 newest.old) item }
{
    if newest.put(item) {
        return None;
    }
    let oldest = newest.pop_first();
    newest.insert(item);
    oldest
}

/// Finds a pair with the least value, or returns `None` exactly if there is no pair.
/// Of several such pairs the contract leaves open which it is. One with the greatest value is found by `max_by_key`, as
/// in `winner`.
pub fn cheapest(prices: &Map<u8, u32, 16>) -> Option<(u8, u32)>
    ensures none { IsNone result ↔ (prices.now ≡ []) }
    ensures found { IfSome result (Contains prices.now) }
    ensures least { IfSome result (λ least. All (λ other. least.1 ≤ other.1) prices.now) }
{
    let (key, price) = prices.iter().min_by_key(|pair| *pair.1)?;
    Some((*key, *price))
}

/// Takes out a pair with the least value, as from a priority queue, or returns `None` exactly if there is no pair.
pub fn take_cheapest(prices: &mut Map<u8, u32, 16>) -> Option<(u8, u32)>
    ensures found { IfSome result (Contains prices.old) }
    ensures least { IfSome result (λ least. All (λ other. least.1 ≤ other.1) prices.old) }
    ensures others { IfSome result (λ least. prices.new ≡ take_out nat_eq prices.old least.0) }
    ensures room { IfSome result (λ _. length prices.new < 16) }
    ensures none { IsNone result ↔ (prices.old ≡ []) }
    ensures empty { IsNone result → prices.new ≡ [] }
{
    let least = cheapest(prices)?;
    prices.remove(&least.0);
    Some(least)
}

/// Sets a value, for which a pair with the least value is evicted if there is no room.
/// It returns the pair that was taken out, if any.
pub fn set_evicting(prices: &mut Map<u8, u32, 16>, key: u8, price: u32) -> Option<(u8, u32)>
    ensures fit { IsTrue (fits nat_eq 16 prices.old key) → prices.new ≡ put nat_eq prices.old key price }
    ensures least { IfSome result (λ least. All (λ other. least.1 ≤ other.1) prices.old) }
    ensures evicted { IfSome result (λ least. prices.new ≡ put nat_eq (take_out nat_eq prices.old least.0) key price) }
    ensures none { IsNone result ↔ IsTrue (fits nat_eq 16 prices.old key) }
    ensures stored { at nat_eq prices.new key ≡ Some price }
{
    if prices.put(key, price) {
        return None;
    }
    let least = take_cheapest(prices);
    prices.insert(key, price);
    least
}
