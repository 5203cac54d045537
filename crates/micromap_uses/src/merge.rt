//! Two maps or two sets: merging, comparing, and what both have.
#![tactic(auto, using(micromap::proofs::Rules::caller))]

ghost use Rattle.std.specs.Prelude.{◌≡◌, ◌↔◌, ◌-◌, ◌<◌, ◌^◌, IfOk, IfSome, IsErr, IsFalse, IsNone, IsTrue, filter, fold, if◌then◌else◌, length, nat_eq, not};
ghost use Rattle.std.specs.Bool.{OnTrue};
ghost use Rattle.std.specs.Set.{is_member};
ghost use Rattle.micromap.specs.Build.{merged, put_all};
ghost use Rattle.micromap.specs.Merges.{sum_up_to};
ghost use Rattle.micromap.specs.Operations.{intersection, union};
ghost use Rattle.micromap.specs.Pairs.{at, has, put_if_fits};
ghost use Rattle.micromap.specs.Same.{Same, has_value};

use micromap::{Map, Overfull, Set};

/// Merges two maps into a new one, or returns `None` exactly if they don't all fit.
/// Of a key in both the second one's value stands. `first.try_extend_from(second)` does it in place, all or nothing.
pub fn overlaid(first: &Map<u8, u8, 16>, second: &Map<u8, u8, 16>) -> Option<Map<u8, u8, 16>>
    ensures made { IfSome result (λ m. m ≡ put_all nat_eq first.now second.now) }
    ensures refused { IsNone result ↔ (16 < length (put_all nat_eq first.now second.now)) }
{
    let mut both = first.copied();
    both.try_extend_from(second).ok()?;
    Some(both)
}

/// Fills in defaults: puts the pairs of another map whose keys are missing, as far as they fit.
pub fn fill_in(settings: &mut Map<u16, u32, 32>, defaults: &Map<u16, u32, 16>)
    ensures { settings.new ≡ fold (λ m p. if has nat_eq m p.0 then m else put_if_fits nat_eq 32 m p.0 p.1) settings.old defaults.now }
{
    for (key, value) in defaults {
        if !settings.contains_key(key) {
            settings.put(*key, *value);
        }
    }
}

/// Adds the amounts of a map to the totals of another.
/// A total stays at the greatest number. It returns `false`, and nothing changes, exactly if there would be more than 32
/// keys.
pub fn add_map(totals: &mut Map<u8, u32, 32>, amounts: &Map<u8, u32, 16>) -> bool
    ensures totals { OnTrue result (totals.new ≡ merged nat_eq (sum_up_to (2 ^ 32 - 1)) totals.old amounts.now) }
    ensures refused { IsFalse result ↔ (32 < length (merged nat_eq (sum_up_to (2 ^ 32 - 1)) totals.old amounts.now)) }
    ensures unchanged { IsFalse result → totals.new ≡ totals.old }
{
    let mut sums = totals.copied();
    for (number, amount) in amounts {
        let total = sums.get(number).copied().unwrap_or(0);
        if !sums.put(*number, total.saturating_add(*amount)) {
            return false;
        }
    }
    *totals = sums;
    true
}

/// Makes a set of the union of two sets, or returns an error exactly if it has more than 16 items.
/// Difference and symmetric difference go the same way, by their words.
pub fn set_of_union(a: &Set<u8, 16>, b: &Set<u8, 16>) -> Result<Set<u8, 16>, Overfull>
    ensures made { IfOk result (λ s. s ≡ union nat_eq a.now b.now) }
    ensures refused { IsErr result ↔ (16 < length (union nat_eq a.now b.now)) }
{
    Set::try_from_iter(a.union(b).copied())
}

/// Makes a set of the items that two sets have in common.
/// They always fit where the first set's did.
pub fn common(a: &Set<u8, 16>, b: &Set<u8, 8>) -> Set<u8, 16>
    ensures { result ≡ intersection nat_eq a.now b.now }
{
    match Set::try_from_iter(a.intersection(b).copied()) {
        Ok(items) => items,
        Err(_) => unreachable!(),
    }
}

/// Copies what changed: the pairs that another map lacks or has with another value.
/// Of signed values the closure says what it returns.
pub fn changed(settings: &Map<u8, u8, 16>, other: &Map<u8, u8, 16>) -> Map<u8, u8, 16>
    ensures { result ≡ filter (λ p. not (has_value nat_eq nat_eq other.now p)) settings.now }
{
    let mut kept = settings.copied();
    kept.retain(|number, value| other.get(number) != Some(value));
    kept
}

// Returns whether a list has an item, tested as `is_member` tests it.
fn is_in(list: &[u8], item: u8) -> bool
    ensures { result ≡ is_member nat_eq list.now item }
{
    list.iter().any(|x| item == *x)
}

/// Keeps only the items of a set that are in a list, as in an allow list.
/// The test is a function: by `list.contains(item)` in the closure the search finds no proof. Those of another set go by
/// `other.contains(item)`, without one.
pub fn keep_listed(set: &mut Set<u8, 16>, list: &[u8])
    ensures { set.new ≡ filter (is_member nat_eq list.now) set.old }
{
    set.retain(|item| is_in(list, *item));
}

/// Returns whether two maps are the same, in whatever order; then each key finds the same in both.
/// A key at which they differ is `one.differs_at(other)`. Of signed values the clause has
/// `IsTrue (option_eq int_eq (at nat_eq one.now k) (at nat_eq other.now k))`: by `≡` the search doesn't find it.
pub fn find_same(one: &Map<u8, u8, 16>, other: &Map<u8, u8, 8>) -> bool
    ensures same { IsTrue result ↔ Same nat_eq nat_eq one.now other.now }
    ensures keys { OnTrue result ((k : _) → at nat_eq one.now k ≡ at nat_eq other.now k) }
{
    one.eq_with(other)
}
