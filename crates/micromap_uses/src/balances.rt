//! Signed amounts: balances, transfers, and a ledger.
#![tactic(auto, using(micromap::proofs::Rules::caller))]

ghost use Rattle.std.specs.Prelude.{◌≡◌, ◌&&◌, ◌↔◌, ◌+ℤ◌, ◌-ℤ◌, ◌<◌, IsFalse, Some, fold, if◌then◌else◌, int_lt, length, map, nat_eq, pos, unwrap_or};
ghost use Rattle.std.specs.Bool.{OnTrue};
ghost use Rattle.std.specs.Int.{saturate_signed, w64};
ghost use Rattle.std.specs.Map.{values_of};
ghost use Rattle.std.specs.Option.{is_some, option_and_then, option_map_or};
ghost use Rattle.micromap.specs.Build.{merged};
ghost use Rattle.micromap.specs.Pairs.{at, has, put};
ghost use Rattle.micromap_uses.specs.Signed.{balance_with, checked_difference, checked_sum, credited, debited};

use micromap::Map;

/// Adds two signed numbers, or returns `None` if the sum doesn't fit.
/// Its callers need not know what `checked_sum` unfolds to. A struct around a signed number goes the same way.
#[tactic(auto, using(micromap::proofs::Rules::signed), unfolding(crate::specs::Signed::checked_sum))]
pub fn add_signed(a: i64, b: i64) -> Option<i64>
    ensures { result ≡ checked_sum a b }
{
    a.checked_add(b)
}

/// Adds up signed values, or returns `None` if a sum doesn't fit.
/// The `fold` with `total?` stands in the place of a `try_fold`, of which the search finds no proof.
pub fn checked_net(amounts: &Map<u8, i64, 16>) -> Option<i64>
    ensures { result ≡ fold (λ total amount. option_and_then (λ t. checked_sum t amount) total) (Some (pos 0)) (values_of amounts.now) }
{
    amounts.values().fold(
        Some(0),
        |total: Option<i64>, amount| add_signed(total?, *amount),
    )
}

/// Adds up signed values, where a sum that doesn't fit stays at the end of the range.
/// The search doesn't find a `fold` whose total is a signed number and not an `Option`, so this is a loop.
pub fn net(amounts: &Map<u8, i64, 16>) -> i64
    ensures { result ≡ fold (λ total amount. saturate_signed w64 (total +ℤ amount)) (pos 0) (values_of amounts.now) }
{
    let mut total: i64 = 0;
    for amount in amounts.values() {
        total = total.saturating_add(*amount);
    }
    total
}

/// Adds a signed amount to a stored balance, or returns `None` if the key is missing or the sum doesn't fit.
/// Then nothing changes.
pub fn post_checked(balances: &mut Map<u8, i64, 16>, account: u8, amount: i64) -> Option<i64>
    ensures answer { result ≡ option_and_then (λ b. checked_sum b amount) (at nat_eq balances.old account) }
    ensures balances { balances.new ≡ unwrap_or (credited balances.old account amount) balances.old }
{
    let sum = add_signed(*balances.get(&account)?, amount)?;
    balances.insert(account, sum);
    Some(sum)
}

// Subtracts two signed numbers, or returns `None` if the difference doesn't fit.
#[tactic(auto, using(micromap::proofs::Rules::signed), unfolding(crate::specs::Signed::checked_difference))]
fn subtract_signed(a: i64, b: i64) -> Option<i64>
    ensures { result ≡ checked_difference a b }
{
    a.checked_sub(b)
}

// Takes an amount from a stored balance, and returns whether it is there and the difference fits.
fn debit(balances: &mut Map<u8, i64, 16>, account: u8, amount: i64) -> bool
    ensures answer { result ≡ is_some (debited balances.old account amount) }
    ensures balances { balances.new ≡ unwrap_or (debited balances.old account amount) balances.old }
{
    let Some(balance) = balances.get(&account) else {
        return false;
    };
    let Some(difference) = subtract_signed(*balance, amount) else {
        return false;
    };
    balances.insert(account, difference);
    true
}

/// Transfers a signed amount from one stored key to another, or changes nothing.
/// It returns `false` exactly if a key is missing or a new balance doesn't fit. The two changes are made on a copy, each in
/// a function of its own.
pub fn transfer(balances: &mut Map<u8, i64, 16>, from: u8, to: u8, amount: i64) -> bool
    ensures answer { result ≡ is_some (option_and_then (λ m. credited m to amount) (debited balances.old from amount)) }
    ensures balances { balances.new ≡ unwrap_or (option_and_then (λ m. credited m to amount) (debited balances.old from amount)) balances.old }
{
    let mut copy = balances.copied();
    if !debit(&mut copy, from, amount) || post_checked(&mut copy, to, amount).is_none() {
        return false;
    }
    *balances = copy;
    true
}

/// Swaps the signed values of two keys.
/// It returns whether both are stored. Otherwise nothing changes. Both are asked for before the values are read: from two
/// calls of `get` the search doesn't find that the second key still fits.
pub fn swap(balances: &mut Map<u8, i64, 16>, one: u8, other: u8) -> bool
    ensures answer { result ≡ (has nat_eq balances.old one && has nat_eq balances.old other) }
    ensures balances { balances.new ≡ option_map_or (λ a. option_map_or (λ b. put nat_eq (put nat_eq balances.old one b) other a) (at nat_eq balances.old other) balances.old) (at nat_eq balances.old one) balances.old }
{
    if !balances.contains_key(&one) || !balances.contains_key(&other) {
        return false;
    }
    let (first, second) = (balances[&one], balances[&other]);
    balances.insert(one, second);
    balances.insert(other, first);
    true
}

/// Takes a fee from each balance below zero, as a change of the signed values that pass a test.
/// With an `if` without `else` in the closure the search finds no proof.
pub fn charge(balances: &mut Map<u8, i64, 16>, fee: i64)
    ensures { balances.new ≡ map (λ p. (p.0, if int_lt p.1 (pos 0) then saturate_signed w64 (p.1 -ℤ fee) else p.1)) balances.old }
{
    balances.update_all(|_, b| *b = if *b < 0 { b.saturating_sub(fee) } else { *b });
}

// Adds an amount to a balance, which is 0 if there is none.
#[tactic(auto, using(micromap::proofs::Rules::signed), unfolding(crate::specs::Signed::balance_with))]
fn added(balance: Option<i64>, amount: &i64) -> i64
    ensures { result ≡ balance_with balance amount.now }
{
    balance.unwrap_or(0).saturating_add(*amount)
}

/// Adds each signed amount of a list to the balance of its key, as a ledger does.
/// A sum that doesn't fit stays at the end of the range. It returns `false`, and nothing changes, exactly if there would be
/// more than 16 keys. With `entry` in the loop the search gives up.
pub fn add_signed_list(balances: &mut Map<u8, i64, 16>, amounts: &[(u8, i64)]) -> bool
    ensures balances { OnTrue result (balances.new ≡ merged nat_eq balance_with balances.old amounts.now) }
    ensures refused { IsFalse result ↔ (16 < length (merged nat_eq balance_with balances.old amounts.now)) }
    ensures unchanged { IsFalse result → balances.new ≡ balances.old }
{
    let mut sums = balances.copied();
    for (account, amount) in amounts {
        let balance = added(sums.get(account).copied(), amount);
        if !sums.put(*account, balance) {
            return false;
        }
    }
    *balances = sums;
    true
}
