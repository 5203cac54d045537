//! Values that are taken, replaced, or made where there is none.

use micromap::Map;
use std::mem;

/// Takes a value and leaves 0, or returns 0 if the key is missing.
pub fn take_amount(amounts: &mut Map<u8, u32, 8>, key: u8) -> u32 {
    match amounts.get_mut(&key) {
        Some(amount) => mem::take(amount),
        None => 0,
    }
}

/// Replaces a value, and returns the old one, or `None` if the key is missing, and then nothing changes.
pub fn replace_amount(amounts: &mut Map<u8, u32, 8>, key: u8, amount: u32) -> Option<u32> {
    let old = amounts.get_mut(&key)?;
    Some(mem::replace(old, amount))
}

/// Returns the value of a key, for which a default is inserted if the key is new and fits.
/// It returns `None` if the key is new and has no room.
pub fn get_or_insert(amounts: &mut Map<u8, u32, 8>, key: u8, default: u32) -> Option<u32> {
    if !amounts.fits(&key) {
        return None;
    }
    Some(*amounts.entry(key).or_insert(default))
}

/// Returns the value of a `&str` key, for which a default is inserted if the key is new and fits.
/// The kit's borrow checker doesn't cover an entry of a map with `&str` keys.
pub fn get_or_insert_word<'a>(
    amounts: &mut Map<&'a str, u32, 8>,
    word: &'a str,
    default: u32,
) -> Option<u32> {
    match amounts.get(&word).copied() {
        Some(amount) => Some(amount),
        None if amounts.put(word, default) => Some(default),
        None => None,
    }
}

/// Changes the value of a key if it is there, and returns whether it is.
pub fn double(amounts: &mut Map<u8, u32, 8>, key: u8) -> bool {
    match amounts.get_mut(&key) {
        Some(amount) => {
            *amount = amount.saturating_mul(2);
            true
        }
        None => false,
    }
}

/// Inserts a pair, or returns `None` if it has no room. Otherwise it returns the old value, if there was one.
pub fn insert_checked(amounts: &mut Map<u8, u32, 8>, key: u8, amount: u32) -> Option<Option<u32>> {
    amounts.checked_insert(key, amount)
}

/// Exchanges the values of two keys, and returns whether both are stored.
pub fn exchange(amounts: &mut Map<u8, u32, 8>, one: u8, other: u8) -> bool {
    let (Some(first), Some(second)) = (amounts.get(&one).copied(), amounts.get(&other).copied())
    else {
        return false;
    };
    amounts.put(one, second) && amounts.put(other, first)
}
