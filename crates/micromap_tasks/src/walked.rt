//! Walks over pairs: from the back, by index, in pieces; and maps that are made of an array.

use micromap::Map;
use std::alloc::{AllocError, Global};

/// Lists the keys from the back.
pub fn keys_from_the_back(alloc: Global, ages: &Map<u8, u32, 8>) -> Result<Vec<u8>, AllocError> {
    let mut keys: Vec<u8> = ages.keys().copied().collect(alloc)?;
    keys.reverse();
    Ok(keys)
}

/// Takes the pairs out from the back, and adds up their values, up to the greatest number.
/// A `while let` would need a measure, so the loop is counted by the capacity.
pub fn sum_from_the_back(ages: &mut Map<u8, u32, 8>) -> u32 {
    let mut sum: u32 = 0;
    for _ in 0..8_usize {
        let Some((_, age)) = ages.pop_last() else {
            break;
        };
        sum = sum.saturating_add(age);
    }
    sum
}

/// Makes a map of a written list of pairs, with room for more.
/// `Map::from` makes a map whose capacity is the number of pairs.
pub fn start_levels() -> Map<&'static str, u8, 8> {
    let levels = Map::from([("bread", 3), ("milk", 2), ("salt", 1)]);
    match levels.into_capacity() {
        Ok(levels) => levels,
        Err(_) => Map::new(),
    }
}

/// Finds the pair at an index, from the front.
pub fn pair_at(ages: &Map<u8, u32, 8>, index: usize) -> Option<(u8, u32)> {
    let (key, age) = ages.iter().nth(index)?;
    Some((*key, *age))
}

/// Finds the index of a key, from the front.
pub fn index_of(ages: &Map<u8, u32, 8>, key: u8) -> Option<usize> {
    ages.keys().position(|other| *other == key)
}

/// Returns whether each pair has a key below that of the pair behind it.
pub fn is_in_key_order(ages: &Map<u8, u32, 8>) -> bool {
    let mut last: Option<u8> = None;
    for key in ages.keys() {
        if last.is_some_and(|last| last >= *key) {
            return false;
        }
        last = Some(*key);
    }
    true
}
