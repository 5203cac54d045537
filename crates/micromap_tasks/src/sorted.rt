//! Pairs in the order of their keys or values, in a `Vec`. A map itself keeps the order of insertion.

use micromap::Map;
use std::alloc::{AllocError, Global};
use std::cmp::Reverse;

/// Lists the pairs in the order of their keys.
/// The names are `&str`; numbers go the same way.
pub fn sorted_by_key<'a>(
    alloc: Global,
    ages: &Map<&'a str, u32, 8>,
) -> Result<Vec<(&'a str, u32)>, AllocError> {
    let mut pairs: Vec<(&str, u32)> = ages.iter().map(|(name, age)| (*name, *age)).collect(alloc)?;
    pairs.sort()?;
    Ok(pairs)
}

/// Lists the pairs in the order of their values, the least first.
/// Pairs with the same value stay in the order in which their keys came.
pub fn sorted_by_value<'a>(
    alloc: Global,
    ages: &Map<&'a str, u32, 8>,
) -> Result<Vec<(&'a str, u32)>, AllocError> {
    let mut pairs: Vec<(&str, u32)> = ages.iter().map(|(name, age)| (*name, *age)).collect(alloc)?;
    pairs.sort_by_key(|pair| pair.1)?;
    Ok(pairs)
}

/// Lists the `count` pairs with the greatest values, the greatest first, or all pairs if there are fewer.
pub fn greatest_pairs(
    alloc: Global,
    scores: &Map<u8, u32, 8>,
    count: usize,
) -> Result<Vec<(u8, u32)>, AllocError> {
    let mut pairs: Vec<(u8, u32)> = scores
        .iter()
        .map(|(id, score)| (*id, *score))
        .collect(alloc)?;
    pairs.sort_by_key(|pair| Reverse(pair.1))?;
    pairs.truncate(count);
    Ok(pairs)
}

/// Makes a map whose pairs are in the order of their keys.
pub fn in_key_order(
    alloc: Global,
    scores: &Map<u8, u32, 8>,
) -> Result<Map<u8, u32, 8>, AllocError> {
    let mut pairs: Vec<(u8, u32)> = scores
        .iter()
        .map(|(id, score)| (*id, *score))
        .collect(alloc)?;
    pairs.sort()?;
    Ok(Map::from_fitting(pairs.iter().copied()))
}
