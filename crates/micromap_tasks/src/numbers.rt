//! Tables of numbers: sparse vectors, intervals, buckets.

use micromap::Map;

/// A vector whose other components are 0.
pub type Sparse = Map<u16, i64, 8>;

/// Multiplies two sparse vectors, or returns `None` if a product or the sum doesn't fit.
pub fn dot(one: &Sparse, other: &Sparse) -> Option<i64> {
    let mut sum: i64 = 0;
    for (index, number) in one {
        let product = number.checked_mul(other.get_or(index, 0))?;
        sum = sum.checked_add(product)?;
    }
    Some(sum)
}

/// Adds a sparse vector to another, and drops the components that are 0 then.
/// It returns `None`, and nothing changes, if a sum doesn't fit its type, or there would be too many components.
pub fn add_sparse(sum: &mut Sparse, other: &Sparse) -> Option<()> {
    let mut added = sum.copied();
    for (index, number) in other {
        added.checked_insert(*index, added.get_or(index, 0).checked_add(*number)?)?;
    }
    added.retain(|_, number| *number != 0);
    *sum = added;
    Some(())
}

/// Finds the value of the interval in which an amount is.
/// A key is the least amount of an interval, which ends below the next greater key. Keys are in any order.
pub fn value_of_interval(intervals: &Map<u32, u8, 8>, amount: u32) -> Option<u8> {
    let mut found: Option<(u32, u8)> = None;
    for (least, value) in intervals {
        if *least <= amount && found.is_none_or(|(best, _)| best < *least) {
            found = Some((*least, *value));
        }
    }
    let (_, value) = found?;
    Some(value)
}

/// Counts amounts by tens: a key has how many are in its bucket, as 3 those from 30 to 39.
/// It returns `None` if there are more than 8 buckets.
pub fn counts_by_tens(amounts: &[u32]) -> Option<Map<u32, u32, 8>> {
    let mut counts: Map<u32, u32, 8> = Map::new();
    for amount in amounts {
        let bucket = *amount / 10;
        counts.checked_insert(bucket, counts.get_or(&bucket, 0).saturating_add(1))?;
    }
    Some(counts)
}
