//! Changes that can be undone, and results that are kept.

use micromap::Map;
use std::alloc::{AllocError, Global};

/// Levels, with what each key had before each change.
#[derive(Drop)]
pub struct Levels {
    levels: Map<u8, u32, 8>,
    changes: Vec<(u8, Option<u32>)>,
}

impl Levels {
    /// Creates a map without a change.
    pub fn new(alloc: Global) -> Self {
        Levels {
            levels: Map::new(),
            changes: Vec::new(alloc),
        }
    }

    /// Returns the level of a key.
    pub fn level(&self, key: u8) -> Option<u32> {
        self.levels.get(&key).copied()
    }

    /// Sets a level, and returns whether there is room for it; otherwise nothing changes.
    pub fn set(&mut self, key: u8, level: u32) -> Result<bool, AllocError> {
        if !self.levels.fits(&key) {
            return Ok(false);
        }
        let old = self.levels.get(&key).copied();
        self.changes.push((key, old))?;
        Ok(self.levels.put(key, level))
    }

    /// Undoes the last change that stands, and returns whether there was one.
    pub fn undo(&mut self) -> bool {
        match self.changes.pop() {
            Some((key, Some(old))) => self.levels.put(key, old),
            Some((key, None)) => self.levels.remove(&key).is_some(),
            None => false,
        }
    }
}

// Adds up the numbers that divide another, by trying each.
fn sum_of_divisors(number: u32) -> u64 {
    let mut sum: u64 = 0;
    for divisor in 1..=number {
        if number % divisor == 0 {
            sum = sum.saturating_add(u64::from(divisor));
        }
    }
    sum
}

/// Returns the sum of a number's divisors, and keeps it in a map, so that it is computed once.
/// In a full map the oldest result goes.
pub fn divisors_known(known: &mut Map<u32, u64, 8>, number: u32) -> u64 {
    if let Some(sum) = known.get(&number) {
        return *sum;
    }
    let sum = sum_of_divisors(number);
    if !known.put(number, sum) {
        known.pop_first();
        known.put(number, sum);
    }
    sum
}
