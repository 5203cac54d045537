//! A counter of comparisons of keys.
ghost use Rattle.std.specs.Prelude.{◌≡◌, ℕ, ◌+◌, ◌*◌, ◌^◌, ◌<◌};

use std::marker::Model;

/// Counts comparisons of keys.
#[derive(Debug, Drop)]
pub struct Steps {
    counted: u128,
}

impl Model for Steps {
    ghost use Rattle.std.specs.Prelude.{ℕ};

    ghost Value = { ℕ };

    ghost view = { λ steps. steps.counted };
}

impl Steps {
    /// Creates a counter at 0, which meets the precondition of `eq_with_counted` for every map.
    pub fn new() -> Self
        ensures answer { result ≡ 0 }
        ensures room { (len : ℕ) → len < 2 ^ 64 → result + len * len < 2 ^ 128 }
    {
        Steps { counted: 0 }
    }

    /// Returns the number of comparisons.
    pub fn count(&self) -> u128
        ensures { result ≡ self.now }
    {
        self.counted
    }

    /// Returns `true` if the two keys are equal, and adds one. Requires `count() + 1 < 2^128`.
    pub fn same<K: Eq>(&mut self, first: &K, second: &K) -> bool
        requires { self.old + 1 < 2 ^ 128 }
        ensures answer { result ≡ K.eq first.now second.now }
        ensures count { self.new ≡ self.old + 1 }
    {
        self.counted += 1;
        *first == *second
    }
}
