//! Inserting and reading back, and a loop with its invariant.
#![tactic(auto, using(micromap::proofs::Rules::caller))]

ghost use Rattle.std.specs.Prelude.{◌≡◌, ◌<◌, ◌^◌, IsTrue, Some, nat_eq, sum};
ghost use Rattle.std.specs.Map.{values_of};
ghost use Rattle.micromap.specs.Pairs.{fits};

use micromap::Map;

/// Inserts a pair that fits, and looks its key up.
pub fn put_and_get(map: &mut Map<u8, u8, 8>, key: u8, value: u8) -> Option<u8>
    requires { IsTrue (fits nat_eq 8 map.old key) }
    ensures { result ≡ Some value }
{
    map.insert(key, value);
    map.get(&key).copied()
}

/// Adds up the values in a loop.
/// That the sum fits is required, and the invariant says what is left of it.
pub fn sum_in_loop(map: &Map<u8, u64, 8>) -> u64
    requires { sum (values_of map.now) < 2 ^ 64 }
    ensures { result ≡ sum (values_of map.now) }
{
    let mut total = 0;
    for value in map.values() {
        total += *value;
    }
    total
}
