//! Clauses that a proof needs laws or facts for.

ghost use Rattle.std.specs.Prelude.{◌≡◌, IfSome, IsFalse, length};

use micromap::Map;

/// Sets an age, and reads it back.
#[tactic(auto, using(micromap::proofs::Rules::caller))]
pub fn read_after_change(ages: &mut Map<u32, u32, 8>, number: u32, age: u32) -> Option<u32>
    ensures { IfSome result (λ a. a ≡ age) }
{
    if !ages.put(number, age) {
        return None;
    }
    ages.get(&number).copied()
}

/// Returns whether a number fits. If it doesn't, there are eight.
pub fn only_looks_up(ages: &Map<u32, u32, 8>, number: u32) -> bool
    ensures full { IsFalse result → length ages.now ≡ 8 }
{
    let _known = ages.len();
    ages.fits(&number)
}
