//! Loops that need an invariant or a measure, and what does without.

ghost use Rattle.std.specs.Prelude.{◌≡◌, ◌≤◌, ◌<◌, ◌^◌, nat_lt, sum};
ghost use Rattle.std.specs.List.{list_any};
ghost use Rattle.std.specs.Map.{values_of};

use micromap::{Map, Set};

/// Adds up the values.
pub fn sum_in_loop(amounts: &Map<u32, u64, 8>) -> u64
    requires { sum (values_of amounts.now) < 2 ^ 64 }
    ensures { result ≡ sum (values_of amounts.now) }
{
    let mut total = 0;
    for amount in amounts.values() {
        total += *amount;
    }
    total
}

/// Returns whether an age is above a limit.
pub fn loop_without_invariant(ages: &Map<u32, u32, 8>, limit: u32) -> bool
    ensures { result ≡ list_any (λ age. nat_lt limit age) (values_of ages.now) }
{
    ages.values().any(|age| *age > limit)
}

/// Takes all ages out, the last first, and returns how many were even.
pub fn while_pop(ages: &mut Map<u32, u32, 8>) -> usize
    ensures { result ≤ 8 }
{
    let mut even = Set::<u32, 8>::new();
    for _ in 0..8 {
        let Some((number, age)) = ages.pop_last() else {
            break;
        };
        if age % 2 == 0 {
            even.put(number);
        }
    }
    even.len()
}

/// The numbers to which the edges of each number lead.
pub type Graph = Map<u8, Set<u8, 4>, 8>;

/// Counts the nodes that are reached from one, up to eight.
pub fn depth_first(graph: &Graph, start: u8) -> usize
    ensures { result ≤ 8 }
{
    let mut met: Set<u8, 8> = Set::new();
    met.put(start);
    for index in 0..8_usize {
        let Some(node) = met.iter().nth(index).copied() else {
            break;
        };
        if let Some(targets) = graph.get(&node) {
            for target in targets {
                met.put(*target);
            }
        }
    }
    met.len()
}
