//! An order in which targets that need one another can be built, by a list of what is built so far.
ghost use Rattle.std.specs.Prelude.{◌≡◌, ◌↔◌, ℕ, ◌||◌, List, filter, nat_eq, not, true, IsTrue};
ghost use Rattle.std.specs.List.{find, list_all, list_any};
ghost use Rattle.std.specs.Map.{keys_of};
ghost use Rattle.std.specs.Option.{option_map};
ghost use Rattle.std.specs.Set.{is_member};
ghost use Rattle.micromap.specs.Operations.{IsDisjoint};
ghost use Rattle.micromap.specs.Pairs.{IsContent, has};
ghost use Rattle.micromap_examples.specs.Order.{is_blocked, is_next, is_next_affected, is_ready, is_touched, DependsOn, IsOrdered};

use micromap::{Map, Set};

/// Each target with those that it needs. One that is needed and is no key of the plan is never built.
pub type Plan<const D: usize, const N: usize> = Map<u8, Set<u8, D>, N>;

/// Returns the targets that can be built, each after all that it needs, and those that are left, in the plan's order.
///
/// A target is left if it needs one that is never built: one that is left itself, as on a cycle, or no key of the plan.
/// Scans the plan once for each target that is built.
pub fn build_order<const D: usize, const N: usize>(plan: &Plan<D, N>) -> (Set<u8, N>, Set<u8, N>)
    ensures ordered { IsOrdered plan.now result.0 }
    ensures all { (other : List ℕ) → IsOrdered plan.now other → IsTrue (list_all (is_member nat_eq result.0) other) }
    ensures left { result.1 ≡ filter (λ target. not (is_member nat_eq result.0 target)) (keys_of plan.now) }
    ensures blocked { IsTrue (list_all (is_blocked plan.now result.0) result.1) }
    ensures targets { (target : ℕ) → has nat_eq plan.now target ≡ (is_member nat_eq result.0 target || is_member nat_eq result.1 target) }
    ensures once { IsDisjoint nat_eq result.0 result.1 }
{
    let order = order_of(plan);
    let left = left_of(plan, &order);
    (order, left)
}

// Returns the targets that can be built, each after all that it needs.
fn order_of<const D: usize, const N: usize>(plan: &Plan<D, N>) -> Set<u8, N>
    ensures ordered { IsOrdered plan.now result }
    ensures targets { (target : ℕ) → is_member nat_eq result target ≡ true → has nat_eq plan.now target ≡ true }
    ensures complete { (target : ℕ) → is_ready plan.now result target ≡ true → is_member nat_eq result target ≡ true }
{
    let mut built = Set::new();
    while let Some(target) = next_ready(plan, &built) {
        built.insert(target);
    }
    built
}

// Returns the first target that isn't built yet and needs none but those that are.
fn next_ready<const D: usize, const N: usize>(plan: &Plan<D, N>, built: &Set<u8, N>) -> Option<u8>
    ensures answer { result ≡ option_map (λ p. p.0) (find (is_next built.now) plan.now) }
    ensures content { IsContent nat_eq N plan.now }
{
    for (target, needs) in plan {
        if !built.contains(target) && needs.is_subset(built) {
            return Some(*target);
        }
    }
    None
}

// Returns the targets that aren't built, in the plan's order.
#[tactic(auto, using(micromap::proofs::Rules::loops))]
fn left_of<const D: usize, const N: usize>(plan: &Plan<D, N>, built: &Set<u8, N>) -> Set<u8, N>
    ensures { result ≡ filter (λ target. not (is_member nat_eq built.now target)) (keys_of plan.now) }
{
    let mut left = Set::new();
    for target in plan.keys() {
        if !built.contains(target) {
            left.insert(*target);
        }
    }
    left
}

/// Returns the targets of the plan that need a target, directly or by way of others: itself too, if it is on a cycle.
///
/// Scans the plan once for each of them.
pub fn affected<const D: usize, const N: usize>(plan: &Plan<D, N>, target: u8) -> Set<u8, N>
    ensures { (x : ℕ) → IsTrue (is_member nat_eq result x) ↔ DependsOn plan.now x target }
{
    let mut met = Set::new();
    while let Some(next) = next_affected(plan, target, &met) {
        met.insert(next);
    }
    met
}

// Returns the first target that wasn't met and needs the given one or one that was met.
fn next_affected<const D: usize, const N: usize>(
    plan: &Plan<D, N>,
    target: u8,
    met: &Set<u8, N>,
) -> Option<u8>
    ensures answer { result ≡ option_map (λ p. p.0) (find (is_next_affected target met.now) plan.now) }
    ensures content { IsContent nat_eq N plan.now }
{
    for (next, needs) in plan {
        if !met.contains(next) && needs_met(needs, target, met) {
            return Some(*next);
        }
    }
    None
}

// Returns `true` if one of those that are needed is the target, or was met.
#[tactic(auto, using(crate::proofs::OrderLemmas::any_touched))]
fn needs_met<const D: usize, const N: usize>(
    needs: &Set<u8, D>,
    target: u8,
    met: &Set<u8, N>,
) -> bool
    ensures { result ≡ list_any (is_touched target met.now) needs.now }
{
    needs.contains(&target) || !needs.is_disjoint(met)
}
