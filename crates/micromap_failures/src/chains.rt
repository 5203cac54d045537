//! Chains and closures of which the search finds no proof, and those of which it does.
#![tactic(auto, using(micromap::proofs::Rules::caller))]

ghost use Rattle.std.specs.Prelude.{◌≡◌, IfOk, IfSome, Some, count_by, filter, nat_eq, not};
ghost use Rattle.micromap.specs.Build.{build};
ghost use Rattle.micromap.specs.Pairs.{at, has};
ghost use Rattle.micromap_failures.specs.Ages.{is_of_age};

use micromap::{Map, Overfull};

/// Finds who has an age, the first of several.
pub fn find_by_value(ages: &Map<u32, u32, 8>, wanted: u32) -> Option<u32>
    ensures { IfSome result (λ number. at nat_eq ages.now number ≡ Some wanted) }
{
    ages.keys()
        .copied()
        .find(|number| ages.get(number) == Some(&wanted))
}

/// Makes a map of a list, or returns an error.
pub fn returned_as_it_is(list: &[(u32, u32)]) -> Result<Map<u32, u32, 8>, Overfull>
    ensures { IfOk result (λ m. m ≡ build nat_eq list.now) }
{
    Ok(Map::try_from_iter(list.iter().copied())?)
}

/// Copies the pairs whose keys another map lacks.
#[tactic(auto, using(micromap_core::proofs::Laws::LoopLaws::closure_laws))]
pub fn captured_map<const N: usize>(
    ages: &Map<u32, u32, 8>,
    other: &Map<u32, u32, N>,
) -> Map<u32, u32, 8>
    ensures { result ≡ filter (λ p. not (has nat_eq other.now p.0)) ages.now }
{
    let mut lacking = ages.copied();
    lacking.retain(
        |key: &u32, value: &mut u32| -> bool
            ensures answer { result ≡ not (has nat_eq other.entry.now key.now) }
            ensures same { value.new ≡ value.old }
        { !other.contains_key(key) },
    );
    lacking
}

// Whether an age is at least a limit, where 0 is no limit.
#[tactic(auto, unfolding(crate::specs::Ages::is_of_age))]
fn of_age(age: u32, limit: u32) -> bool
    ensures { result ≡ is_of_age limit age }
{
    limit == 0 || age >= limit
}

/// Counts those who are of age.
pub fn word_by_cases(ages: &Map<u32, u32, 8>, limit: u32) -> usize
    ensures { result ≡ count_by (λ p. is_of_age limit p.1) ages.now }
{
    ages.iter().filter(|(_, age)| of_age(**age, limit)).count()
}
