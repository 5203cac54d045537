//! Scopes of variables: a slice of maps, the innermost first.
#![tactic(auto, using(micromap::proofs::Rules::calls))]

ghost use Rattle.std.specs.Prelude.{◌≡◌, [], IsFalse, Some, get_or, nat_eq, slice_set, ℕ};
ghost use Rattle.std.specs.List.{list_any, position};
ghost use Rattle.std.specs.Option.{option_and_then};
ghost use Rattle.micromap.specs.Pairs.{at, has, put};

use micromap::Map;

/// Finds the innermost scope that has a name.
pub fn scope_of(scopes: &[Map<u8, u32, 8>], name: u8) -> Option<usize>
    ensures { result ≡ position (λ m. has nat_eq m name) scopes.now }
{
    scopes.iter().position(|m| m.contains_key(&name))
}

/// Reads a name in the innermost scope that has it, or returns `None` if none has it.
pub fn read(scopes: &[Map<u8, u32, 8>], name: u8) -> Option<u32>
    ensures { result ≡ option_and_then (λ i. at nat_eq (get_or scopes.now i []) name) (position (λ m. has nat_eq m name) scopes.now) }
{
    let i = scope_of(scopes, name)?;
    scopes[i].get(&name).copied()
}

/// Assigns to a name in the innermost scope that has it, and returns whether one has it.
pub fn assign(scopes: &mut [Map<u8, u32, 8>], name: u8, value: u32) -> bool
    ensures answer { result ≡ list_any (λ m. has nat_eq m name) scopes.old }
    ensures assigned { (i : ℕ) → position (λ m. has nat_eq m name) scopes.old ≡ Some i
        → scopes.new ≡ slice_set scopes.old i (put nat_eq (get_or scopes.old i []) name value) }
    ensures unknown { IsFalse result → scopes.new ≡ scopes.old }
{
    match scope_of(scopes, name) {
        Some(i) => {
            scopes[i].insert(name, value);
            true
        }
        None => false,
    }
}
