//! Nested scopes: a stack of frames, outermost first. A variable is that of the innermost scope which has it.
ghost use Rattle.std.specs.Prelude.{◌≡◌, ◌↔◌, ◌∷◌, ◌++◌, [], IfErr, IfOk, IsNone, is_some};
ghost use Rattle.std.specs.Option.{option_to_list};
ghost use Rattle.std.specs.Vec.{vec_items};
ghost use Rattle.micromap_examples.specs.Frame.{assigned, visible};

use crate::frame::{Frame, update};
use micromap::Map;
use std::alloc::AllocError;

/// The most variables of a scope.
pub const VARIABLES: usize = 16;

/// The variables of one scope.
pub type Scope = Frame<VARIABLES>;

/// Enters a scope without variables. Without memory nothing changes.
pub fn enter(scopes: &mut Vec<Scope>) -> Result<(), AllocError>
    ensures entered { IfOk result (λ _. vec_items scopes.new ≡ vec_items scopes.old ++ [] ∷ []) }
    ensures unchanged { IfErr result (λ _. vec_items scopes.new ≡ vec_items scopes.old) }
{
    scopes.push(Map::new())?;
    Ok(())
}

/// Leaves the innermost scope, and returns it, or `None` if there is none.
pub fn leave(scopes: &mut Vec<Scope>) -> Option<Scope>
    ensures none { IsNone result ↔ (vec_items scopes.old ≡ []) }
    ensures left { vec_items scopes.old ≡ vec_items scopes.new ++ option_to_list result }
{
    scopes.pop()
}

/// Returns the value of a variable, from the innermost scope that has it.
#[tactic(auto, using(crate::proofs::ScopeLemmas::visible_last))]
pub fn value_of(scopes: &[Scope], name: u32) -> Option<i64>
    ensures { result ≡ visible scopes.now name }
{
    let (inner, outer) = scopes.split_last()?;
    match inner.get(&name) {
        Some(value) => Some(*value),
        None => value_of(outer, name),
    }
}

/// Gives a variable another value, in the innermost scope that has it, and returns whether there is one.
#[tactic(auto, using(crate::proofs::ScopeLemmas::visible_last, crate::proofs::ScopeLemmas::assigned_last))]
pub fn assign(scopes: &mut [Scope], name: u32, value: i64) -> bool
    ensures answer { result ≡ is_some (visible scopes.old name) }
    ensures scopes { scopes.new ≡ assigned scopes.old name value }
{
    let Some((inner, outer)) = scopes.split_last_mut() else {
        return false;
    };
    update(inner, name, value) || assign(outer, name, value)
}
