//! What a role may do: a set of permissions, which are an enum with a derived `==`.
//!
//! A contract names that equality as `⟦<Permission as PartialEq>⟧.eq`.
ghost use Rattle.std.specs.Prelude.{◌≡◌, ◌↔◌, ◌||◌, ◌&&◌, ◌<◌, IfOk, IfSome, IsNone, IsFalse, IsTrue, Ok, length, not};
ghost use Rattle.std.specs.Bool.{OnTrue};
ghost use Rattle.std.specs.Set.{is_member};
ghost use Rattle.micromap.specs.Items.{item_fits, put_item_if_fits, take_item};
ghost use Rattle.micromap.specs.Operations.{difference, intersection, union};

use micromap::Set;
use std::alloc::AllocError;

/// One permission.
#[derive(Debug, Clone, Copy, PartialEq, Eq)]
pub enum Permission {
    /// To read.
    Read,
    /// To change what is there.
    Write,
    /// To pass it on.
    Share,
    /// To remove it.
    Delete,
}

/// The permissions of one role.
pub type Role<const N: usize> = Set<Permission, N>;

/// Grants a permission, and returns whether there was room for it. A new one goes last, and one that is granted already
/// stays in its place.
pub fn grant<const N: usize>(role: &mut Role<N>, permission: Permission) -> bool
    ensures answer { result ≡ item_fits ⟦<Permission as PartialEq>⟧.eq N role.old permission }
    ensures role { role.new ≡ put_item_if_fits ⟦<Permission as PartialEq>⟧.eq N role.old permission }
    ensures granted { OnTrue result (IsTrue (is_member ⟦<Permission as PartialEq>⟧.eq role.new permission)) }
    ensures others { OnTrue result ((p : _) → is_member ⟦<Permission as PartialEq>⟧.eq role.new p ≡ (⟦<Permission as PartialEq>⟧.eq permission p || is_member ⟦<Permission as PartialEq>⟧.eq role.old p)) }
{
    role.put(permission)
}

/// Revokes a permission, and returns whether it was granted.
pub fn revoke<const N: usize>(role: &mut Role<N>, permission: Permission) -> bool
    ensures answer { result ≡ is_member ⟦<Permission as PartialEq>⟧.eq role.old permission }
    ensures role { role.new ≡ take_item ⟦<Permission as PartialEq>⟧.eq role.old permission }
    ensures revoked { IsFalse (is_member ⟦<Permission as PartialEq>⟧.eq role.new permission) }
    ensures others { (p : _) → is_member ⟦<Permission as PartialEq>⟧.eq role.new p ≡ (not (⟦<Permission as PartialEq>⟧.eq permission p) && is_member ⟦<Permission as PartialEq>⟧.eq role.old p) }
{
    role.remove(&permission)
}

/// Returns a role with the permissions of both, in any capacity, or `None` exactly if it has no room for them.
pub fn merged<const N: usize, const M: usize, const L: usize>(
    first: &Role<N>,
    second: &Role<M>,
) -> Option<Role<L>>
    ensures answer { IfSome result (λ role. role ≡ union ⟦<Permission as PartialEq>⟧.eq first.now second.now) }
    ensures members { IfSome result (λ role. (p : _) → is_member ⟦<Permission as PartialEq>⟧.eq role p ≡ (is_member ⟦<Permission as PartialEq>⟧.eq first.now p || is_member ⟦<Permission as PartialEq>⟧.eq second.now p)) }
    ensures refused { IsNone result ↔ (L < length (union ⟦<Permission as PartialEq>⟧.eq first.now second.now)) }
{
    Set::try_from_iter(first.union(second).copied()).ok()
}

/// Returns a role limited to what another one may do. It is always `Ok`.
pub fn limited<const N: usize, const M: usize>(
    role: &Role<N>,
    most: &Role<M>,
) -> Result<Role<N>, AllocError>
    ensures answer { result ≡ Ok (intersection ⟦<Permission as PartialEq>⟧.eq role.now most.now) }
    ensures members { IfOk result (λ new. (p : _) → is_member ⟦<Permission as PartialEq>⟧.eq new p ≡ (is_member ⟦<Permission as PartialEq>⟧.eq role.now p && is_member ⟦<Permission as PartialEq>⟧.eq most.now p)) }
{
    role.bitand(most)
}

/// Returns what a role may do beyond another one. It is always `Ok`.
pub fn beyond<const N: usize, const M: usize>(
    role: &Role<N>,
    other: &Role<M>,
) -> Result<Role<N>, AllocError>
    ensures answer { result ≡ Ok (difference ⟦<Permission as PartialEq>⟧.eq role.now other.now) }
    ensures members { IfOk result (λ new. (p : _) → is_member ⟦<Permission as PartialEq>⟧.eq new p ≡ (is_member ⟦<Permission as PartialEq>⟧.eq role.now p && not (is_member ⟦<Permission as PartialEq>⟧.eq other.now p))) }
{
    role.sub(other)
}

/// Returns `true` if two roles have the same permissions, whatever their capacities.
pub fn may_the_same<const N: usize, const M: usize>(first: &Role<N>, second: &Role<M>) -> bool
    ensures { IsTrue result ↔ ((p : _) → is_member ⟦<Permission as PartialEq>⟧.eq first.now p ≡ is_member ⟦<Permission as PartialEq>⟧.eq second.now p) }
{
    first.eq_with(second)
}
