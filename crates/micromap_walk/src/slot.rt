//! Access to a filled slot.
ghost use Rattle.std.specs.Prelude.{◌≡◌, Some, IsSome};
ghost use Rattle.std.specs.Borrow.{sem};
ghost use Rattle.micromap_walk.specs.Lends.{lends_item};

use crate::hint::never;

/// Returns a reference to the item in a slot. The slot must be filled.
#[inline]
pub(crate) fn item_of<X>(slot: &Option<X>) -> &X
    requires { IsSome slot.now }
    ensures { slot.now ≡ Some result.now }
{
    match slot {
        Some(item) => item,
        None => never!(),
    }
}

/// Returns a mutable reference to the item in a slot. The slot must be filled.
#[inline]
pub(crate) fn item_of_mut<X>(slot: &mut Option<X>) -> &mut X
    requires { IsSome slot.old }
    ensures* writes_back { sem 𝓛 (lends_item X.row slot.entry result) }
    ensures answer { slot.old ≡ Some result.now }
{
    match slot {
        Some(item) => item,
        None => never!(),
    }
}

/// Returns the item of a slot by value. The slot must be filled.
#[inline]
pub(crate) fn into_item<X>(slot: Option<X>) -> X
    requires { IsSome slot }
    ensures { slot ≡ Some result }
{
    match slot {
        Some(item) => item,
        None => never!(),
    }
}
