//! The operations on two sets, which may have different capacities. Each call returns an iterator over references to
//! the members, and compares nothing. Each call of `next` walks up to and including the next member.
ghost use Rattle.std.specs.Prelude.{◌≡◌, filter};
ghost use Rattle.std.specs.List.{after_first};
ghost use Rattle.std.specs.Map.Iter.{deref};
ghost use Rattle.micromap.specs.Operations.{both_hints, passes, GivesNext};

mod difference;
mod difference_ref;
mod intersection;
mod operators;
mod symmetric_difference;
mod union;

use crate::Set;
use crate::set::Iter;
pub use difference::Difference;
pub use difference_ref::DifferenceRef;
pub use intersection::Intersection;
pub use symmetric_difference::SymmetricDifference;
pub use union::Union;

// Which items of a set are wanted: those with an equal one in the other set, or those without.
#[derive(Clone, Copy)]
pub(super) enum Wanted {
    Common,
    Missing,
}

// Returns `true` if the item is wanted, by a scan of `other`.
#[inline(always)]
pub(super) fn is_wanted<T: Eq, const M: usize>(wanted: Wanted, item: &T, other: &Set<T, M>) -> bool
    ensures { result ≡ passes T.eq wanted other.now item.now }
{
    match wanted {
        Wanted::Common => other.contains(item),
        Wanted::Missing => !other.contains(item),
    }
}

// Returns the next item that is wanted, or `None` at the end. It is inlined, so that `wanted` is a constant.
#[inline(always)]
fn next_where<'a, T: Eq, const M: usize>(
    rest: &mut Iter<'a, T>,
    other: &Set<T, M>,
    wanted: Wanted,
) -> Option<&'a T>
    ensures { GivesNext deref (filter (passes T.eq wanted other.now)) (after_first (passes T.eq wanted other.now))
        rest.old result rest.new }
{
    while let Some(x) = rest.next() {
        if is_wanted(wanted, x, other) {
            return Some(x);
        }
    }
    None
}

// Returns the size hint of two iterators, one after the other.
fn hint_of_both(
    first: (usize, Option<usize>),
    second: (usize, Option<usize>),
) -> (usize, Option<usize>)
    ensures { result ≡ both_hints first second }
{
    let upper = match (first.1, second.1) {
        (Some(m), Some(n)) => m.checked_add(n),
        _ => None,
    };
    (first.0.saturating_add(second.0), upper)
}
